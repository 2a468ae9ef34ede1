// One call on the tables as far as a line lends them, and what it leaves of them. The calls go by the numbers that the list, the program's input, has for them.
use exports_moves::{verdict_store_flush, verdict_store_insert, verdict_store_remove};
use exports_reads::verdict_store_write;
use exports_reserve::verdict_store_clear;
use replay_line::{digest_bytes, low, number, say, table};
use replay_store_line::{Tables, counts_lent, digest, pending_lent, values_lent};
use std::io;

fn answer(t: &mut Tables, line: &[u64], run: &[u8]) -> u32 {
    let p = pending_lent(line);
    let c = counts_lent(line);
    let a = number(line, 1);
    let b = low(number(line, 2));
    let counts = &mut t.counts[..];
    let counts = &mut counts[..c];
    match number(line, 0) {
        2 => verdict_store_insert(
            &t.head,
            &t.rows,
            &t.widths,
            &t.types,
            &t.sizes,
            &t.generations,
            &mut t.archetypes,
            &mut t.indices,
            &t.pending[..p],
            &mut t.numbers,
            counts,
            &mut t.bytes,
            &t.words,
            a,
            b,
            run,
        ),
        3 => verdict_store_remove(
            &t.head,
            &t.rows,
            &t.widths,
            &t.types,
            &t.sizes,
            &t.generations,
            &mut t.archetypes,
            &mut t.indices,
            &t.pending[..p],
            &mut t.numbers,
            counts,
            &mut t.bytes,
            &t.words,
            a,
            b,
        ),
        0 | 1 | 4 => verdict_store_write(
            &t.head,
            &t.rows,
            &t.widths,
            &t.types,
            &t.sizes,
            &t.generations,
            &t.archetypes,
            &t.indices,
            &t.pending[..p],
            &t.numbers,
            counts,
            &mut t.bytes,
            &t.words,
            a,
            b,
            run,
        ),
        5 => verdict_store_flush(
            &mut t.head,
            &t.rows,
            &t.widths,
            &t.types,
            &t.sizes,
            &mut t.generations,
            &mut t.archetypes,
            &mut t.indices,
            &t.pending[..p],
            &mut t.numbers,
            counts,
            &t.bytes,
            &t.words,
        ),
        _ => verdict_store_clear(
            &mut t.head,
            &t.rows,
            &t.widths,
            &t.types,
            &t.sizes,
            &t.generations,
            &t.archetypes,
            &t.indices,
            &t.pending[..p],
            &t.numbers,
            counts,
            &t.bytes,
            &t.words,
        ),
    }
}

// What the call leaves is kept.
pub(crate) fn play(rt: &impl Print, list: &mut [u64], line: &[u64]) -> io::Result<()> {
    let mut t = Tables::told(list);
    let values: [u8; 80] = table(line, 6);
    let run = &values[..values_lent(line)];
    let code = answer(&mut t, line, run);
    t.keep(list, pending_lent(line), counts_lent(line));
    let left = digest_bytes(digest(list, line), run);
    say(rt, code, &[0; 4], left)
}
