// One call on the tables as far as a line lends them, and what it leaves of them. The calls go by the numbers that the list, the program's input, has for them.
use exports_moves::verdict_store_spawn_at;
use exports_store::{verdict_store_despawn, verdict_store_spawn};
use replay_line::{digest_bytes, low, number, say, table};
use replay_store_line::{Tables, counts_lent, digest, pending_lent, values_lent};
use std::io;

fn answer(t: &mut Tables, line: &[u64], run: &[u8], out: &mut [u64; 4]) -> u32 {
    let p = pending_lent(line);
    let c = counts_lent(line);
    let a = number(line, 1);
    let counts = &mut t.counts[..];
    let counts = &mut counts[..c];
    let pending = &mut t.pending[..];
    let pending = &mut pending[..p];
    match number(line, 0) {
        2 => verdict_store_spawn(
            &mut t.head,
            &t.rows,
            &t.widths,
            &t.types,
            &t.sizes,
            &mut t.generations,
            &mut t.archetypes,
            &mut t.indices,
            pending,
            &mut t.numbers,
            counts,
            &mut t.bytes,
            &t.words,
            low(a),
            run,
            out,
        ),
        3 => verdict_store_spawn_at(
            &mut t.head,
            &t.rows,
            &t.widths,
            &t.types,
            &t.sizes,
            &mut t.generations,
            &mut t.archetypes,
            &mut t.indices,
            pending,
            &mut t.numbers,
            counts,
            &mut t.bytes,
            &t.words,
            a,
            low(number(line, 2)),
            run,
        ),
        _ => verdict_store_despawn(
            &mut t.head,
            &t.rows,
            &t.widths,
            &t.types,
            &t.sizes,
            &mut t.generations,
            &mut t.archetypes,
            &mut t.indices,
            pending,
            &mut t.numbers,
            counts,
            &mut t.bytes,
            &t.words,
            a,
        ),
    }
}

// What the call leaves is kept.
pub(crate) fn play(rt: &impl Print, list: &mut [u64], line: &[u64]) -> io::Result<()> {
    let mut out = [0u64; 4];
    let mut t = Tables::told(list);
    let values: [u8; 80] = table(line, 6);
    let run = &values[..values_lent(line)];
    let code = answer(&mut t, line, run, &mut out);
    t.keep(list, pending_lent(line), counts_lent(line));
    let left = digest_bytes(digest(list, line), run);
    say(rt, code, &out, left)
}
