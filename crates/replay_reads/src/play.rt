// One call on the tables as far as a line lends them, and what it leaves of them. The calls go by the numbers that the list, the program's input, has for them.
use exports_reads::{
    verdict_store_borrow, verdict_store_borrow_mut, verdict_store_contains, verdict_store_get,
    verdict_store_len, verdict_store_read, verdict_store_release, verdict_store_release_mut,
    verdict_store_resolve_unknown_gen,
};
use exports_reserve::{
    verdict_store_freelist, verdict_store_reserve_entities, verdict_store_reserve_entity,
};
use replay_line::{digest_words, low, number, say, table};
use replay_store_line::{Tables, counts_lent, digest, pending_lent, values_lent};
use std::io;

// The calls that change nothing.
fn looked(t: &Tables, line: &[u64], out: &mut [u64; 4]) -> u32 {
    let p = pending_lent(line);
    let c = counts_lent(line);
    let a = number(line, 1);
    let b = low(number(line, 2));
    match number(line, 0) {
        2 => verdict_store_get(
            &t.head,
            &t.rows,
            &t.widths,
            &t.types,
            &t.sizes,
            &t.generations,
            &t.archetypes,
            &t.indices,
            &t.pending[..p],
            &t.numbers,
            &t.counts[..c],
            &t.bytes,
            &t.words,
            a,
            out,
        ),
        3 => verdict_store_contains(
            &t.head,
            &t.rows,
            &t.widths,
            &t.types,
            &t.sizes,
            &t.generations,
            &t.archetypes,
            &t.indices,
            &t.pending[..p],
            &t.numbers,
            &t.counts[..c],
            &t.bytes,
            &t.words,
            a,
            out,
        ),
        4 => verdict_store_resolve_unknown_gen(
            &t.head,
            &t.rows,
            &t.widths,
            &t.types,
            &t.sizes,
            &t.generations,
            &t.archetypes,
            &t.indices,
            &t.pending[..p],
            &t.numbers,
            &t.counts[..c],
            &t.bytes,
            &t.words,
            low(a),
            out,
        ),
        5 => verdict_store_len(
            &t.head,
            &t.rows,
            &t.widths,
            &t.types,
            &t.sizes,
            &t.generations,
            &t.archetypes,
            &t.indices,
            &t.pending[..p],
            &t.numbers,
            &t.counts[..c],
            &t.bytes,
            &t.words,
            out,
        ),
        _ => verdict_store_read(
            &t.head,
            &t.rows,
            &t.widths,
            &t.types,
            &t.sizes,
            &t.generations,
            &t.archetypes,
            &t.indices,
            &t.pending[..p],
            &t.numbers,
            &t.counts[..c],
            &t.bytes,
            &t.words,
            a,
            b,
            out,
        ),
    }
}

// The calls that take and give back a column.
fn held(t: &mut Tables, line: &[u64]) -> u32 {
    let p = pending_lent(line);
    let c = counts_lent(line);
    let a = low(number(line, 1));
    let b = low(number(line, 2));
    match number(line, 0) {
        7 => verdict_store_borrow(
            &t.head,
            &t.rows,
            &t.widths,
            &t.types,
            &t.sizes,
            &t.generations,
            &t.archetypes,
            &t.indices,
            &t.pending[..p],
            &t.numbers,
            &t.counts[..c],
            &t.bytes,
            &mut t.words,
            a,
            b,
        ),
        8 => verdict_store_borrow_mut(
            &t.head,
            &t.rows,
            &t.widths,
            &t.types,
            &t.sizes,
            &t.generations,
            &t.archetypes,
            &t.indices,
            &t.pending[..p],
            &t.numbers,
            &t.counts[..c],
            &t.bytes,
            &mut t.words,
            a,
            b,
        ),
        9 => verdict_store_release(
            &t.head,
            &t.rows,
            &t.widths,
            &t.types,
            &t.sizes,
            &t.generations,
            &t.archetypes,
            &t.indices,
            &t.pending[..p],
            &t.numbers,
            &t.counts[..c],
            &t.bytes,
            &mut t.words,
            a,
            b,
        ),
        _ => verdict_store_release_mut(
            &t.head,
            &t.rows,
            &t.widths,
            &t.types,
            &t.sizes,
            &t.generations,
            &t.archetypes,
            &t.indices,
            &t.pending[..p],
            &t.numbers,
            &t.counts[..c],
            &t.bytes,
            &mut t.words,
            a,
            b,
        ),
    }
}

// The calls that reserve numbers, and the free list.
fn reserved(t: &mut Tables, line: &[u64], handles: &mut [u64], out: &mut [u64; 4]) -> u32 {
    let p = pending_lent(line);
    let c = counts_lent(line);
    match number(line, 0) {
        11 => verdict_store_reserve_entity(
            &mut t.head,
            &t.rows,
            &t.widths,
            &t.types,
            &t.sizes,
            &t.generations,
            &t.archetypes,
            &t.indices,
            &t.pending[..p],
            &t.numbers,
            &t.counts[..c],
            &t.bytes,
            &t.words,
            out,
        ),
        12 => verdict_store_reserve_entities(
            &mut t.head,
            &t.rows,
            &t.widths,
            &t.types,
            &t.sizes,
            &t.generations,
            &t.archetypes,
            &t.indices,
            &t.pending[..p],
            &t.numbers,
            &t.counts[..c],
            &t.bytes,
            &t.words,
            number(line, 1) as usize,
            handles,
        ),
        _ => verdict_store_freelist(
            &t.head,
            &t.rows,
            &t.widths,
            &t.types,
            &t.sizes,
            &t.generations,
            &t.archetypes,
            &t.indices,
            &t.pending[..p],
            &t.numbers,
            &t.counts[..c],
            &t.bytes,
            &t.words,
            handles,
            out,
        ),
    }
}

fn answer(t: &mut Tables, line: &[u64], handles: &mut [u64], out: &mut [u64; 4]) -> u32 {
    match number(line, 0) {
        0..=6 => looked(t, line, out),
        7..=10 => held(t, line),
        _ => reserved(t, line, handles, out),
    }
}

// What the call leaves is kept.
pub(crate) fn play(rt: &impl Print, list: &mut [u64], line: &[u64]) -> io::Result<()> {
    let mut out = [0u64; 4];
    let mut t = Tables::told(list);
    let mut values: [u64; 80] = table(line, 6);
    let handles = &mut values[..values_lent(line)];
    let code = answer(&mut t, line, handles, &mut out);
    t.keep(list, pending_lent(line), counts_lent(line));
    let left = digest_words(digest(list, line), handles);
    say(rt, code, &out, left)
}
