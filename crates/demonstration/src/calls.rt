// The store's calls on the cache. Each says what it answered.
use crate::cache::{Cache, DECLARATION};
use crate::say;
use std::io;

// A candidate with these bytes of its components, in column order.
pub(crate) fn spawn(
    rt: &impl Print,
    cache: &mut Cache,
    archetype: u32,
    run: &[u8],
) -> io::Result<()> {
    let answer = store_spawn::spawn(
        &mut cache.head,
        &DECLARATION,
        &mut cache.generations,
        &mut cache.archetypes,
        &mut cache.indices,
        &cache.pending,
        &mut cache.numbers,
        &mut cache.counts,
        &mut cache.bytes,
        &cache.words,
        archetype,
        run,
    );
    say::given(rt, answer)
}

// The candidate and its row leave.
pub(crate) fn despawn(rt: &impl Print, cache: &mut Cache, bits: u64) -> io::Result<()> {
    let answer = store_despawn::despawn(
        &mut cache.head,
        &DECLARATION,
        &mut cache.generations,
        &mut cache.archetypes,
        &mut cache.indices,
        &mut cache.pending,
        &mut cache.numbers,
        &mut cache.counts,
        &mut cache.bytes,
        &cache.words,
        bits,
    );
    say::done(rt, answer)
}

// The candidate holds this component, with these bytes.
pub(crate) fn insert(
    rt: &impl Print,
    cache: &mut Cache,
    bits: u64,
    kind: u32,
    value: &[u8],
) -> io::Result<()> {
    let answer = store_insert::insert(
        cache.head,
        &DECLARATION,
        &cache.generations,
        &mut cache.archetypes,
        &mut cache.indices,
        &cache.pending,
        &mut cache.numbers,
        &mut cache.counts,
        &mut cache.bytes,
        &cache.words,
        bits,
        kind,
        value,
    );
    say::done(rt, answer)
}

// The candidate holds this component no longer.
pub(crate) fn remove(rt: &impl Print, cache: &mut Cache, bits: u64, kind: u32) -> io::Result<()> {
    let answer = store_remove::remove(
        cache.head,
        &DECLARATION,
        &cache.generations,
        &mut cache.archetypes,
        &mut cache.indices,
        &cache.pending,
        &mut cache.numbers,
        &mut cache.counts,
        &mut cache.bytes,
        &cache.words,
        bits,
        kind,
    );
    say::done(rt, answer)
}

// Every reserved candidate gets a row, in which it holds nothing.
pub(crate) fn flush(rt: &impl Print, cache: &mut Cache) -> io::Result<()> {
    let answer = store_flush::flush(
        &mut cache.head,
        &DECLARATION,
        &mut cache.generations,
        &mut cache.archetypes,
        &mut cache.indices,
        &cache.pending,
        &mut cache.numbers,
        &mut cache.counts,
        &cache.bytes,
        &cache.words,
    );
    say::done(rt, answer)
}

// Three handles, which no other caller gets, before their rows are made.
pub(crate) fn reserve(rt: &impl Print, cache: &mut Cache) -> io::Result<()> {
    let mut handles = [0u64; 3];
    let mut tables = cache.tables();
    let answer = store_reserve::reserve_entities(&mut tables, 3, &mut handles);
    cache.head = tables.ids.head;
    for (i, bits) in handles.iter().enumerate() {
        if 0 < i {
            rt.print(" ")?;
        }
        say::named(rt, *bits)?;
    }
    rt.print(": ")?;
    say::done(rt, answer)
}
