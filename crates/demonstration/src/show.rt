// What a candidate holds, and the table of all candidates.
use crate::cache::{COST, Cache, KEY, VERDICT};
use crate::say::{self, Why};
use refusal::Refusal;
use std::{fmt, io};

// What the proof of a candidate came to, as its byte says.
#[derive(Clone, Copy)]
pub enum Verdict {
    Proven = 1,
    Refuted = 2,
}

impl From<u64> for Verdict {
    fn from(byte: u64) -> Verdict {
        if byte == 1 {
            Verdict::Proven
        } else {
            Verdict::Refuted
        }
    }
}

impl fmt::Display for Verdict {
    fn fmt<W: fmt::Write>(&self, f: &mut fmt::Formatter<W>) -> fmt::Result {
        f.write_str(match self {
            Verdict::Proven => "proven",
            Verdict::Refuted => "refuted",
        })
    }
}

// The first two bytes, little-endian: every number of this program is below 65,536.
fn value(bytes: &[u8]) -> u64 {
    let low = bytes.first().copied().unwrap_or(0) as u64;
    let high = bytes.get(1).copied().unwrap_or(0) as u64;
    high << 8 | low
}

// What a component says, or why there is none.
fn reading(cache: &Cache, bits: u64, kind: u32) -> Result<u64, Refusal> {
    let tables = cache.tables();
    store_reads::read(&tables, bits, kind)?;
    let rows = tables.rows;
    let bytes = store_reads::read_bytes(
        &tables.declaration,
        &tables.ids,
        rows.numbers,
        rows.counts,
        rows.bytes,
        tables.words,
        bits,
        kind,
    );
    Ok(value(bytes))
}

// The verdict in a word, or the refusal of the read.
pub(crate) fn verdict_of(rt: &impl Print, cache: &Cache, bits: u64) -> io::Result<()> {
    match reading(cache, bits, VERDICT) {
        Ok(byte) => rt.println(Verdict::from(byte)),
        Err(refusal) => rt.println(Why(refusal)),
    }
}

// A cost or a key, or the refusal of the read.
pub(crate) fn component(rt: &impl Print, cache: &Cache, bits: u64, kind: u32) -> io::Result<()> {
    match reading(cache, bits, kind) {
        Ok(number) => rt.println(number),
        Err(refusal) => rt.println(Why(refusal)),
    }
}

// A label and the number, where the component is held.
fn held(rt: &impl Print, cache: &Cache, bits: u64, kind: u32, label: &str) -> io::Result<()> {
    if let Ok(number) = reading(cache, bits, kind) {
        print!(rt; "  {label} {number}")?;
    }
    Ok(())
}

fn placed(rt: &impl Print, cache: &Cache, bits: u64) -> io::Result<()> {
    match store_reads::get(&cache.tables(), bits) {
        Ok(place) => {
            let archetype = place.archetype;
            let row = place.index.0;
            print!(rt; "  archetype {archetype}  row {row}")
        }
        Err(refusal) => rt.print(Why(refusal)),
    }
}

// A line of the table: the candidate, its place, and what it holds.
pub(crate) fn candidate(rt: &impl Print, cache: &Cache, bits: u64) -> io::Result<()> {
    rt.print("  ")?;
    say::named(rt, bits)?;
    placed(rt, cache, bits)?;
    held(rt, cache, bits, COST, "cost")?;
    held(rt, cache, bits, KEY, "key")?;
    if let Ok(byte) = reading(cache, bits, VERDICT) {
        let verdict = Verdict::from(byte);
        print!(rt; "  {verdict}")?;
    }
    rt.println("")
}
