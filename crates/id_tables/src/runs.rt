// Runs of table entries: searched, tested for damage, filled. Where no entry ends a walk, the compiler compares several at once.
ghost use Rattle.std.specs.Prelude.{◌≡◌, ◌-◌, false, length, replicate};
ghost use Rattle.std.proofs.lemmas.List.Edits.{sets};
ghost use Rattle.id_tables.specs.Ids.{any_damaged, any_damaged_in, ids_in};
ghost use Rattle.id_tables.specs.Lookup.{any_is};
ghost use Rattle.id_tables.specs.Runs.{any_past};

use crate::tables::IdTables;
use handle::MAX;

// How many entries a search compares before it asks whether one of them was the number.
const BLOCK: usize = 64;

// One of the entries is the number.
fn any_is(entries: &[u32], number: u32) -> bool
    ensures { result ≡ any_is number entries.now }
{
    let mut found = false;
    for entry in entries {
        if *entry == number {
            found = true;
        }
    }
    found
}

// The same, left after the block that has the number.
pub(crate) fn has(entries: &[u32], number: u32) -> bool
    ensures { result ≡ any_is number entries.now }
{
    let blocks = entries.chunks_exact(BLOCK);
    let rest = blocks.remainder();
    for block in blocks {
        if any_is(block, number) {
            return true;
        }
    }
    any_is(rest, number)
}

// One of the numbers is the limit or more: compared in their own 32 bits, in which no number is past a larger limit.
fn any_past(limit: usize, numbers: &[u32]) -> bool
    ensures { result ≡ any_past limit numbers.now }
{
    let Ok(limit) = u32::try_from(limit) else {
        return false;
    };
    let mut past = false;
    for number in numbers {
        if limit <= *number {
            past = true;
        }
    }
    past
}

// One of the numbers, all of which the tables have, has generation 0 or a place.
fn any_unfit(generations: &[u32], indices: &[u32], numbers: &[u32]) -> bool
    requires { (any_past (length generations.now) numbers.now ≡ false) × (any_past (length indices.now) numbers.now ≡ false) }
    ensures { result ≡ any_damaged_in (length generations.now) generations.now indices.now numbers.now }
{
    let mut zeros: usize = 0;
    let mut shared = MAX;
    for number in numbers {
        let n = *number as usize;
        if generations[n] == 0 {
            zeros += 1;
        }
        shared &= indices[n];
    }
    zeros != 0 || shared != MAX
}

impl IdTables<'_> {
    // One of these pending numbers is damaged.
    pub fn any_damaged(&self, numbers: &[u32]) -> bool
        ensures { result ≡ any_damaged (ids_in self.now) numbers.now }
    {
        let entries = usize::min(self.generations.len(), self.indices.len());
        let limit = usize::min(self.head.used, entries);
        if any_past(limit, numbers) {
            return true;
        }
        any_unfit(self.generations, self.indices, numbers)
    }
}

// One value for all the entries from..to that the table has.
pub fn fill(table: &mut [u32], from: usize, to: usize, value: u32)
    ensures { table.new ≡ sets table.old from (replicate (to - from) value) }
{
    let end = usize::min(to, table.len());
    if from < end {
        table[from..end].fill(value);
    }
}
