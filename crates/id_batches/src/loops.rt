// The loops that the calls share: numbers placed at successive rows, handles written to an output.
ghost use Rattle.std.specs.Prelude.{◌≡◌, ℕ, false, ◌+◌, ◌-◌, ◌<◌, ◌≤◌, length, get_or};
ghost use Rattle.handle.specs.Bits.{MAX};
ghost use Rattle.id_tables.specs.Runs.{up_from, any_past};
ghost use Rattle.id_batches.specs.Seating.{set_each, set_all, set_rows, Written};
ghost use Rattle.id_batches.specs.Reserve.{old_handles, new_handles};

use handle::{Number, Row, bits_of};
use id_tables::fill;

// Recycled numbers get successive rows.
pub(crate) fn place_old(
    archetypes: &mut [u32],
    indices: &mut [u32],
    numbers: &[u32],
    archetype: u32,
    first: Row,
)
    requires numbers_bound { first.0 + length numbers.now ≤ MAX }
    requires numbers_value { (any_past (length archetypes.old) numbers.now ≡ false) × (any_past (length indices.old) numbers.now ≡ false) }
    ensures { (archetypes.new ≡ set_all archetypes.old numbers.now archetype) × (indices.new ≡ set_rows indices.old numbers.now first.0) }
{
    for (i, number) in numbers.iter().enumerate() {
        let n = *number as usize;
        archetypes[n] = archetype;
        indices[n] = first.0 + i as u32;
    }
}

// Each entry gets what the function says of its position.
fn write<T: Copy, F: Fn(usize) -> T>(entries: &mut [T], value: F)
    requires { (i : ℕ) → i < length entries.old → F.pre value i }
    ensures { Written (F.post value) 0 entries.new }
{
    for (i, entry) in entries.iter_mut().enumerate() {
        *entry = value(i);
    }
}

// New numbers get successive rows, and generation 1: table by table, so that each is a run of stores.
pub(crate) fn place_new(
    generations: &mut [u32],
    archetypes: &mut [u32],
    indices: &mut [u32],
    from: u32,
    count: u32,
    archetype: u32,
    first: Row,
)
    requires { (from + count ≤ length indices.old) × (first.0 + count ≤ MAX) × (from + count ≤ MAX) }
    ensures { (generations.new ≡ set_all generations.old (up_from from count) 1) × (archetypes.new ≡ set_all archetypes.old (up_from from count) archetype) × (indices.new ≡ set_rows indices.old (up_from from count) first.0) }
{
    let start = from as usize;
    let end = start + count as usize;
    fill(generations, start, end, 1);
    fill(archetypes, start, end, archetype);
    write(&mut indices[start..end], |i| first.0 + i as u32);
}

// The handle of the recycled number at a position.
fn old_handle(generations: &[u32], numbers: &[u32], i: usize) -> u64
    requires { (i < length numbers.now) × (any_past (length generations.now) numbers.now ≡ false) }
    ensures { result ≡ get_or (old_handles generations.now numbers.now) i 0 }
{
    let number = numbers[i];
    bits_of(generations[number as usize], Number(number))
}

// Writes the handles of recycled numbers, from the output's front on.
pub(crate) fn list_old(generations: &[u32], numbers: &[u32], out: &mut [u64])
    requires { (length numbers.now ≤ length out.old) × (any_past (length generations.now) numbers.now ≡ false) }
    ensures { out.new ≡ set_each out.old (up_from 0 (length numbers.now)) (old_handles generations.now numbers.now) }
{
    write(
        &mut out[0..numbers.len()],
        |i| old_handle(generations, numbers, i),
    );
}

// Writes the handles of new numbers, from a position on.
pub(crate) fn list_new(from: u32, count: u32, position: usize, out: &mut [u64])
    requires { (from + count ≤ MAX) × (position + count ≤ length out.old) }
    ensures { out.new ≡ set_each out.old (up_from position count) (new_handles (up_from from count)) }
{
    let end = position + count as usize;
    write(
        &mut out[position..end],
        |i| bits_of(1, Number(from + i as u32)),
    );
}
