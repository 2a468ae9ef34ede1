// Allocate a chosen number.
ghost use Rattle.std.specs.Prelude.{◌≡◌, [], ◌∷◌, ◌+◌, ◌-◌, ◌^◌, ◌<◌, ◌≤◌, eqb, length, replicate};
ghost use Rattle.std.proofs.Math.Option.{none, some};
ghost use Rattle.std.proofs.lemmas.List.Edits.{sets};
ghost use Rattle.refusal.specs.Table.{Did, granted, answer_of, passing, ◌when◌, ◌otherwise◌};
ghost use Rattle.handle.specs.Bits.{MAX, generation_in, number_in};
ghost use Rattle.id_tables.specs.Ids.{ids_of, EntryOk, damaged, index_at, place_at};
ghost use Rattle.id_tables.specs.Runs.{up_from};
ghost use Rattle.ids.specs.Answers.{chosen_of};
ghost use Rattle.ids.specs.Alloc.{settled};
ghost use Rattle.ids.specs.AllocAt.{pending_at, stretched, taken_out, chosen_rules, alloc_at, allocating_at};

use crate::runs::{position_of, queue};
use crate::settle;
use handle::{Handle, MAX, Number, Place};
use id_tables::{Head, IdTables, at, fill, put};
use refusal::Refusal;

fn chosen_tested(head: Head, capacity: usize, place: Place, n: usize) -> Result<(), Refusal>
    ensures { answer_of result ≡ passing (chosen_rules head capacity place n) }
{
    if !head.is_flushed() {
        return Err(Refusal::NotFlushed);
    }
    if MAX <= place.index.0 {
        return Err(Refusal::BadPlace);
    }
    if capacity <= n {
        return Err(Refusal::NoRoom);
    }
    Ok(())
}

// The numbers used to n - 1 become pending, after the first count entries.
fn stretch(
    generations: &mut [u32],
    archetypes: &mut [u32],
    indices: &mut [u32],
    pending: &mut [u32],
    used: usize,
    count: usize,
    n: usize,
)
    requires { (count + (n - used) ≤ length pending.old) × (n < 2 ^ 32) }
    ensures { (generations.new ≡ sets generations.old used (replicate (n - used) 1)) × (archetypes.new ≡ sets archetypes.old used (replicate (n - used) 0)) × (indices.new ≡ sets indices.old used (replicate (n - used) MAX)) × (pending.new ≡ sets pending.old count (up_from used (n - used))) }
{
    fill(generations, used, n, 1);
    fill(archetypes, used, n, 0);
    fill(indices, used, n, MAX);
    queue(pending, count, used, n);
}

// A number that was never used.
fn take_past(
    head: &mut Head,
    generations: &mut [u32],
    archetypes: &mut [u32],
    indices: &mut [u32],
    pending: &mut [u32],
    place: Place,
    generation: u32,
    number: Number,
)
    requires entry_ok { EntryOk (ids_of head.old generations.old archetypes.old indices.old pending.old) }
    requires used_le_number { (head.old.used ≤ number.0) × (number.0 < length generations.old) }
    ensures { let lent = ids_of head.old generations.old archetypes.old indices.old pending.old in
        let left = ids_of head.new generations.new archetypes.new indices.new pending.new in
        left ≡ settled (stretched lent number.0) number.0 generation place }
{
    let n = number.0 as usize;
    let used = head.used;
    let count = head.pending;
    stretch(generations, archetypes, indices, pending, used, count, n);
    settle(generations, archetypes, indices, number, generation, place);
    *head = Head::flushed(n + 1, (count + (n - used)) as u32, head.live + 1);
}

// A pending number: the last entry is moved into its position.
fn take_pending(
    head: &mut Head,
    generations: &mut [u32],
    archetypes: &mut [u32],
    indices: &mut [u32],
    pending: &mut [u32],
    place: Place,
    generation: u32,
    number: Number,
    position: usize,
) -> Result<Option<Place>, Refusal>
    requires entry_ok { EntryOk (ids_of head.old generations.old archetypes.old indices.old pending.old) }
    requires position_value { (position ≡ pending_at (ids_of head.old generations.old archetypes.old indices.old pending.old) number.0) × (0 < head.old.pending) }
    ensures { let lent = ids_of head.old generations.old archetypes.old indices.old pending.old in
        let left = ids_of head.new generations.new archetypes.new indices.new pending.new in
        Did (1 when damaged lent number.0 ∷ [] otherwise (none, settled (taken_out lent number.0) number.0 generation place)) lent (chosen_of result) left }
{
    let ids = IdTables {
        head: *head,
        generations,
        archetypes,
        indices,
        pending,
    };
    if ids.is_damaged(number.0 as usize) {
        return Err(Refusal::Damaged);
    }
    let last = head.pending - 1;
    let moved = at(pending, last);
    put(pending, position, moved);
    settle(generations, archetypes, indices, number, generation, place);
    *head = Head::flushed(head.used, last as u32, head.live + 1);
    Ok(None)
}

// A live number, which is taken over.
fn take_over(
    head: Head,
    generations: &mut [u32],
    archetypes: &mut [u32],
    indices: &mut [u32],
    pending: &[u32],
    place: Place,
    generation: u32,
    number: Number,
) -> Result<Option<Place>, Refusal>
    ensures { let lent = ids_of head generations.old archetypes.old indices.old pending.now in
        let left = ids_of head generations.new archetypes.new indices.new pending.now in
        Did (1 when eqb (index_at lent number.0) MAX ∷ [] otherwise (some (place_at lent number.0), settled lent number.0 generation place)) lent (chosen_of result) left }
{
    let ids = IdTables {
        head,
        generations,
        archetypes,
        indices,
        pending,
    };
    let old = ids.place_at(number.0 as usize);
    if old.index.0 == MAX {
        return Err(Refusal::Damaged);
    }
    settle(generations, archetypes, indices, number, generation, place);
    Ok(Some(old))
}

fn alloced_at(
    head: &mut Head,
    generations: &mut [u32],
    archetypes: &mut [u32],
    indices: &mut [u32],
    pending: &mut [u32],
    place: Place,
    handle: Handle,
) -> Result<Option<Place>, Refusal>
    requires { EntryOk (ids_of head.old generations.old archetypes.old indices.old pending.old) }
    ensures { let lent = ids_of head.old generations.old archetypes.old indices.old pending.old in
        let left = ids_of head.new generations.new archetypes.new indices.new pending.new in
        Did (alloc_at lent place (generation_in handle.0) (number_in handle.0)) lent (chosen_of result) left }
{
    let id = handle.id();
    let generation = handle.generation();
    let n = id.0 as usize;
    chosen_tested(*head, generations.len(), place, n)?;
    if head.used <= n {
        take_past(
            head,
            generations,
            archetypes,
            indices,
            pending,
            place,
            generation,
            id,
        );
        return Ok(None);
    }
    match position_of(&pending[..head.pending], id.0) {
        Some(at) => take_pending(
            head,
            generations,
            archetypes,
            indices,
            pending,
            place,
            generation,
            id,
            at,
        ),
        None => take_over(
            *head,
            generations,
            archetypes,
            indices,
            pending,
            place,
            generation,
            id,
        ),
    }
}

// hecs's `alloc_at`, with the place that the number gets. The tables stay slices: the calls write twelve sets of them, and each clause on a struct of `&mut` would have to say that its references are the same as before.
pub fn alloc_at(
    head: &mut Head,
    generations: &mut [u32],
    archetypes: &mut [u32],
    indices: &mut [u32],
    pending: &mut [u32],
    bits: u64,
    place: Place,
) -> Result<Option<Place>, Refusal>
    ensures { let lent = ids_of head.old generations.old archetypes.old indices.old pending.old in
        let left = ids_of head.new generations.new archetypes.new indices.new pending.new in
        Did (allocating_at lent bits place) lent (chosen_of result) left }
{
    let ids = IdTables {
        head: *head,
        generations,
        archetypes,
        indices,
        pending,
    };
    ids.tested(false)?;
    let Ok(handle) = Handle::from_bits(bits) else {
        return Err(Refusal::ZeroGeneration);
    };
    alloced_at(
        head,
        generations,
        archetypes,
        indices,
        pending,
        place,
        handle,
    )
}
