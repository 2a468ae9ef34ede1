// Free a number.
ghost use Rattle.std.specs.Prelude.{◌≡◌};
ghost use Rattle.refusal.specs.Table.{Did, answer_of};
ghost use Rattle.handle.specs.Bits.{generation_in, number_in};
ghost use Rattle.id_tables.specs.Ids.{ids_of, EntryOk};
ghost use Rattle.ids.specs.Free.{next_generation, freed, freeing};

use crate::settle;
use handle::{Handle, Place};
use id_tables::{Head, IdTables, put};
use refusal::Refusal;

// The generation after this one: never 0.
fn next_generation(generation: u32) -> u32
    ensures { result ≡ next_generation generation }
{
    generation.checked_add(1).unwrap_or(1)
}

fn freed(
    head: &mut Head,
    generations: &mut [u32],
    archetypes: &mut [u32],
    indices: &mut [u32],
    pending: &mut [u32],
    handle: Handle,
) -> Result<Place, Refusal>
    requires { EntryOk (ids_of head.old generations.old archetypes.old indices.old pending.old) }
    ensures { let lent = ids_of head.old generations.old archetypes.old indices.old pending.old in
        let left = ids_of head.new generations.new archetypes.new indices.new pending.new in
        Did (freed lent (generation_in handle.0) (number_in handle.0)) lent (answer_of result) left }
{
    let ids = IdTables {
        head: *head,
        generations,
        archetypes,
        indices,
        pending,
    };
    if !ids.head.is_flushed() {
        return Err(Refusal::NotFlushed);
    }
    let id = handle.id();
    let n = id.0 as usize;
    let generation = handle.generation();
    if !ids.is_live(generation, n) {
        return Err(Refusal::NoSuchEntity);
    }
    if ids.head.live == 0 {
        return Err(Refusal::Damaged);
    }
    let old = ids.place_at(n);
    settle(
        generations,
        archetypes,
        indices,
        id,
        next_generation(generation),
        Place::EMPTY,
    );
    put(pending, head.pending, id.0);
    *head = Head::flushed(head.used, (head.pending + 1) as u32, head.live - 1);
    Ok(old)
}

// hecs's `free`. The tables stay slices: the calls write twelve sets of them, and each clause on a struct of `&mut` would have to say that its references are the same as before.
pub fn free(
    head: &mut Head,
    generations: &mut [u32],
    archetypes: &mut [u32],
    indices: &mut [u32],
    pending: &mut [u32],
    bits: u64,
) -> Result<Place, Refusal>
    ensures { let lent = ids_of head.old generations.old archetypes.old indices.old pending.old in
        let left = ids_of head.new generations.new archetypes.new indices.new pending.new in
        Did (freeing lent bits) lent (answer_of result) left }
{
    let ids = IdTables {
        head: *head,
        generations,
        archetypes,
        indices,
        pending,
    };
    ids.tested(false)?;
    let Ok(handle) = Handle::from_bits(bits) else {
        return Err(Refusal::ZeroGeneration);
    };
    freed(head, generations, archetypes, indices, pending, handle)
}
