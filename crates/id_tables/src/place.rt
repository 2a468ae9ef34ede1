// The call that sets a place.
ghost use Rattle.refusal.specs.Table.{Did, answer_of};
ghost use Rattle.handle.specs.Bits.{generation_in, number_in};
ghost use Rattle.id_tables.specs.Ids.{ids_of};
ghost use Rattle.id_tables.specs.Lookup.{place_set, setting_place};

use crate::head::Head;
use crate::tables::{IdTables, put_place};
use handle::{Handle, MAX, Place};
use refusal::Refusal;

fn place_set(
    head: Head,
    generations: &[u32],
    archetypes: &mut [u32],
    indices: &mut [u32],
    pending: &[u32],
    place: Place,
    handle: Handle,
) -> Result<(), Refusal>
    ensures { let lent = ids_of head generations.now archetypes.old indices.old pending.now in
        let left = ids_of head generations.now archetypes.new indices.new pending.now in
        Did (place_set lent place (generation_in handle.0) (number_in handle.0)) lent (answer_of result) left }
{
    if MAX <= place.index.0 {
        return Err(Refusal::BadPlace);
    }
    let id = handle.id();
    let ids = IdTables {
        head,
        generations,
        archetypes,
        indices,
        pending,
    };
    if !ids.is_live(handle.generation(), id.0 as usize) {
        return Err(Refusal::NoSuchEntity);
    }
    put_place(archetypes, indices, id, place);
    Ok(())
}

// hecs's `get_mut`: sets the place of a live entity. The tables stay slices: the calls write twelve sets of them, and each clause on a struct of `&mut` would have to say that its references are the same as before.
pub fn set_place(
    head: Head,
    generations: &[u32],
    archetypes: &mut [u32],
    indices: &mut [u32],
    pending: &[u32],
    bits: u64,
    place: Place,
) -> Result<(), Refusal>
    ensures { let lent = ids_of head generations.now archetypes.old indices.old pending.now in
        let left = ids_of head generations.now archetypes.new indices.new pending.now in
        Did (setting_place lent bits place) lent (answer_of result) left }
{
    let ids = IdTables {
        head,
        generations,
        archetypes,
        indices,
        pending,
    };
    ids.tested(false)?;
    let Ok(handle) = Handle::from_bits(bits) else {
        return Err(Refusal::ZeroGeneration);
    };
    place_set(
        head,
        generations,
        archetypes,
        indices,
        pending,
        place,
        handle,
    )
}
