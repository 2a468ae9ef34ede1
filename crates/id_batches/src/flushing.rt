// Flush: every reserved number gets a row.
ghost use Rattle.refusal.specs.Table.{Did, answer_of};
ghost use Rattle.id_tables.specs.Ids.{ids_of, EntryOk};
ghost use Rattle.id_batches.specs.Flush.{reserved_placed, flushing};

use crate::loops::{place_new, place_old};
use handle::{MAX, Row};
use id_tables::{Head, IdTables};
use refusal::Refusal;

// What is left of a flush once the first tests have passed.
fn reserved_placed(
    head: &mut Head,
    generations: &mut [u32],
    archetypes: &mut [u32],
    indices: &mut [u32],
    pending: &[u32],
    archetype: u32,
    first: Row,
) -> Result<(), Refusal>
    requires { EntryOk (ids_of head.old generations.old archetypes.old indices.old pending.now) }
    ensures { let lent = ids_of head.old generations.old archetypes.old indices.old pending.now in
        let left = ids_of head.new generations.new archetypes.new indices.new pending.now in
        Did (reserved_placed lent archetype first.0) lent (answer_of result) left }
{
    let used = head.used;
    let count = head.pending;
    let free = head.free();
    let fresh = head.fresh();
    let reserved = fresh + (count - free);
    if ((MAX - first.0) as usize) < reserved {
        return Err(Refusal::BadPlace);
    }
    let recycled = &pending[free..count];
    let ids = IdTables {
        head: *head,
        generations,
        archetypes,
        indices,
        pending,
    };
    if ids.any_damaged(recycled) {
        return Err(Refusal::Damaged);
    }
    let new = fresh as u32;
    place_new(
        generations,
        archetypes,
        indices,
        used as u32,
        new,
        archetype,
        first,
    );
    let next = Row(first.0 + new);
    place_old(archetypes, indices, recycled, archetype, next);
    *head = Head::flushed(used + fresh, free as u32, head.live + reserved);
    Ok(())
}

// hecs's `flush`, with an archetype and a first row in place of its closure. The tables stay slices: the calls write twelve sets of them, and each clause on a struct of `&mut` would have to say that its references are the same as before.
pub fn flush(
    head: &mut Head,
    generations: &mut [u32],
    archetypes: &mut [u32],
    indices: &mut [u32],
    pending: &[u32],
    archetype: u32,
    first: Row,
) -> Result<(), Refusal>
    ensures { let lent = ids_of head.old generations.old archetypes.old indices.old pending.now in
        let left = ids_of head.new generations.new archetypes.new indices.new pending.now in
        Did (flushing lent archetype first.0) lent (answer_of result) left }
{
    let ids = IdTables {
        head: *head,
        generations,
        archetypes,
        indices,
        pending,
    };
    ids.tested(false)?;
    reserved_placed(
        head,
        generations,
        archetypes,
        indices,
        pending,
        archetype,
        first,
    )
}
