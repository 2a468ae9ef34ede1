// Allocate the next number.
ghost use Rattle.std.specs.Prelude.{◌≡◌, ◌<◌, length};
ghost use Rattle.refusal.specs.Table.{Did, granted, answer_of, passing};
ghost use Rattle.handle.specs.Bits.{handle_of};
ghost use Rattle.id_tables.specs.Ids.{ids_of, ids_in, EntryOk};
ghost use Rattle.id_tables.proofs.Meaning.{Undamaged};
ghost use Rattle.ids.specs.Alloc.{last_pending, alloc_rules, allocated_last, allocated_new, allocating};

use crate::settle;
use handle::{Handle, MAX, Number, Place};
use id_tables::{Head, IdTables, at, put_place};
use refusal::Refusal;

fn alloc_tested(ids: &IdTables<'_>, place: Place) -> Result<(), Refusal>
    ensures { answer_of result ≡ passing (alloc_rules (ids_in ids.now) place) }
{
    ids.tested(false)?;
    if !ids.head.is_flushed() {
        return Err(Refusal::NotFlushed);
    }
    if MAX <= place.index.0 {
        return Err(Refusal::BadPlace);
    }
    let count = ids.head.pending;
    if count == 0 {
        if ids.generations.len() <= ids.head.used {
            return Err(Refusal::NoRoom);
        }
        return Ok(());
    }
    let number = at(ids.pending, count - 1) as usize;
    if ids.is_damaged(number) {
        return Err(Refusal::Damaged);
    }
    Ok(())
}

// A new number, where the capacity has one.
fn alloc_new(
    head: &mut Head,
    generations: &mut [u32],
    archetypes: &mut [u32],
    indices: &mut [u32],
    pending: &[u32],
    place: Place,
) -> Result<Handle, Refusal>
    requires entry_ok { EntryOk (ids_of head.old generations.old archetypes.old indices.old pending.now) }
    requires used_in_bounds { head.old.used < length generations.old }
    ensures { let lent = ids_of head.old generations.old archetypes.old indices.old pending.now in
        let left = ids_of head.new generations.new archetypes.new indices.new pending.now in
        Did (granted (allocated_new lent place)) lent (handle_of result) left }
{
    let number = Number(head.used as u32);
    settle(generations, archetypes, indices, number, 1, place);
    *head = Head::flushed(head.used + 1, head.pending as u32, head.live + 1);
    Handle::new(number, 1)
}

// The last pending number, whose generation stays.
fn alloc_last(
    head: &mut Head,
    generations: &[u32],
    archetypes: &mut [u32],
    indices: &mut [u32],
    pending: &[u32],
    place: Place,
) -> Result<Handle, Refusal>
    requires entry_ok { EntryOk (ids_of head.old generations.now archetypes.old indices.old pending.now) }
    requires undamaged { Undamaged head.old.used generations.now indices.old (last_pending (ids_of head.old generations.now archetypes.old indices.old pending.now)) }
    requires pending_nonzero { 0 < head.old.pending }
    ensures { let lent = ids_of head.old generations.now archetypes.old indices.old pending.now in
        let left = ids_of head.new generations.now archetypes.new indices.new pending.now in
        Did (granted (allocated_last lent place)) lent (handle_of result) left }
{
    let last = head.pending - 1;
    let number = Number(at(pending, last));
    put_place(archetypes, indices, number, place);
    *head = Head::flushed(head.used, last as u32, head.live + 1);
    Handle::new(number, at(generations, number.0 as usize))
}

// hecs's `alloc`, with the place that the number gets. The tables stay slices: the calls write twelve sets of them, and each clause on a struct of `&mut` would have to say that its references are the same as before.
pub fn alloc(
    head: &mut Head,
    generations: &mut [u32],
    archetypes: &mut [u32],
    indices: &mut [u32],
    pending: &[u32],
    place: Place,
) -> Result<Handle, Refusal>
    ensures { let lent = ids_of head.old generations.old archetypes.old indices.old pending.now in
        let left = ids_of head.new generations.new archetypes.new indices.new pending.now in
        Did (allocating lent place) lent (handle_of result) left }
{
    let ids = IdTables {
        head: *head,
        generations,
        archetypes,
        indices,
        pending,
    };
    alloc_tested(&ids, place)?;
    if head.pending == 0 {
        return alloc_new(head, generations, archetypes, indices, pending, place);
    }
    alloc_last(head, generations, archetypes, indices, pending, place)
}
