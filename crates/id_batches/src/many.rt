// Allocate n numbers at once, and the state that walks them.
ghost use Rattle.std.specs.Prelude.{◌≡◌, false, ◌+◌, ◌-◌, ◌≤◌, length};
ghost use Rattle.refusal.specs.Table.{Did, answer_of, answer_by};
ghost use Rattle.handle.specs.Bits.{MAX};
ghost use Rattle.id_tables.specs.Ids.{ids_of, EntryOk, any_damaged};
ghost use Rattle.id_batches.specs.AllocMany.{last_pending, many_state, alloced_ids, many_alloced, allocating_many, walking, walked_of, state_after, left_in};

use crate::loops::{place_new, place_old};
use handle::{MAX, Number, Row};
use id_tables::{Head, IdTables};
use refusal::Refusal;

// The numbers of an `alloc_many` that are still to be walked: those at `position` to `top` of the pending table, then the new ones from `number` to `end`.
#[derive(Clone, Copy, Debug, PartialEq, Eq)]
pub struct AllocManyState {
    pub position: u32,
    pub top: u32,
    pub number: u32,
    pub end: u32,
}

impl AllocManyState {
    // The next number with the state after it, or none after the last.
    pub fn next(self, pending: &[u32]) -> Result<Option<(Number, AllocManyState)>, Refusal>
        ensures { Did (walking self pending.now) self (answer_by walked_of result) (state_after self result) }
    {
        if self.position < self.top {
            let Some(number) = pending.get(self.position as usize) else {
                return Err(Refusal::BadLength);
            };
            let position = self.position + 1;
            return Ok(Some((Number(*number), AllocManyState { position, ..self })));
        }
        if self.number < self.end {
            let number = self.number + 1;
            return Ok(Some((Number(self.number), AllocManyState { number, ..self })));
        }
        Ok(None)
    }

    // How many numbers are left.
    pub fn len(self) -> usize
        ensures { result ≡ left_in self }
    {
        let positions = self.top.saturating_sub(self.position) as usize;
        positions + self.end.saturating_sub(self.number) as usize
    }
}

// What is left of the call once the first tests have passed.
fn many_alloced(
    head: &mut Head,
    generations: &mut [u32],
    archetypes: &mut [u32],
    indices: &mut [u32],
    pending: &[u32],
    n: usize,
    archetype: u32,
    first: Row,
) -> Result<AllocManyState, Refusal>
    requires { EntryOk (ids_of head.old generations.old archetypes.old indices.old pending.now) }
    ensures { let lent = ids_of head.old generations.old archetypes.old indices.old pending.now in
        let left = ids_of head.new generations.new archetypes.new indices.new pending.now in
        Did (many_alloced lent n archetype first.0) lent (answer_of result) left }
{
    if !head.is_flushed() {
        return Err(Refusal::NotFlushed);
    }
    if ((MAX - first.0) as usize) < n {
        return Err(Refusal::BadPlace);
    }
    let count = head.pending;
    if count + (generations.len() - head.used) < n {
        return Err(Refusal::NoRoom);
    }
    let recycled = &pending[count.saturating_sub(n)..count];
    let ids = IdTables {
        head: *head,
        generations,
        archetypes,
        indices,
        pending,
    };
    if ids.any_damaged(recycled) {
        return Err(Refusal::Damaged);
    }
    Ok(many_placed(
        head,
        generations,
        archetypes,
        indices,
        pending,
        n,
        archetype,
        first,
    ))
}

// The recycled numbers get the first rows, then the new ones.
fn many_placed(
    head: &mut Head,
    generations: &mut [u32],
    archetypes: &mut [u32],
    indices: &mut [u32],
    pending: &[u32],
    n: usize,
    archetype: u32,
    first: Row,
) -> AllocManyState
    requires entry_ok { EntryOk (ids_of head.old generations.old archetypes.old indices.old pending.now) }
    requires n_bound { let lent = ids_of head.old generations.old archetypes.old indices.old pending.now in
        (first.0 + n ≤ MAX) × (n ≤ head.old.pending + (length generations.old - head.old.used)) × (any_damaged lent (last_pending lent n) ≡ false) }
    ensures { let lent = ids_of head.old generations.old archetypes.old indices.old pending.now in
        let left = ids_of head.new generations.new archetypes.new indices.new pending.now in
        (result ≡ many_state lent n) × (left ≡ alloced_ids lent n archetype first.0) }
{
    let used = head.used;
    let count = head.pending;
    let left = count.saturating_sub(n);
    let fresh = n.saturating_sub(count);
    place_old(archetypes, indices, &pending[left..count], archetype, first);
    let next = Row(first.0 + (count - left) as u32);
    place_new(
        generations,
        archetypes,
        indices,
        used as u32,
        fresh as u32,
        archetype,
        next,
    );
    *head = Head::flushed(used + fresh, left as u32, head.live + n);
    AllocManyState {
        position: left as u32,
        top: count as u32,
        number: used as u32,
        end: (used + fresh) as u32,
    }
}

// hecs's `alloc_many` with its `finish_alloc_many`. The tables stay slices: the calls write twelve sets of them, and each clause on a struct of `&mut` would have to say that its references are the same as before.
pub fn alloc_many(
    head: &mut Head,
    generations: &mut [u32],
    archetypes: &mut [u32],
    indices: &mut [u32],
    pending: &[u32],
    n: usize,
    archetype: u32,
    first: Row,
) -> Result<AllocManyState, Refusal>
    ensures { let lent = ids_of head.old generations.old archetypes.old indices.old pending.now in
        let left = ids_of head.new generations.new archetypes.new indices.new pending.now in
        Did (allocating_many lent n archetype first.0) lent (answer_of result) left }
{
    let ids = IdTables {
        head: *head,
        generations,
        archetypes,
        indices,
        pending,
    };
    ids.tested(false)?;
    many_alloced(
        head,
        generations,
        archetypes,
        indices,
        pending,
        n,
        archetype,
        first,
    )
}
