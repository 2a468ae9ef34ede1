// The id calls on n numbers that another language links.
ghost use Rattle.refusal.specs.Table.{answer_of};
ghost use Rattle.id_batches.specs.Reserve.{reserving};
ghost use Rattle.id_batches.specs.AllocMany.{allocating_many};
ghost use Rattle.id_batches.specs.Flush.{flushing};
ghost use Rattle.id_batches.specs.Freelist.{listing};
ghost use Rattle.exports_ids.specs.State.{state_four};
ghost use Rattle.crossing.specs.Answers.{Told, Crossed, Passed, number_four};
ghost use Rattle.id_tables.specs.Ids.{ids_of};
ghost use Rattle.crossing.specs.Words.{head_of};

use crate::tables::lent;
use crossing::{code, cross, head_of, put_head};
use handle::Row;
use id_batches::AllocManyState;
use refusal::Refusal;

// A walking state as four numbers: position, top, number, end.
fn alloced_many(out: &mut [u32; 4], answer: Result<AllocManyState, Refusal>) -> u32
    ensures { Told state_four (answer_of answer) result out.new }
{
    match answer {
        Ok(state) => {
            *out = [state.position, state.top, state.number, state.end];
            0
        }
        Err(refusal) => {
            *out = [0; 4];
            refusal.number()
        }
    }
}

// hecs's `reserve_entities`: n handles into the front of `handles`.
pub fn verdict_ids_reserve_entities(
    head: &mut [u64; 4],
    generations: &[u32],
    archetypes: &[u32],
    indices: &[u32],
    pending: &[u32],
    n: usize,
    handles: &mut [u64],
) -> u32
    ensures { let lent = ids_of (head_of head.old) generations.now archetypes.now indices.now pending.now in
        let left = ids_of (head_of head.new) generations.now archetypes.now indices.now pending.now in
        Passed (reserving lent n handles.old) (lent, handles.old) result (left, handles.new) }
{
    let mut ids = lent(head, generations, archetypes, indices, pending);
    let answer = id_batches::reserve_entities(&mut ids, n, handles);
    put_head(head, ids.head);
    code(answer)
}

// hecs's `alloc_many` and its finish. Out: the state that walks the numbers.
pub fn verdict_ids_alloc_many(
    head: &mut [u64; 4],
    generations: &mut [u32],
    archetypes: &mut [u32],
    indices: &mut [u32],
    pending: &[u32],
    n: usize,
    archetype: u32,
    first: u32,
    out: &mut [u32; 4],
) -> u32
    ensures { let lent = ids_of (head_of head.old) generations.old archetypes.old indices.old pending.now in
        let left = ids_of (head_of head.new) generations.new archetypes.new indices.new pending.now in
        Crossed state_four (allocating_many lent n archetype first) lent result out.new left }
{
    let mut left = head_of(head);
    let answer = id_batches::alloc_many(
        &mut left,
        generations,
        archetypes,
        indices,
        pending,
        n,
        archetype,
        Row(first),
    );
    put_head(head, left);
    alloced_many(out, answer)
}

// hecs's `flush`: the reserved numbers get successive rows of an archetype.
pub fn verdict_ids_flush(
    head: &mut [u64; 4],
    generations: &mut [u32],
    archetypes: &mut [u32],
    indices: &mut [u32],
    pending: &[u32],
    archetype: u32,
    first: u32,
) -> u32
    ensures { let lent = ids_of (head_of head.old) generations.old archetypes.old indices.old pending.now in
        let left = ids_of (head_of head.new) generations.new archetypes.new indices.new pending.now in
        Passed (flushing lent archetype first) lent result left }
{
    let mut left = head_of(head);
    let answer = id_batches::flush(
        &mut left,
        generations,
        archetypes,
        indices,
        pending,
        archetype,
        Row(first),
    );
    put_head(head, left);
    code(answer)
}

// hecs's `freelist`: the free handles into the front of `handles`. Out: how many.
pub fn verdict_ids_freelist(
    head: &[u64; 4],
    generations: &[u32],
    archetypes: &[u32],
    indices: &[u32],
    pending: &[u32],
    handles: &mut [u64],
    out: &mut [u64; 4],
) -> u32
    ensures { let lent = ids_of (head_of head.now) generations.now archetypes.now indices.now pending.now in
        Crossed number_four (listing lent handles.old) handles.old result out.new handles.new }
{
    let ids = lent(head, generations, archetypes, indices, pending);
    cross(out, id_batches::freelist(&ids, handles))
}
