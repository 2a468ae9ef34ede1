// The exported id calls on n numbers.
ghost use Rattle.id_batches.specs.Reserve.{reserving};
ghost use Rattle.id_batches.specs.AllocMany.{allocating_many};
ghost use Rattle.id_batches.specs.Flush.{flushing};
ghost use Rattle.id_batches.specs.Freelist.{listing};
ghost use Rattle.exports_ids.specs.State.{state_four};
ghost use Rattle.crossing.specs.Answers.{Crossed, Passed, number_four};
ghost use Rattle.id_tables.specs.Ids.{ids_of};
ghost use Rattle.crossing.specs.Words.{head_of};

// hecs's `reserve_entities`: n handles into the front of `handles`.
#[unsafe(no_mangle)]
pub extern "C" fn verdict_ids_reserve_entities(
    head: &mut [u64; 4],
    generations: &[u32],
    archetypes: &[u32],
    indices: &[u32],
    pending: &[u32],
    n: usize,
    handles: &mut [u64],
) -> u32
    ensures { let lent = ids_of (head_of head.old) generations.now archetypes.now indices.now pending.now in
        let left = ids_of (head_of head.new) generations.now archetypes.now indices.now pending.now in
        Passed (reserving lent n handles.old) (lent, handles.old) result (left, handles.new) }
{
    exports_ids::verdict_ids_reserve_entities(
        head,
        generations,
        archetypes,
        indices,
        pending,
        n,
        handles,
    )
}

// hecs's `alloc_many` and its finish. Out: the state that walks the numbers.
#[unsafe(no_mangle)]
pub extern "C" fn verdict_ids_alloc_many(
    head: &mut [u64; 4],
    generations: &mut [u32],
    archetypes: &mut [u32],
    indices: &mut [u32],
    pending: &[u32],
    n: usize,
    archetype: u32,
    first: u32,
    out: &mut [u32; 4],
) -> u32
    ensures { let lent = ids_of (head_of head.old) generations.old archetypes.old indices.old pending.now in
        let left = ids_of (head_of head.new) generations.new archetypes.new indices.new pending.now in
        Crossed state_four (allocating_many lent n archetype first) lent result out.new left }
{
    exports_ids::verdict_ids_alloc_many(
        head,
        generations,
        archetypes,
        indices,
        pending,
        n,
        archetype,
        first,
        out,
    )
}

// hecs's `flush`: the reserved numbers get successive rows of an archetype.
#[unsafe(no_mangle)]
pub extern "C" fn verdict_ids_flush(
    head: &mut [u64; 4],
    generations: &mut [u32],
    archetypes: &mut [u32],
    indices: &mut [u32],
    pending: &[u32],
    archetype: u32,
    first: u32,
) -> u32
    ensures { let lent = ids_of (head_of head.old) generations.old archetypes.old indices.old pending.now in
        let left = ids_of (head_of head.new) generations.new archetypes.new indices.new pending.now in
        Passed (flushing lent archetype first) lent result left }
{
    exports_ids::verdict_ids_flush(
        head,
        generations,
        archetypes,
        indices,
        pending,
        archetype,
        first,
    )
}

// hecs's `freelist`: the free handles into the front of `handles`. Out: how many.
#[unsafe(no_mangle)]
pub extern "C" fn verdict_ids_freelist(
    head: &[u64; 4],
    generations: &[u32],
    archetypes: &[u32],
    indices: &[u32],
    pending: &[u32],
    handles: &mut [u64],
    out: &mut [u64; 4],
) -> u32
    ensures { let lent = ids_of (head_of head.now) generations.now archetypes.now indices.now pending.now in
        Crossed number_four (listing lent handles.old) handles.old result out.new handles.new }
{
    exports_ids::verdict_ids_freelist(
        head,
        generations,
        archetypes,
        indices,
        pending,
        handles,
        out,
    )
}
