// The two exported walks: over the handles of a reservation, and over the numbers of an `alloc_many`.
ghost use Rattle.refusal.specs.Table.{granted};
ghost use Rattle.id_tables.specs.Ids.{ids_of};
ghost use Rattle.id_batches.specs.AllocMany.{walking, left_in as numbers_left};
ghost use Rattle.id_readers.specs.Reader.{reader_at, stepping, left_in};
ghost use Rattle.crossing.specs.Words.{head_of};
ghost use Rattle.crossing.specs.Answers.{Told, Crossed, number_four, maybe_four};
ghost use Rattle.exports_ids.specs.State.{state_in};
ghost use Rattle.exports_ids.specs.Span.{span_four, reserving_span};

// A reservation of n as a span. Out: from and to in the pending list, then the new numbers from and to.
#[unsafe(no_mangle)]
pub extern "C" fn verdict_ids_reserve_span(
    head: &mut [u64; 4],
    generations: &[u32],
    archetypes: &[u32],
    indices: &[u32],
    pending: &[u32],
    n: usize,
    out: &mut [u64; 4],
) -> u32
    ensures { let lent = ids_of (head_of head.old) generations.now archetypes.now indices.now pending.now in
        let left = ids_of (head_of head.new) generations.now archetypes.now indices.now pending.now in
        Crossed span_four (reserving_span lent n) lent result out.new left }
{
    exports_ids::verdict_ids_reserve_span(head, generations, archetypes, indices, pending, n, out)
}

// hecs's `ReserveEntitiesIterator::next`, of the reader of a part. Out: 1 and the handle, or 0 after the last.
#[unsafe(no_mangle)]
pub extern "C" fn verdict_ids_reserve_next(
    recycled: &[u32],
    position: &mut usize,
    number: &mut u32,
    end: u32,
    generations: &[u32],
    out: &mut [u64; 4],
) -> u32
    ensures { Crossed maybe_four (stepping (reader_at recycled.now position.old number.old end) generations.now) (reader_at recycled.now position.old number.old end) result out.new (reader_at recycled.now position.new number.new end) }
{
    exports_ids::verdict_ids_reserve_next(recycled, position, number, end, generations, out)
}

// hecs's `ReserveEntitiesIterator::len`. Out: how many handles are left.
#[unsafe(no_mangle)]
pub extern "C" fn verdict_ids_reserve_len(
    recycled: &[u32],
    position: usize,
    number: u32,
    end: u32,
    out: &mut [u64; 4],
) -> u32
    ensures { Told number_four (granted (left_in (reader_at recycled.now position number end))) result out.new }
{
    exports_ids::verdict_ids_reserve_len(recycled, position, number, end, out)
}

// hecs's `AllocManyState::next`, over the numbers of an `alloc_many`. Out: 1 and the number, or 0 after the last.
#[unsafe(no_mangle)]
pub extern "C" fn verdict_ids_alloc_many_next(
    state: &mut [u32; 4],
    pending: &[u32],
    out: &mut [u64; 4],
) -> u32
    ensures { Crossed maybe_four (walking (state_in state.old) pending.now) (state_in state.old) result out.new (state_in state.new) }
{
    exports_ids::verdict_ids_alloc_many_next(state, pending, out)
}

// hecs's `AllocManyState::len`. Out: how many numbers are left.
#[unsafe(no_mangle)]
pub extern "C" fn verdict_ids_alloc_many_len(state: &[u32; 4], out: &mut [u64; 4]) -> u32
    ensures { Told number_four (granted (numbers_left (state_in state.now))) result out.new }
{
    exports_ids::verdict_ids_alloc_many_len(state, out)
}
