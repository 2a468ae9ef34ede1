// The two walks that another language links: over the handles of a reservation, and over the numbers of an `alloc_many`.
ghost use Rattle.std.specs.Prelude.{◌≡◌};
ghost use Rattle.refusal.specs.Table.{granted};
ghost use Rattle.id_tables.specs.Ids.{ids_of};
ghost use Rattle.id_batches.specs.AllocMany.{walking, left_in as numbers_left};
ghost use Rattle.id_readers.specs.Reader.{reader_at, stepping, left_in};
ghost use Rattle.crossing.specs.Words.{head_of};
ghost use Rattle.crossing.specs.Answers.{Told, Crossed, number_four, maybe_four};
ghost use Rattle.exports_ids.specs.State.{state_in};
ghost use Rattle.exports_ids.specs.Span.{span_four, reserving_span};

use crate::tables::lent;
use crossing::{Crossing, cross, put_head};
use handle::Handle;
use id_batches::AllocManyState;
use id_readers::{Span, alloc_many_next, reserve_len, reserve_next, reserve_span};

// A span that crosses: from and to in the pending list, then the new numbers from and to.
#[derive(Clone, Copy)]
struct Spanned(Span);

impl Crossing for Spanned {
    ghost use Rattle.id_readers.specs.Reader.{span_of};
    ghost use Rattle.exports_ids.specs.Span.{span_four};

    ghost numbers = { λ spanned. span_four (span_of spanned.0) };

    fn four(self) -> [u64; 4] {
        let span = self.0;
        [
            span.from as u64,
            span.to as u64,
            span.number as u64,
            span.end as u64,
        ]
    }
}

// What a step of a reader gives, which crosses as 1 and the handle, or as 0 after the last.
#[derive(Clone, Copy)]
struct Handed(Option<Handle>);

impl Crossing for Handed {
    ghost use Rattle.id_readers.specs.Reader.{handed_of};
    ghost use Rattle.crossing.specs.Answers.{maybe_four};

    ghost numbers = { λ handed. maybe_four (handed_of handed.0) };

    fn four(self) -> [u64; 4] {
        match self.0 {
            None => [0; 4],
            Some(handle) => [1, handle.to_bits(), 0, 0],
        }
    }
}

// A reservation of n as a span. Out: from and to in the pending list, then the new numbers from and to.
pub fn verdict_ids_reserve_span(
    head: &mut [u64; 4],
    generations: &[u32],
    archetypes: &[u32],
    indices: &[u32],
    pending: &[u32],
    n: usize,
    out: &mut [u64; 4],
) -> u32
    ensures { let lent = ids_of (head_of head.old) generations.now archetypes.now indices.now pending.now in
        let left = ids_of (head_of head.new) generations.now archetypes.now indices.now pending.now in
        Crossed span_four (reserving_span lent n) lent result out.new left }
{
    let mut ids = lent(head, generations, archetypes, indices, pending);
    let answer = reserve_span(&mut ids, n);
    put_head(head, ids.head);
    cross(out, answer.map(Spanned))
}

// hecs's `ReserveEntitiesIterator::next`, of the reader of a part. Out: 1 and the handle, or 0 after the last.
pub fn verdict_ids_reserve_next(
    recycled: &[u32],
    position: &mut usize,
    number: &mut u32,
    end: u32,
    generations: &[u32],
    out: &mut [u64; 4],
) -> u32
    ensures { Crossed maybe_four (stepping (reader_at recycled.now position.old number.old end) generations.now) (reader_at recycled.now position.old number.old end) result out.new (reader_at recycled.now position.new number.new end) }
{
    let answer = reserve_next(recycled, position, number, end, generations);
    cross(out, answer.map(Handed))
}

// hecs's `ReserveEntitiesIterator::len`. Out: how many handles are left.
pub fn verdict_ids_reserve_len(
    recycled: &[u32],
    position: usize,
    number: u32,
    end: u32,
    out: &mut [u64; 4],
) -> u32
    ensures { Told number_four (granted (left_in (reader_at recycled.now position number end))) result out.new }
{
    cross(out, Ok(reserve_len(recycled, position, number, end)))
}

// The state as C holds it. Functions, and no `From`: neither the array nor the state is of this crate.
fn state_of(words: &[u32; 4]) -> AllocManyState
    ensures { result ≡ state_in words.now }
{
    AllocManyState {
        position: words[0],
        top: words[1],
        number: words[2],
        end: words[3],
    }
}

fn put_state(words: &mut [u32; 4], state: AllocManyState)
    ensures { state_in words.new ≡ state }
{
    *words = [state.position, state.top, state.number, state.end];
}

// hecs's `AllocManyState::next`, over the numbers of an `alloc_many`. Out: 1 and the number, or 0 after the last.
pub fn verdict_ids_alloc_many_next(state: &mut [u32; 4], pending: &[u32], out: &mut [u64; 4]) -> u32
    ensures { Crossed maybe_four (walking (state_in state.old) pending.now) (state_in state.old) result out.new (state_in state.new) }
{
    let mut walk = state_of(state);
    let answer = alloc_many_next(&mut walk, pending);
    put_state(state, walk);
    cross(out, answer)
}

// hecs's `AllocManyState::len`. Out: how many numbers are left.
pub fn verdict_ids_alloc_many_len(state: &[u32; 4], out: &mut [u64; 4]) -> u32
    ensures { Told number_four (granted (numbers_left (state_in state.now))) result out.new }
{
    cross(out, Ok(state_of(state).len()))
}
