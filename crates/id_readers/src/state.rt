// The state of an alloc many, lent and advanced in place.
ghost use Rattle.refusal.specs.Table.{Did, answer_by};
ghost use Rattle.id_batches.specs.AllocMany.{walking};
ghost use Rattle.id_readers.specs.State.{numbered_of};

use handle::Number;
use id_batches::AllocManyState;
use refusal::Refusal;

// hecs's `AllocManyState::next`: the state is lent, and stands one further after a number.
pub fn alloc_many_next(
    state: &mut AllocManyState,
    pending: &[u32],
) -> Result<Option<Number>, Refusal>
    ensures { Did (walking state.old pending.now) state.old (answer_by numbered_of result) state.new }
{
    let Some((number, left)) = state.next(pending)? else {
        return Ok(None);
    };
    *state = left;
    Ok(Some(number))
}

// The same step for callers that hold the state by value: it is lent for the step, and handed back beside the answer, after a refusal too.
pub fn alloc_many_step(
    state: AllocManyState,
    pending: &[u32],
) -> (Result<Option<Number>, Refusal>, AllocManyState)
    ensures { Did (walking state pending.now) state (answer_by numbered_of result.0) result.1 }
{
    let mut left = state;
    let next = alloc_many_next(&mut left, pending);
    (next, left)
}
