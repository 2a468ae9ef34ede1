// What is tested of a row that is to move.
ghost use Rattle.std.specs.Prelude.{◌≡◌};
ghost use Rattle.refusal.specs.Table.{answer_of, passing};
ghost use Rattle.store_tables.specs.Store.{store_in};
ghost use Rattle.store_moves.specs.Steps.{move_seen};

use borrow_word::any_held;
use handle::Place;
use id_tables::at;
use refusal::Refusal;
use store_tables::StoreTables;

// Whether the row at a place may move to the first unused row of the target, where its own archetype's rows begin at `first`.
pub fn move_tested(
    store: &StoreTables<'_>,
    first: usize,
    place: Place,
    target: usize,
) -> Result<(), Refusal>
    ensures { answer_of result ≡ passing (move_seen (store_in store.now) first place.archetype place.index.0 target) }
{
    if any_held(store.words) {
        return Err(Refusal::WordHeld);
    }
    if at(store.declaration.rows, target) <= at(store.rows.counts, target) {
        return Err(Refusal::NoRoom);
    }
    if store.is_moved_damaged(first, place) {
        return Err(Refusal::Damaged);
    }
    Ok(())
}
