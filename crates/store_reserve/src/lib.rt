// Reserve one number, n at once, and the free list, over the whole store: only the head changes, and an output.
#![tactic(auto)]

ghost use Rattle.refusal.specs.Table.{Did, answer_of};
ghost use Rattle.handle.specs.Bits.{handle_of};
ghost use Rattle.store_tables.specs.Store.{store_in};
ghost use Rattle.store_reserve.specs.Reserve.{reserving, reserving_many, listing_free};

use handle::Handle;
use refusal::Refusal;
use store_tables::StoreTables;

// A free number, or the next new one, which a flush makes live.
pub fn reserve_entity(store: &mut StoreTables<'_>) -> Result<Handle, Refusal>
    ensures { Did (reserving (store_in store.old)) (store_in store.old) (handle_of result) (store_in store.new) }
{
    store.tested(false)?;
    ids::reserve_entity(&mut store.ids)
}

// The cursor falls by n, and the n handles go to the output's front.
pub fn reserve_entities(
    store: &mut StoreTables<'_>,
    n: usize,
    out: &mut [u64],
) -> Result<(), Refusal>
    ensures { Did (reserving_many (store_in store.old) n out.old) (store_in store.old, out.old) (answer_of result) (store_in store.new, out.new) }
{
    let short = out.len() < n;
    store.tested(short)?;
    id_batches::reserve_entities(&mut store.ids, n, out)
}

// The handles of the free numbers go to the output's front; answers how many there are.
pub fn freelist(store: &StoreTables<'_>, out: &mut [u64]) -> Result<usize, Refusal>
    ensures { Did (listing_free (store_in store.now) out.old) out.old (answer_of result) out.new }
{
    let short = out.len() < store.ids.head.free();
    store.tested(short)?;
    id_batches::freelist(&store.ids, out)
}
