// The lookups of the id layer over the whole store.
ghost use Rattle.std.specs.Prelude.{◌≡◌};
ghost use Rattle.refusal.specs.Table.{answer_of};
ghost use Rattle.handle.specs.Bits.{handle_of};
ghost use Rattle.store_tables.specs.Store.{store_in};
ghost use Rattle.store_reads.specs.Lookup.{getting, containing, resolving, counting};

use crate::component::find_place;
use handle::{Handle, Number, Place};
use refusal::Refusal;
use store_tables::StoreTables;

// The place of an entity; a live one's must be its own.
pub fn get(store: &StoreTables<'_>, bits: u64) -> Result<Place, Refusal>
    ensures { answer_of result ≡ getting (store_in store.now) bits }
{
    store.tested(false)?;
    let Ok(handle) = Handle::from_bits(bits) else {
        return Err(Refusal::ZeroGeneration);
    };
    let Some((place, _)) = find_place(store, handle)? else {
        return Ok(Place::EMPTY);
    };
    Ok(place)
}

pub fn contains(store: &StoreTables<'_>, bits: u64) -> Result<bool, Refusal>
    ensures { answer_of result ≡ containing (store_in store.now) bits }
{
    store.tested(false)?;
    store.ids.contains(bits)
}

pub fn resolve_unknown_gen(store: &StoreTables<'_>, number: Number) -> Result<Handle, Refusal>
    ensures { handle_of result ≡ resolving (store_in store.now) number.0 }
{
    store.tested(false)?;
    store.ids.resolve_unknown_gen(number)
}

pub fn len(store: &StoreTables<'_>) -> Result<usize, Refusal>
    ensures { answer_of result ≡ counting (store_in store.now) }
{
    store.tested(false)?;
    store.ids.len()
}
