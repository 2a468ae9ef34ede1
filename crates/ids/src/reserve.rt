// Reserve one number.
ghost use Rattle.std.specs.Prelude.{◌≡◌};
ghost use Rattle.refusal.specs.Table.{Did};
ghost use Rattle.handle.specs.Bits.{handle_of};
ghost use Rattle.id_tables.specs.Ids.{ids_in, EntryOk};
ghost use Rattle.ids.specs.Reserve.{next_reserved, reserving};

use handle::{Handle, Number};
use id_tables::{IdTables, at};
use refusal::Refusal;

// The handle that the next reservation gives out: of a free number, or of the next new one.
fn next_reserved(ids: &IdTables<'_>) -> Result<Handle, Refusal>
    requires { EntryOk (ids_in ids.now) }
    ensures { handle_of result ≡ next_reserved (ids_in ids.now) }
{
    let free = ids.head.free();
    if free == 0 {
        let next = ids.head.used + ids.head.fresh();
        if ids.generations.len() <= next {
            return Err(Refusal::NoRoom);
        }
        return Handle::new(Number(next as u32), 1);
    }
    let number = at(ids.pending, free - 1);
    if ids.is_damaged(number as usize) {
        return Err(Refusal::Damaged);
    }
    Handle::new(Number(number), at(ids.generations, number as usize))
}

// hecs's `reserve_entity`: a free number, or the next new one, which a flush makes live.
pub fn reserve_entity(ids: &mut IdTables<'_>) -> Result<Handle, Refusal>
    ensures { Did (reserving (ids_in ids.old)) (ids_in ids.old) (handle_of result) (ids_in ids.new) }
{
    ids.tested(false)?;
    let handle = next_reserved(ids)?;
    ids.head = ids.head.fallen(1);
    Ok(handle)
}
