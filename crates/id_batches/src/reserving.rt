// Reserve n numbers at once.
ghost use Rattle.std.specs.Prelude.{◌≤◌, length};
ghost use Rattle.refusal.specs.Table.{Did, answer_of};
ghost use Rattle.id_tables.specs.Ids.{ids_in, EntryOk};
ghost use Rattle.id_batches.specs.Reserve.{entities_reserved, reserving};

use crate::loops::{list_new, list_old};
use id_tables::IdTables;
use refusal::Refusal;

// What is left of a reservation once the first tests have passed.
fn entities_reserved(ids: &mut IdTables<'_>, n: usize, out: &mut [u64]) -> Result<(), Refusal>
    requires entry_ok { EntryOk (ids_in ids.old) }
    requires n_in_bounds { n ≤ length out.old }
    ensures { let lent = ids_in ids.old in
        let left = ids_in ids.new in
        Did (entities_reserved lent n out.old) (lent, out.old) (answer_of result) (left, out.new) }
{
    let free = ids.head.free();
    let next = ids.head.used + ids.head.fresh();
    if free + (ids.generations.len() - next) < n {
        return Err(Refusal::NoRoom);
    }
    let from = free.saturating_sub(n);
    let recycled = &ids.pending[from..free];
    if ids.any_damaged(recycled) {
        return Err(Refusal::Damaged);
    }
    list_old(ids.generations, recycled, out);
    list_new(next as u32, n.saturating_sub(free) as u32, free - from, out);
    ids.head = ids.head.fallen(n as u32);
    Ok(())
}

// hecs's `reserve_entities`: the cursor falls by n, and the n handles go to the output's front.
pub fn reserve_entities(ids: &mut IdTables<'_>, n: usize, out: &mut [u64]) -> Result<(), Refusal>
    ensures { let lent = ids_in ids.old in
        let left = ids_in ids.new in
        Did (reserving lent n out.old) (lent, out.old) (answer_of result) (left, out.new) }
{
    ids.tested(out.len() < n)?;
    entities_reserved(ids, n, out)
}
