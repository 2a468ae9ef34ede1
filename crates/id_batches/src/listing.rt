// The free list: the handles of the pending entries that are free.
ghost use Rattle.refusal.specs.Table.{Did, answer_of};
ghost use Rattle.id_tables.specs.Ids.{ids_in};
ghost use Rattle.id_batches.specs.Freelist.{listing};

use crate::loops::list_old;
use id_tables::IdTables;
use refusal::Refusal;

// The handles of the free numbers go to the output's front; answers how many there are.
pub fn freelist(ids: &IdTables<'_>, out: &mut [u64]) -> Result<usize, Refusal>
    ensures { Did (listing (ids_in ids.now) out.old) out.old (answer_of result) out.new }
{
    let free = ids.head.free();
    ids.tested(out.len() < free)?;
    let numbers = &ids.pending[0..free];
    if ids.any_damaged(numbers) {
        return Err(Refusal::Damaged);
    }
    list_old(ids.generations, numbers, out);
    Ok(free)
}
