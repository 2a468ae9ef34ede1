// Clear: the head and every row count become 0.
ghost use Rattle.refusal.specs.Table.{Did, answer_of};
ghost use Rattle.id_tables.specs.Ids.{ids_of};
ghost use Rattle.decl.specs.Decl.{decl_in};
ghost use Rattle.row_step.specs.Tables.{tables_of};
ghost use Rattle.store_tables.specs.Store.{store_of};
ghost use Rattle.store_flush.specs.Clear.{clearing};

use borrow_word::any_held;
use decl::Declaration;
use id_tables::{Head, IdTables};
use refusal::Refusal;
use row_step::RowTables;
use store_tables::StoreTables;

// No entity is left: nothing is used, pending, reserved or live, and no archetype has a row. The tables stay slices: the calls write twelve sets of them, and each clause on a struct of `&mut` would have to say that its references are the same as before.
pub fn clear(
    head: &mut Head,
    declaration: &Declaration<'_>,
    generations: &[u32],
    archetypes: &[u32],
    indices: &[u32],
    pending: &[u32],
    numbers: &[u32],
    counts: &mut [u32],
    bytes: &[u8],
    words: &[u64],
) -> Result<(), Refusal>
    ensures { let lent = store_of (decl_in declaration.now) (ids_of head.old generations.now archetypes.now indices.now pending.now) (tables_of numbers.now counts.old bytes.now) words.now in
        let left = store_of (decl_in declaration.now) (ids_of head.new generations.now archetypes.now indices.now pending.now) (tables_of numbers.now counts.new bytes.now) words.now in
        Did (clearing lent) lent (answer_of result) left }
{
    let store = StoreTables {
        declaration: *declaration,
        ids: IdTables {
            head: *head,
            generations,
            archetypes,
            indices,
            pending,
        },
        rows: RowTables {
            numbers,
            counts,
            bytes,
        },
        words,
    };
    store.tested(false)?;
    if any_held(words) {
        return Err(Refusal::WordHeld);
    }
    counts.fill(0);
    *head = Head::flushed(0, 0, 0);
    Ok(())
}
