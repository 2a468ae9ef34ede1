// Flush: every reserved number gets a row of archetype 0.
ghost use Rattle.refusal.specs.Table.{Did, answer_of};
ghost use Rattle.id_tables.specs.Ids.{ids_of};
ghost use Rattle.decl.specs.Decl.{decl_in};
ghost use Rattle.row_step.specs.Tables.{tables_of};
ghost use Rattle.store_tables.specs.Store.{store_of};
ghost use Rattle.store_tables.specs.Kept.{Entered};
ghost use Rattle.store_flush.specs.Flush.{reserved_seated, flushing};

use crate::listing::list_reserved;
use borrow_word::any_held;
use decl::Declaration;
use handle::Row;
use id_tables::{Head, IdTables, at, put};
use refusal::Refusal;
use row_step::RowTables;
use store_tables::StoreTables;

// What is left of a flush once the first tests have passed. Where the rows suffice, the id layer refuses only for damage.
fn seat_reserved(
    head: &mut Head,
    declaration: &Declaration<'_>,
    generations: &mut [u32],
    archetypes: &mut [u32],
    indices: &mut [u32],
    pending: &[u32],
    numbers: &mut [u32],
    counts: &mut [u32],
    bytes: &[u8],
    words: &[u64],
) -> Result<(), Refusal>
    requires { Entered (store_of (decl_in declaration.now) (ids_of head.old generations.old archetypes.old indices.old pending.now) (tables_of numbers.old counts.old bytes.now) words.now) }
    ensures { let lent = store_of (decl_in declaration.now) (ids_of head.old generations.old archetypes.old indices.old pending.now) (tables_of numbers.old counts.old bytes.now) words.now in
        let left = store_of (decl_in declaration.now) (ids_of head.new generations.new archetypes.new indices.new pending.now) (tables_of numbers.new counts.new bytes.now) words.now in
        Did (reserved_seated lent) lent (answer_of result) left }
{
    if any_held(words) {
        return Err(Refusal::WordHeld);
    }
    let lent = *head;
    let count = at(counts, 0);
    let reserved = lent.fresh() + (lent.pending - lent.free());
    if (at(declaration.rows, 0) as usize) < count as usize + reserved {
        return Err(Refusal::NoRoom);
    }
    id_batches::flush(
        head,
        generations,
        archetypes,
        indices,
        pending,
        0,
        Row(count),
    )?;
    list_reserved(lent, pending, numbers, count as usize);
    put(counts, 0, count + reserved as u32);
    Ok(())
}

// The reserved numbers become live, each in a row of archetype 0, which has no columns. The tables stay slices: the calls write twelve sets of them, and each clause on a struct of `&mut` would have to say that its references are the same as before.
pub fn flush(
    head: &mut Head,
    declaration: &Declaration<'_>,
    generations: &mut [u32],
    archetypes: &mut [u32],
    indices: &mut [u32],
    pending: &[u32],
    numbers: &mut [u32],
    counts: &mut [u32],
    bytes: &[u8],
    words: &[u64],
) -> Result<(), Refusal>
    ensures { let lent = store_of (decl_in declaration.now) (ids_of head.old generations.old archetypes.old indices.old pending.now) (tables_of numbers.old counts.old bytes.now) words.now in
        let left = store_of (decl_in declaration.now) (ids_of head.new generations.new archetypes.new indices.new pending.now) (tables_of numbers.new counts.new bytes.now) words.now in
        Did (flushing lent) lent (answer_of result) left }
{
    let store = StoreTables {
        declaration: *declaration,
        ids: IdTables {
            head: *head,
            generations,
            archetypes,
            indices,
            pending,
        },
        rows: RowTables {
            numbers,
            counts,
            bytes,
        },
        words,
    };
    store.tested(false)?;
    seat_reserved(
        head,
        declaration,
        generations,
        archetypes,
        indices,
        pending,
        numbers,
        counts,
        bytes,
        words,
    )
}
