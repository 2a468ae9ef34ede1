// Write a component.
ghost use Rattle.refusal.specs.Table.{answer_of, Did};
ghost use Rattle.decl.specs.Decl.{decl_in};
ghost use Rattle.id_tables.specs.Ids.{ids_in};
ghost use Rattle.row_step.specs.Tables.{tables_of};
ghost use Rattle.store_tables.specs.Store.{store_of};
ghost use Rattle.store_reads.specs.Steps.{cell_stored};
ghost use Rattle.store_reads.specs.Write.{writing};

use crate::component::{Cell, find_component, find_place, word_at};
use decl::Declaration;
use handle::Handle;
use id_tables::IdTables;
use refusal::Refusal;
use row_step::RowTables;
use store_tables::StoreTables;

fn write_cell(bytes: &mut [u8], words: &[u64], cell: Cell, value: &[u8]) -> Result<(), Refusal>
    ensures { Did (cell_stored words.now bytes.old value.now cell) bytes.old (answer_of result) bytes.new }
{
    if word_at(words, cell.word) != 0 {
        return Err(Refusal::WordHeld);
    }
    cells::write(bytes, cell.start, value);
    Ok(())
}

// Bytes of exactly the type's size, into the component of an entity.
// The row tables stay slices: C lends the bytes alone to be written, so no view holds them beside the others.
pub fn write(
    declaration: &Declaration<'_>,
    ids: &IdTables<'_>,
    numbers: &[u32],
    counts: &[u32],
    bytes: &mut [u8],
    words: &[u64],
    bits: u64,
    kind: u32,
    value: &[u8],
) -> Result<(), Refusal>
    ensures { let lent = store_of (decl_in declaration.now) (ids_in ids.now) (tables_of numbers.now counts.now bytes.old) words.now in
        let left = store_of (decl_in declaration.now) (ids_in ids.now) (tables_of numbers.now counts.now bytes.new) words.now in
        Did (writing lent bits kind value.now) lent (answer_of result) left }
{
    let short = column_entry::wrong_size(declaration.types, declaration.sizes, kind, value.len());
    let store = StoreTables {
        declaration: *declaration,
        ids: *ids,
        rows: RowTables {
            numbers,
            counts,
            bytes,
        },
        words,
    };
    store.tested(short)?;
    let Ok(handle) = Handle::from_bits(bits) else {
        return Err(Refusal::ZeroGeneration);
    };
    let placed = find_place(&store, handle)?;
    let cell = find_component(declaration, placed, kind)?;
    write_cell(bytes, words, cell, value)
}
