// Read a component: where its bytes are, and those bytes.
ghost use Rattle.std.specs.Prelude.{◌≡◌};
ghost use Rattle.refusal.specs.Table.{answer_of};
ghost use Rattle.decl.specs.Decl.{decl_in};
ghost use Rattle.id_tables.specs.Ids.{ids_in};
ghost use Rattle.row_step.specs.Tables.{tables_of};
ghost use Rattle.store_tables.specs.Store.{store_in, store_of};
ghost use Rattle.store_reads.specs.Read.{cell_read, reading, bytes_at};

use crate::component::{Cell, find_component, find_place, word_at};
use decl::Declaration;
use handle::Handle;
use id_tables::IdTables;
use refusal::Refusal;
use row_step::RowTables;
use store_tables::StoreTables;

fn read_cell(words: &[u64], cell: Cell) -> Result<(usize, usize), Refusal>
    ensures { answer_of result ≡ cell_read words.now cell }
{
    if word_at(words, cell.word) >> 63 == 1 {
        return Err(Refusal::UniqueHeld);
    }
    Ok((cell.start, cell.size))
}

// Where a component's bytes start, and how many they are.
pub fn read(store: &StoreTables<'_>, bits: u64, kind: u32) -> Result<(usize, usize), Refusal>
    ensures { answer_of result ≡ reading (store_in store.now) bits kind }
{
    store.tested(false)?;
    let Ok(handle) = Handle::from_bits(bits) else {
        return Err(Refusal::ZeroGeneration);
    };
    let placed = find_place(store, handle)?;
    let cell = find_component(&store.declaration, placed, kind)?;
    read_cell(store.words, cell)
}

// The bytes that `read` answers the place of; none on a refusal. The row tables stay slices: what is answered holds the
// bytes alone, where a part of a view would hold the other tables too.
pub fn read_bytes<'a>(
    declaration: &Declaration<'_>,
    ids: &IdTables<'_>,
    numbers: &[u32],
    counts: &[u32],
    bytes: &'a [u8],
    words: &[u64],
    bits: u64,
    kind: u32,
) -> &'a [u8]
    ensures { let lent = store_of (decl_in declaration.now) (ids_in ids.now) (tables_of numbers.now counts.now bytes.now) words.now in
        result.now ≡ bytes_at bytes.now (reading lent bits kind) }
{
    let store = StoreTables {
        declaration: *declaration,
        ids: *ids,
        rows: RowTables {
            numbers,
            counts,
            bytes,
        },
        words,
    };
    let Ok((start, size)) = read(&store, bits, kind) else {
        return &bytes[0..0];
    };
    cells::part(bytes, start, size)
}
