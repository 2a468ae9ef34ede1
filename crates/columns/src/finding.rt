// Get: where a component's bytes are.
ghost use Rattle.std.specs.Prelude.{◌≡◌, ◌<◌, length, get_or};
ghost use Rattle.refusal.specs.Table.{answer_of};
ghost use Rattle.decl.specs.Decl.{decl_in, types_of};
ghost use Rattle.decl.specs.Lookup.{column_of};
ghost use Rattle.row_step.specs.Tables.{rows_in, tables_of};
ghost use Rattle.column_entry.specs.Kept.{Kept};
ghost use Rattle.columns.specs.Calls.{cell_for, got_in, part_for};
ghost use Rattle.columns.specs.Find.{cell_in};

use crate::{held_tested, part_of};
use cells::Line;
use decl::Declaration;
use handle::Row;
use refusal::Refusal;
use row_step::RowTables;

// The cell of a type in a row of columns of these types and sizes.
fn find_cell(types: &[u32], sizes: &[u32], line: Line, kind: u32) -> Result<(usize, usize), Refusal>
    ensures { answer_of result ≡ cell_in types.now sizes.now line kind }
{
    let Some(j) = decl::find(types, kind) else {
        return Err(Refusal::NoComponent);
    };
    if sizes.len() <= j {
        return Err(Refusal::NoComponent);
    }
    let here = line.past(&sizes[..j]);
    Ok((here.cell(sizes[j]), sizes[j] as usize))
}

// That of an archetype which is declared, in one of its rows.
pub(crate) fn cell_of(
    declaration: &Declaration<'_>,
    archetype: usize,
    row: Row,
    kind: u32,
) -> Result<(usize, usize), Refusal>
    requires kept { Kept (decl_in declaration.now) }
    requires archetype_in_bounds { (archetype < length declaration.now.rows.now) × (row.0 < get_or declaration.now.rows.now archetype 0) }
    ensures { let d = decl_in declaration.now in
        answer_of result ≡ cell_for d archetype row.0 (column_of (types_of d archetype) kind) }
{
    let part = part_of(declaration, archetype);
    find_cell(part.types, part.sizes, part.block.line(row), kind)
}

// Where a component's bytes start, and how many they are.
pub fn get(
    declaration: &Declaration<'_>,
    rows: &RowTables<'_>,
    archetype: usize,
    row: Row,
    kind: u32,
) -> Result<(usize, usize), Refusal>
    ensures { answer_of result ≡ got_in (decl_in declaration.now) (rows_in rows.now) archetype row.0 kind }
{
    held_tested(declaration, rows, archetype, row)?;
    cell_of(declaration, archetype, row, kind)
}

// A component's bytes; none on a refusal. The tables stay slices: what is answered holds the bytes alone, where a part of a
// view would hold the other tables too.
pub fn get_bytes<'a>(
    declaration: &Declaration<'_>,
    numbers: &[u32],
    counts: &[u32],
    bytes: &'a [u8],
    archetype: usize,
    row: Row,
    kind: u32,
) -> &'a [u8]
    ensures { result.now ≡ part_for (got_in (decl_in declaration.now) (tables_of numbers.now counts.now bytes.now) archetype row.0 kind) bytes.now }
{
    let rows = RowTables {
        numbers,
        counts,
        bytes,
    };
    let Ok((start, len)) = get(declaration, &rows, archetype, row, kind) else {
        return &bytes[..0];
    };
    cells::part(bytes, start, len)
}
