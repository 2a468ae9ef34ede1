// Remove row, and move out, which hands the row's bytes over first.
ghost use Rattle.std.specs.Prelude.{◌≡◌, ◌<◌, length, get_or};
ghost use Rattle.refusal.specs.Table.{answer_of, passing, Did};
ghost use Rattle.decl.specs.Decl.{decl_in, sizes_of};
ghost use Rattle.decl.specs.Places.{row_width, base_of};
ghost use Rattle.cells.specs.Line.{row_bytes};
ghost use Rattle.row_step.specs.Tables.{tables_of, rows_in, moved_of, line_in};
ghost use Rattle.column_entry.specs.Entry.{block_in};
ghost use Rattle.column_entry.specs.Kept.{Kept, There};
ghost use Rattle.columns.specs.Calls.{removed_of, removal, removed_in, width_rules, move_rules, moved_out};

use crate::{held_tested, part_of};
use cells::Line;
use decl::Declaration;
use handle::{Number, Row};
use refusal::Refusal;
use row_step::RowTables;

fn remove_step(
    declaration: &Declaration<'_>,
    numbers: &mut [u32],
    counts: &mut [u32],
    bytes: &mut [u8],
    archetype: usize,
    row: Row,
) -> Option<Number>
    requires { There (decl_in declaration.now) (tables_of numbers.old counts.old bytes.old) archetype row.0 }
    ensures { let lent = tables_of numbers.old counts.old bytes.old in
        let left = tables_of numbers.new counts.new bytes.new in
        (moved_of result, left) ≡ removal (decl_in declaration.now) lent archetype row.0 }
{
    let part = part_of(declaration, archetype);
    row_step::remove(
        numbers, counts, bytes, part.block, part.sizes, archetype, row,
    )
}

// The last row takes the place of a row that is removed.
pub fn remove(
    declaration: &Declaration<'_>,
    numbers: &mut [u32],
    counts: &mut [u32],
    bytes: &mut [u8],
    archetype: usize,
    row: Row,
) -> Result<Option<Number>, Refusal>
    ensures { let lent = tables_of numbers.old counts.old bytes.old in
        let left = tables_of numbers.new counts.new bytes.new in
        Did (removed_in (decl_in declaration.now) lent archetype row.0) lent (removed_of result) left }
{
    let rows = RowTables {
        numbers,
        counts,
        bytes,
    };
    held_tested(declaration, &rows, archetype, row)?;
    Ok(remove_step(declaration, numbers, counts, bytes, archetype, row))
}

// 13 for an output of another length than the row's width.
fn width_tested(declaration: &Declaration<'_>, archetype: usize, len: usize) -> Result<(), Refusal>
    requires { Kept (decl_in declaration.now) }
    ensures { answer_of result ≡ passing (width_rules (decl_in declaration.now) archetype len) }
{
    if declaration.rows.len() <= archetype {
        return Ok(());
    }
    if len != column_entry::span(declaration, archetype).bytes {
        return Err(Refusal::BadLength);
    }
    Ok(())
}

fn move_tested(
    declaration: &Declaration<'_>,
    rows: &RowTables<'_>,
    len: usize,
    archetype: usize,
    row: Row,
) -> Result<(), Refusal>
    ensures { answer_of result ≡ passing (move_rules (decl_in declaration.now) (rows_in rows.now) len archetype row.0) }
{
    column_entry::tables_tested(declaration, rows)?;
    width_tested(declaration, archetype, len)?;
    column_entry::counts_tested(declaration.rows, rows.counts)?;
    column_entry::row_tested(declaration.rows, rows.counts, archetype, row)
}

fn move_step(
    declaration: &Declaration<'_>,
    bytes: &[u8],
    out: &mut [u8],
    archetype: usize,
    row: Row,
)
    requires kept { Kept (decl_in declaration.now) }
    requires archetype_in_bounds { let d = decl_in declaration.now in
        (archetype < length d.rows) × (row.0 < get_or d.rows archetype 0) × (length out.old ≡ row_width d archetype) × (length bytes.now ≡ base_of d (length d.rows)) }
    ensures { let d = decl_in declaration.now in
        out.new ≡ row_bytes bytes.now (line_in (block_in d archetype) row.0) (sizes_of d archetype) }
{
    let part = part_of(declaration, archetype);
    let line = part.block.line(row);
    cells::transfer(bytes, line, out, Line::RUN, part.sizes);
}

// Hands the row's bytes over, in column order, and removes it.
pub fn move_out(
    declaration: &Declaration<'_>,
    numbers: &mut [u32],
    counts: &mut [u32],
    bytes: &mut [u8],
    out: &mut [u8],
    archetype: usize,
    row: Row,
) -> Result<Option<Number>, Refusal>
    ensures { let lent = tables_of numbers.old counts.old bytes.old in
        let left = tables_of numbers.new counts.new bytes.new in
        Did (moved_out (decl_in declaration.now) lent out.old archetype row.0) (lent, out.old) (removed_of result) (left, out.new) }
{
    let rows = RowTables {
        numbers,
        counts,
        bytes,
    };
    move_tested(declaration, &rows, out.len(), archetype, row)?;
    move_step(declaration, bytes, out, archetype, row);
    Ok(remove_step(declaration, numbers, counts, bytes, archetype, row))
}
