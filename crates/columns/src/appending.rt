// Allocate: a row for a number.
ghost use Rattle.std.specs.Prelude.{◌≡◌, ◌+◌, ◌<◌, length, get_or, set};
ghost use Rattle.refusal.specs.Table.{answer_of, passing, Did};
ghost use Rattle.decl.specs.Decl.{decl_in, first_row};
ghost use Rattle.row_step.specs.Tables.{tables_of, rows_in};
ghost use Rattle.column_entry.specs.Kept.{Kept};
ghost use Rattle.columns.specs.Calls.{allocated_of, allocate_rules, allocated_in};

use decl::Declaration;
use handle::{Number, Row};
use refusal::Refusal;
use row_step::RowTables;

fn allocate_tested(
    declaration: &Declaration<'_>,
    rows: &RowTables<'_>,
    archetype: usize,
) -> Result<(), Refusal>
    ensures { answer_of result ≡ passing (allocate_rules (decl_in declaration.now) (rows_in rows.now) archetype) }
{
    column_entry::tested(declaration, rows)?;
    if declaration.rows.len() <= archetype {
        return Err(Refusal::BadPlace);
    }
    if declaration.rows[archetype] <= column_entry::count_of(rows.counts, archetype) {
        return Err(Refusal::NoRoom);
    }
    Ok(())
}

fn allocate_step(
    declaration: &Declaration<'_>,
    numbers: &mut [u32],
    counts: &mut [u32],
    archetype: usize,
    number: Number,
) -> Row
    requires kept { Kept (decl_in declaration.now) }
    requires archetype_in_bounds { (archetype < length counts.old) × (length counts.old ≡ length declaration.now.rows.now) × (get_or counts.old archetype 0 < get_or declaration.now.rows.now archetype 0) }
    ensures { (result.0 ≡ get_or counts.old archetype 0)
        × (numbers.new ≡ set numbers.old (first_row (decl_in declaration.now) archetype + get_or counts.old archetype 0) number.0)
        × (counts.new ≡ set counts.old archetype (get_or counts.old archetype 0 + 1)) }
{
    let first = column_entry::span(declaration, archetype).row;
    let count = counts[archetype];
    row_step::set_number(numbers, first, Row(count), number);
    counts[archetype] = count + 1;
    Row(count)
}

// The number goes into the first unused row, whose position is answered.
pub fn allocate(
    declaration: &Declaration<'_>,
    numbers: &mut [u32],
    counts: &mut [u32],
    bytes: &[u8],
    archetype: usize,
    number: Number,
) -> Result<Row, Refusal>
    ensures { let lent = tables_of numbers.old counts.old bytes.now in
        let left = tables_of numbers.new counts.new bytes.now in
        Did (allocated_in (decl_in declaration.now) lent archetype number.0) lent (allocated_of result) left }
{
    let rows = RowTables {
        numbers,
        counts,
        bytes,
    };
    allocate_tested(declaration, &rows, archetype)?;
    Ok(allocate_step(declaration, numbers, counts, archetype, number))
}
