// Put: a component's bytes into a row.
ghost use Rattle.std.specs.Prelude.{◌≡◌};
ghost use Rattle.refusal.specs.Table.{answer_of, passing, Did};
ghost use Rattle.decl.specs.Decl.{decl_in};
ghost use Rattle.row_step.specs.Tables.{tables_of, rows_in};
ghost use Rattle.columns.specs.Calls.{size_rules, put_rules, put_in};

use crate::finding::cell_of;
use decl::Declaration;
use handle::Row;
use refusal::Refusal;
use row_step::RowTables;

// 13 for component bytes.
fn size_tested(
    declaration: &Declaration<'_>,
    archetype: usize,
    kind: u32,
    len: usize,
) -> Result<(), Refusal>
    ensures { let d = decl_in declaration.now in
        answer_of result ≡ passing (size_rules d.rows d.types d.sizes archetype kind len) }
{
    if declaration.rows.len() <= archetype {
        return Ok(());
    }
    if column_entry::wrong_size(declaration.types, declaration.sizes, kind, len) {
        return Err(Refusal::BadLength);
    }
    Ok(())
}

fn put_tested(
    declaration: &Declaration<'_>,
    rows: &RowTables<'_>,
    archetype: usize,
    row: Row,
    kind: u32,
    len: usize,
) -> Result<(), Refusal>
    ensures { answer_of result ≡ passing (put_rules (decl_in declaration.now) (rows_in rows.now) archetype row.0 kind len) }
{
    column_entry::tables_tested(declaration, rows)?;
    size_tested(declaration, archetype, kind, len)?;
    column_entry::counts_tested(declaration.rows, rows.counts)?;
    column_entry::row_tested(declaration.rows, rows.counts, archetype, row)
}

// Component bytes stored in a row.
pub fn put(
    declaration: &Declaration<'_>,
    numbers: &[u32],
    counts: &[u32],
    bytes: &mut [u8],
    archetype: usize,
    row: Row,
    kind: u32,
    value: &[u8],
) -> Result<(), Refusal>
    ensures { let lent = tables_of numbers.now counts.now bytes.old in
        let left = tables_of numbers.now counts.now bytes.new in
        Did (put_in (decl_in declaration.now) lent archetype row.0 kind value.now) lent (answer_of result) left }
{
    let rows = RowTables {
        numbers,
        counts,
        bytes,
    };
    put_tested(declaration, &rows, archetype, row, kind, value.len())?;
    let (start, _) = cell_of(declaration, archetype, row, kind)?;
    cells::write(bytes, start, value);
    Ok(())
}
