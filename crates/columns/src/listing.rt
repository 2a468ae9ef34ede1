// Ids: an archetype's row numbers.
ghost use Rattle.std.specs.Prelude.{◌≡◌};
ghost use Rattle.refusal.specs.Table.{answer_of, passing};
ghost use Rattle.decl.specs.Decl.{decl_in};
ghost use Rattle.row_step.specs.Tables.{rows_in, tables_of};
ghost use Rattle.columns.specs.Calls.{ids_rules, ids_in, part_for};

use decl::Declaration;
use refusal::Refusal;
use row_step::RowTables;

fn ids_tested(
    declaration: &Declaration<'_>,
    rows: &RowTables<'_>,
    archetype: usize,
) -> Result<(), Refusal>
    ensures { answer_of result ≡ passing (ids_rules (decl_in declaration.now) (rows_in rows.now) archetype) }
{
    column_entry::tested(declaration, rows)?;
    if declaration.rows.len() <= archetype {
        return Err(Refusal::BadPlace);
    }
    Ok(())
}

// Where an archetype's row numbers start, and how many they are.
pub fn ids(
    declaration: &Declaration<'_>,
    rows: &RowTables<'_>,
    archetype: usize,
) -> Result<(usize, usize), Refusal>
    ensures { answer_of result ≡ ids_in (decl_in declaration.now) (rows_in rows.now) archetype }
{
    ids_tested(declaration, rows, archetype)?;
    let first = column_entry::span(declaration, archetype).row;
    Ok((
        first,
        column_entry::count_of(rows.counts, archetype) as usize,
    ))
}

// An archetype's row numbers; none on a refusal. The tables stay slices, as in `get_bytes`.
pub fn ids_part<'a>(
    declaration: &Declaration<'_>,
    numbers: &'a [u32],
    counts: &[u32],
    bytes: &[u8],
    archetype: usize,
) -> &'a [u32]
    ensures { result.now ≡ part_for (ids_in (decl_in declaration.now) (tables_of numbers.now counts.now bytes.now) archetype) numbers.now }
{
    let rows = RowTables {
        numbers,
        counts,
        bytes,
    };
    let Ok((start, count)) = ids(declaration, &rows, archetype) else {
        return &numbers[..0];
    };
    &numbers[start..start + count]
}
