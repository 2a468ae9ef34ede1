// What the tables that a column call is lent must be, on any input.
#![tactic(auto)]

ghost use Rattle.std.specs.Prelude.{◌≡◌, length, get_or};
ghost use Rattle.refusal.specs.Table.{answer_of, passing};
ghost use Rattle.decl.specs.Decl.{decl_in};
ghost use Rattle.row_step.specs.Tables.{rows_in};
ghost use Rattle.column_entry.specs.Entry.{span_in, lengths_for, table_rules, count_rules, entry_rules, row_rules, wrong_size};

use decl::{Declaration, Span, Totals};
use handle::Row;
use refusal::Refusal;
use row_step::RowTables;

// The part of an archetype that is not there.
const NOWHERE: Span = Span {
    row: 0,
    rows: 0,
    column: 0,
    columns: 0,
    base: 0,
    bytes: 0,
};

// An archetype's part of each table; at the number of archetypes, what all of them take. All 0 where there is none. Inlined
// for the same reason as what it calls.
#[inline(always)]
pub fn span(declaration: &Declaration<'_>, archetype: usize) -> Span
    ensures { result ≡ span_in (decl_in declaration.now) archetype }
{
    declaration.span_of(archetype).unwrap_or(NOWHERE)
}

// The row count of an archetype, or 0 past the end.
pub fn count_of(counts: &[u32], archetype: usize) -> u32
    ensures { result ≡ get_or counts.now archetype 0 }
{
    counts.get(archetype).copied().unwrap_or(0)
}

// 13, where all archetypes take so many rows and bytes.
fn lengths_tested(all: Totals, archetypes: usize, rows: &RowTables<'_>) -> Result<(), Refusal>
    ensures { answer_of result ≡ passing (lengths_for all.rows archetypes all.bytes (length rows.now.numbers.now) (length rows.now.counts.now) (length rows.now.bytes.now)) }
{
    if rows.numbers.len() != all.rows {
        return Err(Refusal::BadLength);
    }
    if rows.counts.len() != archetypes {
        return Err(Refusal::BadLength);
    }
    if rows.bytes.len() != all.bytes {
        return Err(Refusal::BadLength);
    }
    Ok(())
}

// 12, then 13.
pub fn tables_tested(declaration: &Declaration<'_>, rows: &RowTables<'_>) -> Result<(), Refusal>
    ensures { answer_of result ≡ passing (table_rules (decl_in declaration.now) (rows_in rows.now)) }
{
    let all = declaration.totals()?;
    lengths_tested(all, declaration.rows.len(), rows)
}

// 1 for the row counts. One that is not there is 0, which is above no rows.
pub fn counts_tested(rows: &[u32], counts: &[u32]) -> Result<(), Refusal>
    ensures { answer_of result ≡ passing (count_rules rows.now counts.now) }
{
    if rows.iter().zip(counts).any(|(most, count)| most < count) {
        return Err(Refusal::Damaged);
    }
    Ok(())
}

// What every column call tests first.
pub fn tested(declaration: &Declaration<'_>, rows: &RowTables<'_>) -> Result<(), Refusal>
    ensures { answer_of result ≡ passing (entry_rules (decl_in declaration.now) (rows_in rows.now)) }
{
    tables_tested(declaration, rows)?;
    counts_tested(declaration.rows, rows.counts)
}

// 6 for an archetype, and for a row of it.
pub fn row_tested(rows: &[u32], counts: &[u32], archetype: usize, row: Row) -> Result<(), Refusal>
    ensures { answer_of result ≡ passing (row_rules rows.now counts.now archetype row.0) }
{
    if rows.len() <= archetype {
        return Err(Refusal::BadPlace);
    }
    if count_of(counts, archetype) <= row.0 {
        return Err(Refusal::BadPlace);
    }
    Ok(())
}

// Whether a type is declared, of another size. It is asked of tables that no test has seen, whose types may be many more than
// the sizes: those past them are not looked at.
pub fn wrong_size(types: &[u32], sizes: &[u32], kind: u32, size: usize) -> bool
    ensures { result ≡ wrong_size types.now sizes.now kind size }
{
    let known = types.len().min(sizes.len());
    let Some(p) = types[..known].iter().position(|declared| *declared == kind) else {
        return false;
    };
    sizes[p] as usize != size
}
