// Columns over a declaration: rows allocated, removed and moved out, components put and found, on any input.
// The tables that a call writes stay slices: the calls write twelve sets of them, and each clause on a struct of `&mut` would have to say that its references are the same as before.
#![tactic(auto)]

mod appending;
mod finding;
mod listing;
mod removing;
mod storing;

ghost use Rattle.std.specs.Prelude.{◌≡◌, ◌+◌, ◌-◌, ◌<◌, ◌≤◌, length, take, drop};
ghost use Rattle.refusal.specs.Table.{answer_of, passing};
ghost use Rattle.decl.specs.Decl.{decl_in, types_of, sizes_of};
ghost use Rattle.row_step.specs.Tables.{rows_in};
ghost use Rattle.column_entry.specs.Entry.{block_in};
ghost use Rattle.column_entry.specs.Kept.{Kept};
ghost use Rattle.columns.specs.Calls.{held_rules};

pub use appending::allocate;
use decl::{Declaration, Span};
pub use finding::{get, get_bytes};
use handle::Row;
pub use listing::{ids, ids_part};
use refusal::Refusal;
pub use removing::{move_out, remove};
use row_step::{Block, RowTables};
pub use storing::put;

// An archetype's part of the row tables, and the types and sizes of its columns.
#[derive(Clone, Copy)]
struct Part<'a> {
    block: Block,
    types: &'a [u32],
    sizes: &'a [u32],
}

// The columns of a span, among those of all.
fn columns_of(table: &[u32], span: Span) -> &[u32]
    requires { span.column + span.columns ≤ length table.now }
    ensures { result.now ≡ take (span.column + span.columns - span.column) (drop span.column table.now) }
{
    &table[span.column..span.column + span.columns]
}

// The part of an archetype that is declared.
fn part_of<'a>(declaration: &Declaration<'a>, archetype: usize) -> Part<'a>
    requires kept { Kept (decl_in declaration.now) }
    requires declared { archetype < length declaration.now.rows.now }
    ensures block { result.block ≡ block_in (decl_in declaration.now) archetype }
    ensures types { result.types.now ≡ types_of (decl_in declaration.now) archetype }
    ensures sizes { result.sizes.now ≡ sizes_of (decl_in declaration.now) archetype }
{
    let span = column_entry::span(declaration, archetype);
    Part {
        block: Block {
            first: span.row,
            rows: declaration.rows[archetype],
            base: span.base,
        },
        types: columns_of(declaration.types, span),
        sizes: columns_of(declaration.sizes, span),
    }
}

// The tests of a call on a row that is there.
fn held_tested(
    declaration: &Declaration<'_>,
    rows: &RowTables<'_>,
    archetype: usize,
    row: Row,
) -> Result<(), Refusal>
    ensures { answer_of result ≡ passing (held_rules (decl_in declaration.now) (rows_in rows.now) archetype row.0) }
{
    column_entry::tested(declaration, rows)?;
    column_entry::row_tested(declaration.rows, rows.counts, archetype, row)
}
