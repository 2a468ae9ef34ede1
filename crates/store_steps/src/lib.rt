// Steps of the store, over any tables: a row leaves its archetype, and the number that falls into the hole learns its place; a number takes a row. What has no place does nothing.
#![tactic(auto)]

ghost use Rattle.std.specs.Prelude.{◌≡◌};
ghost use Rattle.row_step.specs.Tables.{tables_of};
ghost use Rattle.store_steps.specs.Parts.{block_by, part_by};
ghost use Rattle.store_steps.specs.Seats.{seats_of, vacated_seats, seated_rows};

use cells::Line;
use decl::{Declaration, Span};
use handle::{Number, Place, Row};
use row_step::Block;

// An archetype's part of the row tables.
fn block_of(rows: &[u32], span: Span, archetype: usize) -> Block
    ensures { result ≡ block_by rows.now span archetype }
{
    Block {
        first: span.row,
        rows: id_tables::at(rows, archetype),
        base: span.base,
    }
}

// An archetype's part of a table of columns.
pub fn part_of(table: &[u32], span: Span) -> &[u32]
    ensures { result.now ≡ part_by table.now span }
{
    let rest = &table[usize::min(span.column, table.len())..];
    &rest[..usize::min(span.columns, rest.len())]
}

// Removes the row at a place of the archetype that has this part of the tables. Whenever the last row falls into the
// hole, its number's place is written here.
// The tables stay slices: the calls write twelve sets of them, and each clause on a struct of `&mut` would have to say that its references are the same as before.
pub fn vacate(
    declaration: &Declaration<'_>,
    archetypes: &mut [u32],
    indices: &mut [u32],
    numbers: &mut [u32],
    counts: &mut [u32],
    bytes: &mut [u8],
    span: Span,
    place: Place,
)
    ensures { let block = block_by declaration.now.rows.now span place.archetype in
        let sizes = part_by declaration.now.sizes.now span in
        let lent = seats_of archetypes.old indices.old (tables_of numbers.old counts.old bytes.old) in
        let left = seats_of archetypes.new indices.new (tables_of numbers.new counts.new bytes.new) in
        left ≡ vacated_seats block sizes lent place.archetype place.index.0 }
{
    let archetype = place.archetype as usize;
    let block = block_of(declaration.rows, span, archetype);
    let sizes = part_of(declaration.sizes, span);
    let moved = row_step::remove(numbers, counts, bytes, block, sizes, archetype, place.index);
    if let Some(number) = moved {
        id_tables::put_place(archetypes, indices, number, place);
    }
}

// Puts a number into the first unused row of the archetype that has this part of the tables, and a run of bytes in column
// order into that row's components.
pub fn seat(
    declaration: &Declaration<'_>,
    numbers: &mut [u32],
    counts: &mut [u32],
    bytes: &mut [u8],
    span: Span,
    archetype: usize,
    number: Number,
    run: &[u8],
)
    ensures { let block = block_by declaration.now.rows.now span archetype in
        let sizes = part_by declaration.now.sizes.now span in
        let lent = tables_of numbers.old counts.old bytes.old in
        tables_of numbers.new counts.new bytes.new ≡ seated_rows block sizes lent archetype number.0 run.now }
{
    let block = block_of(declaration.rows, span, archetype);
    let sizes = part_of(declaration.sizes, span);
    let count = id_tables::at(counts, archetype);
    if block.rows <= count {
        return;
    }
    let line = Line {
        start: block.base,
        rows: block.rows,
        row: count,
    };
    cells::transfer(run, Line::RUN, bytes, line, sizes);
    row_step::set_number(numbers, block.first, Row(count), number);
    id_tables::put(counts, archetype, count + 1);
}
