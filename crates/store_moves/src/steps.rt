// The step of a move, over any tables: a row's bytes are gathered, then its number and they go to another archetype's first unused row.
ghost use Rattle.std.specs.Prelude.{◌≡◌, get_or};
ghost use Rattle.cells.specs.Line.{line_of};
ghost use Rattle.row_step.specs.Tables.{tables_of};
ghost use Rattle.store_steps.specs.Parts.{block_by, part_by};
ghost use Rattle.store_steps.specs.Seats.{seats_of};
ghost use Rattle.store_moves.specs.Steps.{joined, gathered, moved_seats};

use cells::Line;
use decl::{Declaration, Span};
use handle::{Number, Place, Row};
use id_tables::at;
use store_steps::part_of;

// Fills a buffer with the cells of a row's columns before, a value of `size` bytes, and the cells of the columns after.
fn join(
    out: &mut [u8],
    bytes: &[u8],
    row: Line,
    before: &[u32],
    size: u32,
    value: &[u8],
    rest: Line,
    after: &[u32],
)
    ensures { out.new ≡ joined out.old bytes.now row before.now size value.now rest after.now }
{
    let gap = Line::RUN.past(before);
    cells::transfer(bytes, row, out, Line::RUN, before);
    cells::write(out, gap.start, value);
    cells::transfer(bytes, rest, out, gap.next(size), after);
}

// The same of a row's columns before `column`, and of those from `past` on.
fn gather_row(
    out: &mut [u8],
    bytes: &[u8],
    row: Line,
    own: &[u32],
    column: usize,
    past: usize,
    size: u32,
    value: &[u8],
)
    ensures { out.new ≡ gathered out.old bytes.now row own.now column past size value.now }
{
    let middle = usize::min(column, own.len());
    let last = usize::min(past, own.len());
    let rest = row.past(&own[..last]);
    join(
        out,
        bytes,
        row,
        &own[..middle],
        size,
        value,
        rest,
        &own[last..],
    );
}

// Fills a buffer with the bytes of the row at a place, in column order, where a value of `size` bytes stands for the columns
// from `column` to `past`. `size` stands beside `value`: a column's size has 32 bits, and a slice's length may have more.
pub fn gather(
    out: &mut [u8],
    declaration: &Declaration<'_>,
    bytes: &[u8],
    span: Span,
    place: Place,
    column: usize,
    past: usize,
    size: u32,
    value: &[u8],
)
    ensures { out.new ≡ gathered out.old bytes.now (line_of span.base (get_or declaration.now.rows.now place.archetype 0) place.index.0) (part_by declaration.now.sizes.now span) column past size value.now }
{
    let index = place.index;
    let row = Line {
        start: span.base,
        rows: at(declaration.rows, place.archetype as usize),
        row: index.0,
    };
    let own = part_of(declaration.sizes, span);
    gather_row(out, bytes, row, own, column, past, size, value);
}

// Moves the row at a place, with its number and these bytes, to the first unused row of the target, and writes the places of
// its number and of the one that falls into the hole. `here` and `there` are the archetypes' parts of the tables.
// These stay slices: the calls write twelve sets of them, and each clause on a struct of `&mut` would have to say that its
// references are the same as before.
pub fn move_row(
    declaration: &Declaration<'_>,
    archetypes: &mut [u32],
    indices: &mut [u32],
    numbers: &mut [u32],
    counts: &mut [u32],
    bytes: &mut [u8],
    here: Span,
    there: Span,
    place: Place,
    target: u32,
    number: Number,
    run: &[u8],
)
    ensures { let rows = declaration.now.rows.now in
        let sizes = declaration.now.sizes.now in
        let lent = seats_of archetypes.old indices.old (tables_of numbers.old counts.old bytes.old) in
        seats_of archetypes.new indices.new (tables_of numbers.new counts.new bytes.new) ≡ moved_seats (block_by rows here place.archetype) (part_by sizes here) (block_by rows there target) (part_by sizes there) lent place.archetype place.index.0 target number.0 run.now }
{
    let b = target as usize;
    let next = Place {
        archetype: target,
        index: Row(at(counts, b)),
    };
    store_steps::seat(declaration, numbers, counts, bytes, there, b, number, run);
    store_steps::vacate(
        declaration,
        archetypes,
        indices,
        numbers,
        counts,
        bytes,
        here,
        place,
    );
    id_tables::put_place(archetypes, indices, number, next);
}
