// Insert a component: the row moves to the archetype with that type too, or a component that is held is overwritten.
#![tactic(auto)]

ghost use Rattle.std.specs.Prelude.{◌≡◌, ◌<◌, length};
ghost use Rattle.refusal.specs.Table.{Did, answer_of};
ghost use Rattle.id_tables.specs.Ids.{ids_of, ids_in, place_at};
ghost use Rattle.decl.specs.Decl.{decl_in, archetypes as declared, rows_of, types_of, sizes_of, size_of};
ghost use Rattle.decl.specs.Places.{span_of, cell_start, base_of};
ghost use Rattle.decl.specs.Lookup.{column_of};
ghost use Rattle.cells.specs.Cell.{put};
ghost use Rattle.row_step.specs.Tables.{tables_of, rows_in};
ghost use Rattle.column_entry.specs.Entry.{block_in};
ghost use Rattle.column_entry.specs.Kept.{Kept};
ghost use Rattle.store_steps.specs.Seats.{seats_of};
ghost use Rattle.store_tables.specs.Store.{store_of, store_in};
ghost use Rattle.store_tables.specs.Rows.{archetype_of};
ghost use Rattle.store_tables.specs.Kept.{Entered};
ghost use Rattle.store_moves.specs.Target.{types_before, with_type};
ghost use Rattle.store_moves.specs.Moves.{run_with};
ghost use Rattle.store_moves.specs.Steps.{moved_seats};
ghost use Rattle.store_moves.specs.Kept.{Moving};
ghost use Rattle.store_insert.specs.Insert.{inserting};
ghost use Rattle.store_insert.specs.Seen.{way_for, Finds};

use borrow_word::any_held;
use cells::Line;
use decl::{Declaration, Span};
use handle::{Handle, Number, Place};
use id_tables::{Head, IdTables, at};
use refusal::Refusal;
use row_step::RowTables;
use store_moves::{Change, ROOM, gather, move_row, move_tested, target_of, types_before};
use store_steps::part_of;
use store_tables::StoreTables;

// How a component comes in: over the one in a column; or the row moves to an archetype that has the type in this column.
#[derive(Clone, Copy, Debug, PartialEq, Eq)]
enum Way {
    Over(usize),
    Into(usize, u32),
}

// What an insert tests of an entity at a place.
fn way_for(
    store: &StoreTables<'_>,
    span: Span,
    place: Place,
    number: Number,
    kind: u32,
) -> Result<Way, Refusal>
    requires entered { Entered (store_in store.now) }
    requires span_value { let s = store_in store.now in
        (span ≡ span_of s.decl (archetype_of s number.0)) × (place ≡ place_at s.ids number.0) }
    ensures { let s = store_in store.now in
        answer_of result ≡ way_for s number.0 kind (column_of (types_of s.decl (archetype_of s number.0)) kind) }
{
    let own = part_of(store.declaration.types, span);
    if let Some(j) = decl::find(own, kind) {
        if any_held(store.words) {
            return Err(Refusal::WordHeld);
        }
        return Ok(Way::Over(j));
    }
    let column = types_before(own, kind);
    let Some(b) = target_of(&store.declaration, own, column, Change::Added(kind)) else {
        return Err(Refusal::NoTarget);
    };
    move_tested(store, span.row, place, b)?;
    Ok(Way::Into(column, b as u32))
}

// The entity's row and how the component comes in, or why the insert is refused. The views are lent apart, and the store is
// made of them here: tried with one struct of them all, the check has no proof: it meets references at two lifetimes.
fn row_for(
    declaration: &Declaration<'_>,
    ids: &IdTables<'_>,
    rows: &RowTables<'_>,
    words: &[u64],
    bits: u64,
    kind: u32,
    value: &[u8],
) -> Result<(Span, Place, Number, Way), Refusal>
    ensures { Finds (store_of (decl_in declaration.now) (ids_in ids.now) (rows_in rows.now) words.now) bits kind value.now result }
{
    let short = column_entry::wrong_size(declaration.types, declaration.sizes, kind, value.len());
    let store = StoreTables {
        declaration: *declaration,
        ids: *ids,
        rows: *rows,
        words,
    };
    store.tested(short)?;
    let Ok(handle) = Handle::from_bits(bits) else {
        return Err(Refusal::ZeroGeneration);
    };
    let (span, place) = store.entity_at(handle)?;
    let number = handle.id();
    let way = way_for(&store, span, place, number, kind)?;
    Ok((span, place, number, way))
}

// The value over the component in a column.
fn overwrite(
    declaration: &Declaration<'_>,
    bytes: &mut [u8],
    span: Span,
    place: Place,
    column: usize,
    kind: u32,
    value: &[u8],
)
    requires kept { Kept (decl_in declaration.now) }
    requires span_value { let d = decl_in declaration.now in
        (span ≡ span_of d place.archetype) × (place.archetype < declared d) × (place.index.0 < rows_of d place.archetype) × (length bytes.old ≡ base_of d (declared d)) }
    requires kind_value { let d = decl_in declaration.now in
        (column_of (types_of d place.archetype) kind ≡ Some column) × (length value.now ≡ size_of d place.archetype column) }
    ensures { bytes.new ≡ put bytes.old (cell_start (decl_in declaration.now) place.archetype column place.index.0) value.now }
{
    let from = span.column;
    let to = span.column + column;
    let row = place.index;
    let line = Line {
        start: span.base,
        rows: at(declaration.rows, place.archetype as usize),
        row: row.0,
    };
    let here = line.past(&declaration.sizes[from..to]);
    cells::write(bytes, here.cell(at(declaration.sizes, to)), value);
}

// The row moves to the target, with the value in its column.
fn take_in(
    declaration: &Declaration<'_>,
    archetypes: &mut [u32],
    indices: &mut [u32],
    numbers: &mut [u32],
    counts: &mut [u32],
    bytes: &mut [u8],
    span: Span,
    place: Place,
    number: Number,
    column: usize,
    target: u32,
    kind: u32,
    value: &[u8],
)
    requires moving { Moving (decl_in declaration.now) (tables_of numbers.old counts.old bytes.old) place.archetype place.index.0 target }
    requires span_value { let d = decl_in declaration.now in
        (span ≡ span_of d place.archetype) × (column ≡ types_before kind (types_of d place.archetype)) }
    requires target_value { let d = decl_in declaration.now in
        (types_of d target ≡ with_type kind (types_of d place.archetype)) × (length value.now ≡ size_of d target (types_before kind (types_of d place.archetype))) }
    ensures { let d = decl_in declaration.now in
        let lent = seats_of archetypes.old indices.old (tables_of numbers.old counts.old bytes.old) in
        let run = run_with d lent.rows place.archetype place.index.0 kind value.now in
        seats_of archetypes.new indices.new (tables_of numbers.new counts.new bytes.new) ≡ moved_seats (block_in d place.archetype) (sizes_of d place.archetype) (block_in d target) (sizes_of d target) lent place.archetype place.index.0 target number.0 run }
{
    let there = column_entry::span(declaration, target as usize);
    let size = at(declaration.sizes, there.column + column);
    let mut run = [0u8; ROOM];
    gather(
        &mut run,
        declaration,
        bytes,
        span,
        place,
        column,
        column,
        size,
        value,
    );
    move_row(
        declaration,
        archetypes,
        indices,
        numbers,
        counts,
        bytes,
        span,
        there,
        place,
        target,
        number,
        &run,
    );
}

// Gives an entity a component of a type. The tables stay slices: the calls write twelve sets of them, and each clause on a struct of `&mut` would have to say that its references are the same as before.
pub fn insert(
    head: Head,
    declaration: &Declaration<'_>,
    generations: &[u32],
    archetypes: &mut [u32],
    indices: &mut [u32],
    pending: &[u32],
    numbers: &mut [u32],
    counts: &mut [u32],
    bytes: &mut [u8],
    words: &[u64],
    bits: u64,
    kind: u32,
    value: &[u8],
) -> Result<(), Refusal>
    ensures { let decl = decl_in declaration.now in
        let lent = store_of decl (ids_of head generations.now archetypes.old indices.old pending.now) (tables_of numbers.old counts.old bytes.old) words.now in
        let left = store_of decl (ids_of head generations.now archetypes.new indices.new pending.now) (tables_of numbers.new counts.new bytes.new) words.now in
        Did (inserting lent bits kind value.now) lent (answer_of result) left }
{
    let rows = RowTables {
        numbers,
        counts,
        bytes,
    };
    let ids = IdTables {
        head,
        generations,
        archetypes,
        indices,
        pending,
    };
    let (span, place, number, way) = row_for(declaration, &ids, &rows, words, bits, kind, value)?;
    match way {
        Way::Over(column) => overwrite(declaration, bytes, span, place, column, kind, value),
        Way::Into(column, target) => take_in(
            declaration,
            archetypes,
            indices,
            numbers,
            counts,
            bytes,
            span,
            place,
            number,
            column,
            target,
            kind,
            value,
        ),
    }
    Ok(())
}
