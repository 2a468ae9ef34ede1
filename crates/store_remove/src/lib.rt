// Remove a component: the row moves to the archetype of its other types.
#![tactic(auto)]

ghost use Rattle.std.specs.Prelude.{◌≡◌, ◌<◌};
ghost use Rattle.refusal.specs.Table.{Did, answer_of};
ghost use Rattle.id_tables.specs.Ids.{ids_of, ids_in, place_at};
ghost use Rattle.decl.specs.Decl.{decl_in, width_of, types_of, sizes_of};
ghost use Rattle.decl.specs.Places.{span_of};
ghost use Rattle.decl.specs.Lookup.{column_of};
ghost use Rattle.row_step.specs.Tables.{tables_of, rows_in};
ghost use Rattle.column_entry.specs.Entry.{block_in};
ghost use Rattle.store_steps.specs.Seats.{seats_of};
ghost use Rattle.store_tables.specs.Store.{store_of, store_in};
ghost use Rattle.store_tables.specs.Rows.{archetype_of};
ghost use Rattle.store_tables.specs.Kept.{Entered};
ghost use Rattle.store_moves.specs.Target.{without_type};
ghost use Rattle.store_moves.specs.Moves.{run_without};
ghost use Rattle.store_moves.specs.Steps.{moved_seats};
ghost use Rattle.store_moves.specs.Kept.{Moving};
ghost use Rattle.store_remove.specs.Remove.{removing};
ghost use Rattle.store_remove.specs.Seen.{way_for, Finds};

use decl::{Declaration, Span};
use handle::{Handle, Number, Place};
use id_tables::{Head, IdTables};
use refusal::Refusal;
use row_step::RowTables;
use store_moves::{Change, ROOM, gather, move_row, move_tested, target_of};
use store_steps::part_of;
use store_tables::StoreTables;

// How a component goes: its column, and the archetype that the row moves to.
#[derive(Clone, Copy, Debug, PartialEq, Eq)]
struct Way {
    column: usize,
    target: u32,
}

// What a remove tests of an entity at a place.
fn way_for(
    store: &StoreTables<'_>,
    span: Span,
    place: Place,
    number: Number,
    kind: u32,
) -> Result<Way, Refusal>
    requires entered { Entered (store_in store.now) }
    requires span_value { let s = store_in store.now in
        (span ≡ span_of s.decl (archetype_of s number.0)) × (place ≡ place_at s.ids number.0) }
    ensures { let s = store_in store.now in
        answer_of result ≡ way_for s number.0 (column_of (types_of s.decl (archetype_of s number.0)) kind) }
{
    let own = part_of(store.declaration.types, span);
    let Some(column) = decl::find(own, kind) else {
        return Err(Refusal::NoComponent);
    };
    let Some(b) = target_of(&store.declaration, own, column, Change::Taken) else {
        return Err(Refusal::NoTarget);
    };
    move_tested(store, span.row, place, b)?;
    Ok(Way {
        column,
        target: b as u32,
    })
}

// The entity's row and how the component goes, or why the remove is refused. The views are lent apart, and the store is made
// of them here: tried with one struct of them all, the check has no proof: it meets references at two lifetimes.
fn row_for(
    declaration: &Declaration<'_>,
    ids: &IdTables<'_>,
    rows: &RowTables<'_>,
    words: &[u64],
    bits: u64,
    kind: u32,
) -> Result<(Span, Place, Number, Way), Refusal>
    ensures { Finds (store_of (decl_in declaration.now) (ids_in ids.now) (rows_in rows.now) words.now) bits kind result }
{
    let store = StoreTables {
        declaration: *declaration,
        ids: *ids,
        rows: *rows,
        words,
    };
    store.tested(false)?;
    let Ok(handle) = Handle::from_bits(bits) else {
        return Err(Refusal::ZeroGeneration);
    };
    let (span, place) = store.entity_at(handle)?;
    let number = handle.id();
    let way = way_for(&store, span, place, number, kind)?;
    Ok((span, place, number, way))
}

// The row moves to the target, without a column.
fn take_out(
    declaration: &Declaration<'_>,
    archetypes: &mut [u32],
    indices: &mut [u32],
    numbers: &mut [u32],
    counts: &mut [u32],
    bytes: &mut [u8],
    span: Span,
    place: Place,
    number: Number,
    column: usize,
    target: u32,
)
    requires moving { Moving (decl_in declaration.now) (tables_of numbers.old counts.old bytes.old) place.archetype place.index.0 target }
    requires span_value { let d = decl_in declaration.now in
        (span ≡ span_of d place.archetype) × (column < width_of d place.archetype) × (types_of d target ≡ without_type column (types_of d place.archetype)) }
    ensures { let d = decl_in declaration.now in
        let lent = seats_of archetypes.old indices.old (tables_of numbers.old counts.old bytes.old) in
        let run = run_without d lent.rows place.archetype place.index.0 column in
        seats_of archetypes.new indices.new (tables_of numbers.new counts.new bytes.new) ≡ moved_seats (block_in d place.archetype) (sizes_of d place.archetype) (block_in d target) (sizes_of d target) lent place.archetype place.index.0 target number.0 run }
{
    let there = column_entry::span(declaration, target as usize);
    let mut run = [0u8; ROOM];
    gather(
        &mut run,
        declaration,
        bytes,
        span,
        place,
        column,
        column + 1,
        0,
        &[],
    );
    move_row(
        declaration,
        archetypes,
        indices,
        numbers,
        counts,
        bytes,
        span,
        there,
        place,
        target,
        number,
        &run,
    );
}

// Takes a component of a type from an entity. The tables stay slices: the calls write twelve sets of them, and each clause on a struct of `&mut` would have to say that its references are the same as before.
pub fn remove(
    head: Head,
    declaration: &Declaration<'_>,
    generations: &[u32],
    archetypes: &mut [u32],
    indices: &mut [u32],
    pending: &[u32],
    numbers: &mut [u32],
    counts: &mut [u32],
    bytes: &mut [u8],
    words: &[u64],
    bits: u64,
    kind: u32,
) -> Result<(), Refusal>
    ensures { let decl = decl_in declaration.now in
        let lent = store_of decl (ids_of head generations.now archetypes.old indices.old pending.now) (tables_of numbers.old counts.old bytes.old) words.now in
        let left = store_of decl (ids_of head generations.now archetypes.new indices.new pending.now) (tables_of numbers.new counts.new bytes.new) words.now in
        Did (removing lent bits kind) lent (answer_of result) left }
{
    let rows = RowTables {
        numbers,
        counts,
        bytes,
    };
    let ids = IdTables {
        head,
        generations,
        archetypes,
        indices,
        pending,
    };
    let (span, place, number, way) = row_for(declaration, &ids, &rows, words, bits, kind)?;
    take_out(
        declaration,
        archetypes,
        indices,
        numbers,
        counts,
        bytes,
        span,
        place,
        number,
        way.column,
        way.target,
    );
    Ok(())
}
