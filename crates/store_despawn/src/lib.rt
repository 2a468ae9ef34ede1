// Despawn: an entity and its row leave the store.
#![tactic(auto)]

ghost use Rattle.std.specs.Prelude.{◌≡◌};
ghost use Rattle.refusal.specs.Table.{Did, answer_of};
ghost use Rattle.handle.specs.Bits.{generation_in, number_in};
ghost use Rattle.id_tables.specs.Ids.{ids_in, ids_of};
ghost use Rattle.decl.specs.Decl.{decl_in};
ghost use Rattle.row_step.specs.Tables.{rows_in, tables_of};
ghost use Rattle.store_steps.specs.Parts.{block_by, part_by};
ghost use Rattle.store_steps.specs.Seats.{seats_of, vacated_seats};
ghost use Rattle.store_tables.specs.Store.{store_in, store_of};
ghost use Rattle.store_tables.specs.Kept.{Entered};
ghost use Rattle.store_despawn.specs.Despawn.{despawning};
ghost use Rattle.store_despawn.specs.Seen.{leaving, Finds, Leaves};

use borrow_word::any_held;
use decl::{Declaration, Span};
use handle::{Handle, Place};
use id_tables::{Head, IdTables};
use refusal::Refusal;
use row_step::RowTables;
use store_tables::StoreTables;

// What a despawn tests of a handle: the row that leaves, as its archetype's part of the tables and its place.
fn row_leaving(store: &StoreTables<'_>, handle: Handle) -> Result<(Span, Place), Refusal>
    requires { Entered (store_in store.now) }
    ensures { answer_of result ≡ leaving (store_in store.now) (generation_in handle.0) (number_in handle.0) }
{
    let (span, place) = store.entity_at(handle)?;
    if any_held(store.words) {
        return Err(Refusal::WordHeld);
    }
    let head = store.ids.head;
    if head.live == 0 {
        return Err(Refusal::Damaged);
    }
    if store.is_moved_damaged(span.row, place) {
        return Err(Refusal::Damaged);
    }
    Ok((span, place))
}

// The row of the entity that a despawn ends, or why it is refused.
fn row_for(
    declaration: &Declaration<'_>,
    ids: &IdTables<'_>,
    rows: &RowTables<'_>,
    words: &[u64],
    bits: u64,
) -> Result<(Span, Place), Refusal>
    ensures { Finds (store_of (decl_in declaration.now) (ids_in ids.now) (rows_in rows.now) words.now) bits result }
{
    let store = StoreTables {
        declaration: *declaration,
        ids: *ids,
        rows: *rows,
        words,
    };
    store.tested(false)?;
    let Ok(handle) = Handle::from_bits(bits) else {
        return Err(Refusal::ZeroGeneration);
    };
    row_leaving(&store, handle)
}

// The row leaves, then the number is freed.
fn leave(
    head: &mut Head,
    declaration: &Declaration<'_>,
    generations: &mut [u32],
    archetypes: &mut [u32],
    indices: &mut [u32],
    pending: &mut [u32],
    numbers: &mut [u32],
    counts: &mut [u32],
    bytes: &mut [u8],
    bits: u64,
    span: Span,
    place: Place,
) -> Result<Place, Refusal>
    ensures { let seats = seats_of archetypes.old indices.old (tables_of numbers.old counts.old bytes.old) in
        let vacant = vacated_seats (block_by declaration.now.rows.now span place.archetype) (part_by declaration.now.sizes.now span) seats place.archetype place.index.0 in
        let left = ids_of head.new generations.new archetypes.new indices.new pending.new in
        Leaves vacant head.old generations.old pending.old bits result left (tables_of numbers.new counts.new bytes.new) }
{
    store_steps::vacate(
        declaration,
        archetypes,
        indices,
        numbers,
        counts,
        bytes,
        span,
        place,
    );
    ids::free(head, generations, archetypes, indices, pending, bits)
}

// Ends an entity. The tables stay slices: the calls write twelve sets of them, and each clause on a struct of `&mut` would have to say that its references are the same as before.
pub fn despawn(
    head: &mut Head,
    declaration: &Declaration<'_>,
    generations: &mut [u32],
    archetypes: &mut [u32],
    indices: &mut [u32],
    pending: &mut [u32],
    numbers: &mut [u32],
    counts: &mut [u32],
    bytes: &mut [u8],
    words: &[u64],
    bits: u64,
) -> Result<(), Refusal>
    ensures { let lent = store_of (decl_in declaration.now) (ids_of head.old generations.old archetypes.old indices.old pending.old) (tables_of numbers.old counts.old bytes.old) words.now in
        let left = store_of (decl_in declaration.now) (ids_of head.new generations.new archetypes.new indices.new pending.new) (tables_of numbers.new counts.new bytes.new) words.now in
        Did (despawning lent bits) lent (answer_of result) left }
{
    let ids = IdTables {
        head: *head,
        generations,
        archetypes,
        indices,
        pending,
    };
    let rows = RowTables {
        numbers,
        counts,
        bytes,
    };
    let (span, place) = row_for(declaration, &ids, &rows, words, bits)?;
    leave(
        head,
        declaration,
        generations,
        archetypes,
        indices,
        pending,
        numbers,
        counts,
        bytes,
        bits,
        span,
        place,
    )?;
    Ok(())
}
