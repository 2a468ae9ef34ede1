// Spawn: a new entity in a row of its own.
#![tactic(auto)]

ghost use Rattle.std.specs.Prelude.{true, ◌≡◌, ◌≤◌, ltb};
ghost use Rattle.refusal.specs.Table.{Did, answer_of, passing};
ghost use Rattle.handle.specs.Bits.{handle_of};
ghost use Rattle.id_tables.specs.Head.{flushed, room_in};
ghost use Rattle.id_tables.specs.Ids.{ids_in, ids_of};
ghost use Rattle.decl.specs.Decl.{decl_in};
ghost use Rattle.row_step.specs.Tables.{rows_in, tables_of};
ghost use Rattle.store_tables.specs.Store.{store_in, store_of};
ghost use Rattle.store_tables.specs.Kept.{Entered};
ghost use Rattle.store_spawn.specs.Spawn.{next_damaged, spawn_rules, spawning};
ghost use Rattle.store_spawn.specs.Seen.{Admits};

use borrow_word::any_held;
use decl::{Declaration, Span};
use handle::{Handle, Place, Row};
use id_tables::{Head, IdTables, at};
use refusal::Refusal;
use row_step::RowTables;
use store_tables::{StoreTables, is_run_wrong};

// Whether no number is left, where nothing is reserved.
fn is_full(head: Head, capacity: usize) -> bool
    requires head_value { flushed head ≡ true }
    requires used_le_capacity { head.used ≤ capacity }
    ensures { result ≡ ltb (room_in head capacity) 1 }
{
    if head.pending != 0 {
        return false;
    }
    capacity <= head.used
}

// Whether the next number is a pending one that is damaged.
fn is_next_damaged(ids: &IdTables<'_>) -> bool
    ensures { result ≡ next_damaged (ids_in ids.now) }
{
    let head = ids.head;
    if head.pending == 0 {
        return false;
    }
    let last = at(ids.pending, head.pending - 1);
    ids.is_damaged(last as usize)
}

// What a spawn tests after the first tests.
fn spawn_tested(store: &StoreTables<'_>, archetype: usize) -> Result<(), Refusal>
    requires { Entered (store_in store.now) }
    ensures { answer_of result ≡ passing (spawn_rules (store_in store.now) archetype) }
{
    let head = store.ids.head;
    let rows = store.declaration.rows;
    if !head.is_flushed() {
        return Err(Refusal::NotFlushed);
    }
    if rows.len() <= archetype {
        return Err(Refusal::BadPlace);
    }
    if any_held(store.words) {
        return Err(Refusal::WordHeld);
    }
    if is_full(head, store.ids.generations.len()) {
        return Err(Refusal::NoRoom);
    }
    if at(rows, archetype) <= at(store.rows.counts, archetype) {
        return Err(Refusal::NoRoom);
    }
    if is_next_damaged(&store.ids) {
        return Err(Refusal::Damaged);
    }
    Ok(())
}

// The part of the tables that the archetype of a spawn has, or why it is refused.
fn span_for(
    declaration: &Declaration<'_>,
    ids: &IdTables<'_>,
    rows: &RowTables<'_>,
    words: &[u64],
    archetype: usize,
    run: &[u8],
) -> Result<Span, Refusal>
    ensures { let lent = store_of (decl_in declaration.now) (ids_in ids.now) (rows_in rows.now) words.now in
        Admits lent archetype run.now result }
{
    let store = StoreTables {
        declaration: *declaration,
        ids: *ids,
        rows: *rows,
        words,
    };
    let span = column_entry::span(declaration, archetype);
    let declared = declaration.rows.len();
    let short = is_run_wrong(declared, archetype, run.len(), span.bytes);
    store.tested(short)?;
    spawn_tested(&store, archetype)?;
    Ok(span)
}

// The next number takes the first unused row.
fn take_row(
    head: &mut Head,
    declaration: &Declaration<'_>,
    generations: &mut [u32],
    archetypes: &mut [u32],
    indices: &mut [u32],
    pending: &[u32],
    numbers: &mut [u32],
    counts: &mut [u32],
    bytes: &mut [u8],
    words: &[u64],
    archetype: u32,
    run: &[u8],
    span: Span,
) -> Result<Handle, Refusal>
    requires { let lent = store_of (decl_in declaration.now) (ids_of head.old generations.old archetypes.old indices.old pending.now) (tables_of numbers.old counts.old bytes.old) words.now in
        Admits lent archetype run.now (Ok span) }
    ensures { let lent = store_of (decl_in declaration.now) (ids_of head.old generations.old archetypes.old indices.old pending.now) (tables_of numbers.old counts.old bytes.old) words.now in
        let left = store_of (decl_in declaration.now) (ids_of head.new generations.new archetypes.new indices.new pending.now) (tables_of numbers.new counts.new bytes.new) words.now in
        Did (spawning lent archetype run.now) lent (handle_of result) left }
{
    let a = archetype as usize;
    let place = Place {
        archetype,
        index: Row(at(counts, a)),
    };
    let handle = ids::alloc(head, generations, archetypes, indices, pending, place)?;
    let number = handle.id();
    store_steps::seat(declaration, numbers, counts, bytes, span, a, number, run);
    Ok(handle)
}

// Makes an entity of these components. The tables stay slices: the calls write twelve sets of them, and each clause on a struct of `&mut` would have to say that its references are the same as before.
pub fn spawn(
    head: &mut Head,
    declaration: &Declaration<'_>,
    generations: &mut [u32],
    archetypes: &mut [u32],
    indices: &mut [u32],
    pending: &[u32],
    numbers: &mut [u32],
    counts: &mut [u32],
    bytes: &mut [u8],
    words: &[u64],
    archetype: u32,
    run: &[u8],
) -> Result<Handle, Refusal>
    ensures { let lent = store_of (decl_in declaration.now) (ids_of head.old generations.old archetypes.old indices.old pending.now) (tables_of numbers.old counts.old bytes.old) words.now in
        let left = store_of (decl_in declaration.now) (ids_of head.new generations.new archetypes.new indices.new pending.now) (tables_of numbers.new counts.new bytes.new) words.now in
        Did (spawning lent archetype run.now) lent (handle_of result) left }
{
    let a = archetype as usize;
    let ids = IdTables {
        head: *head,
        generations,
        archetypes,
        indices,
        pending,
    };
    let rows = RowTables {
        numbers,
        counts,
        bytes,
    };
    let span = span_for(declaration, &ids, &rows, words, a, run)?;
    take_row(
        head,
        declaration,
        generations,
        archetypes,
        indices,
        pending,
        numbers,
        counts,
        bytes,
        words,
        archetype,
        run,
        span,
    )
}
