// Spawn at: an entity of a chosen handle, in a row of its own.
#![tactic(auto)]

ghost use Rattle.std.specs.Prelude.{◌≡◌};
ghost use Rattle.refusal.specs.Table.{Did, answer_of};
ghost use Rattle.handle.specs.Bits.{number_in};
ghost use Rattle.id_tables.specs.Ids.{ids_in, ids_of};
ghost use Rattle.decl.specs.Decl.{decl_in};
ghost use Rattle.row_step.specs.Tables.{rows_in, tables_of};
ghost use Rattle.column_entry.specs.Entry.{span_in};
ghost use Rattle.store_steps.specs.Parts.{block_by, part_by};
ghost use Rattle.store_steps.specs.Seats.{seats_of};
ghost use Rattle.store_tables.specs.Store.{store_in, store_of};
ghost use Rattle.store_tables.specs.Kept.{Entered};
ghost use Rattle.store_spawn_at.specs.SpawnAt.{spawning_at};
ghost use Rattle.store_spawn_at.specs.Seen.{Stands, Chooses, astray, leaving_from, full_seen, damaged_seen, Picks, cleared_seats, Reseats, Settles};

use borrow_word::any_held;
use decl::{Declaration, Span};
use handle::{Handle, MAX, Number, Place, Row};
use id_tables::{Head, IdTables, at};
use ids::is_pending;
use refusal::Refusal;
use row_step::RowTables;
use store_tables::{StoreTables, is_run_wrong};

// What the chosen number is: it is not live and can be taken, or its entry is damaged; it is live in a row of its own, whose archetype has this part of the tables, or no row is its own.
// An enum and no Result of an Option: the second and the last refuse with one number, but the rule has other tests between the two.
#[derive(Clone, Copy)]
enum Standing {
    Free,
    Damaged,
    Seated(Span, Place),
    Astray,
}

// Finds what the chosen number is.
fn standing_of(store: &StoreTables<'_>, number: Number) -> Standing
    requires { Entered (store_in store.now) }
    ensures { Stands (store_in store.now) number.0 result }
{
    let n = number.0 as usize;
    let head = store.ids.head;
    if head.used <= n {
        return Standing::Free;
    }
    if is_pending(head, store.ids.pending, number) {
        if store.ids.is_damaged(n) {
            return Standing::Damaged;
        }
        return Standing::Free;
    }
    let place = store.ids.place_at(n);
    if place.index == Row(MAX) {
        return Standing::Damaged;
    }
    let Some(span) = store.own_place(place, number) else {
        return Standing::Astray;
    };
    Standing::Seated(span, place)
}

// Whether the number is live and no row is its own.
fn is_astray(standing: Standing) -> bool
    ensures { result ≡ astray standing }
{
    matches!(standing, Standing::Astray)
}

// Whether the number's old row, which is to leave, is one of an archetype's.
fn is_leaving(standing: Standing, archetype: usize) -> bool
    ensures { result ≡ leaving_from standing archetype }
{
    match standing {
        Standing::Seated(_, old) => old.archetype as usize == archetype,
        _ => false,
    }
}

// Whether an archetype has no row for the number. The row that leaves makes room.
fn is_full(rows: &[u32], counts: &[u32], archetype: usize, standing: Standing) -> bool
    ensures { result ≡ full_seen rows.now counts.now archetype standing }
{
    if is_leaving(standing, archetype) {
        return false;
    }
    at(rows, archetype) <= at(counts, archetype)
}

// Whether an entry that is used is damaged: the chosen number's, or that of the number which falls into its old row.
fn is_any_damaged(store: &StoreTables<'_>, standing: Standing) -> bool
    ensures { let lent = store_in store.now in result ≡ damaged_seen lent.ids.head.used lent.ids.archetypes lent.ids.indices lent.rows.numbers lent.rows.counts standing }
{
    match standing {
        Standing::Seated(part, old) => store.is_moved_damaged(part.row, old),
        Standing::Damaged => true,
        _ => false,
    }
}

// What a spawn at tests of a handle's number: the number and what it is, once every test has passed.
fn choose(
    store: &StoreTables<'_>,
    handle: Handle,
    archetype: usize,
) -> Result<(Number, Standing), Refusal>
    requires { Entered (store_in store.now) }
    ensures { Chooses (store_in store.now) archetype (number_in handle.0) result }
{
    let number = handle.id();
    let standing = standing_of(store, number);
    let head = store.ids.head;
    let rows = store.declaration.rows;
    if !head.is_flushed() {
        return Err(Refusal::NotFlushed);
    }
    if rows.len() <= archetype {
        return Err(Refusal::BadPlace);
    }
    if is_astray(standing) {
        return Err(Refusal::Damaged);
    }
    if any_held(store.words) {
        return Err(Refusal::WordHeld);
    }
    if store.ids.generations.len() <= number.0 as usize {
        return Err(Refusal::NoRoom);
    }
    if is_full(rows, store.rows.counts, archetype, standing) {
        return Err(Refusal::NoRoom);
    }
    if is_any_damaged(store, standing) {
        return Err(Refusal::Damaged);
    }
    Ok((number, standing))
}

// What a spawn at tests, where its archetype has this part of the tables.
fn choice_for(
    declaration: &Declaration<'_>,
    ids: &IdTables<'_>,
    rows: &RowTables<'_>,
    words: &[u64],
    bits: u64,
    archetype: usize,
    run: &[u8],
    span: Span,
) -> Result<(Number, Standing), Refusal>
    requires { span ≡ span_in (decl_in declaration.now) archetype }
    ensures { let lent = store_of (decl_in declaration.now) (ids_in ids.now) (rows_in rows.now) words.now in
        Picks lent bits archetype run.now result }
{
    let store = StoreTables {
        declaration: *declaration,
        ids: *ids,
        rows: *rows,
        words,
    };
    let declared = declaration.rows.len();
    let short = is_run_wrong(declared, archetype, run.len(), span.bytes);
    store.tested(short)?;
    let Ok(handle) = Handle::from_bits(bits) else {
        return Err(Refusal::ZeroGeneration);
    };
    choose(&store, handle, archetype)
}

// The old row of a live number leaves.
fn make_way(
    declaration: &Declaration<'_>,
    archetypes: &mut [u32],
    indices: &mut [u32],
    numbers: &mut [u32],
    counts: &mut [u32],
    bytes: &mut [u8],
    standing: Standing,
)
    ensures { let lent = seats_of archetypes.old indices.old (tables_of numbers.old counts.old bytes.old) in
        let left = seats_of archetypes.new indices.new (tables_of numbers.new counts.new bytes.new) in
        left ≡ cleared_seats declaration.now.rows.now declaration.now.sizes.now lent standing }
{
    if let Standing::Seated(part, old) = standing {
        store_steps::vacate(
            declaration,
            archetypes,
            indices,
            numbers,
            counts,
            bytes,
            part,
            old,
        );
    }
}

// A live number's old row leaves; then the number takes the first unused row of an archetype. Answers that row's place.
fn reseat(
    declaration: &Declaration<'_>,
    archetypes: &mut [u32],
    indices: &mut [u32],
    numbers: &mut [u32],
    counts: &mut [u32],
    bytes: &mut [u8],
    standing: Standing,
    span: Span,
    archetype: u32,
    number: Number,
    run: &[u8],
) -> Place
    ensures { let lent = seats_of archetypes.old indices.old (tables_of numbers.old counts.old bytes.old) in
        let left = seats_of archetypes.new indices.new (tables_of numbers.new counts.new bytes.new) in
        let cleared = cleared_seats declaration.now.rows.now declaration.now.sizes.now lent standing in
        Reseats (block_by declaration.now.rows.now span archetype) (part_by declaration.now.sizes.now span) cleared archetype number.0 run.now result left }
{
    make_way(
        declaration,
        archetypes,
        indices,
        numbers,
        counts,
        bytes,
        standing,
    );
    let a = archetype as usize;
    let place = Place {
        archetype,
        index: Row(at(counts, a)),
    };
    store_steps::seat(declaration, numbers, counts, bytes, span, a, number, run);
    place
}

// The number takes its row, and the id layer has that as its place.
fn settle(
    head: &mut Head,
    declaration: &Declaration<'_>,
    generations: &mut [u32],
    archetypes: &mut [u32],
    indices: &mut [u32],
    pending: &mut [u32],
    numbers: &mut [u32],
    counts: &mut [u32],
    bytes: &mut [u8],
    bits: u64,
    number: Number,
    archetype: u32,
    run: &[u8],
    span: Span,
    standing: Standing,
) -> Result<Option<Place>, Refusal>
    ensures { let seats = seats_of archetypes.old indices.old (tables_of numbers.old counts.old bytes.old) in
        let cleared = cleared_seats declaration.now.rows.now declaration.now.sizes.now seats standing in
        let left = ids_of head.new generations.new archetypes.new indices.new pending.new in
        Settles (block_by declaration.now.rows.now span archetype) (part_by declaration.now.sizes.now span) cleared head.old generations.old pending.old archetype bits number.0 run.now result left (tables_of numbers.new counts.new bytes.new) }
{
    let place = reseat(
        declaration,
        archetypes,
        indices,
        numbers,
        counts,
        bytes,
        standing,
        span,
        archetype,
        number,
        run,
    );
    ids::alloc_at(head, generations, archetypes, indices, pending, bits, place)
}

// Makes an entity of this handle and these components. A live number's old row leaves first.
// The tables stay slices: the calls write twelve sets of them, and each clause on a struct of `&mut` would have to say that its references are the same as before.
pub fn spawn_at(
    head: &mut Head,
    declaration: &Declaration<'_>,
    generations: &mut [u32],
    archetypes: &mut [u32],
    indices: &mut [u32],
    pending: &mut [u32],
    numbers: &mut [u32],
    counts: &mut [u32],
    bytes: &mut [u8],
    words: &[u64],
    bits: u64,
    archetype: u32,
    run: &[u8],
) -> Result<(), Refusal>
    ensures { let lent = store_of (decl_in declaration.now) (ids_of head.old generations.old archetypes.old indices.old pending.old) (tables_of numbers.old counts.old bytes.old) words.now in
        let left = store_of (decl_in declaration.now) (ids_of head.new generations.new archetypes.new indices.new pending.new) (tables_of numbers.new counts.new bytes.new) words.now in
        Did (spawning_at lent bits archetype run.now) lent (answer_of result) left }
{
    let a = archetype as usize;
    let span = column_entry::span(declaration, a);
    let ids = IdTables {
        head: *head,
        generations,
        archetypes,
        indices,
        pending,
    };
    let rows = RowTables {
        numbers,
        counts,
        bytes,
    };
    let (number, standing) = choice_for(declaration, &ids, &rows, words, bits, a, run, span)?;
    settle(
        head,
        declaration,
        generations,
        archetypes,
        indices,
        pending,
        numbers,
        counts,
        bytes,
        bits,
        number,
        archetype,
        run,
        span,
        standing,
    )?;
    Ok(())
}
