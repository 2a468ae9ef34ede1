// What another language links of the store's calls that look at no row: reserve one, reserve n, the free list; and clear. Every call answers the refusal's number, 0 where it is granted; a head is four numbers: used, pending, the cursor in two's complement, live. Each takes its tables as slices side by side, since C lends them so, and makes the views of them.
#![tactic(auto)]

ghost use Rattle.store_reserve.specs.Reserve.{reserving, reserving_many, listing_free};
ghost use Rattle.store_flush.specs.Clear.{clearing};
ghost use Rattle.crossing.specs.Answers.{Crossed, Passed, number_four};
ghost use Rattle.id_tables.specs.Ids.{ids_of};
ghost use Rattle.decl.specs.Decl.{decl_of};
ghost use Rattle.row_step.specs.Tables.{tables_of};
ghost use Rattle.store_tables.specs.Store.{store_of};
ghost use Rattle.crossing.specs.Words.{head_of};

use crossing::{code, cross, head_of, put_head};
use decl::Declaration;
use id_tables::IdTables;
use row_step::RowTables;
use store_tables::StoreTables;

// A handle before its row. Out: the handle.
pub fn verdict_store_reserve_entity(
    head: &mut [u64; 4],
    rows: &[u32],
    widths: &[u32],
    types: &[u32],
    sizes: &[u32],
    generations: &[u32],
    archetypes: &[u32],
    indices: &[u32],
    pending: &[u32],
    numbers: &[u32],
    counts: &[u32],
    bytes: &[u8],
    words: &[u64],
    out: &mut [u64; 4],
) -> u32
    ensures { let lent = store_of (decl_of rows.now widths.now types.now sizes.now) (ids_of (head_of head.old) generations.now archetypes.now indices.now pending.now) (tables_of numbers.now counts.now bytes.now) words.now in
        let left = store_of (decl_of rows.now widths.now types.now sizes.now) (ids_of (head_of head.new) generations.now archetypes.now indices.now pending.now) (tables_of numbers.now counts.now bytes.now) words.now in
        Crossed number_four (reserving lent) lent result out.new left }
{
    let mut store = StoreTables {
        declaration: Declaration {
            rows,
            widths,
            types,
            sizes,
        },
        ids: IdTables {
            head: head_of(head),
            generations,
            archetypes,
            indices,
            pending,
        },
        rows: RowTables {
            numbers,
            counts,
            bytes,
        },
        words,
    };
    let answer = store_reserve::reserve_entity(&mut store);
    put_head(head, store.ids.head);
    cross(out, answer)
}

// n handles before their rows, into `handles`, whose rest stays.
pub fn verdict_store_reserve_entities(
    head: &mut [u64; 4],
    rows: &[u32],
    widths: &[u32],
    types: &[u32],
    sizes: &[u32],
    generations: &[u32],
    archetypes: &[u32],
    indices: &[u32],
    pending: &[u32],
    numbers: &[u32],
    counts: &[u32],
    bytes: &[u8],
    words: &[u64],
    n: usize,
    handles: &mut [u64],
) -> u32
    ensures { let lent = store_of (decl_of rows.now widths.now types.now sizes.now) (ids_of (head_of head.old) generations.now archetypes.now indices.now pending.now) (tables_of numbers.now counts.now bytes.now) words.now in
        let left = store_of (decl_of rows.now widths.now types.now sizes.now) (ids_of (head_of head.new) generations.now archetypes.now indices.now pending.now) (tables_of numbers.now counts.now bytes.now) words.now in
        Passed (reserving_many lent n handles.old) (lent, handles.old) result (left, handles.new) }
{
    let mut store = StoreTables {
        declaration: Declaration {
            rows,
            widths,
            types,
            sizes,
        },
        ids: IdTables {
            head: head_of(head),
            generations,
            archetypes,
            indices,
            pending,
        },
        rows: RowTables {
            numbers,
            counts,
            bytes,
        },
        words,
    };
    let answer = store_reserve::reserve_entities(&mut store, n, handles);
    put_head(head, store.ids.head);
    code(answer)
}

// The handles that are free, into `handles`, whose rest stays. Out: how many.
pub fn verdict_store_freelist(
    head: &[u64; 4],
    rows: &[u32],
    widths: &[u32],
    types: &[u32],
    sizes: &[u32],
    generations: &[u32],
    archetypes: &[u32],
    indices: &[u32],
    pending: &[u32],
    numbers: &[u32],
    counts: &[u32],
    bytes: &[u8],
    words: &[u64],
    handles: &mut [u64],
    out: &mut [u64; 4],
) -> u32
    ensures { let lent = store_of (decl_of rows.now widths.now types.now sizes.now) (ids_of (head_of head.now) generations.now archetypes.now indices.now pending.now) (tables_of numbers.now counts.now bytes.now) words.now in
        Crossed number_four (listing_free lent handles.old) handles.old result out.new handles.new }
{
    let store = StoreTables {
        declaration: Declaration {
            rows,
            widths,
            types,
            sizes,
        },
        ids: IdTables {
            head: head_of(head),
            generations,
            archetypes,
            indices,
            pending,
        },
        rows: RowTables {
            numbers,
            counts,
            bytes,
        },
        words,
    };
    cross(out, store_reserve::freelist(&store, handles))
}

// No entity and no row.
pub fn verdict_store_clear(
    head: &mut [u64; 4],
    rows: &[u32],
    widths: &[u32],
    types: &[u32],
    sizes: &[u32],
    generations: &[u32],
    archetypes: &[u32],
    indices: &[u32],
    pending: &[u32],
    numbers: &[u32],
    counts: &mut [u32],
    bytes: &[u8],
    words: &[u64],
) -> u32
    ensures { let lent = store_of (decl_of rows.now widths.now types.now sizes.now) (ids_of (head_of head.old) generations.now archetypes.now indices.now pending.now) (tables_of numbers.now counts.old bytes.now) words.now in
        let left = store_of (decl_of rows.now widths.now types.now sizes.now) (ids_of (head_of head.new) generations.now archetypes.now indices.now pending.now) (tables_of numbers.now counts.new bytes.now) words.now in
        Passed (clearing lent) lent result left }
{
    let declaration = Declaration {
        rows,
        widths,
        types,
        sizes,
    };
    let mut left = head_of(head);
    let answer = store_flush::clear(
        &mut left,
        &declaration,
        generations,
        archetypes,
        indices,
        pending,
        numbers,
        counts,
        bytes,
        words,
    );
    put_head(head, left);
    code(answer)
}
