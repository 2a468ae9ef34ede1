// What another language links of the store's reads, writes, borrows and lookups. Every call answers the refusal's number, 0 where it is granted; a head is four numbers: used, pending, the cursor in two's complement, live. Each takes its tables as slices side by side, since C lends them so, and makes the views of them.
#![tactic(auto)]

ghost use Rattle.borrow_word.specs.Word.{shared_word, unique_word, released_word, unique_released_word};
ghost use Rattle.store_reads.specs.Lookup.{getting, containing, resolving, counting};
ghost use Rattle.store_reads.specs.Read.{reading};
ghost use Rattle.store_reads.specs.Write.{writing};
ghost use Rattle.store_reads.specs.Words.{holding};
ghost use Rattle.crossing.specs.Answers.{Told, Passed, number_four, yes_four, place_four, part_four};
ghost use Rattle.id_tables.specs.Ids.{ids_of};
ghost use Rattle.decl.specs.Decl.{decl_of};
ghost use Rattle.row_step.specs.Tables.{tables_of};
ghost use Rattle.store_tables.specs.Store.{store_of};
ghost use Rattle.crossing.specs.Words.{head_of};

use crossing::{code, cross, head_of};
use decl::Declaration;
use handle::Number;
use id_tables::IdTables;
use row_step::RowTables;
use store_tables::StoreTables;

// Where an entity is. Out: the place.
pub fn verdict_store_get(
    head: &[u64; 4],
    rows: &[u32],
    widths: &[u32],
    types: &[u32],
    sizes: &[u32],
    generations: &[u32],
    archetypes: &[u32],
    indices: &[u32],
    pending: &[u32],
    numbers: &[u32],
    counts: &[u32],
    bytes: &[u8],
    words: &[u64],
    bits: u64,
    out: &mut [u64; 4],
) -> u32
    ensures { let lent = store_of (decl_of rows.now widths.now types.now sizes.now) (ids_of (head_of head.now) generations.now archetypes.now indices.now pending.now) (tables_of numbers.now counts.now bytes.now) words.now in
        Told place_four (getting lent bits) result out.new }
{
    let store = StoreTables {
        declaration: Declaration {
            rows,
            widths,
            types,
            sizes,
        },
        ids: IdTables {
            head: head_of(head),
            generations,
            archetypes,
            indices,
            pending,
        },
        rows: RowTables {
            numbers,
            counts,
            bytes,
        },
        words,
    };
    cross(out, store_reads::get(&store, bits))
}

// Whether an entity is live or reserved. Out: 1 for yes, 0 for no.
pub fn verdict_store_contains(
    head: &[u64; 4],
    rows: &[u32],
    widths: &[u32],
    types: &[u32],
    sizes: &[u32],
    generations: &[u32],
    archetypes: &[u32],
    indices: &[u32],
    pending: &[u32],
    numbers: &[u32],
    counts: &[u32],
    bytes: &[u8],
    words: &[u64],
    bits: u64,
    out: &mut [u64; 4],
) -> u32
    ensures { let lent = store_of (decl_of rows.now widths.now types.now sizes.now) (ids_of (head_of head.now) generations.now archetypes.now indices.now pending.now) (tables_of numbers.now counts.now bytes.now) words.now in
        Told yes_four (containing lent bits) result out.new }
{
    let store = StoreTables {
        declaration: Declaration {
            rows,
            widths,
            types,
            sizes,
        },
        ids: IdTables {
            head: head_of(head),
            generations,
            archetypes,
            indices,
            pending,
        },
        rows: RowTables {
            numbers,
            counts,
            bytes,
        },
        words,
    };
    cross(out, store_reads::contains(&store, bits))
}

// The handle of a number. Out: the handle.
pub fn verdict_store_resolve_unknown_gen(
    head: &[u64; 4],
    rows: &[u32],
    widths: &[u32],
    types: &[u32],
    sizes: &[u32],
    generations: &[u32],
    archetypes: &[u32],
    indices: &[u32],
    pending: &[u32],
    numbers: &[u32],
    counts: &[u32],
    bytes: &[u8],
    words: &[u64],
    number: u32,
    out: &mut [u64; 4],
) -> u32
    ensures { let lent = store_of (decl_of rows.now widths.now types.now sizes.now) (ids_of (head_of head.now) generations.now archetypes.now indices.now pending.now) (tables_of numbers.now counts.now bytes.now) words.now in
        Told number_four (resolving lent number) result out.new }
{
    let store = StoreTables {
        declaration: Declaration {
            rows,
            widths,
            types,
            sizes,
        },
        ids: IdTables {
            head: head_of(head),
            generations,
            archetypes,
            indices,
            pending,
        },
        rows: RowTables {
            numbers,
            counts,
            bytes,
        },
        words,
    };
    let answer = store_reads::resolve_unknown_gen(&store, Number(number));
    cross(out, answer)
}

// Out: the live count.
pub fn verdict_store_len(
    head: &[u64; 4],
    rows: &[u32],
    widths: &[u32],
    types: &[u32],
    sizes: &[u32],
    generations: &[u32],
    archetypes: &[u32],
    indices: &[u32],
    pending: &[u32],
    numbers: &[u32],
    counts: &[u32],
    bytes: &[u8],
    words: &[u64],
    out: &mut [u64; 4],
) -> u32
    ensures { let lent = store_of (decl_of rows.now widths.now types.now sizes.now) (ids_of (head_of head.now) generations.now archetypes.now indices.now pending.now) (tables_of numbers.now counts.now bytes.now) words.now in
        Told number_four (counting lent) result out.new }
{
    let store = StoreTables {
        declaration: Declaration {
            rows,
            widths,
            types,
            sizes,
        },
        ids: IdTables {
            head: head_of(head),
            generations,
            archetypes,
            indices,
            pending,
        },
        rows: RowTables {
            numbers,
            counts,
            bytes,
        },
        words,
    };
    cross(out, store_reads::len(&store))
}

// Out: where a component's bytes are, start and length.
pub fn verdict_store_read(
    head: &[u64; 4],
    rows: &[u32],
    widths: &[u32],
    types: &[u32],
    sizes: &[u32],
    generations: &[u32],
    archetypes: &[u32],
    indices: &[u32],
    pending: &[u32],
    numbers: &[u32],
    counts: &[u32],
    bytes: &[u8],
    words: &[u64],
    bits: u64,
    kind: u32,
    out: &mut [u64; 4],
) -> u32
    ensures { let lent = store_of (decl_of rows.now widths.now types.now sizes.now) (ids_of (head_of head.now) generations.now archetypes.now indices.now pending.now) (tables_of numbers.now counts.now bytes.now) words.now in
        Told part_four (reading lent bits kind) result out.new }
{
    let store = StoreTables {
        declaration: Declaration {
            rows,
            widths,
            types,
            sizes,
        },
        ids: IdTables {
            head: head_of(head),
            generations,
            archetypes,
            indices,
            pending,
        },
        rows: RowTables {
            numbers,
            counts,
            bytes,
        },
        words,
    };
    cross(out, store_reads::read(&store, bits, kind))
}

// Component bytes stored over an entity's.
pub fn verdict_store_write(
    head: &[u64; 4],
    rows: &[u32],
    widths: &[u32],
    types: &[u32],
    sizes: &[u32],
    generations: &[u32],
    archetypes: &[u32],
    indices: &[u32],
    pending: &[u32],
    numbers: &[u32],
    counts: &[u32],
    bytes: &mut [u8],
    words: &[u64],
    bits: u64,
    kind: u32,
    value: &[u8],
) -> u32
    ensures { let lent = store_of (decl_of rows.now widths.now types.now sizes.now) (ids_of (head_of head.now) generations.now archetypes.now indices.now pending.now) (tables_of numbers.now counts.now bytes.old) words.now in
        let left = store_of (decl_of rows.now widths.now types.now sizes.now) (ids_of (head_of head.now) generations.now archetypes.now indices.now pending.now) (tables_of numbers.now counts.now bytes.new) words.now in
        Passed (writing lent bits kind value.now) lent result left }
{
    let declaration = Declaration {
        rows,
        widths,
        types,
        sizes,
    };
    let ids = IdTables {
        head: head_of(head),
        generations,
        archetypes,
        indices,
        pending,
    };
    let answer = store_reads::write(
        &declaration,
        &ids,
        numbers,
        counts,
        bytes,
        words,
        bits,
        kind,
        value,
    );
    code(answer)
}

// Shared borrow of a column.
pub fn verdict_store_borrow(
    head: &[u64; 4],
    rows: &[u32],
    widths: &[u32],
    types: &[u32],
    sizes: &[u32],
    generations: &[u32],
    archetypes: &[u32],
    indices: &[u32],
    pending: &[u32],
    numbers: &[u32],
    counts: &[u32],
    bytes: &[u8],
    words: &mut [u64],
    archetype: u32,
    kind: u32,
) -> u32
    ensures { let lent = store_of (decl_of rows.now widths.now types.now sizes.now) (ids_of (head_of head.now) generations.now archetypes.now indices.now pending.now) (tables_of numbers.now counts.now bytes.now) words.old in
        let left = store_of (decl_of rows.now widths.now types.now sizes.now) (ids_of (head_of head.now) generations.now archetypes.now indices.now pending.now) (tables_of numbers.now counts.now bytes.now) words.new in
        Passed (holding shared_word lent archetype kind) lent result left }
{
    let declaration = Declaration {
        rows,
        widths,
        types,
        sizes,
    };
    let ids = IdTables {
        head: head_of(head),
        generations,
        archetypes,
        indices,
        pending,
    };
    let tables = RowTables {
        numbers,
        counts,
        bytes,
    };
    let answer = store_reads::borrow(&declaration, &ids, &tables, words, archetype as usize, kind);
    code(answer)
}

// Unique borrow of a column.
pub fn verdict_store_borrow_mut(
    head: &[u64; 4],
    rows: &[u32],
    widths: &[u32],
    types: &[u32],
    sizes: &[u32],
    generations: &[u32],
    archetypes: &[u32],
    indices: &[u32],
    pending: &[u32],
    numbers: &[u32],
    counts: &[u32],
    bytes: &[u8],
    words: &mut [u64],
    archetype: u32,
    kind: u32,
) -> u32
    ensures { let lent = store_of (decl_of rows.now widths.now types.now sizes.now) (ids_of (head_of head.now) generations.now archetypes.now indices.now pending.now) (tables_of numbers.now counts.now bytes.now) words.old in
        let left = store_of (decl_of rows.now widths.now types.now sizes.now) (ids_of (head_of head.now) generations.now archetypes.now indices.now pending.now) (tables_of numbers.now counts.now bytes.now) words.new in
        Passed (holding unique_word lent archetype kind) lent result left }
{
    let declaration = Declaration {
        rows,
        widths,
        types,
        sizes,
    };
    let ids = IdTables {
        head: head_of(head),
        generations,
        archetypes,
        indices,
        pending,
    };
    let tables = RowTables {
        numbers,
        counts,
        bytes,
    };
    let answer = store_reads::borrow_mut(
        &declaration,
        &ids,
        &tables,
        words,
        archetype as usize,
        kind,
    );
    code(answer)
}

// Shared release of a column.
pub fn verdict_store_release(
    head: &[u64; 4],
    rows: &[u32],
    widths: &[u32],
    types: &[u32],
    sizes: &[u32],
    generations: &[u32],
    archetypes: &[u32],
    indices: &[u32],
    pending: &[u32],
    numbers: &[u32],
    counts: &[u32],
    bytes: &[u8],
    words: &mut [u64],
    archetype: u32,
    kind: u32,
) -> u32
    ensures { let lent = store_of (decl_of rows.now widths.now types.now sizes.now) (ids_of (head_of head.now) generations.now archetypes.now indices.now pending.now) (tables_of numbers.now counts.now bytes.now) words.old in
        let left = store_of (decl_of rows.now widths.now types.now sizes.now) (ids_of (head_of head.now) generations.now archetypes.now indices.now pending.now) (tables_of numbers.now counts.now bytes.now) words.new in
        Passed (holding released_word lent archetype kind) lent result left }
{
    let declaration = Declaration {
        rows,
        widths,
        types,
        sizes,
    };
    let ids = IdTables {
        head: head_of(head),
        generations,
        archetypes,
        indices,
        pending,
    };
    let tables = RowTables {
        numbers,
        counts,
        bytes,
    };
    let answer = store_reads::release(&declaration, &ids, &tables, words, archetype as usize, kind);
    code(answer)
}

// Unique release of a column.
pub fn verdict_store_release_mut(
    head: &[u64; 4],
    rows: &[u32],
    widths: &[u32],
    types: &[u32],
    sizes: &[u32],
    generations: &[u32],
    archetypes: &[u32],
    indices: &[u32],
    pending: &[u32],
    numbers: &[u32],
    counts: &[u32],
    bytes: &[u8],
    words: &mut [u64],
    archetype: u32,
    kind: u32,
) -> u32
    ensures { let lent = store_of (decl_of rows.now widths.now types.now sizes.now) (ids_of (head_of head.now) generations.now archetypes.now indices.now pending.now) (tables_of numbers.now counts.now bytes.now) words.old in
        let left = store_of (decl_of rows.now widths.now types.now sizes.now) (ids_of (head_of head.now) generations.now archetypes.now indices.now pending.now) (tables_of numbers.now counts.now bytes.now) words.new in
        Passed (holding unique_released_word lent archetype kind) lent result left }
{
    let declaration = Declaration {
        rows,
        widths,
        types,
        sizes,
    };
    let ids = IdTables {
        head: head_of(head),
        generations,
        archetypes,
        indices,
        pending,
    };
    let tables = RowTables {
        numbers,
        counts,
        bytes,
    };
    let answer = store_reads::release_mut(
        &declaration,
        &ids,
        &tables,
        words,
        archetype as usize,
        kind,
    );
    code(answer)
}
