// The exports of exports_reads, each of which only calls it: what another language links of the store's reads, writes, borrows and lookups.
#![tactic(auto)]

ghost use Rattle.borrow_word.specs.Word.{shared_word, unique_word, released_word, unique_released_word};
ghost use Rattle.store_reads.specs.Lookup.{getting, containing, resolving, counting};
ghost use Rattle.store_reads.specs.Read.{reading};
ghost use Rattle.store_reads.specs.Write.{writing};
ghost use Rattle.store_reads.specs.Words.{holding};
ghost use Rattle.crossing.specs.Answers.{Told, Passed, number_four, yes_four, place_four, part_four};
ghost use Rattle.id_tables.specs.Ids.{ids_of};
ghost use Rattle.decl.specs.Decl.{decl_of};
ghost use Rattle.row_step.specs.Tables.{tables_of};
ghost use Rattle.store_tables.specs.Store.{store_of};
ghost use Rattle.crossing.specs.Words.{head_of};

// Where an entity is. Out: the place.
#[unsafe(no_mangle)]
pub extern "C" fn verdict_store_get(
    head: &[u64; 4],
    rows: &[u32],
    widths: &[u32],
    types: &[u32],
    sizes: &[u32],
    generations: &[u32],
    archetypes: &[u32],
    indices: &[u32],
    pending: &[u32],
    numbers: &[u32],
    counts: &[u32],
    bytes: &[u8],
    words: &[u64],
    bits: u64,
    out: &mut [u64; 4],
) -> u32
    ensures { let lent = store_of (decl_of rows.now widths.now types.now sizes.now) (ids_of (head_of head.now) generations.now archetypes.now indices.now pending.now) (tables_of numbers.now counts.now bytes.now) words.now in
        Told place_four (getting lent bits) result out.new }
{
    exports_reads::verdict_store_get(
        head,
        rows,
        widths,
        types,
        sizes,
        generations,
        archetypes,
        indices,
        pending,
        numbers,
        counts,
        bytes,
        words,
        bits,
        out,
    )
}

// Whether an entity is live or reserved. Out: 1 for yes, 0 for no.
#[unsafe(no_mangle)]
pub extern "C" fn verdict_store_contains(
    head: &[u64; 4],
    rows: &[u32],
    widths: &[u32],
    types: &[u32],
    sizes: &[u32],
    generations: &[u32],
    archetypes: &[u32],
    indices: &[u32],
    pending: &[u32],
    numbers: &[u32],
    counts: &[u32],
    bytes: &[u8],
    words: &[u64],
    bits: u64,
    out: &mut [u64; 4],
) -> u32
    ensures { let lent = store_of (decl_of rows.now widths.now types.now sizes.now) (ids_of (head_of head.now) generations.now archetypes.now indices.now pending.now) (tables_of numbers.now counts.now bytes.now) words.now in
        Told yes_four (containing lent bits) result out.new }
{
    exports_reads::verdict_store_contains(
        head,
        rows,
        widths,
        types,
        sizes,
        generations,
        archetypes,
        indices,
        pending,
        numbers,
        counts,
        bytes,
        words,
        bits,
        out,
    )
}

// The handle of a number. Out: the handle.
#[unsafe(no_mangle)]
pub extern "C" fn verdict_store_resolve_unknown_gen(
    head: &[u64; 4],
    rows: &[u32],
    widths: &[u32],
    types: &[u32],
    sizes: &[u32],
    generations: &[u32],
    archetypes: &[u32],
    indices: &[u32],
    pending: &[u32],
    numbers: &[u32],
    counts: &[u32],
    bytes: &[u8],
    words: &[u64],
    number: u32,
    out: &mut [u64; 4],
) -> u32
    ensures { let lent = store_of (decl_of rows.now widths.now types.now sizes.now) (ids_of (head_of head.now) generations.now archetypes.now indices.now pending.now) (tables_of numbers.now counts.now bytes.now) words.now in
        Told number_four (resolving lent number) result out.new }
{
    exports_reads::verdict_store_resolve_unknown_gen(
        head,
        rows,
        widths,
        types,
        sizes,
        generations,
        archetypes,
        indices,
        pending,
        numbers,
        counts,
        bytes,
        words,
        number,
        out,
    )
}

// Out: the live count.
#[unsafe(no_mangle)]
pub extern "C" fn verdict_store_len(
    head: &[u64; 4],
    rows: &[u32],
    widths: &[u32],
    types: &[u32],
    sizes: &[u32],
    generations: &[u32],
    archetypes: &[u32],
    indices: &[u32],
    pending: &[u32],
    numbers: &[u32],
    counts: &[u32],
    bytes: &[u8],
    words: &[u64],
    out: &mut [u64; 4],
) -> u32
    ensures { let lent = store_of (decl_of rows.now widths.now types.now sizes.now) (ids_of (head_of head.now) generations.now archetypes.now indices.now pending.now) (tables_of numbers.now counts.now bytes.now) words.now in
        Told number_four (counting lent) result out.new }
{
    exports_reads::verdict_store_len(
        head,
        rows,
        widths,
        types,
        sizes,
        generations,
        archetypes,
        indices,
        pending,
        numbers,
        counts,
        bytes,
        words,
        out,
    )
}

// Out: where a component's bytes are, start and length.
#[unsafe(no_mangle)]
pub extern "C" fn verdict_store_read(
    head: &[u64; 4],
    rows: &[u32],
    widths: &[u32],
    types: &[u32],
    sizes: &[u32],
    generations: &[u32],
    archetypes: &[u32],
    indices: &[u32],
    pending: &[u32],
    numbers: &[u32],
    counts: &[u32],
    bytes: &[u8],
    words: &[u64],
    bits: u64,
    kind: u32,
    out: &mut [u64; 4],
) -> u32
    ensures { let lent = store_of (decl_of rows.now widths.now types.now sizes.now) (ids_of (head_of head.now) generations.now archetypes.now indices.now pending.now) (tables_of numbers.now counts.now bytes.now) words.now in
        Told part_four (reading lent bits kind) result out.new }
{
    exports_reads::verdict_store_read(
        head,
        rows,
        widths,
        types,
        sizes,
        generations,
        archetypes,
        indices,
        pending,
        numbers,
        counts,
        bytes,
        words,
        bits,
        kind,
        out,
    )
}

// Component bytes stored over an entity's.
#[unsafe(no_mangle)]
pub extern "C" fn verdict_store_write(
    head: &[u64; 4],
    rows: &[u32],
    widths: &[u32],
    types: &[u32],
    sizes: &[u32],
    generations: &[u32],
    archetypes: &[u32],
    indices: &[u32],
    pending: &[u32],
    numbers: &[u32],
    counts: &[u32],
    bytes: &mut [u8],
    words: &[u64],
    bits: u64,
    kind: u32,
    value: &[u8],
) -> u32
    ensures { let lent = store_of (decl_of rows.now widths.now types.now sizes.now) (ids_of (head_of head.now) generations.now archetypes.now indices.now pending.now) (tables_of numbers.now counts.now bytes.old) words.now in
        let left = store_of (decl_of rows.now widths.now types.now sizes.now) (ids_of (head_of head.now) generations.now archetypes.now indices.now pending.now) (tables_of numbers.now counts.now bytes.new) words.now in
        Passed (writing lent bits kind value.now) lent result left }
{
    exports_reads::verdict_store_write(
        head,
        rows,
        widths,
        types,
        sizes,
        generations,
        archetypes,
        indices,
        pending,
        numbers,
        counts,
        bytes,
        words,
        bits,
        kind,
        value,
    )
}

// Shared borrow of a column.
#[unsafe(no_mangle)]
pub extern "C" fn verdict_store_borrow(
    head: &[u64; 4],
    rows: &[u32],
    widths: &[u32],
    types: &[u32],
    sizes: &[u32],
    generations: &[u32],
    archetypes: &[u32],
    indices: &[u32],
    pending: &[u32],
    numbers: &[u32],
    counts: &[u32],
    bytes: &[u8],
    words: &mut [u64],
    archetype: u32,
    kind: u32,
) -> u32
    ensures { let lent = store_of (decl_of rows.now widths.now types.now sizes.now) (ids_of (head_of head.now) generations.now archetypes.now indices.now pending.now) (tables_of numbers.now counts.now bytes.now) words.old in
        let left = store_of (decl_of rows.now widths.now types.now sizes.now) (ids_of (head_of head.now) generations.now archetypes.now indices.now pending.now) (tables_of numbers.now counts.now bytes.now) words.new in
        Passed (holding shared_word lent archetype kind) lent result left }
{
    exports_reads::verdict_store_borrow(
        head,
        rows,
        widths,
        types,
        sizes,
        generations,
        archetypes,
        indices,
        pending,
        numbers,
        counts,
        bytes,
        words,
        archetype,
        kind,
    )
}

// Unique borrow of a column.
#[unsafe(no_mangle)]
pub extern "C" fn verdict_store_borrow_mut(
    head: &[u64; 4],
    rows: &[u32],
    widths: &[u32],
    types: &[u32],
    sizes: &[u32],
    generations: &[u32],
    archetypes: &[u32],
    indices: &[u32],
    pending: &[u32],
    numbers: &[u32],
    counts: &[u32],
    bytes: &[u8],
    words: &mut [u64],
    archetype: u32,
    kind: u32,
) -> u32
    ensures { let lent = store_of (decl_of rows.now widths.now types.now sizes.now) (ids_of (head_of head.now) generations.now archetypes.now indices.now pending.now) (tables_of numbers.now counts.now bytes.now) words.old in
        let left = store_of (decl_of rows.now widths.now types.now sizes.now) (ids_of (head_of head.now) generations.now archetypes.now indices.now pending.now) (tables_of numbers.now counts.now bytes.now) words.new in
        Passed (holding unique_word lent archetype kind) lent result left }
{
    exports_reads::verdict_store_borrow_mut(
        head,
        rows,
        widths,
        types,
        sizes,
        generations,
        archetypes,
        indices,
        pending,
        numbers,
        counts,
        bytes,
        words,
        archetype,
        kind,
    )
}

// Shared release of a column.
#[unsafe(no_mangle)]
pub extern "C" fn verdict_store_release(
    head: &[u64; 4],
    rows: &[u32],
    widths: &[u32],
    types: &[u32],
    sizes: &[u32],
    generations: &[u32],
    archetypes: &[u32],
    indices: &[u32],
    pending: &[u32],
    numbers: &[u32],
    counts: &[u32],
    bytes: &[u8],
    words: &mut [u64],
    archetype: u32,
    kind: u32,
) -> u32
    ensures { let lent = store_of (decl_of rows.now widths.now types.now sizes.now) (ids_of (head_of head.now) generations.now archetypes.now indices.now pending.now) (tables_of numbers.now counts.now bytes.now) words.old in
        let left = store_of (decl_of rows.now widths.now types.now sizes.now) (ids_of (head_of head.now) generations.now archetypes.now indices.now pending.now) (tables_of numbers.now counts.now bytes.now) words.new in
        Passed (holding released_word lent archetype kind) lent result left }
{
    exports_reads::verdict_store_release(
        head,
        rows,
        widths,
        types,
        sizes,
        generations,
        archetypes,
        indices,
        pending,
        numbers,
        counts,
        bytes,
        words,
        archetype,
        kind,
    )
}

// Unique release of a column.
#[unsafe(no_mangle)]
pub extern "C" fn verdict_store_release_mut(
    head: &[u64; 4],
    rows: &[u32],
    widths: &[u32],
    types: &[u32],
    sizes: &[u32],
    generations: &[u32],
    archetypes: &[u32],
    indices: &[u32],
    pending: &[u32],
    numbers: &[u32],
    counts: &[u32],
    bytes: &[u8],
    words: &mut [u64],
    archetype: u32,
    kind: u32,
) -> u32
    ensures { let lent = store_of (decl_of rows.now widths.now types.now sizes.now) (ids_of (head_of head.now) generations.now archetypes.now indices.now pending.now) (tables_of numbers.now counts.now bytes.now) words.old in
        let left = store_of (decl_of rows.now widths.now types.now sizes.now) (ids_of (head_of head.now) generations.now archetypes.now indices.now pending.now) (tables_of numbers.now counts.now bytes.now) words.new in
        Passed (holding unique_released_word lent archetype kind) lent result left }
{
    exports_reads::verdict_store_release_mut(
        head,
        rows,
        widths,
        types,
        sizes,
        generations,
        archetypes,
        indices,
        pending,
        numbers,
        counts,
        bytes,
        words,
        archetype,
        kind,
    )
}
