// The exports of exports_reserve, each of which only calls it: what another language links of the store's calls that look at no row, and clear.
#![tactic(auto)]

ghost use Rattle.store_reserve.specs.Reserve.{reserving, reserving_many, listing_free};
ghost use Rattle.store_flush.specs.Clear.{clearing};
ghost use Rattle.crossing.specs.Answers.{Crossed, Passed, number_four};
ghost use Rattle.id_tables.specs.Ids.{ids_of};
ghost use Rattle.decl.specs.Decl.{decl_of};
ghost use Rattle.row_step.specs.Tables.{tables_of};
ghost use Rattle.store_tables.specs.Store.{store_of};
ghost use Rattle.crossing.specs.Words.{head_of};

// A handle before its row. Out: the handle.
#[unsafe(no_mangle)]
pub extern "C" fn verdict_store_reserve_entity(
    head: &mut [u64; 4],
    rows: &[u32],
    widths: &[u32],
    types: &[u32],
    sizes: &[u32],
    generations: &[u32],
    archetypes: &[u32],
    indices: &[u32],
    pending: &[u32],
    numbers: &[u32],
    counts: &[u32],
    bytes: &[u8],
    words: &[u64],
    out: &mut [u64; 4],
) -> u32
    ensures { let lent = store_of (decl_of rows.now widths.now types.now sizes.now) (ids_of (head_of head.old) generations.now archetypes.now indices.now pending.now) (tables_of numbers.now counts.now bytes.now) words.now in
        let left = store_of (decl_of rows.now widths.now types.now sizes.now) (ids_of (head_of head.new) generations.now archetypes.now indices.now pending.now) (tables_of numbers.now counts.now bytes.now) words.now in
        Crossed number_four (reserving lent) lent result out.new left }
{
    exports_reserve::verdict_store_reserve_entity(
        head,
        rows,
        widths,
        types,
        sizes,
        generations,
        archetypes,
        indices,
        pending,
        numbers,
        counts,
        bytes,
        words,
        out,
    )
}

// n handles before their rows, into `handles`, whose rest stays.
#[unsafe(no_mangle)]
pub extern "C" fn verdict_store_reserve_entities(
    head: &mut [u64; 4],
    rows: &[u32],
    widths: &[u32],
    types: &[u32],
    sizes: &[u32],
    generations: &[u32],
    archetypes: &[u32],
    indices: &[u32],
    pending: &[u32],
    numbers: &[u32],
    counts: &[u32],
    bytes: &[u8],
    words: &[u64],
    n: usize,
    handles: &mut [u64],
) -> u32
    ensures { let lent = store_of (decl_of rows.now widths.now types.now sizes.now) (ids_of (head_of head.old) generations.now archetypes.now indices.now pending.now) (tables_of numbers.now counts.now bytes.now) words.now in
        let left = store_of (decl_of rows.now widths.now types.now sizes.now) (ids_of (head_of head.new) generations.now archetypes.now indices.now pending.now) (tables_of numbers.now counts.now bytes.now) words.now in
        Passed (reserving_many lent n handles.old) (lent, handles.old) result (left, handles.new) }
{
    exports_reserve::verdict_store_reserve_entities(
        head,
        rows,
        widths,
        types,
        sizes,
        generations,
        archetypes,
        indices,
        pending,
        numbers,
        counts,
        bytes,
        words,
        n,
        handles,
    )
}

// The handles that are free, into `handles`, whose rest stays. Out: how many.
#[unsafe(no_mangle)]
pub extern "C" fn verdict_store_freelist(
    head: &[u64; 4],
    rows: &[u32],
    widths: &[u32],
    types: &[u32],
    sizes: &[u32],
    generations: &[u32],
    archetypes: &[u32],
    indices: &[u32],
    pending: &[u32],
    numbers: &[u32],
    counts: &[u32],
    bytes: &[u8],
    words: &[u64],
    handles: &mut [u64],
    out: &mut [u64; 4],
) -> u32
    ensures { let lent = store_of (decl_of rows.now widths.now types.now sizes.now) (ids_of (head_of head.now) generations.now archetypes.now indices.now pending.now) (tables_of numbers.now counts.now bytes.now) words.now in
        Crossed number_four (listing_free lent handles.old) handles.old result out.new handles.new }
{
    exports_reserve::verdict_store_freelist(
        head,
        rows,
        widths,
        types,
        sizes,
        generations,
        archetypes,
        indices,
        pending,
        numbers,
        counts,
        bytes,
        words,
        handles,
        out,
    )
}

// No entity and no row.
#[unsafe(no_mangle)]
pub extern "C" fn verdict_store_clear(
    head: &mut [u64; 4],
    rows: &[u32],
    widths: &[u32],
    types: &[u32],
    sizes: &[u32],
    generations: &[u32],
    archetypes: &[u32],
    indices: &[u32],
    pending: &[u32],
    numbers: &[u32],
    counts: &mut [u32],
    bytes: &[u8],
    words: &[u64],
) -> u32
    ensures { let lent = store_of (decl_of rows.now widths.now types.now sizes.now) (ids_of (head_of head.old) generations.now archetypes.now indices.now pending.now) (tables_of numbers.now counts.old bytes.now) words.now in
        let left = store_of (decl_of rows.now widths.now types.now sizes.now) (ids_of (head_of head.new) generations.now archetypes.now indices.now pending.now) (tables_of numbers.now counts.new bytes.now) words.now in
        Passed (clearing lent) lent result left }
{
    exports_reserve::verdict_store_clear(
        head,
        rows,
        widths,
        types,
        sizes,
        generations,
        archetypes,
        indices,
        pending,
        numbers,
        counts,
        bytes,
        words,
    )
}
