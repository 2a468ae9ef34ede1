// The exports of exports_moves, each of which only calls it: what another language links of the store's spawn at, insert, remove and flush.
#![tactic(auto)]

ghost use Rattle.store_spawn_at.specs.SpawnAt.{spawning_at};
ghost use Rattle.store_insert.specs.Insert.{inserting};
ghost use Rattle.store_remove.specs.Remove.{removing};
ghost use Rattle.store_flush.specs.Flush.{flushing};
ghost use Rattle.crossing.specs.Answers.{Passed};
ghost use Rattle.id_tables.specs.Ids.{ids_of};
ghost use Rattle.decl.specs.Decl.{decl_of};
ghost use Rattle.row_step.specs.Tables.{tables_of};
ghost use Rattle.store_tables.specs.Store.{store_of};
ghost use Rattle.crossing.specs.Words.{head_of};

// An entity of a chosen handle in an archetype, with the bytes of its components in column order. A live number's old row leaves first.
#[unsafe(no_mangle)]
pub extern "C" fn verdict_store_spawn_at(
    head: &mut [u64; 4],
    rows: &[u32],
    widths: &[u32],
    types: &[u32],
    sizes: &[u32],
    generations: &mut [u32],
    archetypes: &mut [u32],
    indices: &mut [u32],
    pending: &mut [u32],
    numbers: &mut [u32],
    counts: &mut [u32],
    bytes: &mut [u8],
    words: &[u64],
    bits: u64,
    archetype: u32,
    run: &[u8],
) -> u32
    ensures { let lent = store_of (decl_of rows.now widths.now types.now sizes.now) (ids_of (head_of head.old) generations.old archetypes.old indices.old pending.old) (tables_of numbers.old counts.old bytes.old) words.now in
        let left = store_of (decl_of rows.now widths.now types.now sizes.now) (ids_of (head_of head.new) generations.new archetypes.new indices.new pending.new) (tables_of numbers.new counts.new bytes.new) words.now in
        Passed (spawning_at lent bits archetype run.now) lent result left }
{
    exports_moves::verdict_store_spawn_at(
        head,
        rows,
        widths,
        types,
        sizes,
        generations,
        archetypes,
        indices,
        pending,
        numbers,
        counts,
        bytes,
        words,
        bits,
        archetype,
        run,
    )
}

// A component of an entity: where its archetype lacks it, the row moves to the one that has it.
#[unsafe(no_mangle)]
pub extern "C" fn verdict_store_insert(
    head: &[u64; 4],
    rows: &[u32],
    widths: &[u32],
    types: &[u32],
    sizes: &[u32],
    generations: &[u32],
    archetypes: &mut [u32],
    indices: &mut [u32],
    pending: &[u32],
    numbers: &mut [u32],
    counts: &mut [u32],
    bytes: &mut [u8],
    words: &[u64],
    bits: u64,
    kind: u32,
    value: &[u8],
) -> u32
    ensures { let lent = store_of (decl_of rows.now widths.now types.now sizes.now) (ids_of (head_of head.now) generations.now archetypes.old indices.old pending.now) (tables_of numbers.old counts.old bytes.old) words.now in
        let left = store_of (decl_of rows.now widths.now types.now sizes.now) (ids_of (head_of head.now) generations.now archetypes.new indices.new pending.now) (tables_of numbers.new counts.new bytes.new) words.now in
        Passed (inserting lent bits kind value.now) lent result left }
{
    exports_moves::verdict_store_insert(
        head,
        rows,
        widths,
        types,
        sizes,
        generations,
        archetypes,
        indices,
        pending,
        numbers,
        counts,
        bytes,
        words,
        bits,
        kind,
        value,
    )
}

// A component that an entity holds no longer: the row moves to the archetype without it.
#[unsafe(no_mangle)]
pub extern "C" fn verdict_store_remove(
    head: &[u64; 4],
    rows: &[u32],
    widths: &[u32],
    types: &[u32],
    sizes: &[u32],
    generations: &[u32],
    archetypes: &mut [u32],
    indices: &mut [u32],
    pending: &[u32],
    numbers: &mut [u32],
    counts: &mut [u32],
    bytes: &mut [u8],
    words: &[u64],
    bits: u64,
    kind: u32,
) -> u32
    ensures { let lent = store_of (decl_of rows.now widths.now types.now sizes.now) (ids_of (head_of head.now) generations.now archetypes.old indices.old pending.now) (tables_of numbers.old counts.old bytes.old) words.now in
        let left = store_of (decl_of rows.now widths.now types.now sizes.now) (ids_of (head_of head.now) generations.now archetypes.new indices.new pending.now) (tables_of numbers.new counts.new bytes.new) words.now in
        Passed (removing lent bits kind) lent result left }
{
    exports_moves::verdict_store_remove(
        head,
        rows,
        widths,
        types,
        sizes,
        generations,
        archetypes,
        indices,
        pending,
        numbers,
        counts,
        bytes,
        words,
        bits,
        kind,
    )
}

// Every reserved entity gets a row of archetype 0.
#[unsafe(no_mangle)]
pub extern "C" fn verdict_store_flush(
    head: &mut [u64; 4],
    rows: &[u32],
    widths: &[u32],
    types: &[u32],
    sizes: &[u32],
    generations: &mut [u32],
    archetypes: &mut [u32],
    indices: &mut [u32],
    pending: &[u32],
    numbers: &mut [u32],
    counts: &mut [u32],
    bytes: &[u8],
    words: &[u64],
) -> u32
    ensures { let lent = store_of (decl_of rows.now widths.now types.now sizes.now) (ids_of (head_of head.old) generations.old archetypes.old indices.old pending.now) (tables_of numbers.old counts.old bytes.now) words.now in
        let left = store_of (decl_of rows.now widths.now types.now sizes.now) (ids_of (head_of head.new) generations.new archetypes.new indices.new pending.now) (tables_of numbers.new counts.new bytes.now) words.now in
        Passed (flushing lent) lent result left }
{
    exports_moves::verdict_store_flush(
        head,
        rows,
        widths,
        types,
        sizes,
        generations,
        archetypes,
        indices,
        pending,
        numbers,
        counts,
        bytes,
        words,
    )
}
