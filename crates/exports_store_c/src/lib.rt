// The exports of exports_store, each of which only calls it: what another language links of the store's spawn and despawn.
#![tactic(auto)]

ghost use Rattle.store_spawn.specs.Spawn.{spawning};
ghost use Rattle.store_despawn.specs.Despawn.{despawning};
ghost use Rattle.crossing.specs.Answers.{Crossed, Passed, number_four};
ghost use Rattle.id_tables.specs.Ids.{ids_of};
ghost use Rattle.decl.specs.Decl.{decl_of};
ghost use Rattle.row_step.specs.Tables.{tables_of};
ghost use Rattle.store_tables.specs.Store.{store_of};
ghost use Rattle.crossing.specs.Words.{head_of};

// An entity in an archetype, with the bytes of its components in column order. Out: the handle.
#[unsafe(no_mangle)]
pub extern "C" fn verdict_store_spawn(
    head: &mut [u64; 4],
    rows: &[u32],
    widths: &[u32],
    types: &[u32],
    sizes: &[u32],
    generations: &mut [u32],
    archetypes: &mut [u32],
    indices: &mut [u32],
    pending: &[u32],
    numbers: &mut [u32],
    counts: &mut [u32],
    bytes: &mut [u8],
    words: &[u64],
    archetype: u32,
    run: &[u8],
    out: &mut [u64; 4],
) -> u32
    ensures { let lent = store_of (decl_of rows.now widths.now types.now sizes.now) (ids_of (head_of head.old) generations.old archetypes.old indices.old pending.now) (tables_of numbers.old counts.old bytes.old) words.now in
        let left = store_of (decl_of rows.now widths.now types.now sizes.now) (ids_of (head_of head.new) generations.new archetypes.new indices.new pending.now) (tables_of numbers.new counts.new bytes.new) words.now in
        Crossed number_four (spawning lent archetype run.now) lent result out.new left }
{
    exports_store::verdict_store_spawn(
        head,
        rows,
        widths,
        types,
        sizes,
        generations,
        archetypes,
        indices,
        pending,
        numbers,
        counts,
        bytes,
        words,
        archetype,
        run,
        out,
    )
}

// An entity and its row leave.
#[unsafe(no_mangle)]
pub extern "C" fn verdict_store_despawn(
    head: &mut [u64; 4],
    rows: &[u32],
    widths: &[u32],
    types: &[u32],
    sizes: &[u32],
    generations: &mut [u32],
    archetypes: &mut [u32],
    indices: &mut [u32],
    pending: &mut [u32],
    numbers: &mut [u32],
    counts: &mut [u32],
    bytes: &mut [u8],
    words: &[u64],
    bits: u64,
) -> u32
    ensures { let lent = store_of (decl_of rows.now widths.now types.now sizes.now) (ids_of (head_of head.old) generations.old archetypes.old indices.old pending.old) (tables_of numbers.old counts.old bytes.old) words.now in
        let left = store_of (decl_of rows.now widths.now types.now sizes.now) (ids_of (head_of head.new) generations.new archetypes.new indices.new pending.new) (tables_of numbers.new counts.new bytes.new) words.now in
        Passed (despawning lent bits) lent result left }
{
    exports_store::verdict_store_despawn(
        head,
        rows,
        widths,
        types,
        sizes,
        generations,
        archetypes,
        indices,
        pending,
        numbers,
        counts,
        bytes,
        words,
        bits,
    )
}
