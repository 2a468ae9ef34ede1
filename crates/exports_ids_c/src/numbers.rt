// The exported id calls on one number, and lookups.
ghost use Rattle.handle.specs.Bits.{place_of};
ghost use Rattle.id_tables.specs.Lookup.{containing, getting, setting_place, resolving, counting, clearing};
ghost use Rattle.ids.specs.Reserve.{reserving};
ghost use Rattle.ids.specs.Alloc.{allocating};
ghost use Rattle.ids.specs.AllocAt.{allocating_at};
ghost use Rattle.ids.specs.Free.{freeing};
ghost use Rattle.crossing.specs.Answers.{Told, Crossed, Passed, number_four, yes_four, place_four, old_place_four};
ghost use Rattle.id_tables.specs.Ids.{ids_of};
ghost use Rattle.crossing.specs.Words.{head_of};

// hecs's `reserve_entity`. Out: the handle.
#[unsafe(no_mangle)]
pub extern "C" fn verdict_ids_reserve_entity(
    head: &mut [u64; 4],
    generations: &[u32],
    archetypes: &[u32],
    indices: &[u32],
    pending: &[u32],
    out: &mut [u64; 4],
) -> u32
    ensures { let lent = ids_of (head_of head.old) generations.now archetypes.now indices.now pending.now in
        let left = ids_of (head_of head.new) generations.now archetypes.now indices.now pending.now in
        Crossed number_four (reserving lent) lent result out.new left }
{
    exports_ids::verdict_ids_reserve_entity(head, generations, archetypes, indices, pending, out)
}

// hecs's `alloc`, with the place that the number gets. Out: the handle.
#[unsafe(no_mangle)]
pub extern "C" fn verdict_ids_alloc(
    head: &mut [u64; 4],
    generations: &mut [u32],
    archetypes: &mut [u32],
    indices: &mut [u32],
    pending: &[u32],
    archetype: u32,
    index: u32,
    out: &mut [u64; 4],
) -> u32
    ensures { let lent = ids_of (head_of head.old) generations.old archetypes.old indices.old pending.now in
        let left = ids_of (head_of head.new) generations.new archetypes.new indices.new pending.now in
        Crossed number_four (allocating lent (place_of archetype index)) lent result out.new left }
{
    exports_ids::verdict_ids_alloc(
        head,
        generations,
        archetypes,
        indices,
        pending,
        archetype,
        index,
        out,
    )
}

// hecs's `alloc_at`, with the place that the number gets. Out: 0, or 1 and the place that a live number had.
#[unsafe(no_mangle)]
pub extern "C" fn verdict_ids_alloc_at(
    head: &mut [u64; 4],
    generations: &mut [u32],
    archetypes: &mut [u32],
    indices: &mut [u32],
    pending: &mut [u32],
    bits: u64,
    archetype: u32,
    index: u32,
    out: &mut [u64; 4],
) -> u32
    ensures { let lent = ids_of (head_of head.old) generations.old archetypes.old indices.old pending.old in
        let left = ids_of (head_of head.new) generations.new archetypes.new indices.new pending.new in
        Crossed old_place_four (allocating_at lent bits (place_of archetype index)) lent result out.new left }
{
    exports_ids::verdict_ids_alloc_at(
        head,
        generations,
        archetypes,
        indices,
        pending,
        bits,
        archetype,
        index,
        out,
    )
}

// hecs's `free`. Out: the place that the number had.
#[unsafe(no_mangle)]
pub extern "C" fn verdict_ids_free(
    head: &mut [u64; 4],
    generations: &mut [u32],
    archetypes: &mut [u32],
    indices: &mut [u32],
    pending: &mut [u32],
    bits: u64,
    out: &mut [u64; 4],
) -> u32
    ensures { let lent = ids_of (head_of head.old) generations.old archetypes.old indices.old pending.old in
        let left = ids_of (head_of head.new) generations.new archetypes.new indices.new pending.new in
        Crossed place_four (freeing lent bits) lent result out.new left }
{
    exports_ids::verdict_ids_free(head, generations, archetypes, indices, pending, bits, out)
}

// hecs's `contains`. Out: 1 for yes, 0 for no.
#[unsafe(no_mangle)]
pub extern "C" fn verdict_ids_contains(
    head: &[u64; 4],
    generations: &[u32],
    archetypes: &[u32],
    indices: &[u32],
    pending: &[u32],
    bits: u64,
    out: &mut [u64; 4],
) -> u32
    ensures { let lent = ids_of (head_of head.now) generations.now archetypes.now indices.now pending.now in
        Told yes_four (containing lent bits) result out.new }
{
    exports_ids::verdict_ids_contains(head, generations, archetypes, indices, pending, bits, out)
}

// hecs's `get`. Out: the place.
#[unsafe(no_mangle)]
pub extern "C" fn verdict_ids_get(
    head: &[u64; 4],
    generations: &[u32],
    archetypes: &[u32],
    indices: &[u32],
    pending: &[u32],
    bits: u64,
    out: &mut [u64; 4],
) -> u32
    ensures { let lent = ids_of (head_of head.now) generations.now archetypes.now indices.now pending.now in
        Told place_four (getting lent bits) result out.new }
{
    exports_ids::verdict_ids_get(head, generations, archetypes, indices, pending, bits, out)
}

// hecs's `get_mut`: sets the place of a live number.
#[unsafe(no_mangle)]
pub extern "C" fn verdict_ids_set_place(
    head: &[u64; 4],
    generations: &[u32],
    archetypes: &mut [u32],
    indices: &mut [u32],
    pending: &[u32],
    bits: u64,
    archetype: u32,
    index: u32,
) -> u32
    ensures { let lent = ids_of (head_of head.now) generations.now archetypes.old indices.old pending.now in
        let left = ids_of (head_of head.now) generations.now archetypes.new indices.new pending.now in
        Passed (setting_place lent bits (place_of archetype index)) lent result left }
{
    exports_ids::verdict_ids_set_place(
        head,
        generations,
        archetypes,
        indices,
        pending,
        bits,
        archetype,
        index,
    )
}

// hecs's `resolve_unknown_gen`. Out: the handle.
#[unsafe(no_mangle)]
pub extern "C" fn verdict_ids_resolve_unknown_gen(
    head: &[u64; 4],
    generations: &[u32],
    archetypes: &[u32],
    indices: &[u32],
    pending: &[u32],
    number: u32,
    out: &mut [u64; 4],
) -> u32
    ensures { let lent = ids_of (head_of head.now) generations.now archetypes.now indices.now pending.now in
        Told number_four (resolving lent number) result out.new }
{
    exports_ids::verdict_ids_resolve_unknown_gen(
        head,
        generations,
        archetypes,
        indices,
        pending,
        number,
        out,
    )
}

// hecs's `len`. Out: the live count.
#[unsafe(no_mangle)]
pub extern "C" fn verdict_ids_len(
    head: &[u64; 4],
    generations: &[u32],
    archetypes: &[u32],
    indices: &[u32],
    pending: &[u32],
    out: &mut [u64; 4],
) -> u32
    ensures { let lent = ids_of (head_of head.now) generations.now archetypes.now indices.now pending.now in
        Told number_four (counting lent) result out.new }
{
    exports_ids::verdict_ids_len(head, generations, archetypes, indices, pending, out)
}

// hecs's `clear`.
#[unsafe(no_mangle)]
pub extern "C" fn verdict_ids_clear(
    head: &mut [u64; 4],
    generations: &[u32],
    archetypes: &[u32],
    indices: &[u32],
    pending: &[u32],
) -> u32
    ensures { let lent = ids_of (head_of head.old) generations.now archetypes.now indices.now pending.now in
        let left = ids_of (head_of head.new) generations.now archetypes.now indices.now pending.now in
        Passed (clearing lent) lent result left }
{
    exports_ids::verdict_ids_clear(head, generations, archetypes, indices, pending)
}
