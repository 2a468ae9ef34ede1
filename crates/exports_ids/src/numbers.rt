// The id calls that another language links: on one number, and lookups.
ghost use Rattle.handle.specs.Bits.{place_of};
ghost use Rattle.id_tables.specs.Lookup.{containing, getting, setting_place, resolving, counting, clearing};
ghost use Rattle.ids.specs.Reserve.{reserving};
ghost use Rattle.ids.specs.Alloc.{allocating};
ghost use Rattle.ids.specs.AllocAt.{allocating_at};
ghost use Rattle.ids.specs.Free.{freeing};
ghost use Rattle.crossing.specs.Answers.{Told, Crossed, Passed, number_four, yes_four, place_four, old_place_four};
ghost use Rattle.id_tables.specs.Ids.{ids_of};
ghost use Rattle.crossing.specs.Words.{head_of};

use crate::tables::lent;
use crossing::{code, cross, head_of, put_head};
use handle::{Number, Place, Row};

// hecs's `reserve_entity`. Out: the handle.
pub fn verdict_ids_reserve_entity(
    head: &mut [u64; 4],
    generations: &[u32],
    archetypes: &[u32],
    indices: &[u32],
    pending: &[u32],
    out: &mut [u64; 4],
) -> u32
    ensures { let lent = ids_of (head_of head.old) generations.now archetypes.now indices.now pending.now in
        let left = ids_of (head_of head.new) generations.now archetypes.now indices.now pending.now in
        Crossed number_four (reserving lent) lent result out.new left }
{
    let mut ids = lent(head, generations, archetypes, indices, pending);
    let answer = ids::reserve_entity(&mut ids);
    put_head(head, ids.head);
    cross(out, answer)
}

// hecs's `alloc`, with the place that the number gets. Out: the handle.
pub fn verdict_ids_alloc(
    head: &mut [u64; 4],
    generations: &mut [u32],
    archetypes: &mut [u32],
    indices: &mut [u32],
    pending: &[u32],
    archetype: u32,
    index: u32,
    out: &mut [u64; 4],
) -> u32
    ensures { let lent = ids_of (head_of head.old) generations.old archetypes.old indices.old pending.now in
        let left = ids_of (head_of head.new) generations.new archetypes.new indices.new pending.now in
        Crossed number_four (allocating lent (place_of archetype index)) lent result out.new left }
{
    let place = Place {
        archetype,
        index: Row(index),
    };
    let mut left = head_of(head);
    let answer = ids::alloc(&mut left, generations, archetypes, indices, pending, place);
    put_head(head, left);
    cross(out, answer)
}

// hecs's `alloc_at`, with the place that the number gets. Out: 0, or 1 and the place that a live number had.
pub fn verdict_ids_alloc_at(
    head: &mut [u64; 4],
    generations: &mut [u32],
    archetypes: &mut [u32],
    indices: &mut [u32],
    pending: &mut [u32],
    bits: u64,
    archetype: u32,
    index: u32,
    out: &mut [u64; 4],
) -> u32
    ensures { let lent = ids_of (head_of head.old) generations.old archetypes.old indices.old pending.old in
        let left = ids_of (head_of head.new) generations.new archetypes.new indices.new pending.new in
        Crossed old_place_four (allocating_at lent bits (place_of archetype index)) lent result out.new left }
{
    let place = Place {
        archetype,
        index: Row(index),
    };
    let mut left = head_of(head);
    let answer = ids::alloc_at(
        &mut left,
        generations,
        archetypes,
        indices,
        pending,
        bits,
        place,
    );
    put_head(head, left);
    cross(out, answer)
}

// hecs's `free`. Out: the place that the number had.
pub fn verdict_ids_free(
    head: &mut [u64; 4],
    generations: &mut [u32],
    archetypes: &mut [u32],
    indices: &mut [u32],
    pending: &mut [u32],
    bits: u64,
    out: &mut [u64; 4],
) -> u32
    ensures { let lent = ids_of (head_of head.old) generations.old archetypes.old indices.old pending.old in
        let left = ids_of (head_of head.new) generations.new archetypes.new indices.new pending.new in
        Crossed place_four (freeing lent bits) lent result out.new left }
{
    let mut left = head_of(head);
    let answer = ids::free(&mut left, generations, archetypes, indices, pending, bits);
    put_head(head, left);
    cross(out, answer)
}

// hecs's `contains`. Out: 1 for yes, 0 for no.
pub fn verdict_ids_contains(
    head: &[u64; 4],
    generations: &[u32],
    archetypes: &[u32],
    indices: &[u32],
    pending: &[u32],
    bits: u64,
    out: &mut [u64; 4],
) -> u32
    ensures { let lent = ids_of (head_of head.now) generations.now archetypes.now indices.now pending.now in
        Told yes_four (containing lent bits) result out.new }
{
    let ids = lent(head, generations, archetypes, indices, pending);
    cross(out, ids.contains(bits))
}

// hecs's `get`. Out: the place.
pub fn verdict_ids_get(
    head: &[u64; 4],
    generations: &[u32],
    archetypes: &[u32],
    indices: &[u32],
    pending: &[u32],
    bits: u64,
    out: &mut [u64; 4],
) -> u32
    ensures { let lent = ids_of (head_of head.now) generations.now archetypes.now indices.now pending.now in
        Told place_four (getting lent bits) result out.new }
{
    let ids = lent(head, generations, archetypes, indices, pending);
    cross(out, ids.get(bits))
}

// hecs's `get_mut`: sets the place of a live number.
pub fn verdict_ids_set_place(
    head: &[u64; 4],
    generations: &[u32],
    archetypes: &mut [u32],
    indices: &mut [u32],
    pending: &[u32],
    bits: u64,
    archetype: u32,
    index: u32,
) -> u32
    ensures { let lent = ids_of (head_of head.now) generations.now archetypes.old indices.old pending.now in
        let left = ids_of (head_of head.now) generations.now archetypes.new indices.new pending.now in
        Passed (setting_place lent bits (place_of archetype index)) lent result left }
{
    let place = Place {
        archetype,
        index: Row(index),
    };
    let answer = id_tables::set_place(
        head_of(head),
        generations,
        archetypes,
        indices,
        pending,
        bits,
        place,
    );
    code(answer)
}

// hecs's `resolve_unknown_gen`. Out: the handle.
pub fn verdict_ids_resolve_unknown_gen(
    head: &[u64; 4],
    generations: &[u32],
    archetypes: &[u32],
    indices: &[u32],
    pending: &[u32],
    number: u32,
    out: &mut [u64; 4],
) -> u32
    ensures { let lent = ids_of (head_of head.now) generations.now archetypes.now indices.now pending.now in
        Told number_four (resolving lent number) result out.new }
{
    let ids = lent(head, generations, archetypes, indices, pending);
    cross(out, ids.resolve_unknown_gen(Number(number)))
}

// hecs's `len`. Out: the live count.
pub fn verdict_ids_len(
    head: &[u64; 4],
    generations: &[u32],
    archetypes: &[u32],
    indices: &[u32],
    pending: &[u32],
    out: &mut [u64; 4],
) -> u32
    ensures { let lent = ids_of (head_of head.now) generations.now archetypes.now indices.now pending.now in
        Told number_four (counting lent) result out.new }
{
    let ids = lent(head, generations, archetypes, indices, pending);
    cross(out, ids.len())
}

// hecs's `clear`.
pub fn verdict_ids_clear(
    head: &mut [u64; 4],
    generations: &[u32],
    archetypes: &[u32],
    indices: &[u32],
    pending: &[u32],
) -> u32
    ensures { let lent = ids_of (head_of head.old) generations.now archetypes.now indices.now pending.now in
        let left = ids_of (head_of head.new) generations.now archetypes.now indices.now pending.now in
        Passed (clearing lent) lent result left }
{
    let mut ids = lent(head, generations, archetypes, indices, pending);
    let answer = ids.clear();
    put_head(head, ids.head);
    code(answer)
}
