// The id calls on one number, and those that look.
ghost use Rattle.std.specs.Prelude.{◌≤◌};

use crate::tables::Tables;
use exports_ids::{
    verdict_ids_alloc, verdict_ids_alloc_at, verdict_ids_clear, verdict_ids_contains,
    verdict_ids_free, verdict_ids_get, verdict_ids_len, verdict_ids_reserve_entity,
    verdict_ids_resolve_unknown_gen, verdict_ids_set_place,
};
use replay_line::{low, number};

// A call on so much of the three tables and of the pending list.
pub(crate) fn answer(t: &mut Tables, n: usize, p: usize, line: &[u64], out: &mut [u64; 4]) -> u32
    requires { (n ≤ 4097) × (p ≤ 4097) }
{
    let a = number(line, 1);
    let b = low(number(line, 2));
    let c = low(number(line, 3));
    let head = &mut t.head;
    let generations = &mut t.generations[..];
    let generations = &mut generations[..n];
    let archetypes = &mut t.archetypes[..];
    let archetypes = &mut archetypes[..n];
    let indices = &mut t.indices[..];
    let indices = &mut indices[..n];
    let pending = &mut t.pending[..];
    let pending = &mut pending[..p];
    match number(line, 0) {
        12 => verdict_ids_reserve_entity(head, generations, archetypes, indices, pending, out),
        13 => verdict_ids_alloc(
            head,
            generations,
            archetypes,
            indices,
            pending,
            low(a),
            b,
            out,
        ),
        14 => verdict_ids_alloc_at(
            head,
            generations,
            archetypes,
            indices,
            pending,
            a,
            b,
            c,
            out,
        ),
        15 => verdict_ids_free(head, generations, archetypes, indices, pending, a, out),
        16 => verdict_ids_set_place(head, generations, archetypes, indices, pending, a, b, c),
        17 => verdict_ids_contains(head, generations, archetypes, indices, pending, a, out),
        18 => verdict_ids_get(head, generations, archetypes, indices, pending, a, out),
        19 => verdict_ids_resolve_unknown_gen(
            head,
            generations,
            archetypes,
            indices,
            pending,
            low(a),
            out,
        ),
        20 => verdict_ids_len(head, generations, archetypes, indices, pending, out),
        _ => verdict_ids_clear(head, generations, archetypes, indices, pending),
    }
}
