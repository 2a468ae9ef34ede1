// The id calls on n numbers.
ghost use Rattle.std.specs.Prelude.{◌≤◌};

use crate::tables::Tables;
use exports_ids::{
    verdict_ids_alloc_many, verdict_ids_alloc_many_next, verdict_ids_flush, verdict_ids_freelist,
    verdict_ids_reserve_entities,
};
use replay_line::{fill, low, number};

// A step of the walk whose state the values tell, before and after.
fn walked(values: &mut [u64], pending: &[u32], out: &mut [u64; 4]) -> u32 {
    let mut state = replay_line::table(values, 0);
    let code = verdict_ids_alloc_many_next(&mut state, pending, out);
    fill(values, &state);
    code
}

// The state is told by the values.
fn alloced(t: &mut Tables, n: usize, p: usize, line: &[u64], values: &mut [u64]) -> u32
    requires { (n ≤ 4097) × (p ≤ 4097) }
{
    let generations = &mut t.generations[..];
    let archetypes = &mut t.archetypes[..];
    let indices = &mut t.indices[..];
    let mut state = [0u32; 4];
    let code = verdict_ids_alloc_many(
        &mut t.head,
        &mut generations[..n],
        &mut archetypes[..n],
        &mut indices[..n],
        &t.pending[..p],
        number(line, 1) as usize,
        low(number(line, 2)),
        low(number(line, 3)),
        &mut state,
    );
    fill(values, &state);
    code
}

fn flushed(t: &mut Tables, n: usize, p: usize, line: &[u64]) -> u32
    requires { (n ≤ 4097) × (p ≤ 4097) }
{
    let generations = &mut t.generations[..];
    let archetypes = &mut t.archetypes[..];
    let indices = &mut t.indices[..];
    verdict_ids_flush(
        &mut t.head,
        &mut generations[..n],
        &mut archetypes[..n],
        &mut indices[..n],
        &t.pending[..p],
        low(number(line, 1)),
        low(number(line, 2)),
    )
}

// A call on so much of the three tables and of the pending list.
pub(crate) fn answer(
    t: &mut Tables,
    n: usize,
    p: usize,
    line: &[u64],
    values: &mut [u64],
    out: &mut [u64; 4],
) -> u32
    requires { (n ≤ 4097) × (p ≤ 4097) }
{
    match number(line, 0) {
        22 => verdict_ids_reserve_entities(
            &mut t.head,
            &t.generations[..n],
            &t.archetypes[..n],
            &t.indices[..n],
            &t.pending[..p],
            number(line, 1) as usize,
            values,
        ),
        23 => alloced(t, n, p, line, values),
        24 => walked(values, &t.pending[..p], out),
        25 => flushed(t, n, p, line),
        _ => verdict_ids_freelist(
            &t.head,
            &t.generations[..n],
            &t.archetypes[..n],
            &t.indices[..n],
            &t.pending[..p],
            values,
            out,
        ),
    }
}
