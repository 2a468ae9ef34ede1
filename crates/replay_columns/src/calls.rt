// The column calls, by the numbers that the list, the program's input, has for them.
ghost use Rattle.std.specs.Prelude.{◌≤◌};

use crate::tables::Tables;
use exports_columns::{
    verdict_columns_allocate, verdict_columns_get, verdict_columns_ids, verdict_columns_lookup,
    verdict_columns_move_out, verdict_columns_put, verdict_columns_remove,
};
use replay_line::{low, number};

// A call on so many row counts and bytes.
pub(crate) fn answer(
    t: &mut Tables,
    c: usize,
    s: usize,
    line: &[u64],
    values: &mut [u8],
    out: &mut [u64; 4],
) -> u32
    requires { (c ≤ 6) × (s ≤ 64) }
{
    let a = low(number(line, 1));
    let b = low(number(line, 2));
    let kind = low(number(line, 3));
    let numbers = &mut t.numbers;
    let counts = &mut t.counts[..];
    let counts = &mut counts[..c];
    let bytes = &mut t.bytes[..];
    let bytes = &mut bytes[..s];
    match number(line, 0) {
        2 => verdict_columns_allocate(
            &t.rows, &t.widths, &t.types, &t.sizes, numbers, counts, bytes, a, b, out,
        ),
        3 => verdict_columns_remove(
            &t.rows, &t.widths, &t.types, &t.sizes, numbers, counts, bytes, a, b, out,
        ),
        4 => verdict_columns_move_out(
            &t.rows, &t.widths, &t.types, &t.sizes, numbers, counts, bytes, values, a, b, out,
        ),
        0 | 1 | 5 => verdict_columns_put(
            &t.rows, &t.widths, &t.types, &t.sizes, numbers, counts, bytes, a, b, kind, values,
        ),
        6 => verdict_columns_get(
            &t.rows, &t.widths, &t.types, &t.sizes, numbers, counts, bytes, a, b, kind, out,
        ),
        7 => verdict_columns_lookup(&t.rows, &t.widths, &t.types, &t.sizes, a, b, out),
        _ => verdict_columns_ids(
            &t.rows, &t.widths, &t.types, &t.sizes, numbers, counts, bytes, a, out,
        ),
    }
}
