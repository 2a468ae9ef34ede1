// Tables filled from a list of numbers, as far as both go.
ghost use Rattle.std.specs.Prelude.{◌≡◌, drop, replicate, take};
ghost use Rattle.replay_line.specs.Tables.{filled};

use crate::lines::{low, part};

// What a table of this type keeps of a value.
pub trait Keeps<V> {
    ghost keeps: { V → Self };

    fn keep(value: V) -> Self
        ensures { result ≡ keeps value };
}

impl Keeps<u64> for u64 {
    ghost use Rattle.replay_line.specs.Tables.{words};

    ghost keeps = { words };

    fn keep(value: u64) -> u64 {
        value
    }
}

// The low half.
impl Keeps<u64> for u32 {
    ghost use Rattle.replay_line.specs.Tables.{numbers};

    ghost keeps = { numbers };

    fn keep(value: u64) -> u32 {
        low(value)
    }
}

// The low byte.
impl Keeps<u64> for u8 {
    ghost use Rattle.replay_line.specs.Tables.{bytes};

    ghost keeps = { bytes };

    fn keep(value: u64) -> u8 {
        (value % 256) as u8
    }
}

impl Keeps<u32> for u64 {
    ghost use Rattle.replay_line.specs.Tables.{words};

    ghost keeps = { words };

    fn keep(value: u32) -> u64 {
        value as u64
    }
}

impl Keeps<u8> for u64 {
    ghost use Rattle.replay_line.specs.Tables.{words};

    ghost keeps = { words };

    fn keep(value: u8) -> u64 {
        value as u64
    }
}

// Each value goes to the table's next place.
pub fn fill<V: Copy, T: Copy + Keeps<V>>(table: &mut [T], values: &[V])
    ensures { table.new ≡ filled T.keeps table.old values.now }
{
    for (i, value) in values.iter().enumerate() {
        if i < table.len() {
            table[i] = T::keep(*value);
        }
    }
}

// So many numbers of a list from a position on as a table; zeros past the list's end.
pub fn table<T: Copy + Keeps<u64>, const N: usize>(list: &[u64], at: usize) -> [T; N]
    ensures { result ≡ filled T.keeps (replicate N (T.keeps 0)) (take N (drop at list.now)) }
{
    let mut table = [T::keep(0); N];
    fill(&mut table, part(list, at, N));
    table
}
