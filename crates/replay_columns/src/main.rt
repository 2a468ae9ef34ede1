// Plays the fixed list of column calls, and prints of each call the refusal's number, what it answers, and a digest of what it leaves.
#![tactic(auto)]

mod calls;
mod tables;

use replay_line::{digest_bytes, least, line, next, number, part, table};
use std::io;
use tables::Tables;

const TABLES: u64 = 1;

// The line tells the length of the row counts and of the bytes.
fn play(rt: &impl Print, tables: &mut Tables, line: &[u64]) -> io::Result<()> {
    let mut out = [0u64; 4];
    let mut values: [u8; 80] = table(line, 6);
    let values = &mut values[..part(line, 6, 80).len().min(80)];
    let c = least(number(line, 4), 6);
    let b = least(number(line, 5), 64);
    let code = calls::answer(tables, c, b, line, values, &mut out);
    let left = tables.digest(&tables.counts[..c], &tables.bytes[..b]);
    replay_line::say(rt, code, &out, digest_bytes(left, values))
}

fn turn(rt: &impl Print, tables: &mut Tables, line: &[u64]) -> io::Result<()> {
    if number(line, 0) == TABLES {
        *tables = Tables::told(line);
        return Ok(());
    }
    play(rt, tables, line)
}

// The list begins with the number of its lines; the tables are zeros at first.
// Each program has these few lines of its own: an iterator over lines, with its laws, would be longer than all of them.
fn walk(rt: &impl Print, list: &[u64]) -> io::Result<()> {
    let mut tables = Tables::told(&[]);
    let mut at = 1;
    for _ in 0..number(list, 0) {
        turn(rt, &mut tables, line(list, at))?;
        at = next(list, at);
    }
    Ok(())
}

fn main(rt: HostRuntime) -> io::Result<()> {
    let mut text = [0u8; 65536];
    let mut list = [0u64; 32768];
    let n = replay_line::read_full(&rt, &mut text)?;
    replay_line::numbers(&text[..n], &mut list);
    walk(&rt, &list)
}
