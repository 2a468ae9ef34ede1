// Plays the fixed list of the store's calls that leave every row as it is, and prints of each call the refusal's number, what it answers, and a digest of what it leaves.
#![tactic(auto)]

mod play;

use replay_line::{fill, line, next, number, part};
use replay_store_line::ALL;
use std::io;

const TABLES: u64 = 1;

fn turn(rt: &impl Print, list: &mut [u64], line: &[u64]) -> io::Result<()> {
    if number(line, 0) == TABLES {
        fill(list, part(line, 1, ALL));
        return Ok(());
    }
    play::play(rt, list, line)
}

// The list begins with the number of its lines.
// Each program has these few lines of its own: an iterator over lines, with its laws, would be longer than all of them.
fn walk(rt: &impl Print, list: &[u64], tables: &mut [u64]) -> io::Result<()> {
    let mut at = 1;
    for _ in 0..number(list, 0) {
        turn(rt, tables, line(list, at))?;
        at = next(list, at);
    }
    Ok(())
}

fn main(rt: HostRuntime) -> io::Result<()> {
    let mut text = [0u8; 65536];
    let mut list = [0u64; 32768];
    let mut tables = [0u64; ALL];
    let n = replay_line::read_full(&rt, &mut text)?;
    replay_line::numbers(&text[..n], &mut list);
    walk(&rt, &list, &mut tables)
}
