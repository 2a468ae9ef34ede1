// Plays the fixed list of calls on handles, borrow words and ids, and prints of each call the refusal's number, what it answers, and a digest of what it leaves.
#![tactic(auto)]

mod batches;
mod numbers;
mod tables;
mod words;

use replay_line::{digest_words, least, line, next, number, part, table};
use std::io;
use tables::Tables;

const TABLES: u64 = 1;

// The line tells the length of the first three tables and of the pending list. The calls go by the numbers that the
// list, the program's input, has for them: those on handles and words, on one number, on n numbers.
fn play(rt: &impl Print, tables: &mut Tables, line: &[u64]) -> io::Result<()> {
    let mut out = [0u64; 4];
    let mut values: [u64; 80] = table(line, 6);
    let values = &mut values[..part(line, 6, 80).len().min(80)];
    let n = least(number(line, 4), 4097);
    let p = least(number(line, 5), 4097);
    let code = match number(line, 0) {
        0..=11 => words::answer(line, values, &mut out),
        12..=21 => numbers::answer(tables, n, p, line, &mut out),
        _ => batches::answer(tables, n, p, line, values, &mut out),
    };
    let left = digest_words(tables.digest(n, p), values);
    replay_line::say(rt, code, &out, left)
}

fn turn(rt: &impl Print, tables: &mut Tables, line: &[u64]) -> io::Result<()> {
    if number(line, 0) == TABLES {
        tables.tell(line);
        return Ok(());
    }
    play(rt, tables, line)
}

// The list begins with the number of its lines.
// Each program has these few lines of its own: an iterator over lines, with its laws, would be longer than all of them.
fn walk(rt: &impl Print, list: &[u64]) -> io::Result<()> {
    let mut tables = Tables::empty();
    let mut at = 1;
    for _ in 0..number(list, 0) {
        turn(rt, &mut tables, line(list, at))?;
        at = next(list, at);
    }
    Ok(())
}

fn main(rt: HostRuntime) -> io::Result<()> {
    let mut text = [0u8; 65536];
    let mut list = [0u64; 32768];
    let n = replay_line::read_full(&rt, &mut text)?;
    replay_line::numbers(&text[..n], &mut list);
    walk(&rt, &list)
}
