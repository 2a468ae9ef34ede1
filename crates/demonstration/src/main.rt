// A superoptimiser's cache of candidates: they are found, proved, timed out, given up and announced, while rows move and fall into holes.
#![tactic(auto)]

mod cache;
mod calls;
mod say;
mod show;

use cache::{COST, Cache, KEY, VERDICT};
use handle::Number;
use show::Verdict;
use std::io;

fn bits(number: u32, generation: u32) -> u64 {
    handle::bits_of(generation, Number(number))
}

fn found(rt: &impl Print, cache: &mut Cache, cost: u8, key: u8) -> io::Result<()> {
    print!(rt; "  cost {cost}, key {key}: ")?;
    calls::spawn(rt, cache, 2, &[cost, 0, 0, 0, key, 0, 0, 0, 0, 0, 0, 0])
}

fn find(rt: &impl Print, cache: &mut Cache) -> io::Result<()> {
    rt.println("Five candidates are found.")?;
    found(rt, cache, 31, 160)?;
    found(rt, cache, 27, 161)?;
    found(rt, cache, 45, 162)?;
    found(rt, cache, 12, 163)?;
    found(rt, cache, 18, 164)
}

// The number's candidate gets its verdict.
fn judge(rt: &impl Print, cache: &mut Cache, number: u32, verdict: Verdict) -> io::Result<()> {
    calls::insert(rt, cache, bits(number, 1), VERDICT, &[verdict as u8])
}

fn prove(rt: &impl Print, cache: &mut Cache) -> io::Result<()> {
    rt.print("Two queries are answered.\n  1v1 is proven: ")?;
    judge(rt, cache, 1, Verdict::Proven)?;
    rt.print("  2v1 is refuted: ")?;
    judge(rt, cache, 2, Verdict::Refuted)
}

fn time_out(rt: &impl Print, cache: &Cache) -> io::Result<()> {
    rt.print("The query of 0v1 times out: nothing is written.\n  verdict of 0v1: ")?;
    show::verdict_of(rt, cache, bits(0, 1))
}

fn withdraw(rt: &impl Print, cache: &mut Cache) -> io::Result<()> {
    rt.println("The proof of 1v1 is withdrawn, and 2v1 falls into its row.")?;
    rt.print("  1v1 loses its verdict: ")?;
    calls::remove(rt, cache, bits(1, 1), VERDICT)?;
    rt.print("  verdict of 1v1: ")?;
    show::verdict_of(rt, cache, bits(1, 1))?;
    rt.print("  verdict of 2v1: ")?;
    show::verdict_of(rt, cache, bits(2, 1))
}

fn give_up(rt: &impl Print, cache: &mut Cache) -> io::Result<()> {
    rt.print("Candidate 0v1 is given up.\n  despawn 0v1: ")?;
    calls::despawn(rt, cache, bits(0, 1))?;
    rt.print("  cost of 0v1: ")?;
    show::component(rt, cache, bits(0, 1), COST)
}

fn announce(rt: &impl Print, cache: &mut Cache) -> io::Result<()> {
    rt.print("Three candidates are announced.\n  reserve 3: ")?;
    calls::reserve(rt, cache)?;
    found(rt, cache, 9, 166)?;
    rt.print("  flush: ")?;
    calls::flush(rt, cache)
}

fn work_out(rt: &impl Print, cache: &mut Cache) -> io::Result<()> {
    rt.print("Candidate 5v1 is worked out.\n  its cost is 22: ")?;
    calls::insert(rt, cache, bits(5, 1), COST, &[22, 0, 0, 0])?;
    rt.print("  its key is 165: ")?;
    calls::insert(rt, cache, bits(5, 1), KEY, &[165, 0, 0, 0, 0, 0, 0, 0])?;
    rt.print("  it is proven: ")?;
    judge(rt, cache, 5, Verdict::Proven)?;
    rt.print("  6v1, which has no cost, is proven: ")?;
    judge(rt, cache, 6, Verdict::Proven)
}

fn table(rt: &impl Print, cache: &Cache) -> io::Result<()> {
    rt.println("What each candidate holds.")?;
    show::candidate(rt, cache, bits(0, 2))?;
    for number in 1..7 {
        show::candidate(rt, cache, bits(number, 1))?;
    }
    Ok(())
}

fn main(rt: HostRuntime) -> io::Result<()> {
    let rt = &rt;
    let mut cache = Cache::empty();
    find(rt, &mut cache)?;
    prove(rt, &mut cache)?;
    time_out(rt, &cache)?;
    withdraw(rt, &mut cache)?;
    give_up(rt, &mut cache)?;
    announce(rt, &mut cache)?;
    work_out(rt, &mut cache)?;
    table(rt, &cache)
}
