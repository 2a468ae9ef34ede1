// The store's tables in one list of numbers, in the order in which a line tells them: read out of it, kept in it, and a digest of all.
#![tactic(auto)]

ghost use Rattle.std.specs.Prelude.{◌≡◌, ◌≤◌, min, length, get_or, take, drop};
ghost use Rattle.replay_store_line.specs.Store.{told_in, kept, kept_all, digest_of};

use replay_line::{Keeps, digest_low, digest_words, fill, least, number, part, table};

// How many numbers there are in all, and where each table begins; the head begins the list.
pub const ALL: usize = 193;

const HEAD: usize = 0;

pub const ROWS: usize = 4;

pub const WIDTHS: usize = 10;

pub const TYPES: usize = 16;

pub const SIZES: usize = 25;

pub const GENERATIONS: usize = 34;

pub const ARCHETYPES: usize = 50;

pub const INDICES: usize = 66;

pub const PENDING: usize = 82;

pub const NUMBERS: usize = 98;

pub const COUNTS: usize = 114;

pub const BYTES: usize = 120;

pub const WORDS: usize = 184;

// The tables, each in an array of its own.
#[derive(Clone, Copy)]
pub struct Tables {
    pub head: [u64; 4],
    pub rows: [u32; 6],
    pub widths: [u32; 6],
    pub types: [u32; 9],
    pub sizes: [u32; 9],
    pub generations: [u32; 16],
    pub archetypes: [u32; 16],
    pub indices: [u32; 16],
    pub pending: [u32; 16],
    pub numbers: [u32; 16],
    pub counts: [u32; 6],
    pub bytes: [u8; 64],
    pub words: [u64; 9],
}

impl Tables {
    pub fn told(list: &[u64]) -> Tables
        ensures { result ≡ told_in list.now }
    {
        Tables {
            head: table(list, HEAD),
            rows: table(list, ROWS),
            widths: table(list, WIDTHS),
            types: table(list, TYPES),
            sizes: table(list, SIZES),
            generations: table(list, GENERATIONS),
            archetypes: table(list, ARCHETYPES),
            indices: table(list, INDICES),
            pending: table(list, PENDING),
            numbers: table(list, NUMBERS),
            counts: table(list, COUNTS),
            bytes: table(list, BYTES),
            words: table(list, WORDS),
        }
    }

    // What a call leaves of all tables that it may change, of the pending list and of the counts as far as it was lent them.
    pub fn keep(&self, list: &mut [u64], pending: usize, counts: usize)
        ensures { list.new ≡ kept_all list.old self.now.head self.now.generations self.now.archetypes self.now.indices (take (min pending 16) self.now.pending) self.now.numbers (take (min counts 6) self.now.counts) self.now.bytes self.now.words }
    {
        keep(
            list,
            &self.head,
            &self.generations,
            &self.archetypes,
            &self.indices,
            &self.pending[..pending.min(16)],
            &self.numbers,
            &self.counts[..counts.min(6)],
            &self.bytes,
            &self.words,
        );
    }
}

// A table's values kept from a position on, as far as the list goes.
pub fn keep_table<V: Copy, T: Copy + Keeps<V>>(list: &mut [T], at: usize, values: &[V])
    ensures { list.new ≡ kept T.keeps list.old at values.now }
{
    if at < list.len() {
        fill(&mut list[at..], values);
    }
}

// What a call leaves of all tables that it may change, each of any length.
pub fn keep(
    list: &mut [u64],
    head: &[u64],
    generations: &[u32],
    archetypes: &[u32],
    indices: &[u32],
    pending: &[u32],
    numbers: &[u32],
    counts: &[u32],
    bytes: &[u8],
    words: &[u64],
)
    ensures { list.new ≡ kept_all list.old head.now generations.now archetypes.now indices.now pending.now numbers.now counts.now bytes.now words.now }
{
    keep_table(list, HEAD, head);
    keep_table(list, GENERATIONS, generations);
    keep_table(list, ARCHETYPES, archetypes);
    keep_table(list, INDICES, indices);
    keep_table(list, PENDING, pending);
    keep_table(list, NUMBERS, numbers);
    keep_table(list, COUNTS, counts);
    keep_table(list, BYTES, bytes);
    keep_table(list, WORDS, words);
}

// How much of the pending list and of the counts a call is lent.
pub fn pending_lent(line: &[u64]) -> usize
    ensures upper_bound { result ≤ 16 }
    ensures value { result ≡ min (get_or line.now 4 0) 16 }
{
    least(number(line, 4), 16)
}

pub fn counts_lent(line: &[u64]) -> usize
    ensures upper_bound { result ≤ 6 }
    ensures value { result ≡ min (get_or line.now 5 0) 6 }
{
    least(number(line, 5), 6)
}

// The digest of the tables, as far as a call was lent them.
pub fn digest(list: &[u64], line: &[u64]) -> u64
    ensures { result ≡ digest_of list.now (min (get_or line.now 4 0) 16) (min (get_or line.now 5 0) 6) }
{
    let sum = digest_words(0, part(list, HEAD, 4));
    let sum = digest_low(sum, part(list, ROWS, 78));
    let sum = digest_low(sum, part(list, PENDING, pending_lent(line)));
    let sum = digest_low(sum, part(list, NUMBERS, 16));
    let sum = digest_low(sum, part(list, COUNTS, counts_lent(line)));
    let sum = digest_low(sum, part(list, BYTES, 64));
    digest_words(sum, part(list, WORDS, 9))
}

// How many words or bytes a call is lent beside the tables: those of the line's rest.
pub fn values_lent(line: &[u64]) -> usize
    ensures upper_bound { result ≤ 80 }
    ensures value { result ≡ min (length (take 80 (drop 6 line.now))) 80 }
{
    part(line, 6, 80).len().min(80)
}
