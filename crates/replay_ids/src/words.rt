// The calls on handles and on borrow words.
use exports_ids::{
    verdict_handle_from_bits, verdict_handle_new, verdict_word_release, verdict_word_release_at,
    verdict_word_shared, verdict_word_shared_at, verdict_word_unique, verdict_word_unique_at,
    verdict_word_unique_release, verdict_word_unique_release_at,
};
use replay_line::{low, number};

// A word in place is answered as it is left.
fn in_place(call: u64, word: u64, out: &mut [u64; 4]) -> u32 {
    let mut left = word;
    let code = match call {
        2 => verdict_word_shared(&mut left),
        3 => verdict_word_unique(&mut left),
        4 => verdict_word_release(&mut left),
        _ => verdict_word_unique_release(&mut left),
    };
    *out = [left, 0, 0, 0];
    code
}

pub(crate) fn answer(line: &[u64], words: &mut [u64], out: &mut [u64; 4]) -> u32 {
    let call = number(line, 0);
    let a = number(line, 1);
    match call {
        0..=5 => in_place(call, a, out),
        6 => verdict_word_shared_at(words, a as usize, out),
        7 => verdict_word_unique_at(words, a as usize, out),
        8 => verdict_word_release_at(words, a as usize, out),
        9 => verdict_word_unique_release_at(words, a as usize, out),
        10 => verdict_handle_from_bits(a, out),
        _ => verdict_handle_new(low(a), low(number(line, 2)), out),
    }
}
