// Borrow words: the top bit of 64 says that a column is held uniquely, the low 63 count its shared holders.
#![tactic(auto)]

ghost use Rattle.std.specs.Prelude.{◌≡◌, ◌<◌, ◌≤◌, length, slice_index};
ghost use Rattle.refusal.specs.Table.{Did, answer_of, left_of};
ghost use Rattle.borrow_word.specs.Word.{shared_word, unique_word, released_word, unique_released_word};
ghost use Rattle.borrow_word.specs.Slice.{at_word, storing, any_held};

use refusal::Refusal;

const COUNT: u64 = 0x7fff_ffff_ffff_ffff;

pub fn shared(word: u64) -> Result<u64, Refusal>
    ensures { answer_of result ≡ shared_word word }
{
    if word & COUNT == COUNT {
        return Err(Refusal::CountFull);
    }
    if word >> 63 == 1 {
        return Err(Refusal::UniqueHeld);
    }
    Ok(word + 1)
}

pub fn unique(word: u64) -> Result<u64, Refusal>
    ensures { answer_of result ≡ unique_word word }
{
    if word != 0 {
        return Err(Refusal::WordHeld);
    }
    Ok(1 << 63)
}

pub fn release(word: u64) -> Result<u64, Refusal>
    ensures { answer_of result ≡ released_word word }
{
    if word == 0 {
        return Err(Refusal::NotHeld);
    }
    if word >> 63 == 1 {
        return Err(Refusal::WrongRelease);
    }
    Ok(word - 1)
}

pub fn unique_release(word: u64) -> Result<u64, Refusal>
    ensures { answer_of result ≡ unique_released_word word }
{
    if word >> 63 == 0 {
        return Err(Refusal::WrongRelease);
    }
    Ok(word & COUNT)
}

// A step at a position of a lent table of words: a granted word is stored in its place; a refusal changes nothing.
fn step_at<F: FnOnce(u64) -> Result<u64, Refusal>>(
    words: &mut [u64],
    at: usize,
    step: F,
) -> Result<u64, Refusal>
    requires { F.IsAlwaysCallable step }
    ensures past { length words.old ≤ at → (result ≡ Err Refusal.BadLength) × (words.new ≡ words.old) }
    ensures within { at < length words.old → F.post step (slice_index words.old at) result × (words.new ≡ left_of (storing words.old at (answer_of result)) words.old) }
{
    if words.len() <= at {
        return Err(Refusal::BadLength);
    }
    let word = step(words[at])?;
    words[at] = word;
    Ok(word)
}

// The same four at a position of a lent table of words.
pub fn shared_at(words: &mut [u64], at: usize) -> Result<u64, Refusal>
    ensures { Did (at_word shared_word words.old at) words.old (answer_of result) words.new }
{
    step_at(words, at, shared)
}

pub fn unique_at(words: &mut [u64], at: usize) -> Result<u64, Refusal>
    ensures { Did (at_word unique_word words.old at) words.old (answer_of result) words.new }
{
    step_at(words, at, unique)
}

pub fn release_at(words: &mut [u64], at: usize) -> Result<u64, Refusal>
    ensures { Did (at_word released_word words.old at) words.old (answer_of result) words.new }
{
    step_at(words, at, release)
}

pub fn unique_release_at(words: &mut [u64], at: usize) -> Result<u64, Refusal>
    ensures { Did (at_word unique_released_word words.old at) words.old (answer_of result) words.new }
{
    step_at(words, at, unique_release)
}

// Whether any word is other than 0: what forbids a call to move rows.
pub fn any_held(words: &[u64]) -> bool
    ensures { result ≡ any_held words.now }
{
    words.iter().any(|word| *word != 0)
}
