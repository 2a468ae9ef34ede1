// The calls on a borrow word and on a handle's bits that another language links.
ghost use Rattle.std.specs.Prelude.{◌≡◌};
ghost use Rattle.refusal.specs.Table.{answer_of};
ghost use Rattle.handle.specs.Bits.{from_bits, new_handle};
ghost use Rattle.borrow_word.specs.Word.{shared_word, unique_word, released_word, unique_released_word};
ghost use Rattle.borrow_word.specs.Slice.{at_word};
ghost use Rattle.crossing.specs.Answers.{Told, Crossed, Passed, number_four};
ghost use Rattle.exports_ids.specs.Words.{in_place, halves_four};

use crossing::{Crossing, cross};
use handle::{Handle, Number};
use refusal::Refusal;

// A handle that crosses in halves: the number and the generation.
#[derive(Clone, Copy)]
struct Halves(Handle);

impl Crossing for Halves {
    ghost use Rattle.exports_ids.specs.Words.{halves_four};

    ghost numbers = { λ halves. halves_four halves.0.0 };

    fn four(self) -> [u64; 4] {
        let handle = self.0;
        [handle.id().0 as u64, handle.generation() as u64, 0, 0]
    }
}

// Leaves a granted word.
fn left(word: &mut u64, answer: Result<u64, Refusal>) -> u32
    ensures { Passed (in_place (answer_of answer)) word.old result word.new }
{
    match answer {
        Ok(granted) => {
            *word = granted;
            0
        }
        Err(refusal) => refusal.number(),
    }
}

// A handle's bits taken apart. Out: the number and the generation.
pub fn verdict_handle_from_bits(raw: u64, out: &mut [u64; 4]) -> u32
    ensures { Told halves_four (from_bits raw) result out.new }
{
    cross(out, Handle::from_bits(raw).map(Halves))
}

// A handle of a number and a generation. Out: its bits.
pub fn verdict_handle_new(number: u32, generation: u32, out: &mut [u64; 4]) -> u32
    ensures { Told number_four (new_handle number generation) result out.new }
{
    cross(out, Handle::new(Number(number), generation))
}

// Shared borrow of a word in place.
pub fn verdict_word_shared(word: &mut u64) -> u32
    ensures { Passed (in_place (shared_word word.old)) word.old result word.new }
{
    let answer = borrow_word::shared(*word);
    left(word, answer)
}

// Shared borrow of the word at a position of a table. Out: the word that is left.
pub fn verdict_word_shared_at(words: &mut [u64], at: usize, out: &mut [u64; 4]) -> u32
    ensures { Crossed number_four (at_word shared_word words.old at) words.old result out.new words.new }
{
    cross(out, borrow_word::shared_at(words, at))
}

// Unique borrow of a word in place.
pub fn verdict_word_unique(word: &mut u64) -> u32
    ensures { Passed (in_place (unique_word word.old)) word.old result word.new }
{
    let answer = borrow_word::unique(*word);
    left(word, answer)
}

// Unique borrow of the word at a position of a table. Out: the word that is left.
pub fn verdict_word_unique_at(words: &mut [u64], at: usize, out: &mut [u64; 4]) -> u32
    ensures { Crossed number_four (at_word unique_word words.old at) words.old result out.new words.new }
{
    cross(out, borrow_word::unique_at(words, at))
}

// Shared release of a word in place.
pub fn verdict_word_release(word: &mut u64) -> u32
    ensures { Passed (in_place (released_word word.old)) word.old result word.new }
{
    let answer = borrow_word::release(*word);
    left(word, answer)
}

// Shared release of the word at a position of a table. Out: the word that is left.
pub fn verdict_word_release_at(words: &mut [u64], at: usize, out: &mut [u64; 4]) -> u32
    ensures { Crossed number_four (at_word released_word words.old at) words.old result out.new words.new }
{
    cross(out, borrow_word::release_at(words, at))
}

// Unique release of a word in place.
pub fn verdict_word_unique_release(word: &mut u64) -> u32
    ensures { Passed (in_place (unique_released_word word.old)) word.old result word.new }
{
    let answer = borrow_word::unique_release(*word);
    left(word, answer)
}

// Unique release of the word at a position of a table. Out: the word that is left.
pub fn verdict_word_unique_release_at(words: &mut [u64], at: usize, out: &mut [u64; 4]) -> u32
    ensures { Crossed number_four (at_word unique_released_word words.old at) words.old result out.new words.new }
{
    cross(out, borrow_word::unique_release_at(words, at))
}
