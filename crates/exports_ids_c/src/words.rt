// The exported calls on a borrow word and on a handle's bits.
ghost use Rattle.handle.specs.Bits.{from_bits, new_handle};
ghost use Rattle.borrow_word.specs.Word.{shared_word, unique_word, released_word, unique_released_word};
ghost use Rattle.borrow_word.specs.Slice.{at_word};
ghost use Rattle.crossing.specs.Answers.{Told, Crossed, Passed, number_four};
ghost use Rattle.exports_ids.specs.Words.{in_place, halves_four};

// A handle's bits taken apart. Out: the number and the generation.
#[unsafe(no_mangle)]
pub extern "C" fn verdict_handle_from_bits(raw: u64, out: &mut [u64; 4]) -> u32
    ensures { Told halves_four (from_bits raw) result out.new }
{
    exports_ids::verdict_handle_from_bits(raw, out)
}

// A handle of a number and a generation. Out: its bits.
#[unsafe(no_mangle)]
pub extern "C" fn verdict_handle_new(number: u32, generation: u32, out: &mut [u64; 4]) -> u32
    ensures { Told number_four (new_handle number generation) result out.new }
{
    exports_ids::verdict_handle_new(number, generation, out)
}

// Shared borrow of a word in place.
#[unsafe(no_mangle)]
pub extern "C" fn verdict_word_shared(word: &mut u64) -> u32
    ensures { Passed (in_place (shared_word word.old)) word.old result word.new }
{
    exports_ids::verdict_word_shared(word)
}

// Shared borrow of the word at a position of a table. Out: the word that is left.
#[unsafe(no_mangle)]
pub extern "C" fn verdict_word_shared_at(words: &mut [u64], at: usize, out: &mut [u64; 4]) -> u32
    ensures { Crossed number_four (at_word shared_word words.old at) words.old result out.new words.new }
{
    exports_ids::verdict_word_shared_at(words, at, out)
}

// Unique borrow of a word in place.
#[unsafe(no_mangle)]
pub extern "C" fn verdict_word_unique(word: &mut u64) -> u32
    ensures { Passed (in_place (unique_word word.old)) word.old result word.new }
{
    exports_ids::verdict_word_unique(word)
}

// Unique borrow of the word at a position of a table. Out: the word that is left.
#[unsafe(no_mangle)]
pub extern "C" fn verdict_word_unique_at(words: &mut [u64], at: usize, out: &mut [u64; 4]) -> u32
    ensures { Crossed number_four (at_word unique_word words.old at) words.old result out.new words.new }
{
    exports_ids::verdict_word_unique_at(words, at, out)
}

// Shared release of a word in place.
#[unsafe(no_mangle)]
pub extern "C" fn verdict_word_release(word: &mut u64) -> u32
    ensures { Passed (in_place (released_word word.old)) word.old result word.new }
{
    exports_ids::verdict_word_release(word)
}

// Shared release of the word at a position of a table. Out: the word that is left.
#[unsafe(no_mangle)]
pub extern "C" fn verdict_word_release_at(words: &mut [u64], at: usize, out: &mut [u64; 4]) -> u32
    ensures { Crossed number_four (at_word released_word words.old at) words.old result out.new words.new }
{
    exports_ids::verdict_word_release_at(words, at, out)
}

// Unique release of a word in place.
#[unsafe(no_mangle)]
pub extern "C" fn verdict_word_unique_release(word: &mut u64) -> u32
    ensures { Passed (in_place (unique_released_word word.old)) word.old result word.new }
{
    exports_ids::verdict_word_unique_release(word)
}

// Unique release of the word at a position of a table. Out: the word that is left.
#[unsafe(no_mangle)]
pub extern "C" fn verdict_word_unique_release_at(
    words: &mut [u64],
    at: usize,
    out: &mut [u64; 4],
) -> u32
    ensures { Crossed number_four (at_word unique_released_word words.old at) words.old result out.new words.new }
{
    exports_ids::verdict_word_unique_release_at(words, at, out)
}
