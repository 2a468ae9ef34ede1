// A digest of tables, one after the other: a number that tells what they hold in which order.
ghost use Rattle.std.specs.Prelude.{◌≡◌, fold};
ghost use Rattle.replay_line.specs.Tables.{mixed, mixed_word, mixed_low};

use crate::lines::low;

fn mix(digest: u64, value: u32) -> u64
    ensures { result ≡ mixed digest value }
{
    (digest % 8796093022151) * 1048573 + value as u64
}

// Both halves of a word.
fn mix_word(digest: u64, value: u64) -> u64
    ensures { result ≡ mixed_word digest value }
{
    mix(mix(digest, low(value / 4294967296)), low(value))
}

fn mix_low(digest: u64, value: u64) -> u64
    ensures { result ≡ mixed_low digest value }
{
    mix(digest, low(value))
}

pub fn digest_words(digest: u64, table: &[u64]) -> u64
    ensures { result ≡ fold mixed_word digest table.now }
{
    table
        .iter()
        .fold(digest, |sum, value| mix_word(sum, *value))
}

// The low half of each word.
pub fn digest_low(digest: u64, table: &[u64]) -> u64
    ensures { result ≡ fold mixed_low digest table.now }
{
    table.iter().fold(digest, |sum, value| mix_low(sum, *value))
}

pub fn digest_numbers(digest: u64, table: &[u32]) -> u64
    ensures { result ≡ fold mixed digest table.now }
{
    table.iter().fold(digest, |sum, value| mix(sum, *value))
}

pub fn digest_bytes(digest: u64, table: &[u8]) -> u64
    ensures { result ≡ fold mixed digest table.now }
{
    table
        .iter()
        .fold(digest, |sum, value| mix(sum, u32::from(*value)))
}
