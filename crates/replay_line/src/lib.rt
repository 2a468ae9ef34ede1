// The fixed lists: numbers out of text, lines out of numbers, tables filled from a line, and a digest of what a call leaves.
#![tactic(auto)]

mod digests;
mod fills;
mod input;
mod lines;
mod said;
mod text;

pub use digests::{digest_bytes, digest_low, digest_numbers, digest_words};
pub use fills::{Keeps, fill, table};
pub use input::read_full;
pub use lines::{least, line, low, next, number, part};
pub use said::say;
pub use text::numbers;
