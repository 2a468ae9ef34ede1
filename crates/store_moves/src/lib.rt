// What insert and remove of a component share: the target archetype, the tests of a row that is to move, and the step that moves it.
#![tactic(auto)]

mod steps;
mod target;
mod tests;

pub use steps::{gather, move_row};
pub use target::{Change, target_of, types_before};
pub use tests::move_tested;

// The bytes of the widest row: 16 columns of 64 bytes.
pub const ROOM: usize = 1024;
