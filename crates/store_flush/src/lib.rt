// Flush and clear, over the whole store.
#![tactic(auto)]

mod clearing;
mod flushing;
mod listing;

pub use clearing::clear;
pub use flushing::flush;
