// The calls on n numbers: reserve, allocate many and walk them, flush, list the free ones.
#![tactic(auto)]

mod flushing;
mod listing;
mod loops;
mod many;
mod reserving;

pub use flushing::flush;
pub use listing::freelist;
pub use many::{AllocManyState, alloc_many};
pub use reserving::reserve_entities;
