// The store calls that move no row: read and write a component, borrow and release a column, the lookups.
#![tactic(auto)]

mod component;
mod lookups;
mod reads;
mod words;
mod writes;

pub use lookups::{contains, get, len, resolve_unknown_gen};
pub use reads::{read, read_bytes};
pub use words::{borrow, borrow_mut, release, release_mut};
pub use writes::write;
