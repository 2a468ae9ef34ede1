// The two walks in the Rust's own forms: a reader that holds the lent part of the pending list, and a state that is lent and advances in place.
#![tactic(auto)]

mod reader;
mod spans;
mod state;

pub use reader::{ReserveEntitiesIterator, reserve_entities};
pub use spans::{Span, reserve_len, reserve_next, reserve_span};
pub use state::{alloc_many_next, alloc_many_step};
