// The ground of the id layer: the head, the view of the lent tables, what every call tests first, and the calls that look or set without handing a number out.
#![tactic(auto)]

mod entry;
mod head;
mod lookup;
mod place;
mod runs;
mod tables;
mod whole;

pub use entry::{capacity_tested, head_tested, lengths_tested};
pub use head::Head;
pub use place::set_place;
pub use runs::fill;
pub use tables::{IdTables, at, put, put_place};
