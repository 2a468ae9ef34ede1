// How heads and answers cross to another language: a head as four numbers of 64 bits, an answer as the refusal's number, 0 where the call is granted, and four numbers.
#![tactic(auto)]

mod answers;
mod words;

pub use answers::{Crossing, code, cross};
pub use words::{head_of, put_head};
