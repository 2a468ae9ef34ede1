// The exports of exports_ids, each of which only calls it: what another language links of handles, borrow words and ids.
#![tactic(auto)]

mod batches;
mod numbers;
mod walks;
mod words;
