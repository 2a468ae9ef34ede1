// What another language links of handles, borrow words and ids. Every call answers the refusal's number, 0 where it is granted; a head is four numbers: used, pending, the cursor in two's complement, live. Each takes its tables as slices side by side: C lends them so.
#![tactic(auto)]

mod batches;
mod numbers;
mod tables;
mod walks;
mod words;

pub use batches::{
    verdict_ids_alloc_many, verdict_ids_flush, verdict_ids_freelist, verdict_ids_reserve_entities,
};
pub use numbers::{
    verdict_ids_alloc, verdict_ids_alloc_at, verdict_ids_clear, verdict_ids_contains,
    verdict_ids_free, verdict_ids_get, verdict_ids_len, verdict_ids_reserve_entity,
    verdict_ids_resolve_unknown_gen, verdict_ids_set_place,
};
pub use walks::{
    verdict_ids_alloc_many_len, verdict_ids_alloc_many_next, verdict_ids_reserve_len,
    verdict_ids_reserve_next, verdict_ids_reserve_span,
};
pub use words::{
    verdict_handle_from_bits, verdict_handle_new, verdict_word_release, verdict_word_release_at,
    verdict_word_shared, verdict_word_shared_at, verdict_word_unique, verdict_word_unique_at,
    verdict_word_unique_release, verdict_word_unique_release_at,
};
