// Holds no code: the crate is its specs, what the store's rules mean on sound tables, and their proofs.
#![tactic(auto)]
