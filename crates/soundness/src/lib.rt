// Holds no code: the crate is its specs, what sound tables are and what the rules mean on them.
#![tactic(auto)]
