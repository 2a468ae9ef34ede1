// Holds no code: the crate is its specs, the table of document 01's examples.
#![tactic(auto)]
