// Holds no code: the crate is the third demand, stated over the store's rules and proved.
#![tactic(auto)]
