// Demand 3 over the public calls of crate `port`: this crate is specs and theorems, and has no code.
#![tactic(auto)]
