// Demand 3's claim between two files. This crate has no function.
#![tactic(auto)]
