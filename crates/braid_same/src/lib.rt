// Words that are the same braid. This crate has no function.
#![tactic(auto)]
