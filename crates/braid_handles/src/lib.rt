// Handles of a word and the steps that take them out: definitions and laws, and no function.
#![tactic(auto)]
