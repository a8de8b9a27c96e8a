// The stored form of a word, with signs and generators apart: definitions and the way there and back, and no function.
#![tactic(auto)]
