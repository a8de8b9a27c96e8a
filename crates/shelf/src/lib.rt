// The key shelf of two publishers: definitions of its calls, laws of its bytes, and no function.
#![tactic(auto)]
