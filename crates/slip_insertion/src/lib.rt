// Cloaking words inserted in a word: a theorem, and no function.
#![tactic(auto)]
