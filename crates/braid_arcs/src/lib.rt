// Arcs of a strand, and words in which arcs are laid anew: definitions and laws, and no function.
#![tactic(auto)]
