// Demands 2 and 3 and §12 for admitted slips, and no function.
#![tactic(auto)]
