// Histories of the key shelf: what each publisher sees and holds, and no function.
#![tactic(auto)]
