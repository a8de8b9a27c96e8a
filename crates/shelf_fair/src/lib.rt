// Fair use of the checking chip: what histories charge and admit, and no function.
#![tactic(auto)]
