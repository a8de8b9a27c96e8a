// Source 000's Appendix A: relations between Y generators, and that all are kept; definitions and laws, and no
// function.
#![tactic(auto)]
