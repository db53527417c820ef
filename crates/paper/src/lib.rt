// That a build is one run of the source's Algorithms 2 and 1: definitions and proofs alone, no code.
#![tactic(auto)]
