// The worked cases of document 01 as theorems: definitions and proofs alone, no code.
#![tactic(auto)]
