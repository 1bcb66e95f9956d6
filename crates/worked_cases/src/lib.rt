// The worked cases of docs/FORMAT.md, as theorems: see specs and proofs. There is no code.
#![tactic(auto)]
