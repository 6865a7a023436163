// Theorems only: see specs/Lib.antt and proofs/Lib.antt.
#![tactic(auto)]
