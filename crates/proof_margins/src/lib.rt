// Theorems about the definitions of `rules`: this crate has no code, its content is proofs/ and specs/.
#![tactic(auto)]
