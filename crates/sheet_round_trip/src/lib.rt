// Theorems about a sheet that is written from a table: this crate has no code, its content is specs/ and proofs/.
#![tactic(auto)]
