// How large the figures of a run become: this crate has no code, its content is specs/ and proofs/.
#![tactic(auto)]
