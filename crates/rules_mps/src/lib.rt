// Definitions for writing a sheet as free MPS: this crate has no code, its content is specs/.
#![tactic(auto)]
