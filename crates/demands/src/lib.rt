// The three demands, as theorems: see proofs/Demands.antt. This crate has no
// code.
#![tactic(auto)]
