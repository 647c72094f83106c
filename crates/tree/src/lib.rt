// The tree table, its splits and its refusals: definitions and laws, and no
// code.
#![tactic(auto)]
