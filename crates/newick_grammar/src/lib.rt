// The Newick text of a tree, and the table that it stands for: definitions and
// laws alone, apart from any reader.
#![tactic(auto)]
