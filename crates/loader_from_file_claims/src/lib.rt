// The claims about a load from a file: demand 3 through it, and the files that are never loaded. Nothing runs here: the laws are in
// proofs/.
#![tactic(auto)]
