// Demand 3 of a load from a file with interruptions. Nothing runs here: the laws are in proofs/.
#![tactic(auto)]
