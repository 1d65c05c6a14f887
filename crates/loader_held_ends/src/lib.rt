// What is claimed of a load with interruptions: demand 3, every other end, lent bytes, stepping by hand. Nothing runs here: the laws are in
// proofs/.
#![tactic(auto)]
