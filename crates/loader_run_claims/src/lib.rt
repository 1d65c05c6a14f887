// The claims about a run: demand 3, least wear and every other end. Nothing runs here: the laws are in proofs/.
#![tactic(auto)]
