// The claims about the load file. Nothing runs here: the laws are in proofs/.
#![tactic(auto)]
