// The claims about readings. Nothing runs here: the laws are in proofs/.
#![tactic(auto)]
