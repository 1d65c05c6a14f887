// The claims about a load whose erase is interrupted. Nothing runs here: the laws are in proofs/.
#![tactic(auto)]
