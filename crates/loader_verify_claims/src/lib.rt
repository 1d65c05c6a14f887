// The claims about a verify alone, a load alone, and a run as the two of them. Nothing runs here: the laws are in proofs/.
#![tactic(auto)]
