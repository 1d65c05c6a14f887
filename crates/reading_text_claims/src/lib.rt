// The claim about tables as text. Nothing runs here: the laws are in proofs/.
#![tactic(auto)]
