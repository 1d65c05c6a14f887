// The twelve bench cards. Nothing runs here: the table is in specs/, its proof in proofs/.
#![tactic(auto)]
