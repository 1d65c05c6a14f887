// What is claimed of recordings. Nothing runs here: definitions are in specs/, theorems in proofs/Claims.
#![tactic(auto)]
