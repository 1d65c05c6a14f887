// The three demands of the mission on one page. Nothing runs here: proofs/Mission.antt says what is demanded and what answers it.
#![tactic(auto)]
