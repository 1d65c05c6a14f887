// The sentences of the data sheet, over any cycles: definitions and laws, nothing that runs.
#![tactic(auto)]
