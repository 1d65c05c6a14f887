// What may touch which byte of a lent array, over any cycles and by either engine: definitions and laws, nothing that runs.
#![tactic(auto)]
