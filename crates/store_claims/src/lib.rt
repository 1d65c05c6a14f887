// What is claimed of the store beyond its promises: definitions and laws, nothing that runs.
#![tactic(auto)]
