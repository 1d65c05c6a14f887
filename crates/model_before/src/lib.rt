// Devices 1 to 4 answer as they did before devices 5 to 8: definitions and laws, nothing that runs.
#![tactic(auto)]
