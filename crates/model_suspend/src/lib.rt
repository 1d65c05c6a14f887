// How long a suspend takes and what it leaves: definitions and laws, nothing that runs.
#![tactic(auto)]
