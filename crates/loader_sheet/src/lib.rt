// What a loader does that is fed by hand, whatever it is handed: definitions and laws, nothing that runs.
#![tactic(auto)]
