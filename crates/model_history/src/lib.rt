// Any cycles on a device, one after the other: definitions and laws, nothing that runs.
#![tactic(auto)]
