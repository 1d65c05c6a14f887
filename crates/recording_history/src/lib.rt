// What is known of histories, of a recording: each record is a cycle on a device of its own busy time. Nothing runs here.
#![tactic(auto)]
