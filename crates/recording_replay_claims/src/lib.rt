// Nothing runs here: what is claimed of a trace recorded.
#![tactic(auto)]
