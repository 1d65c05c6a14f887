// What is claimed of the wear that a recording leaves. Nothing runs here.
#![tactic(auto)]
