// That the counts of a trace's text are the erases begun in the cycles that its lines state. Nothing runs.
#![tactic(auto)]
