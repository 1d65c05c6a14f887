// The report defined from the cycles of traces, and that it agrees with the one from the stored counts: definitions and laws, nothing that
// runs.
#![tactic(auto)]
