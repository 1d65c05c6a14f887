// The loader a step at a time: it gives a cycle, takes the byte read, and gives the next, as a record that goes in and comes
// out by value.
#![tactic(auto)]

pub mod front;
pub mod outs;
