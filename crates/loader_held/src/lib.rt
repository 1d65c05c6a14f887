// A load whose erase is interrupted for readings: the loader's record beside that of an interruption.
#![tactic(auto)]

pub mod holds;

use loader::Loader;

// Which cycle is out: the loader's own (Usual), or one of an interruption: B0H (Halting), 70H (Looking), a poll of the suspend's own
// wait (Settling), FFH (ArrayAsking), a read of the list (Fetching), D0H (Resuming).
#[derive(Clone, Copy)]
pub enum Step {
    Usual,
    Halting,
    Looking,
    Settling,
    ArrayAsking,
    Fetching,
    Resuming,
}

// Where an interruption stands: the cycle that is out, the number of the erase's poll, the place among the addresses, the polls of its
// own wait, and whether the erase was found suspended (SR.6).
#[derive(Clone, Copy)]
pub struct Hold {
    pub step: Step,
    pub number: u32,
    pub place: usize,
    pub waits: u32,
    pub suspended: bool,
}

// What a host keeps between two steps: the loader's record and that of an interruption.
#[derive(Clone, Copy)]
pub struct Pair {
    pub loader: Loader,
    pub hold: Hold,
}
