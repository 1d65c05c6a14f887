// The loader's record, what each stage is, and what a status says. A cycle is out at each stage; `loader_steps` gives it and takes the
// byte, `loader_moves` has where that takes the record.
#![tactic(auto)]

pub mod stages;
pub mod statuses;

use device::Part;
use model_types::{Cycle, Kind, Pins};

// Which cycle is out. `Ended` holds the number of the end: 0 for well.
#[derive(Clone, Copy)]
pub enum Stage {
    Clearing,
    Opening,
    Reading,
    EraseAsking,
    EraseConfirming,
    EraseWaiting,
    ProgramAsking,
    ProgramSending,
    ProgramWaiting,
    Closing,
    Verifying,
    Ended(u8),
}

// What is asked of the loader: a load, with (true) or without the verify after it, or a verify alone.
#[derive(Clone, Copy)]
pub enum Work {
    Load(bool),
    Verify,
}

// What a stage is. Whether it is the end of a load, and by which number (before the end there is none, and 255 stands for that). The
// cycle that is out: its kind; whether it goes to the unit at the record's place or to the block's first address; and whether it
// carries that place's wanted unit or `command`.
#[derive(Clone, Copy)]
pub struct StageIs {
    pub ended: bool,
    pub end: u8,
    pub kind: Kind,
    pub here: bool,
    pub wanted: bool,
    pub command: u8,
}

// The loader's record: the part, the block and the levels it works with, the cycle that is out, the place in the block, counted in
// units, the polls of the operation that is waited for, whether the verify follows the load, and, where it ended by 25, whether the
// byte that differs is the high one of its word.
#[derive(Clone, Copy)]
pub struct Loader {
    pub part: Part,
    pub pins: Pins,
    pub block: u8,
    pub stage: Stage,
    pub place: usize,
    pub polls: u32,
    pub verify: bool,
    pub high: bool,
}

// What a step answers: the next cycle, the end with its number and, for 25, the array address of the byte that differs, or a refusal.
#[derive(Clone, Copy)]
pub enum Saying {
    Out(Cycle),
    Over(u8, u32),
    Refused(u8),
}

// The answer beside the next record.
#[derive(Clone, Copy)]
pub struct Response {
    pub saying: Saying,
    pub loader: Loader,
}
