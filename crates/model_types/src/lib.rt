// The values that the rules of a bus cycle are about: cycles, levels, states, effects and replies.
#![tactic(auto)]

pub mod blank;
pub mod counts;

use device::{Device, Part};

// The levels that a run keeps fixed: RP# (0 low, 1 high, 2 V_HH), WP# (0 low, 1 high) and VPP in millivolts.
#[derive(Clone, Copy)]
pub struct Pins {
    pub rp: u8,
    pub wp: u8,
    pub vpp: u32,
}

// The kinds of cycle.
#[derive(Clone, Copy)]
pub enum Kind {
    Read,
    Write,
    Idle,
}

// One bus cycle: its kind, the levels, OE# (0 normal, 1 V_HH), the address of a unit (a byte, or in word mode a word) and 16 bits
// of data.
#[derive(Clone, Copy)]
pub struct Cycle {
    pub kind: Kind,
    pub pins: Pins,
    pub oe: u8,
    pub address: u32,
    pub data: u16,
}

// What a read gives.
#[derive(Clone, Copy)]
pub enum Mode {
    Array,
    Status,
    Identifier,
}

// What the device is about. A program's data stands in its phase, and so do the cycles that a suspend under way has to go.
#[derive(Clone, Copy)]
pub enum Phase {
    Free,
    EraseAwaited,
    DataAwaited,
    Programming(u16),
    Erasing,
    Suspending(u8),
    Suspended,
}

// For each block, the erases begun; a count stops at 4,294,967,295.
#[derive(Clone, Copy)]
pub struct Wear {
    pub block0: u32,
    pub block1: u32,
    pub block2: u32,
    pub block3: u32,
    pub block4: u32,
    pub block5: u32,
    pub block6: u32,
}

// The device's state: `left` cycles to go and the operation's `address`, both zero without an operation; the counts of erases.
#[derive(Clone, Copy)]
pub struct State {
    pub mode: Mode,
    pub status: u8,
    pub phase: Phase,
    pub left: u16,
    pub address: u32,
    pub wear: Wear,
}

// What a cycle does to the array: a program or an erase ends, or is cut.
#[derive(Clone, Copy)]
pub enum Effect {
    Nothing,
    Program(u32, u16),
    Erase(u8),
    CutProgram(u32, u16),
    CutErase(u8),
}

// What a cycle answers: no data, data, the array's unit at an address, or a refusal.
#[derive(Clone, Copy)]
pub enum Reply {
    Quiet,
    Gives(u16),
    GivesArray(u32),
    Refuses(u8),
}

// What a write asks for.
#[derive(Clone, Copy)]
pub enum Action {
    ToArray,
    ToIdentifier,
    ToStatus,
    Clear,
    AwaitErase,
    AwaitData,
    Confirm,
    Store,
    WrongSecond,
    Suspend,
    Resume,
    Ignore,
    Refuse,
}

// A state with what was done to the array on the way to it.
#[derive(Clone, Copy)]
pub struct Settled {
    pub state: State,
    pub effect: Effect,
}

// What is decided of a cycle: the reply, the next state, and what is done to the array.
#[derive(Clone, Copy)]
pub struct Decision {
    pub reply: Reply,
    pub state: State,
    pub effect: Effect,
}
