// Device, state, cycle and answer as structs of numbers, as a C program hands them over and gets them back, each way. The conversions are
// total:
// numbers that stand for nothing become something that is refused in its place.
#![tactic(auto)]

pub mod counts;
pub mod states;

// A device: its number, whether it is in word mode (1, else 0), and the cycles that a program, an erase and a suspend take.
#[repr(C)]
#[derive(Clone, Copy)]
pub struct DeviceNumbers {
    pub number: u8,
    pub word: u8,
    pub program: u16,
    pub erase: u16,
    pub suspend: u8,
}

// Erases begun, by block; there is room for seven.
#[repr(C)]
#[derive(Clone, Copy)]
pub struct WearNumbers {
    pub block0: u32,
    pub block1: u32,
    pub block2: u32,
    pub block3: u32,
    pub block4: u32,
    pub block5: u32,
    pub block6: u32,
}

// A device's state.
#[repr(C)]
#[derive(Clone, Copy)]
pub struct StateNumbers {
    pub mode: u8,
    pub status: u8,
    pub phase: u8,
    pub suspend: u8,
    pub left: u16,
    pub data: u16,
    pub address: u32,
    pub wear: WearNumbers,
}

// A bus cycle.
#[repr(C)]
#[derive(Clone, Copy)]
pub struct BusNumbers {
    pub kind: u8,
    pub rp: u8,
    pub oe: u8,
    pub wp: u8,
    pub data: u16,
    pub vpp: u32,
    pub address: u32,
}

// What a cycle answers beside the state that it leaves.
#[repr(C)]
#[derive(Clone, Copy)]
pub struct AnswerNumbers {
    pub seen: u8,
    pub value: u16,
    pub state: StateNumbers,
}
