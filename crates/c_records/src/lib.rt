// The loader's record, what a start, a step, a run, a load, writer and reader say, as structs of numbers for a C program. The
// conversions are total: numbers that stand for no record become a record that every step refuses.
#![tactic(auto)]

pub mod records;
pub mod runs;
pub mod sizes;

use c_cycle::{BusNumbers, StateNumbers};

// The loader's record.
#[repr(C)]
#[derive(Clone, Copy)]
pub struct LoaderNumbers {
    pub part: u8,
    pub word: u8,
    pub rp: u8,
    pub wp: u8,
    pub block: u8,
    pub stage: u8,
    pub end: u8,
    pub verify: u8,
    pub high: u8,
    pub vpp: u32,
    pub polls: u32,
    pub place: usize,
}

// What a start or a step says.
#[repr(C)]
#[derive(Clone, Copy)]
pub struct SayingNumbers {
    pub turn: u8,
    pub number: u8,
    pub address: u32,
    pub cycle: BusNumbers,
}

// The same beside the record.
#[repr(C)]
#[derive(Clone, Copy)]
pub struct ResponseNumbers {
    pub turn: SayingNumbers,
    pub loader: LoaderNumbers,
}

// What a run or a load from a file returns.
#[repr(C)]
#[derive(Clone, Copy)]
pub struct RanNumbers {
    pub count: u64,
    pub end: u8,
    pub address: u32,
    pub state: StateNumbers,
}

// What writer and reader return.
#[repr(C)]
#[derive(Clone, Copy)]
pub struct SizedNumbers {
    pub number: u8,
    pub length: usize,
}

// Where a flash block lies.
#[repr(C)]
#[derive(Clone, Copy)]
pub struct BlockNumbers {
    pub first: usize,
    pub length: usize,
}
