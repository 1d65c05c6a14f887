// A load whose erase is interrupted for readings, for a C program, in an archive of its own: its start, its step and its run, and the
// records of it as structs of numbers. include/torfbarke.h declares the same structs and functions.
#![tactic(auto)]

pub mod holds;

ghost use Rattle.std.specs.Prelude.{◌≡◌};
ghost use Rattle.c_held.specs.Helds.{held_response_out, held_response_back, started_held, stepped_held, scratch_stepped_held};
ghost use Rattle.c_held.specs.Helds.{room_stepped_held, held_run_left, held_run_of, held_load_left, held_load_of};

use c_cycle::{DeviceNumbers, StateNumbers};
use c_records::{LoaderNumbers, RanNumbers, SayingNumbers};
use loader::Work;
use loader_held_steps::HeldResponse;

// Where an interruption stands.
#[repr(C)]
#[derive(Clone, Copy)]
pub struct HoldNumbers {
    pub step: u8,
    pub suspended: u8,
    pub number: u32,
    pub waits: u32,
    pub place: usize,
}

// The loader's record beside it.
#[repr(C)]
#[derive(Clone, Copy)]
pub struct HeldNumbers {
    pub loader: LoaderNumbers,
    pub hold: HoldNumbers,
}

// What a start or a step says, beside the records.
#[repr(C)]
#[derive(Clone, Copy)]
pub struct HeldResponseNumbers {
    pub turn: SayingNumbers,
    pub held: HeldNumbers,
}

// What a start says, as numbers.
fn response_out(g: HeldResponse) -> HeldResponseNumbers
    ensures { result ≡ held_response_out g }
{
    let saying = g.saying;
    let pair = g.pair;
    HeldResponseNumbers {
        turn: c_records::records::saying_out(saying),
        held: holds::held_out(pair),
    }
}

// What a step says, for the records that came in.
fn response_back(n: HeldNumbers, g: HeldResponse) -> HeldResponseNumbers
    ensures { result ≡ held_response_back n g }
{
    let saying = g.saying;
    let pair = g.pair;
    HeldResponseNumbers {
        turn: c_records::records::saying_out(saying),
        held: holds::held_back(n, pair),
    }
}

// The first cycle of a load that may be interrupted, with the verify after it where verify is not 0.
#[unsafe(no_mangle)]
pub extern "C" fn tb_held_start(
    part: u8,
    word: u8,
    rp: u8,
    wp: u8,
    vpp: u32,
    block: u8,
    verify: u8,
    wanted: &[u8],
    scratch: &[u8],
    addresses: &[u32],
    room: &[u8],
) -> HeldResponseNumbers
    ensures { result
        ≡ started_held part word rp wp vpp block verify wanted.now scratch.now addresses.now
        room.now }
{
    let known = c_cycle::states::part_in(part, word);
    let p = c_cycle::states::pins_in(rp, wp, vpp);
    response_out(loader_held_steps::start_held(
        verify != 0,
        known,
        p,
        block,
        wanted,
        scratch,
        addresses,
        room,
    ))
}

// The data that the last cycle read go in, the next cycle or the end comes out, beside the records.
#[unsafe(no_mangle)]
pub extern "C" fn tb_held_step(
    held: HeldNumbers,
    value: u16,
    wanted: &[u8],
    scratch: &mut [u8],
    polls: &[u32],
    addresses: &[u32],
    room: &mut [u8],
) -> HeldResponseNumbers
    ensures result { result
        ≡ stepped_held held value wanted.now scratch.old polls.now addresses.now
        room.old }
    ensures scratch_left { scratch.new
        ≡ scratch_stepped_held held value wanted.now scratch.old addresses.now room.old }
    ensures room_left { room.new
        ≡ room_stepped_held held value wanted.now scratch.old addresses.now room.old }
{
    let pair = holds::held_in(held);
    response_back(
        held,
        loader_held_steps::step_held(pair, value, wanted, scratch, polls, addresses, room),
    )
}

// A load that may be interrupted, run against the model, with the verify after it where verify is not 0.
#[unsafe(no_mangle)]
pub extern "C" fn tb_held_run(
    device: DeviceNumbers,
    state: StateNumbers,
    rp: u8,
    wp: u8,
    vpp: u32,
    block: u8,
    verify: u8,
    array: &mut [u8],
    wanted: &[u8],
    scratch: &mut [u8],
    polls: &[u32],
    addresses: &[u32],
    room: &mut [u8],
) -> RanNumbers
    ensures result { result
        ≡ held_run_of device state rp wp vpp block verify array.old wanted.now scratch.old
        polls.now addresses.now room.old }
    ensures array_left { array.new
        ≡ (held_run_left device state rp wp vpp block verify array.old wanted.now scratch.old
        polls.now addresses.now room.old).bytes }
    ensures scratch_left { scratch.new
        ≡ (held_run_left device state rp wp vpp block verify array.old wanted.now scratch.old
        polls.now addresses.now room.old).scratch }
    ensures room_left { room.new
        ≡ (held_run_left device state rp wp vpp block verify array.old wanted.now scratch.old
        polls.now addresses.now room.old).room }
{
    let work = Work::Load(verify != 0);
    let j = c_records::runs::job_in(work, device, state, rp, wp, vpp, block);
    let ran = loader_held_quick::run_held_quick(j, array, wanted, scratch, polls, addresses, room);
    c_records::runs::ran_out(state, ran)
}

// The same from a load file for a letter.
#[unsafe(no_mangle)]
pub extern "C" fn tb_held_load(
    device: DeviceNumbers,
    state: StateNumbers,
    rp: u8,
    wp: u8,
    vpp: u32,
    block: u8,
    verify: u8,
    letter: u8,
    file: &[u8],
    array: &mut [u8],
    wanted: &mut [u8],
    scratch: &mut [u8],
    polls: &[u32],
    addresses: &[u32],
    room: &mut [u8],
) -> RanNumbers
    ensures result { result
        ≡ held_load_of device state rp wp vpp block verify letter file.now array.old wanted.old
        scratch.old polls.now addresses.now room.old }
    ensures array_left { array.new
        ≡ (held_load_left device state rp wp vpp block verify letter file.now array.old wanted.old
        scratch.old polls.now addresses.now room.old).bytes }
    ensures wanted_left { wanted.new
        ≡ (held_load_left device state rp wp vpp block verify letter file.now array.old wanted.old
        scratch.old polls.now addresses.now room.old).wanted }
    ensures scratch_left { scratch.new
        ≡ (held_load_left device state rp wp vpp block verify letter file.now array.old wanted.old
        scratch.old polls.now addresses.now room.old).scratch }
    ensures room_left { room.new
        ≡ (held_load_left device state rp wp vpp block verify letter file.now array.old wanted.old
        scratch.old polls.now addresses.now room.old).room }
{
    let work = Work::Load(verify != 0);
    let j = c_records::runs::job_in(work, device, state, rp, wp, vpp, block);
    let ran = loader_held_file::load_held(
        j, array, wanted, scratch, file, letter, polls, addresses, room,
    );
    c_records::runs::ran_out(state, ran)
}
