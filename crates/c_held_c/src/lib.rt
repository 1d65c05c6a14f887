// A load whose erase is interrupted, for a C program, in an archive of its own: each export hands its parameters to the function of its
// name in c_held and promises what that does. include/torfbarke.h declares the functions.
#![tactic(auto)]

ghost use Rattle.std.specs.Prelude.{◌≡◌};
ghost use Rattle.c_held.specs.Helds.{started_held, stepped_held, scratch_stepped_held};
ghost use Rattle.c_held.specs.Helds.{room_stepped_held, held_run_left, held_run_of, held_load_left, held_load_of};

use c_cycle::{DeviceNumbers, StateNumbers};
use c_held::{HeldNumbers, HeldResponseNumbers};
use c_records::RanNumbers;

// The first cycle of a load that may be interrupted, with the verify after it where verify is not 0.
#[unsafe(no_mangle)]
pub extern "C" fn tb_held_start(
    part: u8,
    word: u8,
    rp: u8,
    wp: u8,
    vpp: u32,
    block: u8,
    verify: u8,
    wanted: &[u8],
    scratch: &[u8],
    addresses: &[u32],
    room: &[u8],
) -> HeldResponseNumbers
    ensures { result
        ≡ started_held part word rp wp vpp block verify wanted.now scratch.now addresses.now
        room.now }
{
    c_held::tb_held_start(
        part, word, rp, wp, vpp, block, verify, wanted, scratch, addresses, room,
    )
}

// The data that the last cycle read go in, the next cycle or the end comes out, beside the records.
#[unsafe(no_mangle)]
pub extern "C" fn tb_held_step(
    held: HeldNumbers,
    value: u16,
    wanted: &[u8],
    scratch: &mut [u8],
    polls: &[u32],
    addresses: &[u32],
    room: &mut [u8],
) -> HeldResponseNumbers
    ensures result { result
        ≡ stepped_held held value wanted.now scratch.old polls.now addresses.now
        room.old }
    ensures scratch_left { scratch.new
        ≡ scratch_stepped_held held value wanted.now scratch.old addresses.now room.old }
    ensures room_left { room.new
        ≡ room_stepped_held held value wanted.now scratch.old addresses.now room.old }
{
    c_held::tb_held_step(held, value, wanted, scratch, polls, addresses, room)
}

// A load that may be interrupted, run against the model, with the verify after it where verify is not 0.
#[unsafe(no_mangle)]
pub extern "C" fn tb_held_run(
    device: DeviceNumbers,
    state: StateNumbers,
    rp: u8,
    wp: u8,
    vpp: u32,
    block: u8,
    verify: u8,
    array: &mut [u8],
    wanted: &[u8],
    scratch: &mut [u8],
    polls: &[u32],
    addresses: &[u32],
    room: &mut [u8],
) -> RanNumbers
    ensures result { result
        ≡ held_run_of device state rp wp vpp block verify array.old wanted.now scratch.old
        polls.now addresses.now room.old }
    ensures array_left { array.new
        ≡ (held_run_left device state rp wp vpp block verify array.old wanted.now scratch.old
        polls.now addresses.now room.old).bytes }
    ensures scratch_left { scratch.new
        ≡ (held_run_left device state rp wp vpp block verify array.old wanted.now scratch.old
        polls.now addresses.now room.old).scratch }
    ensures room_left { room.new
        ≡ (held_run_left device state rp wp vpp block verify array.old wanted.now scratch.old
        polls.now addresses.now room.old).room }
{
    c_held::tb_held_run(
        device, state, rp, wp, vpp, block, verify, array, wanted, scratch, polls, addresses, room,
    )
}

// The same from a load file for a letter.
#[unsafe(no_mangle)]
pub extern "C" fn tb_held_load(
    device: DeviceNumbers,
    state: StateNumbers,
    rp: u8,
    wp: u8,
    vpp: u32,
    block: u8,
    verify: u8,
    letter: u8,
    file: &[u8],
    array: &mut [u8],
    wanted: &mut [u8],
    scratch: &mut [u8],
    polls: &[u32],
    addresses: &[u32],
    room: &mut [u8],
) -> RanNumbers
    ensures result { result
        ≡ held_load_of device state rp wp vpp block verify letter file.now array.old wanted.old
        scratch.old polls.now addresses.now room.old }
    ensures array_left { array.new
        ≡ (held_load_left device state rp wp vpp block verify letter file.now array.old wanted.old
        scratch.old polls.now addresses.now room.old).bytes }
    ensures wanted_left { wanted.new
        ≡ (held_load_left device state rp wp vpp block verify letter file.now array.old wanted.old
        scratch.old polls.now addresses.now room.old).wanted }
    ensures scratch_left { scratch.new
        ≡ (held_load_left device state rp wp vpp block verify letter file.now array.old wanted.old
        scratch.old polls.now addresses.now room.old).scratch }
    ensures room_left { room.new
        ≡ (held_load_left device state rp wp vpp block verify letter file.now array.old wanted.old
        scratch.old polls.now addresses.now room.old).room }
{
    c_held::tb_held_load(
        device, state, rp, wp, vpp, block, verify, letter, file, array, wanted, scratch, polls,
        addresses, room,
    )
}
