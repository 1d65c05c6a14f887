// The store for a C program, in an archive of its own: each export hands its parameters to the function of its name in c_store and
// promises what that does. include/torfbarke.h declares the functions.
#![tactic(auto)]

ghost use Rattle.std.specs.Prelude.{◌≡◌};
ghost use Rattle.c_store.specs.Calls.{store_found, room_found, store_read, room_read, dropped, store_dropped, added, store_added};

use c_cycle::{DeviceNumbers, StateNumbers};
use c_readings::ReadingNumbers;
use c_records::{RanNumbers, SizedNumbers};

// The file of a letter in the store of a part; it goes into the front of room.
#[unsafe(no_mangle)]
pub extern "C" fn tb_store_find(
    part: u8,
    word: u8,
    letter: u8,
    array: &[u8],
    room: &mut [u8],
) -> SizedNumbers
    ensures result { result ≡ store_found part word letter array.now room.old }
    ensures room_left { room.new ≡ room_found part word letter array.now room.old }
{
    c_store::tb_store_find(part, word, letter, array, room)
}

// The reading at a voltage by the file of a letter in the store of a part; its payload goes into the front of room.
#[unsafe(no_mangle)]
pub extern "C" fn tb_store_read(
    part: u8,
    word: u8,
    letter: u8,
    array: &[u8],
    room: &mut [u8],
    microvolts: i32,
) -> ReadingNumbers
    ensures result { result ≡ store_read part word letter array.now room.old microvolts }
    ensures room_left { room.new ≡ room_read part word letter array.now room.old }
{
    c_store::tb_store_read(part, word, letter, array, room, microvolts)
}

// The file of a letter dropped, by a run of the main block against the model.
#[unsafe(no_mangle)]
pub extern "C" fn tb_store_drop(
    device: DeviceNumbers,
    state: StateNumbers,
    rp: u8,
    wp: u8,
    vpp: u32,
    letter: u8,
    array: &mut [u8],
    memory: &mut [u8],
    scratch: &mut [u8],
) -> RanNumbers
    ensures result { result
        ≡ store_dropped device state rp wp vpp letter array.old memory.old scratch.old }
    ensures array_left { array.new
        ≡ (dropped device state rp wp vpp letter array.old memory.old scratch.old).bytes }
    ensures memory_left { memory.new
        ≡ (dropped device state rp wp vpp letter array.old memory.old scratch.old).memory }
    ensures scratch_left { scratch.new
        ≡ (dropped device state rp wp vpp letter array.old memory.old scratch.old).scratch }
{
    c_store::tb_store_drop(device, state, rp, wp, vpp, letter, array, memory, scratch)
}

// A file added under its letter, by a run of the main block against the model.
#[unsafe(no_mangle)]
pub extern "C" fn tb_store_add(
    device: DeviceNumbers,
    state: StateNumbers,
    rp: u8,
    wp: u8,
    vpp: u32,
    letter: u8,
    file: &[u8],
    array: &mut [u8],
    memory: &mut [u8],
    scratch: &mut [u8],
) -> RanNumbers
    ensures result { result
        ≡ store_added device state rp wp vpp letter file.now array.old memory.old scratch.old }
    ensures array_left { array.new
        ≡ (added device state rp wp vpp letter file.now array.old memory.old
        scratch.old).bytes }
    ensures memory_left { memory.new
        ≡ (added device state rp wp vpp letter file.now array.old memory.old
        scratch.old).memory }
    ensures scratch_left { scratch.new
        ≡ (added device state rp wp vpp letter file.now array.old memory.old
        scratch.old).scratch }
{
    c_store::tb_store_add(
        device, state, rp, wp, vpp, letter, file, array, memory, scratch,
    )
}
