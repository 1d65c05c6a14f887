// The store for a C program, in an archive of its own: a file found, read by, dropped and added, on plain numbers. include/torfbarke.h
// declares the same functions.
#![tactic(auto)]

ghost use Rattle.std.specs.Prelude.{◌≡◌};
ghost use Rattle.c_store.specs.Calls.{found_out, store_found, room_found, store_read, room_read, dropped, store_dropped, added};
ghost use Rattle.c_store.specs.Calls.{store_added};

use c_cycle::{DeviceNumbers, StateNumbers};
use c_readings::ReadingNumbers;
use c_records::{RanNumbers, SizedNumbers};
use store_find::Found;

fn found_out(f: Found) -> SizedNumbers
    ensures { result ≡ found_out f }
{
    SizedNumbers {
        number: f.number,
        length: f.length,
    }
}

// The file of a letter in the store of a part; it goes into the front of room.
#[unsafe(no_mangle)]
pub extern "C" fn tb_store_find(
    part: u8,
    word: u8,
    letter: u8,
    array: &[u8],
    room: &mut [u8],
) -> SizedNumbers
    ensures result { result ≡ store_found part word letter array.now room.old }
    ensures room_left { room.new ≡ room_found part word letter array.now room.old }
{
    let p = c_cycle::states::part_in(part, word);
    let f = store::find_letter(p, array, letter, room);
    found_out(f)
}

// The reading at a voltage by the file of a letter in the store of a part; its payload goes into the front of room.
#[unsafe(no_mangle)]
pub extern "C" fn tb_store_read(
    part: u8,
    word: u8,
    letter: u8,
    array: &[u8],
    room: &mut [u8],
    microvolts: i32,
) -> ReadingNumbers
    ensures result { result ≡ store_read part word letter array.now room.old microvolts }
    ensures room_left { room.new ≡ room_read part word letter array.now room.old }
{
    let p = c_cycle::states::part_in(part, word);
    let answer = store::read_letter(p, array, letter, room, microvolts);
    c_readings::answer_numbers(answer)
}

// The file of a letter dropped, by a run of the main block against the model.
#[unsafe(no_mangle)]
pub extern "C" fn tb_store_drop(
    device: DeviceNumbers,
    state: StateNumbers,
    rp: u8,
    wp: u8,
    vpp: u32,
    letter: u8,
    array: &mut [u8],
    memory: &mut [u8],
    scratch: &mut [u8],
) -> RanNumbers
    ensures result { result
        ≡ store_dropped device state rp wp vpp letter array.old memory.old scratch.old }
    ensures array_left { array.new
        ≡ (dropped device state rp wp vpp letter array.old memory.old scratch.old).bytes }
    ensures memory_left { memory.new
        ≡ (dropped device state rp wp vpp letter array.old memory.old scratch.old).memory }
    ensures scratch_left { scratch.new
        ≡ (dropped device state rp wp vpp letter array.old memory.old scratch.old).scratch }
{
    let d = c_cycle::states::device_in(device);
    let s = c_cycle::states::state_in(state);
    let p = c_cycle::states::pins_in(rp, wp, vpp);
    let r = store::drop_letter(d, s, p, array, memory, scratch, letter);
    c_records::runs::ran_out(state, r)
}

// A file added under its letter, by a run of the main block against the model.
#[unsafe(no_mangle)]
pub extern "C" fn tb_store_add(
    device: DeviceNumbers,
    state: StateNumbers,
    rp: u8,
    wp: u8,
    vpp: u32,
    letter: u8,
    file: &[u8],
    array: &mut [u8],
    memory: &mut [u8],
    scratch: &mut [u8],
) -> RanNumbers
    ensures result { result
        ≡ store_added device state rp wp vpp letter file.now array.old memory.old scratch.old }
    ensures array_left { array.new
        ≡ (added device state rp wp vpp letter file.now array.old memory.old
        scratch.old).bytes }
    ensures memory_left { memory.new
        ≡ (added device state rp wp vpp letter file.now array.old memory.old
        scratch.old).memory }
    ensures scratch_left { scratch.new
        ≡ (added device state rp wp vpp letter file.now array.old memory.old
        scratch.old).scratch }
{
    let d = c_cycle::states::device_in(device);
    let s = c_cycle::states::state_in(state);
    let p = c_cycle::states::pins_in(rp, wp, vpp);
    let r = store::add_file(d, s, p, array, memory, scratch, file, letter);
    c_records::runs::ran_out(state, r)
}
