// A load from a file whose erase is interrupted for readings: the file is judged for the letter asked, then the addresses and the room,
// and only then the flash block is loaded with it.
#![tactic(auto)]

ghost use Rattle.std.specs.Prelude.{◌≡◌, ◌≤◌, length};
ghost use Rattle.loader_from_file.specs.Loads.{wanted_of};
ghost use Rattle.loader_held_file.specs.HeldLoads.{held_load_number, held_file_left};

use loader_from_file::file_number;
use loader_held_lists::list_number;
use loader_held_quick::run_held_quick;
use loader_held_run::refused;
use loader_run::{Job, Ran, run_number};

// Wanted becomes the file, then FFH to its end.
fn fill_file(file: &[u8], wanted: &mut [u8])
    requires { length file.now ≤ length wanted.old }
    ensures { wanted.new ≡ wanted_of file.now (length wanted.old) }
{
    let n = file.len();
    common::copy(wanted, file);
    common::fill(&mut wanted[n..], 255)
}

// A run's number, then the file's, then that of the addresses and the room. The lengths are in bytes.
fn held_load_number(
    j: Job,
    array: usize,
    wanted: usize,
    scratch: usize,
    file: &[u8],
    asked: u8,
    addresses: &[u32],
    room: usize,
) -> u8
    ensures { result ≡ held_load_number j array wanted scratch file.now asked addresses.now room }
{
    let d = j.device;
    let part = d.part;
    let word = part.word;
    let n = run_number(
        j,
        units::lent_in(word, array),
        units::lent_in(word, wanted),
        units::lent_in(word, scratch),
    );
    if n != 0 {
        return n;
    }
    let m = file_number(file, asked, wanted);
    if m != 0 {
        return m;
    }
    list_number(part, j.block, addresses, room)
}

// A job from a file, its erase interrupted at the polls given: a load, with the verify after it or without.
pub fn load_held(
    j: Job,
    array: &mut [u8],
    wanted: &mut [u8],
    scratch: &mut [u8],
    file: &[u8],
    asked: u8,
    polls: &[u32],
    addresses: &[u32],
    room: &mut [u8],
) -> Ran
    ensures result { result
        ≡ (held_file_left j array.old wanted.old scratch.old file.now asked polls.now
        addresses.now room.old).ran }
    ensures array_left { array.new
        ≡ (held_file_left j array.old wanted.old scratch.old file.now asked polls.now
        addresses.now room.old).bytes }
    ensures wanted_left { wanted.new
        ≡ (held_file_left j array.old wanted.old scratch.old file.now asked polls.now
        addresses.now room.old).wanted }
    ensures scratch_left { scratch.new
        ≡ (held_file_left j array.old wanted.old scratch.old file.now asked polls.now
        addresses.now room.old).scratch }
    ensures room_left { room.new
        ≡ (held_file_left j array.old wanted.old scratch.old file.now asked polls.now
        addresses.now room.old).room }
{
    let s = j.state;
    let n = held_load_number(
        j,
        array.len(),
        wanted.len(),
        scratch.len(),
        file,
        asked,
        addresses,
        room.len(),
    );
    if n == 0 {
        fill_file(file, wanted);
        return run_held_quick(j, array, wanted, scratch, polls, addresses, room);
    }
    refused(n, s)
}
