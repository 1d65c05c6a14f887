// The store on a part: find a letter's file, read by it, drop it, add a file. Each public function takes any input. A change is one run
// of block 3 with its new contents as wanted; nothing else is written into the array.
#![tactic(auto)]

ghost use Rattle.std.specs.Prelude.{◌≡◌, length};
ghost use Rattle.device.specs.Parts.{size_of};
ghost use Rattle.file_codec.specs.File.{limit, in_room, left_in};
ghost use Rattle.reading.specs.Readings.{answer_as, answer_told, told_as};
ghost use Rattle.store_places.specs.Store.{drop_of, add_of};
ghost use Rattle.store_survey.specs.Survey.{reader_number};
ghost use Rattle.store_find.specs.Finds.{found_as, read_by};
ghost use Rattle.store_contents.specs.Contents.{memory_by};
ghost use Rattle.store.specs.Stores.{main_of, no_store, part_number, found_on, change_job, change_number, drop_number, add_number};
ghost use Rattle.store.specs.Stores.{change_left, drop_left, add_left};

use device::{Device, Part};
use loader::Work;
use loader_run::{Job, Ran};
use model_types::{Pins, State};
use reading::ReadingAnswer;
use store_find::Found;

// 1: the part is not known, or is one of 5 to 8.
#[tactic(auto, unfolding(crate::specs::Stores::no_store))]
fn no_store(part: Part) -> bool
    ensures { result ≡ no_store part }
{
    device::unknown_part(part) | device::is_large(part)
}

// 1, then 2, for an array of so many bytes.
pub fn part_number(part: Part, array: usize) -> u8
    ensures { result ≡ part_number part array }
{
    if no_store(part) {
        return 1;
    }
    if array != device::size(part) {
        return 2;
    }
    0
}

// The block that holds the store, in an array that is as long as the part.
#[tactic(auto, using(crate::proofs::Blocks::handed, crate::proofs::Blocks::handed_ends))]
fn main_block(part: Part, array: &[u8]) -> &[u8]
    requires { length array.now ≡ size_of part }
    ensures { result.now ≡ main_of part array.now }
{
    let from = device::start(part, 3);
    let to = from + device::length(part, 3);
    &array[from..to]
}

// The file under a letter into the front of room: 1, 2, 44, 42, 37, or 0 and its length.
pub fn find_letter(part: Part, array: &[u8], letter: u8, room: &mut [u8]) -> Found
    ensures result { result ≡ found_as (in_room (length room.old) (found_on part array.now letter)) }
    ensures room_left { room.new
        ≡ left_in room.old (in_room (length room.old) (found_on part array.now letter)) }
{
    let n = part_number(part, array.len());
    if n != 0 {
        return Found {
            number: n,
            length: 0,
        };
    }
    store_find::find_in(main_block(part, array), letter, room)
}

// The reading at x by the file under a letter: 1, 2, 44, 42, then as straight from that file (37, 40, 41).
pub fn read_letter(part: Part, array: &[u8], letter: u8, room: &mut [u8], x: i32) -> ReadingAnswer
    ensures result { result
        ≡ answer_as x (in_room (length room.old) (read_by letter (found_on part array.now letter))) }
    ensures told { answer_told result
        ≡ told_as x (in_room (length room.old) (read_by letter (found_on part array.now letter))) }
    ensures room_left { room.new
        ≡ left_in room.old (in_room (length room.old) (read_by letter (found_on part array.now letter))) }
{
    let n = part_number(part, array.len());
    if n != 0 {
        return ReadingAnswer::Refused(n);
    }
    store_find::read_in(main_block(part, array), letter, room, x)
}

// What a change runs: a load of block 3 and the verify after it.
fn change_job(d: Device, s: State, p: Pins) -> Job
    ensures { result ≡ change_job d s p }
{
    Job {
        device: d,
        state: s,
        pins: p,
        block: 3,
        work: Work::Load(true),
    }
}

// 1 for a part of 5 to 8, then the numbers of a run of block 3. The lengths are in bytes.
fn change_number(d: Device, s: State, p: Pins, array: usize, memory: usize, scratch: usize) -> u8
    ensures { result ≡ change_number d s p array memory scratch }
{
    let part = d.part;
    let word = part.word;
    if device::is_large(part) {
        return 1;
    }
    loader_run::run_number(
        change_job(d, s, p),
        units::lent_in(word, array),
        units::lent_in(word, memory),
        units::lent_in(word, scratch),
    )
}

// The number of a drop; where it is 0, memory becomes the block's new contents.
fn drop_prepared(
    d: Device,
    s: State,
    p: Pins,
    array: &[u8],
    memory: &mut [u8],
    scratch: usize,
    letter: u8,
) -> u8
    ensures result { result ≡ drop_number d s p array.now (length memory.old) scratch letter }
    ensures memory_left { memory.new
        ≡ memory_by (drop_number d s p array.now (length memory.old) scratch letter)
        (drop_of (reader_number limit) letter (main_of d.part array.now)) memory.old }
{
    let n = change_number(d, s, p, array.len(), memory.len(), scratch);
    if n != 0 {
        return n;
    }
    store_contents::drop_into(main_block(d.part, array), letter, memory)
}

// The number of an add; where it is 0, memory becomes the block's new contents.
fn add_prepared(
    d: Device,
    s: State,
    p: Pins,
    array: &[u8],
    memory: &mut [u8],
    scratch: usize,
    file: &[u8],
    letter: u8,
) -> u8
    ensures result { result ≡ add_number d s p array.now (length memory.old) scratch file.now letter }
    ensures memory_left { memory.new
        ≡ memory_by (add_number d s p array.now (length memory.old) scratch file.now letter)
        (add_of (reader_number limit) letter file.now (main_of d.part array.now)) memory.old }
{
    let n = change_number(d, s, p, array.len(), memory.len(), scratch);
    if n != 0 {
        return n;
    }
    store_contents::add_into(main_block(d.part, array), file, letter, memory)
}

// The run of block 3 with memory as wanted, where the number is 0; else the refusal.
fn change(
    number: u8,
    d: Device,
    s: State,
    p: Pins,
    array: &mut [u8],
    memory: &[u8],
    scratch: &mut [u8],
) -> Ran
    ensures result { result
        ≡ (change_left number memory.now d s p array.old memory.now scratch.old).ran }
    ensures array_left { array.new
        ≡ (change_left number memory.now d s p array.old memory.now scratch.old).bytes }
    ensures scratch_left { scratch.new
        ≡ (change_left number memory.now d s p array.old memory.now scratch.old).scratch }
{
    if number == 0 {
        return loader_quick::run_quick(change_job(d, s, p), array, memory, scratch);
    }
    Ran {
        count: 0,
        end: number,
        address: 0,
        state: s,
    }
}

// The file under a letter dropped: 00H over the first byte of each of its blocks.
pub fn drop_letter(
    d: Device,
    s: State,
    p: Pins,
    array: &mut [u8],
    memory: &mut [u8],
    scratch: &mut [u8],
    letter: u8,
) -> Ran
    ensures result { result ≡ (drop_left d s p array.old memory.old scratch.old letter).ran }
    ensures array_left { array.new
        ≡ (drop_left d s p array.old memory.old scratch.old letter).bytes }
    ensures memory_left { memory.new
        ≡ (drop_left d s p array.old memory.old scratch.old letter).memory }
    ensures scratch_left { scratch.new
        ≡ (drop_left d s p array.old memory.old scratch.old letter).scratch }
{
    let n = drop_prepared(d, s, p, array, memory, scratch.len(), letter);
    change(n, d, s, p, array, memory, scratch)
}

// A file added under its letter: an old one is dropped, then it goes into the first long enough run of blank places, or the files slide.
pub fn add_file(
    d: Device,
    s: State,
    p: Pins,
    array: &mut [u8],
    memory: &mut [u8],
    scratch: &mut [u8],
    file: &[u8],
    letter: u8,
) -> Ran
    ensures result { result
        ≡ (add_left d s p array.old memory.old scratch.old file.now letter).ran }
    ensures array_left { array.new
        ≡ (add_left d s p array.old memory.old scratch.old file.now letter).bytes }
    ensures memory_left { memory.new
        ≡ (add_left d s p array.old memory.old scratch.old file.now letter).memory }
    ensures scratch_left { scratch.new
        ≡ (add_left d s p array.old memory.old scratch.old file.now letter).scratch }
{
    let number = add_prepared(d, s, p, array, memory, scratch.len(), file, letter);
    change(number, d, s, p, array, memory, scratch)
}
