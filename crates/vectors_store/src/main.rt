// Makes the changes to stores that it reads, finds and reads by them, and prints a line for each. The rows and the lines that they must
// print come from tests/vectors_store.py, which has a store of its own and says what a row holds.
#![tactic(auto)]

use device::{Device, Part};
use loader_run::Ran;
use model_types::{Pins, State, Wear};
use reading::{Reading, ReadingAnswer};
use vectors_states::{Erases, Shape};
use vectors_text::Group;

// With what a change is made: the device, the levels, and how much of each slice is lent.
#[derive(Clone, Copy)]
struct Setup {
    device: Device,
    pins: Pins,
    array: usize,
    memory: usize,
    scratch: usize,
}

// What stands from row to row; `wear` has the counts of the states that rows put, `file` is how much of the file is lent.
#[derive(Clone, Copy)]
struct Bench {
    setup: Setup,
    state: State,
    wear: Wear,
    file: usize,
    group: Group,
    lines: u32,
}

fn setup_of(row: &[u8], old: Setup) -> Setup {
    Setup {
        device: vectors_states::device_at(row),
        array: vectors_text::size_at(row, 10, 24, 6),
        memory: vectors_text::size_at(row, 10, 31, 6),
        scratch: vectors_text::size_at(row, 10, 38, 6),
        ..old
    }
}

// The bench before the first row.
fn bare() -> Bench {
    let state = model::fresh();
    Bench {
        setup: Setup {
            device: vectors_states::NO_DEVICE,
            pins: vectors_states::NO_PINS,
            array: 0,
            memory: 0,
            scratch: 0,
        },
        state,
        wear: state.wear,
        file: 0,
        group: vectors_text::UNNAMED,
        lines: 0,
    }
}

// The bench after one more line, with the state that the line shows; the line begins with its label.
fn after_line(rt: &impl Print, b: Bench, state: State) -> Bench {
    let lines = b.lines % 9999 + 1;
    streams::write_all(rt, &vectors_text::letters(b.group));
    let _ = print!(rt; " {lines:04} ");
    Bench { state, lines, ..b }
}

// What a find of a letter gives: its number, or the file's length and a digest.
fn print_find(rt: &impl Print, part: Part, array: &[u8], letter: u8) {
    let mut room = vectors_text::blank();
    let f = store::find_letter(part, array, letter, &mut room);
    let _ = if f.number != 0 {
        print!(rt; " {}", f.number)
    } else {
        print!(rt;
            " {}/{:04X}",
            f.length,
            vectors_text::digest_front(&room, f.length)
        )
    };
}

// What a find gives for each letter, and the end of the line.
fn print_finds(rt: &impl Print, part: Part, array: &[u8]) {
    let _ = print!(rt; " :");
    for letter in b"BEJKNRST" {
        print_find(rt, part, array, *letter);
    }
    let _ = println!(rt; "");
}

// An add of the file, or a drop.
fn changed(
    op: u8,
    letter: u8,
    b: Bench,
    array: &mut [u8],
    memory: &mut [u8],
    scratch: &mut [u8],
    file: &[u8],
) -> Ran {
    let s = b.setup;
    if op == b'I' {
        return store::add_file(
            s.device, b.state, s.pins, array, memory, scratch, file, letter,
        );
    }
    store::drop_letter(s.device, b.state, s.pins, array, memory, scratch, letter)
}

// The same on what is lent.
fn changed_lent(
    op: u8,
    letter: u8,
    b: Bench,
    array: &mut [u8],
    memory: &mut [u8],
    scratch: &mut [u8],
    file: &[u8],
) -> Ran {
    let n = b.setup.array.min(array.len());
    let m = b.setup.memory.min(memory.len());
    let k = b.setup.scratch.min(scratch.len());
    let f = b.file.min(file.len());
    changed(
        op,
        letter,
        b,
        &mut array[..n],
        &mut memory[..m],
        &mut scratch[..k],
        &file[..f],
    )
}

// The line of a change: its result, what is left of the slices, the erases begun before it and after it, and the finds on what is lent
// of the array.
fn tell_change(
    rt: &impl Print,
    op: u8,
    b: Bench,
    x: Ran,
    array: &[u8],
    memory: &[u8],
    scratch: &[u8],
) -> Bench {
    let s = b.setup;
    let shape = Shape(x.state);
    let had = Erases(b.state.wear);
    let has = Erases(x.state.wear);
    let held = vectors_text::digest_front(array, s.array);
    let kept = vectors_text::digest_front(memory, s.memory);
    let left = vectors_text::digest_front(scratch, s.scratch);
    let after = after_line(rt, b, x.state);
    let _ = print!(rt;
        "{} {:03} {:010} {:08X} ",
        char::from(op),
        x.end,
        x.count % 10_000_000_000,
        x.address
    );
    let _ = print!(rt; "{shape} {held:04X} {kept:04X} {left:04X}{had} >{has}");
    print_finds(rt, s.device.part, &array[..s.array.min(array.len())]);
    after
}

// A change and its line.
fn change_line(
    rt: &impl Print,
    op: u8,
    row: &[u8],
    b: Bench,
    array: &mut [u8],
    memory: &mut [u8],
    scratch: &mut [u8],
    file: &[u8],
) -> Bench {
    let letter = vectors_text::byte_at(row, 16, 2, 2);
    let x = changed_lent(op, letter, b, array, memory, scratch, file);
    tell_change(rt, op, b, x, array, memory, scratch)
}

// A find on what is lent, and its line.
fn find_line(rt: &impl Print, row: &[u8], part: Part, array: &[u8], room: &mut [u8]) {
    let letter = vectors_text::byte_at(row, 16, 2, 2);
    let f = store::find_letter(part, array, letter, room);
    let sum = vectors_text::digest(room);
    let _ = print!(rt; "Q {:03} {:06} {sum:04X}\n", f.number, f.length % 1_000_000);
}

// A case, the bits of a temperature, and a space.
fn print_bits(rt: &impl Print, mark: char, t: f64) {
    let _ = if t.is_nan() {
        print!(rt; "{mark} none ")
    } else {
        print!(rt; "{mark} {:016x} ", t.to_bits())
    };
}

fn print_reading(rt: &impl Print, r: Reading) {
    match r {
        Reading::Temperature(t) => print_bits(rt, 'T', t),
        Reading::Below(t) => print_bits(rt, 'B', t),
        Reading::Above(t) => print_bits(rt, 'A', t),
    }
}

// A read on what is lent, and its line.
fn read_line(rt: &impl Print, row: &[u8], part: Part, array: &[u8], room: &mut [u8]) {
    let letter = vectors_text::byte_at(row, 16, 2, 2);
    let x = vectors_text::word_at(row, 16, 12, 8).cast_signed();
    let a = store::read_letter(part, array, letter, room, x);
    let _ = print!(rt; "R ");
    match a {
        ReadingAnswer::Read(r) => print_reading(rt, r),
        ReadingAnswer::Refused(n) => {
            let _ = print!(rt; "X {n:03} ");
        }
    }
    let _ = print!(rt; "{:04X}\n", vectors_text::digest(room));
}

// A find or a read, with room of 5AH.
fn ask_line(rt: &impl Print, op: u8, row: &[u8], b: Bench, array: &[u8]) -> Bench {
    let mut room = vectors_text::blank();
    let part = b.setup.device.part;
    let n = b.setup.array.min(array.len());
    let m = vectors_text::size_at(row, 10, 5, 6).min(131073);
    let after = after_line(rt, b, b.state);
    room.fill(90);
    if op == b'Q' {
        find_line(rt, row, part, &array[..n], &mut room[..m]);
        return after;
    }
    read_line(rt, row, part, &array[..n], &mut room[..m]);
    after
}

// What is lent of the file is laid into the array.
fn lay(array: &mut [u8], lent: usize, file: &[u8], used: usize, row: &[u8]) {
    let n = lent.min(array.len());
    let at = vectors_text::size_at(row, 16, 2, 8).min(n);
    common::copy(&mut array[at..n], &file[..used.min(file.len())]);
}

// Three bytes of the file, those of a row from a column on; none from place 115,000 on.
fn put_three(file: &mut [u8], row: &[u8], at: usize, from: u8) {
    if at < 115000 {
        let k = usize::from(from);
        let a = vectors_text::byte_at(row, 16, k, 2);
        let b = vectors_text::byte_at(row, 16, k + 2, 2);
        let c = vectors_text::byte_at(row, 16, k + 4, 2);
        text::put_text(file, at, &[a, b, c]);
    }
}

// Six bytes of the file, as two threes.
fn put_knot(file: &mut [u8], row: &[u8]) {
    let at = vectors_text::size_at(row, 16, 2, 8).min(115000);
    put_three(file, row, at, 11);
    put_three(file, row, at + 3, 17);
}

// A block of the file gets the check that fits.
// Kept: three programs seal a block; a library of its own for these lines, over file_check, is no plainer.
fn seal(file: &mut [u8], row: &[u8]) {
    let k = vectors_text::byte_at(row, 10, 2, 3);
    if let Some(block) = file.chunks_exact_mut(512).nth(usize::from(k)) {
        let c = file_check::check(block);
        block[510..].copy_from_slice(&c.to_be_bytes());
    }
}

// A file is written over FFH; its length.
fn write_file(file: &mut [u8], row: &[u8]) -> usize {
    let mut payload = [0u8; 113200];
    let letter = vectors_text::byte_at(row, 16, 2, 2);
    let size = vectors_text::size_at(row, 10, 5, 6).min(113200);
    vectors_text::sow(&mut payload, 113200, row, 12);
    file.fill(255);
    file_writer::write(letter, &payload[..size], file).unwrap_or(0)
}

// The rows that set the bench; any other leaves it.
fn set(row: &[u8], op: u8, b: Bench) -> Bench {
    match op {
        b'G' => Bench {
            group: vectors_text::group_at(row),
            ..b
        },
        b'D' => Bench {
            setup: setup_of(row, b.setup),
            ..b
        },
        b'L' => Bench {
            setup: Setup {
                pins: vectors_states::levels_at(row),
                ..b.setup
            },
            ..b
        },
        b'E' => Bench {
            wear: vectors_states::wear_at(row, 2),
            ..b
        },
        b'S' => Bench {
            state: vectors_states::state_at(row, b.wear),
            ..b
        },
        b'F' => Bench {
            state: model::fresh(),
            ..b
        },
        b'U' => Bench {
            file: vectors_text::size_at(row, 10, 2, 6),
            ..b
        },
        _ => b,
    }
}

// The rows that change the file, or lay it into the array; any other sets the bench.
fn shape(row: &[u8], op: u8, b: Bench, array: &mut [u8], file: &mut [u8]) -> Bench {
    match op {
        b'B' => vectors_text::put_byte(file, row),
        b'H' => put_knot(file, row),
        b'K' => seal(file, row),
        b'Y' => lay(array, b.setup.array, file, b.file, row),
        b'N' => {
            return Bench {
                file: write_file(file, row),
                ..b
            };
        }
        _ => return set(row, op, b),
    }
    b
}

// The rows that fill the array, memory or scratch or change a part of the array; any other shapes the file or sets the bench.
fn fill(
    row: &[u8],
    op: u8,
    b: Bench,
    array: &mut [u8],
    memory: &mut [u8],
    scratch: &mut [u8],
    file: &mut [u8],
) -> Bench {
    match op {
        b'A' => vectors_text::sow(array, b.setup.array, row, 2),
        b'W' => vectors_text::sow(memory, b.setup.memory, row, 2),
        b'C' => vectors_text::sow(scratch, b.setup.scratch, row, 2),
        b'X' => vectors_text::put_byte(array, row),
        b'J' => vectors_text::put_stretch(array, row),
        _ => return shape(row, op, b, array, file),
    }
    b
}

// One row: what it changes, asks, sets, fills or shapes.
fn take_row(
    rt: &impl Print,
    row: &[u8],
    b: Bench,
    array: &mut [u8],
    memory: &mut [u8],
    scratch: &mut [u8],
    file: &mut [u8],
) -> Bench {
    let op = common::nth(row, 0);
    match op {
        b'I' | b'Z' => change_line(rt, op, row, b, array, memory, scratch, file),
        b'Q' | b'R' => ask_line(rt, op, row, b, array),
        _ => fill(row, op, b, array, memory, scratch, file),
    }
}

// Every row in its order.
fn all(
    rt: &impl Print,
    text: &[u8],
    array: &mut [u8],
    memory: &mut [u8],
    scratch: &mut [u8],
    file: &mut [u8],
) {
    let mut b = bare();
    let mut at = 0;
    while at < text.len() {
        b = take_row(rt, &text[at..], b, array, memory, scratch, file);
        at = vectors_text::next_row(text, at);
    }
}

fn main(rt: HostRuntime) {
    let mut text = vectors_text::blank();
    let mut array = vectors_states::vast();
    let mut memory = vectors_text::blank();
    let mut scratch = vectors_text::blank();
    let mut file = [0u8; 115300];
    let n = streams::read_input(&rt, &mut text);
    all(
        &rt,
        &text[..n],
        &mut array,
        &mut memory,
        &mut scratch,
        &mut file,
    );
}
