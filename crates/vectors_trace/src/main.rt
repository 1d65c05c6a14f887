// Replays generated inputs on lent slices by each engine and prints a line for each. The cases and the lines that they must print come
// from tests/vectors_trace.py, which reads a trace in its own way and says what a line shows.
#![tactic(auto)]

use engines::{Engine, Rules, Table};
use trace_replay::Replayed;

// A case: so many bytes of input, with one byte put at a place, and so many bytes of room.
#[derive(Clone, Copy)]
struct Case {
    bytes: usize,
    place: usize,
    byte: u8,
    room: usize,
}

fn tried(bytes: usize, place: usize, byte: u8, room: usize) -> Case {
    Case {
        bytes,
        place,
        byte,
        room,
    }
}

// Four lines over and over: a program is asked for, given, and polled twice.
fn pattern(text: &mut [u8]) {
    let four =
        b"W 1 0 12000 0010 40\nW 1 0 12000 0010 5A\nR 1 0 12000 0010 00\nR 1 0 12000 0010 00\n";
    for (b, x) in text.iter_mut().zip(four.iter().cycle()) {
        *b = *x;
    }
}

// The last seven bytes of the output, or a newline where there are fewer.
fn show_last(rt: &impl Print, out: &[u8], used: usize) {
    if used < 7 {
        streams::write_all(rt, b"\n");
        return;
    }
    let e = common::least(used, out.len());
    if e < 7 {
        streams::write_all(rt, b"\n");
        return;
    }
    let a = e - 7;
    streams::write_all(rt, &out[a..e]);
}

fn show(rt: &impl Print, number: u64, r: Replayed, array: &[u8], out: &[u8]) {
    let refused = r.number;
    let used = r.used;
    streams::print_decimal(rt, number);
    streams::write_all(rt, b" ");
    streams::print_decimal(rt, refused as u64);
    streams::write_all(rt, b" ");
    streams::print_decimal(rt, used as u64);
    streams::write_all(rt, b" ");
    streams::print_hex(rt, vectors_text::digest(out), 4);
    streams::write_all(rt, b" ");
    streams::print_hex(rt, vectors_text::digest(array), 4);
    streams::write_all(rt, b" ");
    show_last(rt, out, used);
}

fn rooms(i: u64) -> Case {
    match i {
        // room exactly: four answers
        31 => tried(80, 300000, 0, 32),
        // room short by one: four answers
        32 => tried(80, 300000, 0, 31),
        // room exactly: three answers and a mark
        33 => tried(79, 300000, 0, 31),
        // room short by one: three answers and a mark
        34 => tried(79, 300000, 0, 30),
        // no room, nothing to write
        35 => tried(0, 300000, 0, 0),
        // no room, a byte of input
        36 => tried(1, 300000, 0, 0),
        // room short by one at 9,999 lines
        37 => tried(199980, 300000, 0, 79990),
        _ => tried(0, 0, 0, 0),
    }
}

fn bytes(i: u64) -> Case {
    match i {
        // a byte over 127 in the data
        21 => tried(80, 37, 195, 79991),
        // a byte over 127 for the space
        22 => tried(80, 1, 160, 79991),
        // a byte of 255 for the newline
        23 => tried(80, 79, 255, 79991),
        // a tab for a space
        24 => tried(80, 5, 9, 79991),
        // a letter past F
        25 => tried(80, 53, 71, 79991),
        // the byte before 0
        26 => tried(80, 26, 47, 79991),
        // the byte after 9
        27 => tried(80, 26, 58, 79991),
        // the byte before A
        28 => tried(80, 52, 64, 79991),
        // capital F
        29 => tried(80, 52, 70, 79991),
        // a kind that is none
        30 => tried(80, 20, 88, 79991),
        _ => rooms(i),
    }
}

fn letters(i: u64) -> Case {
    match i {
        // a lower-case address digit
        11 => tried(80, 54, 97, 79991),
        // a lower-case data digit
        12 => tried(80, 38, 102, 79991),
        // a lower-case kind
        13 => tried(80, 40, 114, 79991),
        // a carriage return for the newline
        14 => tried(80, 39, 13, 79991),
        // a carriage return for the last digit
        15 => tried(80, 38, 13, 79991),
        // RP# 3
        16 => tried(80, 22, 51, 79991),
        // RP# 9
        17 => tried(80, 22, 57, 79991),
        // OE# 7
        18 => tried(80, 24, 55, 79991),
        // RP# no digit: A
        19 => tried(80, 22, 65, 79991),
        // OE# no digit: a space
        20 => tried(80, 24, 32, 79991),
        _ => bytes(i),
    }
}

fn lengths(i: u64) -> Case {
    match i {
        // empty input
        1 => tried(0, 300000, 0, 79991),
        // one line
        2 => tried(20, 300000, 0, 79991),
        // 9,998 lines
        3 => tried(199960, 300000, 0, 79991),
        // 9,998 lines and a byte
        4 => tried(199961, 300000, 0, 79991),
        // 9,999 lines
        5 => tried(199980, 300000, 0, 79991),
        // 10,001 lines
        6 => tried(200020, 300000, 0, 79991),
        // 9,999 lines, the last one bad
        7 => tried(199980, 199960, 63, 79991),
        // 9,998 lines, the last one bad
        8 => tried(199960, 199959, 32, 79991),
        // a line cut off by its newline
        9 => tried(59, 300000, 0, 79991),
        // a line of one byte
        10 => tried(61, 300000, 0, 79991),
        _ => letters(i),
    }
}

// The replay of a case, on a fresh array and a fresh output.
fn replayed<E: Engine>(
    c: Case,
    text: &[u8],
    array: &mut [u8],
    residue: &[u8],
    out: &mut [u8],
) -> Replayed {
    let n = common::least(c.bytes, text.len());
    let m = common::least(c.room, out.len());
    common::fill(array, 255);
    common::fill(out, 46);
    trace_replay::replay::<E>(&text[0..n], array, residue, &mut out[0..m])
}

// One case: its byte is put into the text, and taken out again.
fn run<E: Engine>(
    rt: &impl Print,
    i: u64,
    text: &mut [u8],
    array: &mut [u8],
    residue: &[u8],
    out: &mut [u8],
) {
    let c = lengths(i);
    let at = c.place;
    let old = common::nth(text, at);
    text::put(text, at, c.byte);
    let r = replayed::<E>(c, text, array, residue, out);
    text::put(text, at, old);
    show(rt, i, r, array, out);
}

// Every case in its turn, by one engine.
fn all<E: Engine>(
    rt: &impl Print,
    text: &mut [u8],
    array: &mut [u8],
    residue: &[u8],
    out: &mut [u8],
) {
    for i in 1..38 {
        run::<E>(rt, i, text, array, residue, out);
    }
}

fn main(rt: HostRuntime) {
    let mut text = [0u8; 200100];
    let mut array = [255u8; 16384];
    let residue = [255u8; 16384];
    let mut out = [0u8; 80000];
    pattern(&mut text);
    all::<Rules>(&rt, &mut text, &mut array, &residue, &mut out);
    all::<Table>(&rt, &mut text, &mut array, &residue, &mut out);
}
