// The vectors of the readings: rows of standard input, answers on standard output. A row is sixteen bytes: a letter, eight hex digits, four
// hex digits; tests/vectors_reading.py says what each letter does.
#![tactic(auto)]

use reading::{Reading, ReadingAnswer};

// How much of the payload, of the file and of the room counts.
#[derive(Clone, Copy)]
struct Sizes {
    payload: usize,
    file: usize,
    room: usize,
}

// The two numbers of a row.
fn first(row: &[u8]) -> u32 {
    vectors_text::word_at(row, 16, 2, 8)
}

fn second(row: &[u8]) -> u16 {
    vectors_text::half_at(row, 16, 11, 4)
}

// A letter, a number in hex, a newline.
fn tell_bits(rt: &impl Print, mark: &[u8], t: f64) {
    streams::write_all(rt, mark);
    if t.is_nan() {
        streams::write_all(rt, b"none\n");
        return;
    }
    streams::print_hex(rt, f64::to_bits(t), 16);
    streams::write_all(rt, b"\n");
}

fn tell_number(rt: &impl Print, mark: &[u8], n: u64) {
    streams::write_all(rt, mark);
    streams::print_decimal(rt, n);
    streams::write_all(rt, b"\n");
}

// A reading: its case and the bits of its temperature.
fn tell_reading(rt: &impl Print, r: Reading) {
    match r {
        Reading::Temperature(t) => tell_bits(rt, b"T ", t),
        Reading::Below(t) => tell_bits(rt, b"B ", t),
        Reading::Above(t) => tell_bits(rt, b"A ", t),
    }
}

fn tell_answer(rt: &impl Print, a: ReadingAnswer) {
    match a {
        ReadingAnswer::Read(r) => tell_reading(rt, r),
        ReadingAnswer::Refused(n) => tell_number(rt, b"! ", n as u64),
    }
}

// A knot's six bytes from a place on; places past the end do not matter.
fn put_knot(payload: &mut [u8], at: usize, volts: u32, tenths: u16) {
    let [a, b, c, d] = volts.to_be_bytes();
    let [e, f] = tenths.to_be_bytes();
    if at < 4200 {
        text::put_text(payload, at, &[a, b, c, d, e, f]);
    }
}

// A byte of the file is changed, and its block gets the check that fits.
// Kept: three programs seal a block; a library of its own for these lines, over file_check, is no plainer.
fn forge(file: &mut [u8], at: usize, b: u8) {
    text::put(file, at, b);
    if let Some(block) = file.chunks_exact_mut(512).take(8).nth(at / 512) {
        let c = file_check::check(block);
        block[510..].copy_from_slice(&c.to_be_bytes());
    }
}

// The file of the payload; its length.
fn write_file(rt: &impl Print, letter: u8, payload: &[u8], file: &mut [u8]) -> usize {
    match file_writer::write(letter, payload, file) {
        Ok(n) => {
            tell_number(rt, b"W ", n as u64);
            n
        }
        Err(refusal) => {
            tell_number(rt, b"! ", refusal.number() as u64);
            0
        }
    }
}

// A row that changes the payload: a knot or a byte more, or nothing left of it.
fn payload_row(row: &[u8], kind: u8, s: Sizes, payload: &mut [u8]) -> Sizes {
    let at = common::least(s.payload, 4200);
    if kind == b'K' {
        put_knot(payload, at, first(row), second(row));
        return Sizes {
            payload: at + 6,
            ..s
        };
    }
    if kind == b'B' {
        text::put(payload, at, (first(row) % 256) as u8);
        return Sizes {
            payload: at + 1,
            ..s
        };
    }
    Sizes { payload: 0, ..s }
}

// Lengths that a row sets.
fn length_row(row: &[u8], kind: u8, s: Sizes) -> Sizes {
    let n = first(row) as usize;
    if kind == b'L' {
        return Sizes { file: n, ..s };
    }
    Sizes { room: n, ..s }
}

// The payload is written.
fn write_row(rt: &impl Print, row: &[u8], s: Sizes, payload: &[u8], file: &mut [u8]) -> Sizes {
    let size = common::least(s.payload, payload.len());
    let n = write_file(rt, (first(row) % 256) as u8, &payload[0..size], file);
    Sizes { file: n, ..s }
}

// Questions about the payload.
fn ask_payload(rt: &impl Print, row: &[u8], kind: u8, payload: &[u8]) {
    let x = first(row).cast_signed();
    if kind == b'R' {
        tell_answer(rt, reading::reading_at(payload, x));
        return;
    }
    if kind == b'S' {
        tell_number(rt, b"S ", reading_table::seek(payload, x) as u64);
        return;
    }
    tell_number(rt, b"J ", reading_table::judge_table(payload) as u64);
}

// The question about the file, and a digest of the room that it leaves.
fn ask_file(rt: &impl Print, row: &[u8], file: &[u8], room: &mut [u8]) {
    common::fill(room, 90);
    tell_answer(
        rt,
        reading::reading_from_file(
            file,
            (second(row) % 256) as u8,
            room,
            first(row).cast_signed(),
        ),
    );
    tell_number(rt, b"D ", vectors_text::digest(room));
}

// One row that asks.
fn ask_row(
    rt: &impl Print,
    row: &[u8],
    kind: u8,
    s: Sizes,
    payload: &[u8],
    file: &[u8],
    room: &mut [u8],
) {
    if kind == b'F' {
        let n = common::least(s.file, file.len());
        let m = common::least(s.room, room.len());
        ask_file(rt, row, &file[0..n], &mut room[0..m]);
        return;
    }
    let n = common::least(s.payload, payload.len());
    ask_payload(rt, row, kind, &payload[0..n]);
}

// A row that changes something.
fn change_row(
    rt: &impl Print,
    row: &[u8],
    kind: u8,
    s: Sizes,
    payload: &mut [u8],
    file: &mut [u8],
) -> Sizes {
    if kind == b'W' {
        return write_row(rt, row, s, payload, file);
    }
    if kind == b'C' {
        forge(file, first(row) as usize, (second(row) % 256) as u8);
        return s;
    }
    if kind == b'E' {
        common::fill(file, 255);
        return s;
    }
    if matches!(kind, b'L' | b'M') {
        return length_row(row, kind, s);
    }
    payload_row(row, kind, s, payload)
}

// A letter that asks.
fn asks(kind: u8) -> bool {
    matches!(kind, b'J' | b'R' | b'S' | b'F')
}

// One row.
fn run(
    rt: &impl Print,
    row: &[u8],
    s: Sizes,
    payload: &mut [u8],
    file: &mut [u8],
    room: &mut [u8],
) -> Sizes {
    let kind = common::nth(row, 0);
    if asks(kind) {
        ask_row(rt, row, kind, s, payload, file, room);
        return s;
    }
    change_row(rt, row, kind, s, payload, file)
}

// All rows of a text.
fn run_all(rt: &impl Print, text: &[u8], payload: &mut [u8], file: &mut [u8], room: &mut [u8]) {
    let mut s = Sizes {
        payload: 0,
        file: 0,
        room: 4040,
    };
    for row in text.chunks_exact(16) {
        s = run(rt, row, s, payload, file, room);
    }
}

fn main(rt: HostRuntime) {
    let mut text = streams::large_buffer();
    let mut payload = streams::large_buffer();
    let mut file = streams::large_buffer();
    let mut room = streams::large_buffer();
    let n = streams::read_input(&rt, &mut text);
    run_all(&rt, &text[..n], &mut payload, &mut file, &mut room);
}
