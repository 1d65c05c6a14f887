// Scripts put together from pieces are run on lent slices, and a line is printed for each. Cases and lines come from
// tests/vectors_script.py, which reads a script in its own way and says what a row and a line show.
#![tactic(auto)]

ghost use Rattle.std.specs.Prelude.{◌≤◌, length};

use trace_replay::Replayed;

// A piece is put behind the first len bytes, where there is room.
fn put_piece(text: &mut [u8], len: usize, piece: &[u8]) -> usize
    requires { len ≤ length text.old }
    ensures { result ≤ length text.new }
{
    let n = piece.len();
    if text.len() - len < n {
        return len;
    }
    let to = len + n;
    common::copy(&mut text[len..to], piece);
    to
}

// The same so many times.
fn put_pieces(text: &mut [u8], len: usize, piece: &[u8], times: usize) -> usize
    requires { len ≤ length text.old }
    ensures { result ≤ length text.new }
{
    let mut at = len;
    for _ in 0..times {
        at = put_piece(text, at, piece);
    }
    at
}

// The last seven bytes of the output, or a newline where there are fewer.
fn show_last(rt: &impl Print, out: &[u8], used: usize) {
    let e = common::least(used, out.len());
    if e < 7 {
        streams::write_all(rt, b"\n");
        return;
    }
    let a = e - 7;
    streams::write_all(rt, &out[a..e]);
}

fn show(rt: &impl Print, number: usize, r: Replayed, array: &[u8], out: &[u8]) {
    let refused = r.number;
    let used = r.used;
    streams::print_decimal(rt, number as u64);
    streams::write_all(rt, b" ");
    streams::print_decimal(rt, refused as u64);
    streams::write_all(rt, b" ");
    streams::print_decimal(rt, used as u64);
    streams::write_all(rt, b" ");
    streams::print_hex(rt, vectors_text::digest(out), 4);
    streams::write_all(rt, b" ");
    streams::print_hex(rt, vectors_text::digest(array), 4);
    streams::write_all(rt, b" ");
    show_last(rt, out, used);
}

// A text is run, on a fresh array and a fresh output.
fn run(
    rt: &impl Print,
    number: usize,
    text: &[u8],
    room: usize,
    array: &mut [u8],
    residue: &[u8],
    out: &mut [u8],
) {
    let m = common::least(room, out.len());
    common::fill(array, 255);
    common::fill(out, 46);
    let r = script_run::run_script(text, array, residue, &mut out[0..m]);
    show(rt, number, r, array, out);
}

// What is put together so far has so many bytes; the next case has this number.
#[derive(Clone, Copy)]
struct Held {
    len: usize,
    number: usize,
}

// One row: a piece is put to the text, or what was put together is run.
fn take_row(
    rt: &impl Print,
    letter: u8,
    n: usize,
    piece: &[u8],
    h: Held,
    text: &mut [u8],
    array: &mut [u8],
    residue: &[u8],
    out: &mut [u8],
) -> Held
    requires { (h.len ≤ length text.old) × (h.number ≤ 9999) }
    ensures { (result.len ≤ length text.new) × (result.number ≤ 9999) }
{
    if letter == b'*' {
        let len = put_pieces(text, h.len, piece, n);
        return Held {
            len: len,
            number: h.number,
        };
    }
    let len = h.len;
    run(rt, h.number, &text[0..len], n, array, residue, out);
    Held {
        len: 0,
        number: (h.number + 1) % 10000,
    }
}

// Every row in its turn.
fn all(
    rt: &impl Print,
    rows: &[u8],
    text: &mut [u8],
    array: &mut [u8],
    residue: &[u8],
    out: &mut [u8],
) {
    let mut at = 0;
    let mut h = Held { len: 0, number: 1 };
    while 12 <= rows.len() - at {
        let a = at + 12;
        let n = vectors_text::size_at(rows, 10, at + 2, 5);
        let m = vectors_text::size_at(rows, 10, at + 8, 3);
        let e = a + common::least(m, rows.len() - a);
        h = take_row(
            rt,
            common::nth(rows, at),
            n,
            &rows[a..e],
            h,
            text,
            array,
            residue,
            out,
        );
        at = e;
    }
}

fn main(rt: HostRuntime) {
    let mut rows = [0u8; 16000];
    let mut text = [0u8; 61000];
    let mut array = [255u8; 16384];
    let residue = [255u8; 16384];
    let mut out = [0u8; 80000];
    let n = streams::read_input(&rt, &mut rows);
    all(&rt, &rows[..n], &mut text, &mut array, &residue, &mut out);
}
