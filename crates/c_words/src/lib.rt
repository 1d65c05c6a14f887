// For a C program, in an archive of its own: the words of a number, a knot's six bytes each way, and the version. include/torfbarke.h
// declares the same struct and functions.
#![tactic(auto)]

mod knots;
mod lines;

ghost use Rattle.std.specs.Prelude.{◌≡◌, length};
ghost use Rattle.c_words.specs.Knots.{knot_of, pack_number, pack_left};
ghost use Rattle.c_words.specs.Version.{version};
ghost use Rattle.c_words.specs.Words.{words_of, words_left};

// A knot of a payload: its microvolts and tenths of a degree, and 1 where there is such a knot; else all 0.
#[repr(C)]
#[derive(Clone, Copy)]
pub struct KnotNumbers {
    pub microvolts: i32,
    pub tenths: i16,
    pub there: u8,
}

// The longest line, and more.
const ROOM: usize = 96;

// The words of a number, without a newline, and a 0 behind them; nothing where there is no room for both. How long they are.
#[unsafe(no_mangle)]
pub extern "C" fn tb_words(number: u8, out: &mut [u8]) -> usize
    ensures result { result ≡ length (words_of number) }
    ensures out_left { out.new ≡ words_left number out.old }
{
    let mut line = [0u8; ROOM];
    let size = lines::lay_line(&mut line, number);
    let n = size - 1;
    if out.len() <= n {
        return n;
    }
    let behind = text::put_text(out, 0, &line[0..n]);
    text::put_text(out, behind, b"\0");
    n
}

// A knot of a payload.
#[unsafe(no_mangle)]
pub extern "C" fn tb_knot_unpack(place: usize, payload: &[u8]) -> KnotNumbers
    ensures { result ≡ knot_of place payload.now }
{
    KnotNumbers {
        microvolts: reading_table::volts(payload, place),
        tenths: reading_table::tenths(payload, place),
        there: knots::is_there(place, payload.len()),
    }
}

// A knot into its place of a payload: 0, or why it stays as it was.
#[unsafe(no_mangle)]
pub extern "C" fn tb_knot_pack(place: usize, microvolts: i32, tenths: i32, payload: &mut [u8]) -> u8
    ensures result { result ≡ pack_number place microvolts tenths (length payload.old) }
    ensures payload_left { payload.new ≡ pack_left place microvolts tenths payload.old }
{
    let n = knots::pack_number(place, microvolts, tenths, payload.len());
    if n == 0 {
        knots::put_knot(place, microvolts, tenths, payload);
        return 0;
    }
    n
}

const MAJOR: u32 = 0;

const MINOR: u32 = 11;

const PATCH: u32 = 3;

const VERSION: u32 = MAJOR * 10000 + MINOR * 100 + PATCH;

// The version as one number.
#[unsafe(no_mangle)]
pub extern "C" fn tb_version() -> u32
    ensures { result ≡ version }
{
    VERSION
}
