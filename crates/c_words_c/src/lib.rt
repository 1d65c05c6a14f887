// Words, knots and the version for a C program, in an archive of its own: each export hands its parameters to the function of its name in
// c_words and promises what that does. include/torfbarke.h declares the functions.
#![tactic(auto)]

ghost use Rattle.std.specs.Prelude.{◌≡◌, length};
ghost use Rattle.c_words.specs.Knots.{knot_of, pack_number, pack_left};
ghost use Rattle.c_words.specs.Version.{version};
ghost use Rattle.c_words.specs.Words.{words_of, words_left};

use c_words::KnotNumbers;

// The words of a number, without a newline, and a 0 behind them; nothing where there is no room for both. How long they are.
#[unsafe(no_mangle)]
pub extern "C" fn tb_words(number: u8, out: &mut [u8]) -> usize
    ensures result { result ≡ length (words_of number) }
    ensures out_left { out.new ≡ words_left number out.old }
{
    c_words::tb_words(number, out)
}

// A knot of a payload.
#[unsafe(no_mangle)]
pub extern "C" fn tb_knot_unpack(place: usize, payload: &[u8]) -> KnotNumbers
    ensures { result ≡ knot_of place payload.now }
{
    c_words::tb_knot_unpack(place, payload)
}

// A knot into its place of a payload: 0, or why it stays as it was.
#[unsafe(no_mangle)]
pub extern "C" fn tb_knot_pack(place: usize, microvolts: i32, tenths: i32, payload: &mut [u8]) -> u8
    ensures result { result ≡ pack_number place microvolts tenths (length payload.old) }
    ensures payload_left { payload.new ≡ pack_left place microvolts tenths payload.old }
{
    c_words::tb_knot_pack(place, microvolts, tenths, payload)
}

// The version as one number.
#[unsafe(no_mangle)]
pub extern "C" fn tb_version() -> u32
    ensures { result ≡ version }
{
    c_words::tb_version()
}
