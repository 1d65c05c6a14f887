// What a trace prints: an answer of eight bytes a line, and the mark that ends a trace.
ghost use Rattle.std.specs.Prelude.{◌%◌, ◌≡◌, length};
ghost use Rattle.common.specs.Lists.{copied};
ghost use Rattle.text.specs.Digits.{digit_letter};
ghost use Rattle.trace_lines.specs.Lines.{decimal_digit};
ghost use Rattle.trace_replay.specs.Answers.{sign_of, first_sign, second_sign, answer_text, mark_of, trace_end};

use model::Seen;

// The digit 0 as a length.
const ZERO: usize = b'0' as usize;

fn decimal_digit(n: usize) -> u8
    ensures { result ≡ decimal_digit n }
{
    (ZERO + n % 10) as u8
}

// A byte's decimal digit.
fn small_digit(n: u8) -> u8
    ensures { result ≡ decimal_digit n }
{
    b'0' + n % 10
}

// The low four bits as one digit.
fn low_digit(v: u16) -> u8
    ensures { result ≡ digit_letter (v % 16) }
{
    text::letter((v % 16) as u8)
}

fn letter(seen: Seen) -> u8
    ensures { result ≡ sign_of seen }
{
    match seen {
        Seen::NoData => b'N',
        Seen::Data(_) => b'D',
        Seen::Refused(_) => b'X',
    }
}

fn first(seen: Seen) -> u8
    ensures { result ≡ first_sign seen }
{
    match seen {
        Seen::NoData => b'-',
        Seen::Data(b) => low_digit(b / 16),
        Seen::Refused(n) => small_digit(n / 10),
    }
}

fn second(seen: Seen) -> u8
    ensures { result ≡ second_sign seen }
{
    match seen {
        Seen::NoData => b'-',
        Seen::Data(b) => low_digit(b),
        Seen::Refused(n) => small_digit(n),
    }
}

// An answer, over the front of out: what is seen, and a status register.
pub fn write_answer(seen: Seen, sr: u8, out: &mut [u8])
    ensures { out.new ≡ copied out.old (answer_text seen sr) }
{
    let line = [
        letter(seen),
        b' ',
        first(seen),
        second(seen),
        b' ',
        text::letter(sr / 16),
        text::letter(sr),
        b'\n',
    ];
    common::copy(out, &line)
}

// The mark of a line, over the front of out.
pub fn write_mark(number: usize, out: &mut [u8])
    ensures { out.new ≡ copied out.old (mark_of number) }
{
    let line = [
        b'?',
        b' ',
        decimal_digit(number / 1000),
        decimal_digit(number / 100),
        decimal_digit(number / 10),
        decimal_digit(number),
        b'\n',
    ];
    common::copy(out, &line)
}

// The end of a trace before a line, with so many bytes left over.
pub fn write_end(number: usize, left: usize, out: &mut [u8])
    ensures { out.new ≡ copied out.old (trace_end number left) }
{
    if left == 0 {
        return;
    }
    write_mark(number, out)
}

// How long that end is.
pub fn end_length(left: usize) -> usize
    ensures { result ≡ length (trace_end 0 left) }
{
    if left == 0 {
        return 0;
    }
    7
}
