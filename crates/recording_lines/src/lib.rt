// A line of a recording: a trace line's first 19 characters, the answer seen in four, the busy count in five digits or five dashes,
// single spaces, newline.
#![tactic(auto)]

ghost use Rattle.std.specs.Prelude.{◌≡◌, true, false, length};
ghost use Rattle.trace_lines.specs.Lines.{is_line, five_digits, two_hex};
ghost use Rattle.text.specs.Digits.{digit_of};
ghost use Rattle.trace_lines.specs.Inner.{met_from};
ghost use Rattle.recording_lines.specs.Records.{answer_form, count_form, is_record, heard_stated, count_stated, record_stated};
ghost use Rattle.recording_lines.specs.Inner.{trace_line, answer_met, count_met};

use recording::Noted;

// The first 19 characters are a trace line's.
fn good_cycle(line: &[u8]) -> bool
    requires { length line.now ≡ 31 }
    ensures { result ≡ is_line (trace_line line.now) }
{
    let mut front = [b'\n'; 20];
    common::copy(&mut front, &line[0..19]);
    trace_lines::is_line(&front)
}

fn told(line: &[u8]) -> bool
    ensures { result ≡ met_from true (answer_form true) 19 line.now }
{
    (common::nth(line, 19) == b' ')
        & (common::nth(line, 20) == b'D')
        & (common::nth(line, 21) == b' ')
        & text::is_hex(common::nth(line, 22))
        & text::is_hex(common::nth(line, 23))
}

fn silent(line: &[u8]) -> bool
    ensures { result ≡ met_from true (answer_form false) 19 line.now }
{
    (common::nth(line, 19) == b' ')
        & (common::nth(line, 20) == b'N')
        & (common::nth(line, 21) == b' ')
        & (common::nth(line, 22) == b'-')
        & (common::nth(line, 23) == b'-')
}

fn counted(line: &[u8]) -> bool
    ensures { result ≡ met_from true (count_form true) 24 line.now }
{
    (common::nth(line, 24) == b' ')
        & text::is_digit(common::nth(line, 25))
        & text::is_digit(common::nth(line, 26))
        & text::is_digit(common::nth(line, 27))
        & text::is_digit(common::nth(line, 28))
        & text::is_digit(common::nth(line, 29))
        & (common::nth(line, 30) == b'\n')
}

fn uncounted(line: &[u8]) -> bool
    ensures { result ≡ met_from true (count_form false) 24 line.now }
{
    (common::nth(line, 24) == b' ')
        & (common::nth(line, 25) == b'-')
        & (common::nth(line, 26) == b'-')
        & (common::nth(line, 27) == b'-')
        & (common::nth(line, 28) == b'-')
        & (common::nth(line, 29) == b'-')
        & (common::nth(line, 30) == b'\n')
}

fn good_answer(line: &[u8]) -> bool
    ensures { result ≡ answer_met line.now }
{
    told(line) | silent(line)
}

fn good_count(line: &[u8]) -> bool
    ensures { result ≡ count_met line.now }
{
    counted(line) | uncounted(line)
}

// Whether bytes are a line of a recording.
pub fn is_record(line: &[u8]) -> bool
    ensures { result ≡ is_record line.now }
{
    if line.len() != 31 {
        return false;
    }
    good_cycle(line) & good_answer(line) & good_count(line)
}

fn two(a: u8, b: u8) -> u16
    ensures { result ≡ two_hex a b }
{
    text::hex_digit(a) as u16 * 16 + text::hex_digit(b) as u16
}

// The answer that a line states.
fn heard_in(line: &[u8]) -> Option<u16>
    ensures { result ≡ heard_stated line.now }
{
    if common::nth(line, 20) == b'D' {
        return Some(two(common::nth(line, 22), common::nth(line, 23)));
    }
    None
}

fn digit(b: u8) -> u32
    ensures { result ≡ digit_of b }
{
    (b % 16) as u32
}

fn five(a: u8, b: u8, c: u8, d: u8, e: u8) -> u32
    ensures { result ≡ five_digits a b c d e }
{
    (((digit(a) * 10 + digit(b)) * 10 + digit(c)) * 10 + digit(d)) * 10 + digit(e)
}

// The busy count that a line states, 0 where none is told.
fn count_in(line: &[u8]) -> u32
    ensures { result ≡ count_stated line.now }
{
    if common::nth(line, 25) == b'-' {
        return 0;
    }
    five(
        common::nth(line, 25),
        common::nth(line, 26),
        common::nth(line, 27),
        common::nth(line, 28),
        common::nth(line, 29),
    )
}

// The record that a line states, read off its places.
pub fn record_in(line: &[u8]) -> Noted
    ensures { result ≡ record_stated line.now }
{
    let c = trace_lines::cycle_in(line);
    let heard = heard_in(line);
    let n = count_in(line);
    Noted {
        cycle: c,
        heard: heard,
        busy: n,
    }
}
