// A line of a trace: kind, RP#, OE#, VPP in five digits, address in four hexadecimal digits, data in two, single spaces, newline.
#![tactic(auto)]

ghost use Rattle.std.specs.Prelude.{◌≡◌, true};
ghost use Rattle.trace_lines.specs.Lines.{is_kind, is_line, kind_of, five_digits, four_hex, two_hex, cycle_stated, read_line, line_told};
ghost use Rattle.trace_lines.specs.Lines.{told_in};
ghost use Rattle.trace_lines.specs.Inner.{met_from, front_run, supply_run, address_run, back_run};

use model_types::{Cycle, Kind, Pins};

#[tactic(auto, unfolding(crate::specs::Lines::is_kind))]
fn is_kind(b: u8) -> bool
    ensures { result ≡ is_kind b }
{
    (b == b'R') | (b == b'W') | (b == b'I')
}

// Kind, RP# and OE#, each with its space.
fn good_front(line: &[u8]) -> bool
    ensures { result ≡ met_from true front_run 0 line.now }
{
    is_kind(common::nth(line, 0))
        & (common::nth(line, 1) == b' ')
        & text::is_digit(common::nth(line, 2))
        & (common::nth(line, 3) == b' ')
        & text::is_digit(common::nth(line, 4))
        & (common::nth(line, 5) == b' ')
}

// VPP and its space.
fn good_supply(line: &[u8]) -> bool
    ensures { result ≡ met_from true supply_run 6 line.now }
{
    text::is_digit(common::nth(line, 6))
        & text::is_digit(common::nth(line, 7))
        & text::is_digit(common::nth(line, 8))
        & text::is_digit(common::nth(line, 9))
        & text::is_digit(common::nth(line, 10))
        & (common::nth(line, 11) == b' ')
}

// The address and its space.
fn good_address(line: &[u8]) -> bool
    ensures { result ≡ met_from true address_run 12 line.now }
{
    text::is_hex(common::nth(line, 12))
        & text::is_hex(common::nth(line, 13))
        & text::is_hex(common::nth(line, 14))
        & text::is_hex(common::nth(line, 15))
        & (common::nth(line, 16) == b' ')
}

// Data and the newline.
fn good_back(line: &[u8]) -> bool
    ensures { result ≡ met_from true back_run 17 line.now }
{
    text::is_hex(common::nth(line, 17))
        & text::is_hex(common::nth(line, 18))
        & (common::nth(line, 19) == b'\n')
}

// Whether 20 bytes are a line of the documented form.
#[tactic(auto, using(crate::proofs::Runs::line_runs))]
pub fn is_line(line: &[u8]) -> bool
    ensures { result ≡ is_line line.now }
{
    let n = line.len();
    (n == 20) & good_front(line) & good_supply(line) & good_address(line) & good_back(line)
}

#[tactic(auto, unfolding(crate::specs::Lines::kind_of))]
fn kind_of(b: u8) -> Kind
    ensures { result ≡ kind_of b }
{
    if b == b'R' {
        return Kind::Read;
    }
    if b == b'W' {
        return Kind::Write;
    }
    Kind::Idle
}

fn five(a: u8, b: u8, c: u8, d: u8, e: u8) -> u32
    ensures { result ≡ five_digits a b c d e }
{
    let p = text::digit(a) as u32 * 10 + text::digit(b) as u32;
    let q = (p * 10 + text::digit(c) as u32) * 10 + text::digit(d) as u32;
    q * 10 + text::digit(e) as u32
}

fn four(a: u8, b: u8, c: u8, d: u8) -> u32
    ensures { result ≡ four_hex a b c d }
{
    let p = text::hex_digit(a) as u32 * 16 + text::hex_digit(b) as u32;
    (p * 16 + text::hex_digit(c) as u32) * 16 + text::hex_digit(d) as u32
}

fn two(a: u8, b: u8) -> u16
    ensures { result ≡ two_hex a b }
{
    text::hex_digit(a) as u16 * 16 + text::hex_digit(b) as u16
}

// The cycle that a line states, read off its places.
#[tactic(auto, unfolding(crate::specs::Lines::cycle_stated))]
pub fn cycle_in(line: &[u8]) -> Cycle
    ensures { result ≡ cycle_stated line.now }
{
    let kind = kind_of(common::nth(line, 0));
    let rp = text::digit(common::nth(line, 2));
    let oe = text::digit(common::nth(line, 4));
    let vpp = five(
        common::nth(line, 6),
        common::nth(line, 7),
        common::nth(line, 8),
        common::nth(line, 9),
        common::nth(line, 10),
    );
    let address = four(
        common::nth(line, 12),
        common::nth(line, 13),
        common::nth(line, 14),
        common::nth(line, 15),
    );
    let byte = two(common::nth(line, 17), common::nth(line, 18));
    let pins = Pins {
        rp: rp,
        wp: 0,
        vpp: vpp,
    };
    Cycle {
        kind: kind,
        pins: pins,
        oe: oe,
        address: address,
        data: byte,
    }
}

// A line read: the cycle that it states, or none where it is no line.
#[tactic(auto, unfolding(crate::specs::Lines::read_line, crate::specs::Lines::told_in))]
pub fn read_line(line: &[u8]) -> Option<Cycle>
    ensures result { result ≡ read_line line.now }
    ensures told { line_told result ≡ told_in line.now }
{
    is_line(line).then(|| cycle_in(line))
}
