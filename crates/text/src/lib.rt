// Text: digits, numbers spelled by them, and pieces of text laid one behind the other. Each public function takes any input.
#![tactic(auto)]

ghost use Rattle.std.specs.Prelude.{◌≡◌, [], ◌≤◌, ◌<◌, ◌%◌, length, set};
ghost use Rattle.text.specs.Digits.{is_digit, is_hex, digit_of, hex_of, digit_letter, spelled, width_of, decimal_of};
ghost use Rattle.text.specs.Writing.{laid_at, behind};

// What a program says: so many bytes in front of a lent slice, for standard output (1) or standard error (2).
#[derive(Clone, Copy)]
pub struct Told {
    pub used: usize,
    pub stream: u8,
}

// A decimal digit.
pub fn is_digit(b: u8) -> bool
    ensures { result ≡ is_digit b }
{
    b.is_ascii_digit()
}

// A hexadecimal digit, capitals only.
pub fn is_hex(b: u8) -> bool
    ensures { result ≡ is_hex b }
{
    is_digit(b) || (b'A'..=b'F').contains(&b)
}

// What a decimal digit counts.
pub fn digit(b: u8) -> u8
    ensures { result ≡ digit_of b }
{
    b % 16
}

// What a hexadecimal digit counts.
pub fn hex_digit(b: u8) -> u8
    ensures { (result ≡ hex_of b) × (result < 16) }
{
    if b < b'A' {
        return b % 16;
    }
    let n = b as u32 + 9;
    (n % 16) as u8
}

// What a letter counts from.
const TEN: u8 = b'A' - 10;

// The low four bits as one digit.
pub fn letter(d: u8) -> u8
    ensures { result ≡ digit_letter (d % 16) }
{
    let n = d % 16;
    if n < 10 {
        return b'0' + n;
    }
    TEN + n
}

// A whole slice gets the last digits of x.
fn spell(out: &mut [u8], base: u64, x: u64)
    requires { (0 < base) × (base ≤ 16) }
    ensures { out.new ≡ spelled base (length out.old) x [] }
{
    let mut rest = x;
    for i in (0..out.len()).rev() {
        out[i] = letter((rest % base) as u8);
        rest /= base;
    }
}

// A slice gets the last digits of x, in decimal and in hex.
pub fn decimal(out: &mut [u8], x: u64)
    ensures { out.new ≡ spelled 10 (length out.old) x [] }
{
    spell(out, 10, x)
}

// A slice gets the last digits of x in hexadecimal.
pub fn hex(out: &mut [u8], x: u64)
    ensures { out.new ≡ spelled 16 (length out.old) x [] }
{
    spell(out, 16, x)
}

// The byte at a place becomes b; nothing past the end.
pub fn put(s: &mut [u8], at: usize, b: u8)
    ensures { s.new ≡ set s.old at b }
{
    if at < s.len() {
        s[at] = b;
    }
}

// A piece of text from a place on, as far as out goes; the place behind it.
pub fn put_text(out: &mut [u8], at: usize, text: &[u8]) -> usize
    ensures result { result ≡ behind out.old at text.now }
    ensures out_left { out.new ≡ laid_at out.old at text.now }
{
    let n = out.len();
    let from = common::least(at, n);
    let count = common::least(text.len(), n - from);
    let end = from + count;
    common::copy(&mut out[from..n], text);
    end
}

// The digits of a number.
fn width(n: u32) -> usize
    ensures { result ≡ width_of n }
{
    n.checked_ilog10().map_or(1, |k| k as usize + 1)
}

// A number in decimal from a place on, without zeros in front; the place behind it.
pub fn put_decimal(out: &mut [u8], at: usize, n: u32) -> usize
    ensures result { result ≡ behind out.old at (decimal_of n) }
    ensures out_left { out.new ≡ laid_at out.old at (decimal_of n) }
{
    let mut digits = [0u8; 10];
    let from = 10 - width(n);
    decimal(&mut digits, n as u64);
    put_text(out, at, &digits[from..10])
}
