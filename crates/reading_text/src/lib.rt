// A number and a table read off text. Each public function takes any input.
#![tactic(auto)]

ghost use Rattle.std.specs.Prelude.{◌≡◌, ◌+◌, ◌*◌, ◌/◌, ◌<◌, length};
ghost use Rattle.reading_text.specs.Numbers.{number_start, fed_digit, fed_minus, fed_other, fed, number_fed, is_number};
ghost use Rattle.reading_text.specs.Numbers.{value_of, number_told, number_values, values_in};
ghost use Rattle.reading_text.specs.Tables.{bits_of, six_of, with_knot, fits_tenths, line_wrong, gap_wrong, scan_start, stopped_scan};
ghost use Rattle.reading_text.specs.Tables.{next_number, next_line, next_letter, at_gap, within_line, end_line, scan_more, is_begun};
ghost use Rattle.reading_text.specs.Tables.{table_read, table_scanned, table_told, scan_told};

// A number as far as it is read: whether it has a minus and a digit, whether it is none, and its size.
#[derive(Clone, Copy)]
pub struct Number {
    pub minus: bool,
    pub some: bool,
    pub none: bool,
    pub size: u32,
}

// One digit more: nine digits at most count.
fn feed_digit(n: Number, b: u8) -> Number
    ensures { result ≡ fed_digit n b }
{
    if 100000000 <= n.size {
        return Number {
            some: true,
            none: true,
            size: 0,
            ..n
        };
    }
    Number {
        some: true,
        size: 10 * n.size + u32::from(text::digit(b)),
        ..n
    }
}

// A minus: in front only, and once.
fn feed_minus(n: Number) -> Number
    ensures { result ≡ fed_minus n }
{
    Number {
        minus: true,
        none: n.none || n.minus || n.some,
        ..n
    }
}

// Any other letter.
fn feed_other(n: Number) -> Number
    ensures { result ≡ fed_other n }
{
    Number { none: true, ..n }
}

// One letter more of a number.
fn feed(n: Number, b: u8) -> Number
    ensures { result ≡ fed n b }
{
    if text::is_digit(b) {
        return feed_digit(n, b);
    }
    if b == b'-' {
        return feed_minus(n);
    }
    feed_other(n)
}

// A number that is whole: a digit at least, and nothing wrong.
fn is_number(n: Number) -> bool
    ensures { result ≡ is_number n }
{
    n.some && !n.none
}

// No letter yet.
fn number_start() -> Number
    ensures { result ≡ number_start }
{
    Number {
        minus: false,
        some: false,
        none: false,
        size: 0,
    }
}

// All letters of a text.
fn number_fed(text: &[u8]) -> Number
    ensures { result ≡ number_fed text.now }
{
    text.iter().fold(number_start(), |n, b| feed(n, *b))
}

// The value of a number of at most nine digits.
fn value(n: Number) -> i32
    requires { n.size < 2147483648 }
    ensures { result ≡ value_of n }
{
    let size = n.size as i32;
    if n.minus { -size } else { size }
}

// A whole text as a number: a minus or none, then digits, the nine last of which may be other than 0.
pub fn read_number(text: &[u8]) -> Option<i32>
    ensures result { result ≡ number_told text.now }
    ensures told { number_values result ≡ values_in text.now }
{
    let n = number_fed(text);
    if is_number(n) { Some(value(n)) } else { None }
}

// A table as far as it is read: the number that is being read, the microvolts of the line once they are, the knots so far, and
// whether a line was wrong.
#[derive(Clone, Copy)]
pub struct Scan {
    pub number: Number,
    pub volts: Number,
    pub second: bool,
    pub wrong: bool,
    pub knots: usize,
}

// The first line of a text that is no knot of a table, counted from 1.
#[derive(Clone, Copy, PartialEq, Eq, Debug)]
pub struct WrongLine {
    pub line: usize,
}

// The bits of a number, of so many as there are below top.
fn bits(n: Number, top: usize) -> usize
    requires { 0 < top }
    ensures { result ≡ bits_of n top }
{
    let low = n.size as usize % top;
    if n.minus { (top - low) % top } else { low }
}

// Six bytes become a knot.
fn put_six(out: &mut [u8], volts: usize, tenths: usize)
    requires { length out.old ≡ 6 }
    ensures { out.new ≡ six_of volts tenths }
{
    out[0] = (volts / 16777216 % 256) as u8;
    out[1] = (volts / 65536 % 256) as u8;
    out[2] = (volts / 256 % 256) as u8;
    out[3] = (volts % 256) as u8;
    out[4] = (tenths / 256 % 256) as u8;
    out[5] = (tenths % 256) as u8;
}

// Knot k of the payload, where there is room for it.
fn put_knot(out: &mut [u8], k: usize, volts: Number, tenths: Number)
    ensures { out.new ≡ with_knot out.old k volts tenths }
{
    if out.len() / 6 <= k {
        return;
    }
    let at = 6 * k;
    let end = at + 6;
    put_six(
        &mut out[at..end],
        bits(volts, 4294967296),
        bits(tenths, 65536),
    );
}

// Tenths that 16 bits hold.
fn fits_tenths(n: Number) -> bool
    ensures { result ≡ fits_tenths n }
{
    n.size <= if n.minus { 32768 } else { 32767 }
}

// At the end of a line: no second number, one that is none or too large, or no room for another knot.
fn line_wrong(s: Scan, room: usize) -> bool
    ensures { result ≡ line_wrong s room }
{
    !s.second || !is_number(s.number) || !fits_tenths(s.number) || room / 6 <= s.knots
}

// At a space: the second number already, or a first that is none.
fn gap_wrong(s: Scan) -> bool
    ensures { result ≡ gap_wrong s }
{
    s.second || !is_number(s.number)
}

// The scan at its start, stopped, at the second number, at the next line, and at the next letter of a number.
fn scan_start() -> Scan
    ensures { result ≡ scan_start }
{
    Scan {
        number: number_start(),
        volts: number_start(),
        second: false,
        wrong: false,
        knots: 0,
    }
}

fn stopped(s: Scan) -> Scan
    ensures { result ≡ stopped_scan s }
{
    Scan { wrong: true, ..s }
}

fn next_number(s: Scan) -> Scan
    ensures { result ≡ next_number s }
{
    Scan {
        number: number_start(),
        volts: s.number,
        second: true,
        ..s
    }
}

fn next_line(s: Scan) -> Scan
    requires { s.knots < 4611686018427387904 }
    ensures { result ≡ next_line s }
{
    Scan {
        number: number_start(),
        volts: number_start(),
        second: false,
        knots: s.knots + 1,
        ..s
    }
}

fn next_letter(s: Scan, b: u8) -> Scan
    ensures { result ≡ next_letter s b }
{
    Scan {
        number: feed(s.number, b),
        ..s
    }
}

// A space ends the first number of a line.
fn gap(s: Scan) -> Scan
    ensures { result ≡ at_gap s }
{
    if gap_wrong(s) {
        return stopped(s);
    }
    next_number(s)
}

// A letter that does not end its line.
fn within_line(s: Scan, b: u8) -> Scan
    ensures { result ≡ within_line s b }
{
    if b == b' ' {
        return gap(s);
    }
    next_letter(s, b)
}

// A newline: the knot of the line goes into the payload.
fn end_line(s: Scan, out: &mut [u8]) -> Scan
    ensures result { result ≡ (end_line s out.old).scan }
    ensures out_left { out.new ≡ (end_line s out.old).payload }
{
    if line_wrong(s, out.len()) {
        return stopped(s);
    }
    put_knot(out, s.knots, s.volts, s.number);
    next_line(s)
}

// One letter more of a table; nothing more after a wrong line.
fn step(s: Scan, b: u8, out: &mut [u8]) -> Scan
    ensures result { result ≡ (scan_more s b out.old).scan }
    ensures out_left { out.new ≡ (scan_more s b out.old).payload }
{
    if s.wrong {
        return s;
    }
    if b == b'\n' {
        return end_line(s, out);
    }
    within_line(s, b)
}

// A line that was begun and not ended.
fn is_begun(s: Scan) -> bool
    ensures { result ≡ is_begun s }
{
    let n = s.number;
    s.second || n.minus || n.some || n.none
}

// What a scan that came to the end of its text says: its knots, or the first line that is none.
fn table_end(s: Scan) -> Result<usize, WrongLine>
    requires { s.knots < 4611686018427387904 }
    ensures { result ≡ table_read s }
{
    if s.wrong || is_begun(s) {
        return Err(WrongLine { line: s.knots + 1 });
    }
    Ok(s.knots)
}

// A whole table into the front of out, six bytes for a knot.
pub fn read_table(text: &[u8], out: &mut [u8]) -> Result<usize, WrongLine>
    ensures result { result ≡ table_read (table_scanned text.now out.old).scan }
    ensures told { table_told result ≡ scan_told (table_scanned text.now out.old).scan }
    ensures out_left { out.new ≡ (table_scanned text.now out.old).payload }
{
    let mut s = scan_start();
    for b in text {
        s = step(s, *b, out);
    }
    table_end(s)
}
