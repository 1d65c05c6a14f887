// What is said of a recording, in words. Each public function takes any input and writes from a place on, as far as out goes.
#![tactic(auto)]

ghost use Rattle.std.specs.Prelude.{◌≡◌, [], ◌≤◌};
ghost use Rattle.text.specs.Digits.{spelled};
ghost use Rattle.text.specs.Writing.{laid_at, behind};
ghost use Rattle.recording_answer.specs.Lines.{data_width, address_width, data_text, address_text, heard_text, around, given_text};
ghost use Rattle.recording_answer.specs.Lines.{rules_text, seen_text, why_text, fault_line, bad_line, accepted_line, differs_text};
ghost use Rattle.recording_answer.specs.Lines.{shorter_text, lengths_text, place_text, array_text, end_text, first_apart};

use model_types::Phase;
use recording::Why;

// So many hexadecimal digits of a number.
fn put_hex(out: &mut [u8], at: usize, n: usize, v: u64) -> usize
    requires { n ≤ 16 }
    ensures result { result ≡ behind out.old at (spelled 16 n v []) }
    ensures out_left { out.new ≡ laid_at out.old at (spelled 16 n v []) }
{
    let mut digits = [0u8; 16];
    let from = 16 - n;
    text::hex(&mut digits, v);
    text::put_text(out, at, &digits[from..16])
}

// The digits that data is told in.
fn data_width(v: u64) -> usize
    ensures { result ≡ data_width v }
{
    if v < 0x100 {
        return 2;
    }
    if v < 0x10000 {
        return 4;
    }
    if v < 0x1_0000_0000 {
        return 8;
    }
    16
}

// The digits that an address is told in.
fn address_width(v: u64) -> usize
    ensures { result ≡ address_width v }
{
    if v < 0x100 {
        return 4;
    }
    data_width(v)
}

fn put_data(out: &mut [u8], at: usize, v: u64) -> usize
    ensures result { result ≡ behind out.old at (data_text v) }
    ensures out_left { out.new ≡ laid_at out.old at (data_text v) }
{
    let n = data_width(v);
    put_hex(out, at, n, v)
}

fn put_address(out: &mut [u8], at: usize, v: u64) -> usize
    ensures result { result ≡ behind out.old at (address_text v) }
    ensures out_left { out.new ≡ laid_at out.old at (address_text v) }
{
    let n = address_width(v);
    put_hex(out, at, n, v)
}

// Data that was seen.
fn put_told(out: &mut [u8], at: usize, v: u16) -> usize
    ensures result { result ≡ behind out.old at (heard_text (Some v)) }
    ensures out_left { out.new ≡ laid_at out.old at (heard_text (Some v)) }
{
    let a = text::put_text(out, at, b"D ");
    put_data(out, a, v as u64)
}

// The answer seen.
fn put_heard(out: &mut [u8], at: usize, heard: Option<u16>) -> usize
    ensures result { result ≡ behind out.old at (heard_text heard) }
    ensures out_left { out.new ≡ laid_at out.old at (heard_text heard) }
{
    match heard {
        None => text::put_text(out, at, b"N --"),
        Some(v) => put_told(out, at, v),
    }
}

// A piece of text, a number and a piece of text behind it.
fn put_around(out: &mut [u8], at: usize, before: &[u8], n: u32, after: &[u8]) -> usize
    ensures result { result ≡ behind out.old at (around before.now n after.now) }
    ensures out_left { out.new ≡ laid_at out.old at (around before.now n after.now) }
{
    let a = text::put_text(out, at, before);
    let b = text::put_decimal(out, a, n);
    text::put_text(out, b, after)
}

fn put_given(out: &mut [u8], at: usize, v: u32) -> usize
    ensures result { result ≡ behind out.old at (given_text v) }
    ensures out_left { out.new ≡ laid_at out.old at (given_text v) }
{
    let a = text::put_text(out, at, b"give D ");
    let b = put_data(out, a, v as u64);
    text::put_text(out, b, b"\n")
}

// What the rules do with the cycle.
fn put_rules(out: &mut [u8], at: usize, kind: u8, value: u32) -> usize
    ensures result { result ≡ behind out.old at (rules_text kind value) }
    ensures out_left { out.new ≡ laid_at out.old at (rules_text kind value) }
{
    if kind == 3 {
        return put_around(out, at, b"refuse the cycle by number ", value, b"\n");
    }
    if kind == 4 {
        return text::put_text(out, at, b"give N --\n");
    }
    put_given(out, at, value)
}

fn put_seen(out: &mut [u8], at: usize, heard: Option<u16>, kind: u8, value: u32) -> usize
    ensures result { result ≡ behind out.old at (seen_text heard kind value) }
    ensures out_left { out.new ≡ laid_at out.old at (seen_text heard kind value) }
{
    let a = text::put_text(out, at, b"seen ");
    let b = put_heard(out, a, heard);
    let c = text::put_text(out, b, b", the rules ");
    put_rules(out, c, kind, value)
}

// Why a record is at fault.
fn put_why(out: &mut [u8], at: usize, heard: Option<u16>, w: Why) -> usize
    ensures result { result ≡ behind out.old at (why_text heard w) }
    ensures out_left { out.new ≡ laid_at out.old at (why_text heard w) }
{
    let kind = w.kind;
    let value = w.value;
    if kind == 1 {
        return put_around(out, at, b"the count ", value, b" is not 1 to 65535\n");
    }
    if kind == 2 {
        return text::put_text(out, at, b"an operation is cut\n");
    }
    put_seen(out, at, heard, kind, value)
}

// A record at fault, by its line.
pub fn put_fault(out: &mut [u8], at: usize, n: u32, heard: Option<u16>, w: Why) -> usize
    ensures result { result ≡ behind out.old at (fault_line n heard w) }
    ensures out_left { out.new ≡ laid_at out.old at (fault_line n heard w) }
{
    let a = put_around(out, at, b"line ", n, b" is at fault: ");
    put_why(out, a, heard, w)
}

// A line that is none.
pub fn put_bad(out: &mut [u8], at: usize, n: u32) -> usize
    ensures result { result ≡ behind out.old at (bad_line n) }
    ensures out_left { out.new ≡ laid_at out.old at (bad_line n) }
{
    put_around(out, at, b"line ", n, b" is no line of a recording\n")
}

// All is as it must be.
pub fn put_accepted(out: &mut [u8], at: usize, n: u32) -> usize
    ensures result { result ≡ behind out.old at (accepted_line n) }
    ensures out_left { out.new ≡ laid_at out.old at (accepted_line n) }
{
    put_around(
        out,
        at,
        b"accepted: ",
        n,
        b" records, and the array is the one promised\n",
    )
}

// Where two slices first differ: how many bytes are the same in front of both.
pub fn apart_at(a: &[u8], b: &[u8]) -> usize
    ensures { result ≡ first_apart a.now b.now }
{
    let n = common::least(a.len(), b.len());
    a.iter()
        .zip(b.iter())
        .position(|(x, y)| *x != *y)
        .unwrap_or(n)
}

fn put_differs(out: &mut [u8], at: usize, v: u64) -> usize
    ensures result { result ≡ behind out.old at (differs_text v) }
    ensures out_left { out.new ≡ laid_at out.old at (differs_text v) }
{
    let a = text::put_text(
        out,
        at,
        b"the end is at fault: the array differs from the one promised at ",
    );
    let b = put_address(out, a, v);
    text::put_text(out, b, b"\n")
}

fn put_shorter(out: &mut [u8], at: usize, n: u32, m: u32) -> usize
    ensures result { result ≡ behind out.old at (shorter_text n m) }
    ensures out_left { out.new ≡ laid_at out.old at (shorter_text n m) }
{
    let a = put_around(
        out,
        at,
        b"the end is at fault: the array promised has ",
        n,
        b" bytes, the part ",
    );
    let b = text::put_decimal(out, a, m);
    text::put_text(out, b, b"\n")
}

// The array promised has another length.
fn put_lengths(out: &mut [u8], at: usize, n: usize, m: usize) -> usize
    ensures result { result ≡ behind out.old at (lengths_text n m) }
    ensures out_left { out.new ≡ laid_at out.old at (lengths_text n m) }
{
    if 0xFFFF_FFFF < m {
        return text::put_text(
            out,
            at,
            b"the end is at fault: the array promised is not as long as the part\n",
        );
    }
    if m < n {
        return put_around(
            out,
            at,
            b"the end is at fault: the array promised has more bytes than the part's ",
            m as u32,
            b"\n",
        );
    }
    put_shorter(out, at, n as u32, m as u32)
}

// Two arrays of m bytes differ first at v; past the end they do not.
fn put_place(out: &mut [u8], at: usize, v: usize, m: usize) -> usize
    ensures result { result ≡ behind out.old at (place_text v m) }
    ensures out_left { out.new ≡ laid_at out.old at (place_text v m) }
{
    if v < m {
        return put_differs(out, at, v as u64);
    }
    text::put_text(out, at, b"the end is as it must be\n")
}

// The array promised against the part's.
fn put_array(out: &mut [u8], at: usize, promised: &[u8], array: &[u8]) -> usize
    ensures result { result ≡ behind out.old at (array_text promised.now array.now) }
    ensures out_left { out.new ≡ laid_at out.old at (array_text promised.now array.now) }
{
    let n = promised.len();
    let m = array.len();
    if n == m {
        let v = apart_at(promised, array);
        return put_place(out, at, v, m);
    }
    put_lengths(out, at, n, m)
}

// Only the end is at fault: something is awaited, running or suspended there, or the array is not the one promised.
pub fn put_end(out: &mut [u8], at: usize, ph: Phase, promised: &[u8], array: &[u8]) -> usize
    ensures result { result ≡ behind out.old at (end_text ph promised.now array.now) }
    ensures out_left { out.new ≡ laid_at out.old at (end_text ph promised.now array.now) }
{
    match ph {
        Phase::Free => put_array(out, at, promised, array),
        Phase::EraseAwaited => text::put_text(
            out,
            at,
            b"the end is at fault: not idle, an erase waits for its confirm\n",
        ),
        Phase::DataAwaited => text::put_text(
            out,
            at,
            b"the end is at fault: not idle, a program waits for its data\n",
        ),
        Phase::Programming(_) => text::put_text(
            out,
            at,
            b"the end is at fault: not idle, a program is running\n",
        ),
        Phase::Erasing => text::put_text(
            out,
            at,
            b"the end is at fault: not idle, an erase is running\n",
        ),
        Phase::Suspending(_) => text::put_text(
            out,
            at,
            b"the end is at fault: not idle, an erase is being suspended\n",
        ),
        Phase::Suspended => text::put_text(
            out,
            at,
            b"the end is at fault: not idle, an erase is suspended\n",
        ),
    }
}
