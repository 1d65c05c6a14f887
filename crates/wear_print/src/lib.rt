// The report on wear as a table in text, into the front of a slice: a header, and a line for each of bench T's four blocks. And a line for
// a trace that is not in it.
#![tactic(auto)]

ghost use Rattle.std.specs.Prelude.{◌≡◌, ◌+◌, ◌≤◌, length};
ghost use Rattle.common.specs.Lists.{overlaid};
ghost use Rattle.std.specs.Counts.{IsPrefixLen};
ghost use Rattle.wear_print.specs.Tables.{width_of, field_text, row_text, table_text, line_text, laid_in, count_in};

use wear::{Report, Tally};

// How many digits a number has.
fn width(n: u64) -> usize
    ensures { (result ≡ width_of n) × (result ≤ 20) }
{
    match n.checked_ilog10() {
        Some(k) => k as usize + 1,
        None => 1,
    }
}

// A space and a number from a place on; the place behind it.
fn put_field(out: &mut [u8], at: usize, n: u64) -> usize
    requires { at + 21 ≤ length out.old }
    ensures result { (result ≡ at + length (field_text n)) × (result ≤ at + 21) }
    ensures out_left { out.new ≡ overlaid out.old at (field_text n) }
{
    let w = width(n);
    let from = at + 1;
    let end = from + w;
    out[at] = b' ';
    text::decimal(&mut out[from..end], n);
    end
}

// A block's line from a place on; the place behind it.
fn put_row(out: &mut [u8], at: usize, block: u64, t: Tally) -> usize
    requires { at + 106 ≤ length out.old }
    ensures result { (result ≡ at + length (row_text block t)) × (result ≤ at + 106) }
    ensures out_left { out.new ≡ overlaid out.old at (row_text block t) }
{
    let a = put_field(out, at, block);
    let b = put_field(out, a, t.total);
    let c = put_field(out, b, t.largest as u64);
    let d = put_field(out, c, t.smallest as u64);
    let e = put_field(out, d, t.passed as u64);
    out[e] = b'\n';
    e + 1
}

// The table; how many bytes it takes. Nothing where there is no room for 512.
pub fn table(out: &mut [u8], r: Report) -> usize
    ensures result { result ≡ count_in out.old (table_text r) }
    ensures out_left { out.new ≡ laid_in out.old (table_text r) }
    ensures out_used { IsPrefixLen result out.new }
{
    if out.len() < 512 {
        return 0;
    }
    let t0 = r.block0;
    let t1 = r.block1;
    let t2 = r.block2;
    let t3 = r.block3;
    common::copy(out, b" block total largest smallest passed\n");
    let a = put_row(out, 37, 0, t0);
    let b = put_row(out, a, 1, t1);
    let c = put_row(out, b, 2, t2);
    put_row(out, c, 3, t3)
}

// A sign, two numbers and a newline; how many bytes they take. Nothing where there is no room for 512.
pub fn line(out: &mut [u8], sign: u8, a: u64, b: u64) -> usize
    ensures result { result ≡ count_in out.old (line_text sign a b) }
    ensures out_left { out.new ≡ laid_in out.old (line_text sign a b) }
    ensures out_used { IsPrefixLen result out.new }
{
    if out.len() < 512 {
        return 0;
    }
    out[0] = sign;
    let p = put_field(out, 1, a);
    let q = put_field(out, p, b);
    out[q] = b'\n';
    q + 1
}
