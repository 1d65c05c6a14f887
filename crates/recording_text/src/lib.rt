// A recording as a text, judged on bench T from a fresh device: lines of 31 bytes, each read and handed to the walk over the records.
#![tactic(auto)]

ghost use Rattle.std.specs.Prelude.{◌≡◌, ◌*◌, ◌≤◌, ◌<◌, take, drop};
ghost use Rattle.recording_lines.specs.Records.{is_record, record_stated};
ghost use Rattle.recording_walk.specs.Inner.{went_on, bytes_on, bytes_over};
ghost use Rattle.recording_text.specs.Texts.{records_of, bad_after, judged_of, array_judged};
ghost use Rattle.recording_text.specs.Inner.{come_of};

use recording_walk::{Checked, Walk};

// How a text was judged: its good lines, its first bad line or 0, and the check of the records that the good lines state.
#[derive(Clone, Copy)]
pub struct Judged {
    pub lines: usize,
    pub bad: usize,
    pub checked: Checked,
}

// Where the reading has come to: the walk, and the lines that it has read.
#[derive(Clone, Copy)]
struct Come {
    walk: Walk,
    lines: usize,
}

// One line more.
fn next(w: Walk, line: &[u8], array: &mut [u8]) -> Walk
    ensures { (result ≡ went_on w (record_stated line.now) array.old)
        × (array.new ≡ bytes_on w (record_stated line.now) array.old) }
{
    let r = recording_lines::record_in(line);
    recording_walk::go_on(array, w, r)
}

// Whether the line after the first i is one of a recording.
fn good_at(text: &[u8], i: usize) -> bool
    requires { i < 9998 }
    ensures { result ≡ is_record (take 31 (drop (31 * i) text.now)) }
{
    let a = 31 * i;
    match text.get(a..a + 31) {
        Some(line) => recording_lines::is_record(line),
        None => false,
    }
}

// The good lines are read and walked one by one; line 9999 is not asked.
fn walk_lines(text: &[u8], from: Walk, array: &mut [u8]) -> Come
    ensures { (result ≡ come_of from text.now array.old)
        × (array.new ≡ bytes_over array.old from (records_of text.now)) }
{
    let mut w = from;
    for i in 0..9998 {
        if !good_at(text, i) {
            return Come { walk: w, lines: i };
        }
        let a = 31 * i;
        w = next(w, &text[a..a + 31], array);
    }
    Come {
        walk: w,
        lines: 9998,
    }
}

// The first bad line behind n good ones, or 0.
fn bad_after(n: usize, size: usize) -> usize
    requires { n ≤ 9998 }
    ensures { result ≡ bad_after n size }
{
    if 31 * n < size {
        return n + 1;
    }
    0
}

// A whole text, against the array that is promised; the lent array is the device's.
pub fn judge(text: &[u8], promised: &[u8], array: &mut [u8]) -> Judged
    ensures result { result ≡ judged_of text.now promised.now array.old }
    ensures array_left { array.new ≡ array_judged text.now array.old }
{
    let d = trace_replay::bench();
    let s = model::fresh();
    let from = recording_walk::begin(d, s, array.len());
    let c = walk_lines(text, from, array);
    let w = c.walk;
    let n = c.lines;
    let x = recording_walk::end(promised, array, w);
    Judged {
        lines: n,
        bad: bad_after(n, text.len()),
        checked: x,
    }
}
