// A script judged: its first line at fault, or that it is allowed. The reader of a list and the reader of an item call each other:
// with each list fewer levels are left to open, with each item fewer bytes to read.
#![tactic(auto)]

ghost use Rattle.std.specs.Prelude.{◌≡◌, true, ◌≤◌, ◌*◌, length};
ghost use Rattle.script_judge.specs.Judges.{capped, script_judged};
ghost use Rattle.script_judge.specs.Inner.{fault_spot, next_spot, closed_spot, item_comes, ReadTo, Sound, Ahead, Ended};

use script_lines::Word;

// The first line at fault, and no lines; or no fault (0), and how many lines are written out.
#[derive(Clone, Copy)]
pub struct Judged {
    pub fault: usize,
    pub lines: usize,
}

// Where a reader stands: place in the text, lines that may still come, this line's number, lines written out so far; or a fault.
#[derive(Clone, Copy)]
struct Spot {
    fault: usize,
    at: usize,
    left: usize,
    line: usize,
    total: usize,
}

// A product of counts, 9,999 at most: from there on every trace line is one too many.
fn times(p: usize, n: usize) -> usize
    requires { (p ≤ 9999) × (n ≤ 999) }
    ensures { result ≡ capped (p * n) }
{
    if p * n <= 9999 {
        return p * n;
    }
    9999
}

// A fault at a line.
fn fault_at(line: usize) -> Spot
    ensures { result ≡ fault_spot line }
{
    Spot {
        fault: line,
        at: 0,
        left: 0,
        line: 0,
        total: 0,
    }
}

// Past a line of so many bytes at x, with so many lines written out.
fn past(text: &[u8], x: Spot, bytes: usize, total: usize) -> Spot
    requires { (x.at ≤ length text.now) × (bytes ≤ 20) × (1 ≤ x.left) × Sound x }
    ensures { result ≡ next_spot x bytes total }
{
    Spot {
        fault: 0,
        at: x.at + bytes,
        left: x.left - 1,
        line: x.line + 1,
        total: total,
    }
}

// Past the closing line that must stand at x, behind a group's list.
fn closed(text: &[u8], x: Spot) -> Spot
    requires { (x.at ≤ length text.now) × Sound x }
    ensures { result ≡ closed_spot text.now x }
{
    if script_lines::closes_at(x.left, text, x.at) {
        return past(text, x, 2, x.total);
    }
    fault_at(x.line)
}

// Whether an item is read at a word: where one must come, whatever stands there; else where the list does not end.
fn comes(must: bool, w: Word) -> bool
    ensures { result ≡ item_comes must w }
{
    match w {
        Word::Ends => must,
        Word::Bad => true,
        Word::Traced => true,
        Word::Opens(_n) => true,
        Word::Closes => must,
    }
}

// A list at x, to the line where it ends: the end of the text, or a closing line. Where an item must come, its first one does.
#[cycle(item_list)]
fn list(text: &[u8], x: Spot, depth: usize, p: usize, must: bool) -> Spot
    requires { (x.at ≤ length text.now) × Sound x × (p ≤ 9999) }
    ensures reads { ReadTo text.now x depth p must result }
    ensures ends { Ended text.now x result }
{
    let mut y = x;
    let mut due = must;
    while comes(due, script_lines::word_at(y.left, text, y.at)) {
        let z = item(text, y, depth, p);
        if z.fault != 0 {
            return z;
        }
        y = z;
        due = false;
    }
    y
}

// An item must stand at x: a trace line, or a group, its list one level deeper. Around it the counts have the product p.
#[cycle(item_list)]
fn item(text: &[u8], x: Spot, depth: usize, p: usize) -> Spot
    requires { (x.at ≤ length text.now) × Sound x × (p ≤ 9999) }
    ensures reads { ReadTo text.now x depth p true result }
    ensures ahead { Ahead text.now x result }
{
    let w = script_lines::word_at(x.left, text, x.at);
    match w {
        Word::Ends => {
            return fault_at(x.line);
        }
        Word::Bad => {
            return fault_at(x.line);
        }
        Word::Closes => {
            return fault_at(x.line);
        }
        Word::Traced => {
            if 9998 < x.total + p {
                return fault_at(x.line);
            }
            return past(text, x, 20, x.total + p);
        }
        Word::Opens(n) => {
            if depth == 0 {
                return fault_at(x.line);
            }
            let q = times(p, n);
            let y = list(text, past(text, x, 6, x.total), depth - 1, q, true);
            if y.fault != 0 {
                return y;
            }
            return closed(text, y);
        }
    }
}

// A whole script judged: 3,000 lines at most, its own list to the end of the text.
pub fn judge_script(text: &[u8]) -> Judged
    ensures { result ≡ script_judged text.now }
{
    let x = Spot {
        fault: 0,
        at: 0,
        left: 3000,
        line: 1,
        total: 0,
    };
    let y = list(text, x, 8, 1, false);
    if y.fault != 0 {
        return Judged {
            fault: y.fault,
            lines: 0,
        };
    }
    if script_lines::ends_at(y.left, text, y.at) {
        return Judged {
            fault: 0,
            lines: y.total,
        };
    }
    Judged {
        fault: y.line,
        lines: 0,
    }
}
