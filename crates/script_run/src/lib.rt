// A script run on bench T: judged whole first, then walked, each group as often as its count says. Nothing is written out.
// The reader of a list and the reader of an item call each other: with each list fewer levels are left to open, with each item fewer
// bytes to read.
#![tactic(auto)]

ghost use Rattle.std.specs.Prelude.{◌≡◌, ◌+◌, ◌≤◌, length, take, drop};
ghost use Rattle.common.specs.Lists.{copied, overlaid};
ghost use Rattle.trace_lines.specs.Lines.{cycle_stated};
ghost use Rattle.trace_replay.specs.Answers.{printed_of, mark_of};
ghost use Rattle.trace_replay.specs.Replays.{line_step, array_by, replayed_in, left_in_room, Used};
ghost use Rattle.script_run.specs.Runs.{script_output, script_array};
ghost use Rattle.script_run.specs.Inner.{line_run, past_open, close_run, back_to, RunRead, ItemRun};

use engines::Rules;
use model_types::State;
use script_lines::Word;
use trace_replay::Replayed;

// Where a run stands: place in the text, lines that may still come, bytes of output so far, and the device's state.
#[derive(Clone, Copy)]
struct Run {
    at: usize,
    left: usize,
    used: usize,
    state: State,
}

// The trace line at x is answered.
fn answered(text: &[u8], x: Run, array: &mut [u8], residue: &[u8], out: &mut [u8]) -> Run
    requires { (x.at + 20 ≤ length text.now) × (x.used + 8 ≤ length out.old) × (1 ≤ x.left) }
    ensures result { result ≡ line_run text.now x array.old residue.now }
    ensures array_left { array.new
        ≡ array_by x.state (cycle_stated (take 20 (drop x.at text.now))) array.old residue.now }
    ensures out_left { out.new
        ≡ overlaid out.old x.used
        (printed_of
        (line_step x.state (cycle_stated (take 20 (drop x.at text.now))) array.old
        residue.now)) }
{
    let a = x.at;
    let e = a + 20;
    let p = x.used;
    let q = p + 8;
    let s = x.state;
    let t = trace_replay::answer_line::<Rules>(s, &text[a..e], array, residue, &mut out[p..q]);
    Run {
        at: e,
        left: x.left - 1,
        used: q,
        state: t,
    }
}

// Past the opening line at x.
fn past_open(text: &[u8], x: Run) -> Run
    requires { (x.at ≤ length text.now) × (1 ≤ x.left) }
    ensures { result ≡ past_open x }
{
    let s = x.state;
    Run {
        at: x.at + 6,
        left: x.left - 1,
        used: x.used,
        state: s,
    }
}

// At x again, with the output and the device as z has them.
fn back(x: Run, z: Run) -> Run
    ensures { result ≡ back_to x z }
{
    let s = z.state;
    Run {
        at: x.at,
        left: x.left,
        used: z.used,
        state: s,
    }
}

// Past the closing line at x; x itself where there is none.
fn past_close(text: &[u8], x: Run) -> Run
    requires { x.at ≤ length text.now }
    ensures { result ≡ close_run text.now x }
{
    if script_lines::closes_at(x.left, text, x.at) {
        let s = x.state;
        return Run {
            at: x.at + 2,
            left: x.left - 1,
            used: x.used,
            state: s,
        };
    }
    x
}

// The list at x, run to its end, with so many levels left to open.
#[cycle(item_list)]
fn list(text: &[u8], x: Run, depth: usize, array: &mut [u8], residue: &[u8], out: &mut [u8]) -> Run
    requires { (x.at ≤ length text.now) × (x.used ≤ length out.old) }
    ensures reads { RunRead text.now x depth result array.old residue.now out.old
        array.new out.new }
    ensures ahead { (result.at ≤ length text.now) × (x.at ≤ result.at) × (result.used ≤ length out.old) }
{
    let mut y = x;
    while y.at < text.len() {
        let z = item(text, y, depth, array, residue, out);
        if z.at == y.at {
            return z;
        }
        y = z;
    }
    y
}

// The item at x, run: a trace line, or a group, its list one level deeper; x itself where none stands, or no answer fits.
#[cycle(item_list)]
fn item(text: &[u8], x: Run, depth: usize, array: &mut [u8], residue: &[u8], out: &mut [u8]) -> Run
    requires { (x.at ≤ length text.now) × (x.used ≤ length out.old) }
    ensures reads { ItemRun text.now x depth result array.old residue.now out.old
        array.new out.new }
    ensures ahead { (result.at ≤ length text.now) × (x.at ≤ result.at) × (result.used ≤ length out.old) }
{
    let w = script_lines::word_at(x.left, text, x.at);
    match w {
        Word::Ends => {
            return x;
        }
        Word::Bad => {
            return x;
        }
        Word::Closes => {
            return x;
        }
        Word::Traced => {
            if out.len() - x.used < 8 {
                return x;
            }
            return answered(text, x, array, residue, out);
        }
        Word::Opens(n) => {
            if depth == 0 {
                return x;
            }
            let mut y = past_open(text, x);
            let mut z = y;
            for _ in 0..n {
                z = list(text, y, depth - 1, array, residue, out);
                y = back(y, z);
            }
            return past_close(text, z);
        }
    }
}

// The mark of a line at fault, alone.
fn marked(fault: usize, out: &mut [u8]) -> Replayed
    ensures result { result ≡ replayed_in (length out.old) (mark_of fault) }
    ensures out_left { out.new
        ≡ left_in_room (length out.old) (mark_of fault) out.old (copied out.old (mark_of fault)) }
    ensures out_used { Used result.used out.new }
{
    if out.len() < 7 {
        return Replayed {
            number: 37,
            used: 0,
        };
    }
    trace_replay::answers::write_mark(fault, out);
    Replayed { number: 0, used: 7 }
}

// A whole script on lent slices: at a fault its mark alone, else the answers to its lines written out.
pub fn run_script(text: &[u8], array: &mut [u8], residue: &[u8], out: &mut [u8]) -> Replayed
    ensures result { result
        ≡ replayed_in (length out.old) (script_output array.old residue.now text.now) }
    ensures array_left { array.new
        ≡ left_in_room (length out.old) (script_output array.old residue.now text.now)
        array.old (script_array array.old residue.now text.now) }
    ensures out_left { out.new
        ≡ left_in_room (length out.old) (script_output array.old residue.now text.now)
        out.old (copied out.old (script_output array.old residue.now text.now)) }
    ensures out_used { Used result.used out.new }
{
    let j = script_judge::judge_script(text);
    let fault = j.fault;
    if fault != 0 {
        return marked(fault, out);
    }
    let n = 8 * j.lines;
    if out.len() < n {
        return Replayed {
            number: 37,
            used: 0,
        };
    }
    let s = model::fresh();
    let x = Run {
        at: 0,
        left: 3000,
        used: 0,
        state: s,
    };
    let y = list(text, x, 8, array, residue, out);
    Replayed {
        number: 0,
        used: y.used,
    }
}
