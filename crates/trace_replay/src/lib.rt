// A trace replayed against the bench model: lines of 20 bytes in, answers of 8 bytes out.
#![tactic(auto)]

pub mod answers;

ghost use Rattle.std.specs.Prelude.{◌≡◌, ◌++◌, ◌+◌, ◌*◌, ◌≤◌, ◌<◌, length, take, drop};
ghost use Rattle.common.specs.Lists.{copied};
ghost use Rattle.model_states.specs.States.{fresh_state};
ghost use Rattle.model.specs.Arrays.{seen_told};
ghost use Rattle.trace_lines.specs.Lines.{is_line, cycle_stated};
ghost use Rattle.trace_replay.specs.Answers.{printed_of};
ghost use Rattle.trace_replay.specs.Replays.{bench_t, line_step, step_told, array_by, good_lines, answers_of, arrays_of, output_of};
ghost use Rattle.trace_replay.specs.Replays.{array_left, replayed_in, left_in_room, Used};

use device::{Device, Part};
use engines::Engine;
use model::Answer;
use model_types::{Cycle, State};

// How a replay went: refused by 37, or by nothing (0) with so many bytes of output.
#[derive(Clone, Copy)]
pub struct Replayed {
    pub number: u8,
    pub used: usize,
}

// Bench T with P 2, E 3 and S 1.
pub fn bench() -> Device
    ensures { result ≡ bench_t }
{
    let part = Part {
        number: 3,
        word: false,
    };
    Device {
        part: part,
        program: 2,
        erase: 3,
        suspend: 1,
    }
}

// One line's step: the cycle that a line states, on bench T, by an engine. No promise here tells by which.
pub fn step<E: Engine>(s: State, c: Cycle, array: &mut [u8], residue: &[u8]) -> Answer
    ensures result { result ≡ line_step s c array.old residue.now }
    ensures told { seen_told result.seen ≡ step_told s c array.old residue.now }
    ensures array_left { array.new ≡ array_by s c array.old residue.now }
{
    E::cycle(bench(), s, c, array, residue)
}

// A line of the documented form is answered: its answer is laid over the front of out.
pub fn answer_line<E: Engine>(
    s: State,
    line: &[u8],
    array: &mut [u8],
    residue: &[u8],
    out: &mut [u8],
) -> State
    ensures result { result ≡ (line_step s (cycle_stated line.now) array.old residue.now).state }
    ensures array_left { array.new
        ≡ array_by s (cycle_stated line.now) array.old residue.now }
    ensures out_left { out.new
        ≡ copied out.old
        (printed_of (line_step s (cycle_stated line.now) array.old residue.now)) }
{
    let c = trace_lines::cycle_in(line);
    let a = step::<E>(s, c, array, residue);
    answers::write_answer(a.seen, a.state.status, out);
    a.state
}

// Whether the line after the first i is one of the documented form.
fn good_at(text: &[u8], i: usize) -> bool
    requires { i < 9998 }
    ensures { result ≡ is_line (take 20 (drop (20 * i) text.now)) }
{
    let a = 20 * i;
    match text.get(a..a + 20) {
        Some(line) => trace_lines::is_line(line),
        None => false,
    }
}

// How many good lines come first; line 9999 is not asked.
pub fn good_lines(text: &[u8]) -> usize
    ensures { result ≡ good_lines 9998 text.now }
{
    (0..9998).position(|i| !good_at(text, i)).unwrap_or(9998)
}

// The first g lines are answered, each over its eight bytes of out.
fn answer_lines<E: Engine>(g: usize, text: &[u8], array: &mut [u8], residue: &[u8], out: &mut [u8])
    requires { (20 * g ≤ length text.now) × (8 * g ≤ length out.old) }
    ensures array_left { array.new
        ≡ arrays_of g fresh_state array.old residue.now text.now }
    ensures out_left { out.new
        ≡ answers_of g fresh_state array.old residue.now text.now ++ drop (8 * g) out.old }
{
    let mut s = model::fresh();
    for i in 0..g {
        let a = 20 * i;
        let p = 8 * i;
        s = answer_line::<E>(s, &text[a..a + 20], array, residue, &mut out[p..p + 8]);
    }
}

// A whole trace on lent slices: the good lines are counted, answered, and what is left over is marked.
pub fn replay<E: Engine>(text: &[u8], array: &mut [u8], residue: &[u8], out: &mut [u8]) -> Replayed
    ensures result { result
        ≡ replayed_in (length out.old) (output_of array.old residue.now text.now) }
    ensures array_left { array.new
        ≡ left_in_room (length out.old) (output_of array.old residue.now text.now)
        array.old (array_left array.old residue.now text.now) }
    ensures out_left { out.new
        ≡ left_in_room (length out.old) (output_of array.old residue.now text.now)
        out.old (copied out.old (output_of array.old residue.now text.now)) }
    ensures out_used { Used result.used out.new }
{
    let g = good_lines(text);
    let left = text.len() - 20 * g;
    let n = 8 * g + answers::end_length(left);
    if out.len() < n {
        return Replayed {
            number: 37,
            used: 0,
        };
    }
    answer_lines::<E>(g, text, array, residue, out);
    let at = 8 * g;
    answers::write_end(g + 1, left, &mut out[at..n]);
    Replayed { number: 0, used: n }
}
