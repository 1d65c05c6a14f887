// The wear that a whole trace leaves on bench T, counted from a fresh device.
#![tactic(auto)]

ghost use Rattle.std.specs.Prelude.{◌≡◌, ◌*◌, ◌≤◌, length};
ghost use Rattle.model_states.specs.States.{fresh_state};
ghost use Rattle.trace_lines.specs.Lines.{cycle_stated};
ghost use Rattle.trace_replay.specs.Replays.{line_step, array_by, arrays_of};
ghost use Rattle.trace_wear.specs.Wears.{worn_of, worn_told, count_told, array_worn};
ghost use Rattle.trace_wear.specs.Inner.{states_of};

use engines::Rules;
use model_types::{State, Wear};

// The number of a trace's first bad line, counted from 1. Such a trace has no counts.
#[derive(Clone, Copy)]
pub struct BadLine {
    pub line: usize,
}

// The state after the cycle that a line states.
fn next(s: State, line: &[u8], array: &mut [u8], residue: &[u8]) -> State
    ensures result { result ≡ (line_step s (cycle_stated line.now) array.old residue.now).state }
    ensures array_left { array.new
        ≡ array_by s (cycle_stated line.now) array.old residue.now }
{
    let c = trace_lines::cycle_in(line);
    let a = trace_replay::step::<Rules>(s, c, array, residue);
    a.state
}

// The state after the first g lines, from a fresh device.
fn last_state(g: usize, text: &[u8], array: &mut [u8], residue: &[u8]) -> State
    requires { 20 * g ≤ length text.now }
    ensures result { result ≡ states_of g fresh_state array.old residue.now text.now }
    ensures array_left { array.new
        ≡ arrays_of g fresh_state array.old residue.now text.now }
{
    let mut s = model::fresh();
    for i in 0..g {
        let a = 20 * i;
        s = next(s, &text[a..a + 20], array, residue);
    }
    s
}

// The counts of a whole trace's last state, on lent slices. One with a bad line is not replayed, and the array stays as it is.
pub fn count(text: &[u8], array: &mut [u8], residue: &[u8]) -> Result<Wear, BadLine>
    ensures result { result ≡ worn_of array.old residue.now text.now }
    ensures told { worn_told result ≡ count_told array.old residue.now text.now }
    ensures array_left { array.new ≡ array_worn array.old residue.now text.now }
{
    let g = trace_replay::good_lines(text);
    if 20 * g < text.len() {
        return Err(BadLine { line: g + 1 });
    }
    Ok(last_state(g, text, array, residue).wear)
}
