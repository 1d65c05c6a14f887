// What is said of a recording as a text: it is judged, and the first thing that is wrong is told by its line, or that it is accepted. The
// public function takes any input.
#![tactic(auto)]

ghost use Rattle.std.specs.Prelude.{◌≡◌, ◌+◌, ◌*◌, ◌≤◌, length};
ghost use Rattle.text.specs.Writing.{laid_at, behind, Used};
ghost use Rattle.recording_text.specs.Texts.{array_judged};
ghost use Rattle.recording_told.specs.Tellings.{start_words, start_refused, later_text, told_of};
ghost use Rattle.recording_told.specs.Inner.{fault_at};

use model_types::{Phase, State};

// What a refusal before the list means.
fn put_words(out: &mut [u8], at: usize, n: u8) -> usize
    ensures result { result ≡ behind out.old at (start_words n) }
    ensures out_left { out.new ≡ laid_at out.old at (start_words n) }
{
    if n == 2 {
        return text::put_text(
            out,
            at,
            b": the array at the start is not as long as the part\n",
        );
    }
    text::put_text(out, at, b": as the list of numbers says\n")
}

// Refused before the list.
fn put_refused(out: &mut [u8], n: u8) -> usize
    ensures result { result ≡ behind out.old 0 (start_refused n) }
    ensures out_left { out.new ≡ laid_at out.old 0 (start_refused n) }
{
    let a = refusal_words::put_refused(out, 0, n);
    put_words(out, a, n)
}

// The record of the line behind the first i is at fault, in the state and on the array that those before it leave.
fn put_first(out: &mut [u8], text: &[u8], i: usize, s: State, array: &[u8]) -> usize
    requires { (i ≤ 9997) × (31 * i + 31 ≤ length text.now) }
    ensures result { result ≡ behind out.old 0 (fault_at text.now i s array.now) }
    ensures out_left { out.new ≡ laid_at out.old 0 (fault_at text.now i s array.now) }
{
    let a = 31 * i;
    let e = a + 31;
    let n = i as u32 + 1;
    let r = recording_lines::record_in(&text[a..e]);
    let d = trace_replay::bench();
    let w = recording::reason(d, s, r, array);
    let heard = r.heard;
    recording_answer::put_fault(out, 0, n, heard, w)
}

// No record is at fault: the line that is none, acceptance, or the end.
fn put_later(
    out: &mut [u8],
    bad: usize,
    n: usize,
    well: bool,
    ph: Phase,
    promised: &[u8],
    array: &[u8],
) -> usize
    requires { (bad ≤ 9999) × (n ≤ 9998) }
    ensures result { result ≡ behind out.old 0 (later_text bad n well ph promised.now array.now) }
    ensures out_left { out.new
        ≡ laid_at out.old 0 (later_text bad n well ph promised.now array.now) }
{
    if bad != 0 {
        return recording_answer::put_bad(out, 0, bad as u32);
    }
    if well {
        return recording_answer::put_accepted(out, 0, n as u32);
    }
    recording_answer::put_end(out, 0, ph, promised, array)
}

// A recording as a text, on the lent array and against the one promised. What is said goes into the front of out: how many bytes. A room
// of 128 bytes holds all that can be said.
pub fn tell(text: &[u8], promised: &[u8], array: &mut [u8], out: &mut [u8]) -> usize
    ensures result { result ≡ behind out.old 0 (told_of text.now promised.now array.old) }
    ensures out_left { out.new
        ≡ laid_at out.old 0 (told_of text.now promised.now array.old) }
    ensures array_left { array.new ≡ array_judged text.now array.old }
    ensures out_used { Used result out.new }
{
    let j = recording_text::judge(text, promised, array);
    let n = j.lines;
    let x = j.checked;
    let s = x.state;
    if x.number != 0 {
        return put_refused(out, x.number);
    }
    if x.at < n {
        return put_first(out, text, x.at, s, array);
    }
    let ph = s.phase;
    let well = x.accepted;
    put_later(out, j.bad, n, well, ph, promised, array)
}
