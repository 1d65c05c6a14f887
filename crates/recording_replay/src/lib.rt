// A trace recorded on bench T: for each good line its line of a recording, with the answer that the model gives and, at a start, the busy
// count that it takes; and what is to be said of such a recording.
#![tactic(auto)]

ghost use Rattle.std.specs.Prelude.{◌≡◌, ◌++◌, ◌*◌, ◌≤◌, length, drop};
ghost use Rattle.common.specs.Lists.{copied};
ghost use Rattle.model_types.specs.Phases.{is_free};
ghost use Rattle.model_states.specs.States.{fresh_state};
ghost use Rattle.text.specs.Writing.{laid_at, behind, Used};
ghost use Rattle.trace_lines.specs.Lines.{decimal_digit, cycle_stated};
ghost use Rattle.trace_replay.specs.Replays.{bench_t, line_step, array_by, arrays_of};
ghost use Rattle.recording.specs.Recordings.{cuts_off};
ghost use Rattle.recording_replay.specs.Recorded.{time_awaited, busy_of, refusal_number, first_line, first_number, log_by, answer_for};
ghost use Rattle.recording_replay.specs.Recorded.{count_for, line_for, lines_from, log_from, no_log, bad_behind, used_for, made_from};
ghost use Rattle.recording_replay.specs.Recorded.{no_room};
ghost use Rattle.recording_replay.specs.Recorded.{trace_made, array_made, out_made, line_note, refused_note, note_of};

use device::Device;
use engines::Rules;
use model::{Answer, Seen};
use model_levels::{rp_low, vpp_low};
use model_states::is_pending;
use model_types::{Cycle, Phase, State};

// What is known after some lines: the state that they leave, the first line whose cycle is refused with the refusal's number, and the
// first line that cuts an operation; 0 where there is none.
#[derive(Clone, Copy)]
pub struct Log {
    pub state: State,
    pub refused: u32,
    pub number: u8,
    pub cut: u32,
}

// How a recording went: the number of the first refusal and its line, or 37 where the room is too short; the first bad line; the first
// line that cuts an operation; whether the end is idle; and how many bytes of a recording there are. A number or a line is 0 where there
// is none.
#[derive(Clone, Copy)]
pub struct Made {
    pub number: u8,
    pub line: u32,
    pub bad: u32,
    pub cut: u32,
    pub idle: bool,
    pub used: usize,
}

// The busy count of what is awaited: E of an erase, P of a program.
fn time_awaited(d: Device, ph: Phase) -> u16
    ensures { result ≡ time_awaited d ph }
{
    match ph {
        Phase::Free => 0,
        Phase::EraseAwaited => d.erase,
        Phase::DataAwaited => d.program,
        Phase::Programming(_) => 0,
        Phase::Erasing => 0,
        Phase::Suspending(_) => 0,
        Phase::Suspended => 0,
    }
}

// The busy count of a cycle: that of what it starts, or none, which is 0.
fn busy_of(d: Device, s: State, c: Cycle) -> u16
    ensures { result ≡ busy_of d s c }
{
    let part = d.part;
    let ph = s.phase;
    if recording::starts(part, s, c) {
        return time_awaited(d, ph);
    }
    0
}

// The cycle cuts an operation that is running, being suspended or suspended.
fn cuts(d: Device, s: State, c: Cycle) -> bool
    ensures { result ≡ cuts_off d.part s c }
{
    let part = d.part;
    let ph = s.phase;
    let p = c.pins;
    is_pending(ph) & (rp_low(p) | vpp_low(part, p))
}

// The number of a refusal, 0 where an answer is none.
fn number_in(seen: Seen) -> u8
    ensures { result ≡ refusal_number seen }
{
    match seen {
        Seen::NoData => 0,
        Seen::Data(_) => 0,
        Seen::Refused(n) => n,
    }
}

// The first line that something is true of: that of before, or this one.
fn first_of(at: u32, hit: bool, n: u32) -> u32
    ensures { result ≡ first_line at hit n }
{
    if 0 < at {
        return at;
    }
    if hit {
        return n;
    }
    0
}

fn first_number(number: u8, here: u8) -> u8
    ensures { result ≡ first_number number here }
{
    if 0 < number {
        return number;
    }
    here
}

// What is known after line n, a cycle with its answer.
fn log_by(d: Device, l: Log, n: u32, c: Cycle, a: Answer) -> Log
    ensures { result ≡ log_by d l n c a }
{
    let s = l.state;
    let t = a.state;
    let seen = a.seen;
    let m = number_in(seen);
    let gone = cuts(d, s, c);
    Log {
        state: t,
        refused: first_of(l.refused, !(m == 0), n),
        number: first_number(l.number, m),
        cut: first_of(l.cut, gone, n),
    }
}

fn digit(n: u16) -> u8
    ensures { result ≡ decimal_digit n }
{
    b'0' + (n % 10) as u8
}

// A busy count from a place on: five digits, or five dashes for 0.
fn put_count(out: &mut [u8], at: usize, n: u16) -> usize
    ensures result { result ≡ behind out.old at (count_for n) }
    ensures out_left { out.new ≡ laid_at out.old at (count_for n) }
{
    if n == 0 {
        return text::put_text(out, at, b" -----\n");
    }
    let digits = [
        b' ',
        digit(n / 10000),
        digit(n / 1000),
        digit(n / 100),
        digit(n / 10),
        digit(n),
        b'\n',
    ];
    text::put_text(out, at, &digits)
}

// An answer from a place on, behind a space: the first four characters of an answer line.
fn put_answer(out: &mut [u8], at: usize, seen: Seen) -> usize
    ensures result { result ≡ behind out.old at (answer_for seen) }
    ensures out_left { out.new ≡ laid_at out.old at (answer_for seen) }
{
    let mut answer = [b' '; 8];
    trace_replay::answers::write_answer(seen, 0, &mut answer);
    let a = text::put_text(out, at, b" ");
    text::put_text(out, a, &answer[0..4])
}

// The line of a recording over the front of out: the trace line without its newline, the answer, the busy count.
fn write_line(line: &[u8], seen: Seen, busy: u16, out: &mut [u8])
    requires { length line.now ≡ 20 }
    ensures { out.new ≡ copied out.old (line_for line.now seen busy) }
{
    let a = text::put_text(out, 0, &line[0..19]);
    let b = put_answer(out, a, seen);
    put_count(out, b, busy);
}

// One line more.
fn next(l: Log, n: u32, line: &[u8], array: &mut [u8], residue: &[u8], out: &mut [u8]) -> Log
    requires { length line.now ≡ 20 }
    ensures result { result
        ≡ log_by bench_t l n (cycle_stated line.now)
        (line_step l.state (cycle_stated line.now) array.old residue.now) }
    ensures array_left { array.new
        ≡ array_by l.state (cycle_stated line.now) array.old residue.now }
    ensures out_left { out.new
        ≡ copied out.old
        (line_for line.now
        (line_step l.state (cycle_stated line.now) array.old residue.now).seen
        (busy_of bench_t l.state (cycle_stated line.now))) }
{
    let d = trace_replay::bench();
    let s = l.state;
    let c = trace_lines::cycle_in(line);
    let busy = busy_of(d, s, c);
    let a = trace_replay::step::<Rules>(s, c, array, residue);
    let seen = a.seen;
    write_line(line, seen, busy, out);
    log_by(d, l, n, c, a)
}

// Before the first line.
fn no_log() -> Log
    ensures { result ≡ no_log }
{
    let s = model::fresh();
    Log {
        state: s,
        refused: 0,
        number: 0,
        cut: 0,
    }
}

// The first g lines, each into its 31 bytes of out.
fn record_lines(g: usize, text: &[u8], array: &mut [u8], residue: &[u8], out: &mut [u8]) -> Log
    requires { (20 * g ≤ length text.now) × (31 * g ≤ length out.old) × (g ≤ 9998) }
    ensures result { result ≡ log_from g 1 no_log array.old residue.now text.now }
    ensures array_left { array.new
        ≡ arrays_of g fresh_state array.old residue.now text.now }
    ensures out_left { out.new
        ≡ lines_from g fresh_state array.old residue.now text.now ++ drop (31 * g) out.old }
{
    let mut l = no_log();
    for i in 0..g {
        let a = 20 * i;
        let p = 31 * i;
        let n = i as u32 + 1;
        l = next(l, n, &text[a..a + 20], array, residue, &mut out[p..p + 31]);
    }
    l
}

// The first bad line behind g good ones, or 0.
fn bad_behind(g: usize, size: usize) -> u32
    requires { g ≤ 9998 }
    ensures { result ≡ bad_behind g size }
{
    if 20 * g < size {
        return g as u32 + 1;
    }
    0
}

// How many bytes of a recording there are.
fn used_for(number: u8, bad: u32, g: usize) -> usize
    requires { g ≤ 9998 }
    ensures { result ≡ used_for number bad g }
{
    if 0 < number {
        return 0;
    }
    if 0 < bad {
        return 0;
    }
    31 * g
}

fn is_free(ph: Phase) -> bool
    ensures { result ≡ is_free ph }
{
    matches!(ph, Phase::Free)
}

fn made_from(g: usize, bad: u32, l: Log) -> Made
    requires { g ≤ 9998 }
    ensures { result ≡ made_from g bad l }
{
    let number = l.number;
    let s = l.state;
    let ph = s.phase;
    Made {
        number: number,
        line: l.refused,
        bad: bad,
        cut: l.cut,
        idle: is_free(ph),
        used: used_for(number, bad, g),
    }
}

fn no_room() -> Made
    ensures { result ≡ no_room }
{
    Made {
        number: 37,
        line: 0,
        bad: 0,
        cut: 0,
        idle: true,
        used: 0,
    }
}

// A whole trace on lent slices: the lines of its recording in front of out, and how it went. Where a cycle is refused or a line is bad
// there is no recording, and what out holds is none.
pub fn record_trace(text: &[u8], array: &mut [u8], residue: &[u8], out: &mut [u8]) -> Made
    ensures result { result ≡ trace_made (length out.old) array.old residue.now text.now }
    ensures array_left { array.new
        ≡ array_made (length out.old) array.old residue.now text.now }
    ensures out_left { out.new
        ≡ out_made out.old array.old residue.now text.now }
    ensures out_used { Used result.used out.new }
{
    let g = trace_replay::good_lines(text);
    if out.len() < 31 * g {
        return no_room();
    }
    let l = record_lines(g, text, array, residue, out);
    let bad = bad_behind(g, text.len());
    made_from(g, bad, l)
}

// A note about a line, from the front on; the place behind it.
fn put_line(out: &mut [u8], n: u32, words: &[u8]) -> usize
    ensures result { result ≡ behind out.old 0 (line_note n words.now) }
    ensures out_left { out.new ≡ laid_at out.old 0 (line_note n words.now) }
{
    let a = text::put_text(out, 0, b"line ");
    let b = text::put_decimal(out, a, n);
    text::put_text(out, b, words)
}

fn put_refused(out: &mut [u8], line: u32, number: u8) -> usize
    ensures result { result ≡ behind out.old 0 (refused_note line number) }
    ensures out_left { out.new ≡ laid_at out.old 0 (refused_note line number) }
{
    let a = put_line(out, line, b": the cycle is refused by ");
    let b = text::put_decimal(out, a, number as u32);
    text::put_text(
        out,
        b,
        b", which is no answer of a device: there is no recording\n",
    )
}

// What is to be said of a recording, in front of out: why there is none, or why the check does not accept it; else nothing.
pub fn note(m: Made, out: &mut [u8]) -> usize
    ensures result { result ≡ behind out.old 0 (note_of m) }
    ensures out_left { out.new ≡ laid_at out.old 0 (note_of m) }
    ensures out_used { Used result out.new }
{
    let idle = m.idle;
    if m.number == 37 {
        return text::put_text(
            out,
            0,
            b"refused 37: the room for the recording is too short\n",
        );
    }
    if 0 < m.number {
        return put_refused(out, m.line, m.number);
    }
    if 0 < m.bad {
        return put_line(
            out,
            m.bad,
            b" is no line of a trace: there is no recording\n",
        );
    }
    if 0 < m.cut {
        return put_line(
            out,
            m.cut,
            b" cuts an operation: the check does not accept this recording\n",
        );
    }
    if idle {
        return 0;
    }
    text::put_text(
        out,
        0,
        b"the end is not idle: the check does not accept this recording\n",
    )
}
