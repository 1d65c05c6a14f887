// One record of a recording judged in a world: the cycle, the answer seen, and the busy count that a start took. A record at fault
// changes nothing; any other is made by the model's own cycle.
#![tactic(auto)]

ghost use Rattle.std.specs.Prelude.{◌≡◌, true, false, ◌&&◌, []};
ghost use Rattle.units.specs.Units.{units, spare};
ghost use Rattle.model_types.specs.Kinds.{is_write};
ghost use Rattle.model_actions.specs.Performed.{unsupplied};
ghost use Rattle.model.specs.Inner.{done_of};
ghost use Rattle.recording.specs.Recordings.{starts, outside, wrong_count, cuts_off, count_of, time_of, timed, device_for, agrees, faulty};
ghost use Rattle.recording.specs.Recordings.{recorded_of, bytes_recorded, why_seen, why_of};
ghost use Rattle.recording.specs.Inner.{unbarred, asks, time_by, seen_judged};

use device::{Device, Part};
use model::Seen;
use model_levels::{locked, rp_low, vpp_low};
use model_states::{SR3, is_pending};
use model_types::{Cycle, Decision, Kind, Phase, State};

// A record: the cycle, the answer seen (none, or data of up to 16 bits), and the busy count, wider than any that is allowed.
#[derive(Clone, Copy)]
pub struct Noted {
    pub cycle: Cycle,
    pub heard: Option<u16>,
    pub busy: u32,
}

// Whether a record is at fault, and the state that it leaves.
#[derive(Clone, Copy)]
pub struct Recorded {
    pub fault: bool,
    pub state: State,
}

// Why a record is at fault: 1 its count is needed and wrong, and the count; 2 it cuts an operation; else what the rules answer, which is
// not what was seen: 3 a refusal, and its number; 4 no data; 5 data, and the data.
#[derive(Clone, Copy)]
pub struct Why {
    pub kind: u8,
    pub value: u32,
}

// The longest busy time.
const LONGEST: u16 = 65535;

fn is_write(kind: Kind) -> bool
    ensures { result ≡ is_write kind }
{
    matches!(kind, Kind::Write)
}

// VPP is low at this cycle, or SR.3 is still set.
fn unsupplied(part: Part, c: Cycle, s: State) -> bool
    ensures { result ≡ unsupplied part c s }
{
    let p = c.pins;
    vpp_low(part, p) | !(s.status / SR3 % 2 == 0)
}

// Nothing bars the operation that a second write asks for.
fn unbarred(part: Part, s: State, c: Cycle) -> bool
    ensures { result ≡ unbarred part s c }
{
    let kind = c.kind;
    let p = c.pins;
    is_write(kind) & !rp_low(p) & !unsupplied(part, c, s) & !locked(part, c)
}

// A confirm or data, by what is awaited.
fn asks(ph: Phase, c: Cycle) -> bool
    ensures { result ≡ asks ph c }
{
    match ph {
        Phase::Free => false,
        Phase::EraseAwaited => model_commands::command_of(c) == 0xD0,
        Phase::DataAwaited => true,
        Phase::Programming(_) => false,
        Phase::Erasing => false,
        Phase::Suspending(_) => false,
        Phase::Suspended => false,
    }
}

// The cycle starts an operation.
pub fn starts(part: Part, s: State, c: Cycle) -> bool
    ensures { result ≡ starts part s c }
{
    let ph = s.phase;
    if asks(ph, c) {
        return unbarred(part, s, c);
    }
    false
}

// A count that is not from 1 to 65,535.
fn outside(n: u32) -> bool
    ensures { result ≡ outside n }
{
    (n == 0) | (65535 < n)
}

// The count is needed, at a start, and wrong.
fn miscounts(start: bool, n: u32) -> bool
    ensures { result ≡ (start && outside n) }
{
    start & outside(n)
}

// The count is needed and wrong.
fn wrong_count(part: Part, s: State, r: Noted) -> bool
    ensures { result ≡ wrong_count part s r }
{
    let c = r.cycle;
    miscounts(starts(part, s, c), r.busy)
}

// The cycle cuts an operation that is running, being suspended or suspended.
fn cuts_off(part: Part, s: State, c: Cycle) -> bool
    ensures { result ≡ cuts_off part s c }
{
    let ph = s.phase;
    let p = c.pins;
    is_pending(ph) & (rp_low(p) | vpp_low(part, p))
}

// The count itself, or the longest where it is none.
fn count_of(n: u32) -> u16
    ensures { result ≡ count_of n }
{
    if n == 0 {
        return LONGEST;
    }
    if 65535 < n {
        return LONGEST;
    }
    n as u16
}

// The busy time of a record with this count, by whether it starts an operation.
fn time_by(start: bool, n: u32) -> u16
    ensures { result ≡ time_by start n }
{
    if start {
        return count_of(n);
    }
    LONGEST
}

// The busy time that the record's cycle is made with.
fn time_of(part: Part, s: State, r: Noted) -> u16
    ensures { result ≡ time_of part s r }
{
    let c = r.cycle;
    time_by(starts(part, s, c), r.busy)
}

// A device whose programs and erases both take so long.
fn timed(d: Device, n: u16) -> Device
    ensures { result ≡ timed d n }
{
    let part = d.part;
    Device {
        part: part,
        program: n,
        erase: n,
        suspend: d.suspend,
    }
}

// The device that the record's cycle is made on.
fn device_for(d: Device, s: State, r: Noted) -> Device
    ensures { result ≡ device_for d s r }
{
    let part = d.part;
    timed(d, time_of(part, s, r))
}

// The answer given is the one seen; a refusal is none.
fn agrees(seen: Seen, heard: Option<u16>) -> bool
    ensures { result ≡ agrees seen heard }
{
    match seen {
        Seen::NoData => heard.is_none(),
        Seen::Data(v) => heard == Some(v),
        Seen::Refused(_) => false,
    }
}

// A cycle after it was judged, as it is seen before anything is stored: what it ends, no read of it shows.
fn see_judged(d: Device, s: State, c: Cycle, array: &[u8]) -> Seen
    ensures { result ≡ seen_judged d s c (units d.part.word array.now) }
{
    let part = d.part;
    let word = part.word;
    let x = model_rules::decide_judged(d, s, c);
    let reply = x.reply;
    model::see(reply, word, array)
}

// The record is at fault; judged on the array as it is, and nothing is stored.
pub fn at_fault(d: Device, s: State, r: Noted, array: &[u8]) -> bool
    ensures { result ≡ faulty d s r array.now }
{
    let part = d.part;
    let word = part.word;
    let c = r.cycle;
    let heard = r.heard;
    if wrong_count(part, s, r) {
        return true;
    }
    if cuts_off(part, s, c) {
        return true;
    }
    let e = device_for(d, s, r);
    let n = model_judge::judge(e, s, c, units::lent_in(word, array.len()), 0);
    if n != 0 {
        return true;
    }
    let seen = see_judged(e, s, c, array);
    !agrees(seen, heard)
}

// What the rules answer, as two numbers.
fn why_seen(seen: Seen) -> Why
    ensures { result ≡ why_seen seen }
{
    match seen {
        Seen::NoData => Why { kind: 4, value: 0 },
        Seen::Data(v) => Why {
            kind: 5,
            value: v as u32,
        },
        Seen::Refused(m) => Why {
            kind: 3,
            value: m as u32,
        },
    }
}

// Why a record is at fault, or would be with another answer seen; nothing is stored.
pub fn reason(d: Device, s: State, r: Noted, array: &[u8]) -> Why
    ensures { result ≡ why_of d s r array.now }
{
    let part = d.part;
    let word = part.word;
    let c = r.cycle;
    if cuts_off(part, s, c) {
        return Why { kind: 2, value: 0 };
    }
    let e = device_for(d, s, r);
    let n = model_judge::judge(e, s, c, units::lent_in(word, array.len()), 0);
    if n != 0 {
        return Why {
            kind: 3,
            value: n as u32,
        };
    }
    if wrong_count(part, s, r) {
        return Why {
            kind: 1,
            value: r.busy,
        };
    }
    let seen = see_judged(e, s, c, array);
    why_seen(seen)
}

// A record at fault: the state is as it was.
fn faulted(s: State) -> Recorded
    ensures { result ≡ record { fault = true; state = s } }
{
    Recorded {
        fault: true,
        state: s,
    }
}

// A record that passed, by what was decided of its cycle: what that does to the array is done.
fn made(x: Decision, part: Part, array: &mut [u8]) -> Recorded
    ensures result { result ≡ record { fault = false; state = x.state } }
    ensures array_left { units part.word array.new
        ≡ done_of x.effect part [] (units part.word array.old) }
    ensures array_spare { spare part.word array.new ≡ spare part.word array.old }
{
    let effect = x.effect;
    let t = x.state;
    let none = [0u8; 0];
    model::put(effect, part, array, &none);
    Recorded {
        fault: false,
        state: t,
    }
}

// One record: judged on the longest time, which no number tells from the record's own, and decided once; held against what was seen on the
// array as it is. At fault it changes nothing, else what was decided is done.
pub fn step_record(d: Device, s: State, r: Noted, array: &mut [u8]) -> Recorded
    ensures result { result ≡ recorded_of d s r array.old }
    ensures array_left { array.new ≡ bytes_recorded d s r array.old }
{
    let part = d.part;
    let word = part.word;
    let c = r.cycle;
    let heard = r.heard;
    if cuts_off(part, s, c) {
        return faulted(s);
    }
    let longest = timed(d, LONGEST);
    let n = model_judge::judge(longest, s, c, units::lent_in(word, array.len()), 0);
    if n != 0 {
        return faulted(s);
    }
    let start = starts(part, s, c);
    if miscounts(start, r.busy) {
        return faulted(s);
    }
    let e = timed(d, time_by(start, r.busy));
    let x = model_rules::decide_judged(e, s, c);
    let reply = x.reply;
    let seen = model::see(reply, word, array);
    if agrees(seen, heard) {
        return made(x, part, array);
    }
    faulted(s)
}
