// A recording checked: a lent list of records is walked once, each copied out and handed to the step of one record. The first fault
// is held in the walk's state.
#![tactic(auto)]

ghost use Rattle.std.specs.Prelude.{◌≡◌, not, eqb};
ghost use Rattle.units.specs.Units.{lent_in};
ghost use Rattle.device.specs.Parts.{size_of};
ghost use Rattle.model_types.specs.Phases.{is_free, under_way};
ghost use Rattle.recording_walk.specs.Lists.{held_of, same_bytes, ends_well, start_number, checked_of, bytes_checked};
ghost use Rattle.recording_walk.specs.Inner.{place_after, went_by, went_on, bytes_on, walk_from, end_of};

use device::Device;
use model_types::{Phase, State};
use recording::{Noted, Recorded};

// The check's answer: a refusal, or 0; whether the recording is accepted; the records that passed before the first at fault, and the state
// that they leave, with its counts of erases.
#[derive(Clone, Copy)]
pub struct Checked {
    pub number: u8,
    pub accepted: bool,
    pub at: usize,
    pub state: State,
}

// Where a walk stands: the device, its state, the refusal or 0, whether the walk has stopped, and the records that passed.
#[derive(Clone, Copy)]
pub struct Walk {
    pub device: Device,
    pub state: State,
    pub number: u8,
    pub stopped: bool,
    pub at: usize,
}

// The largest place.
const MOST: usize = 0xFFFF_FFFF_FFFF_FFFF;

fn is_free(ph: Phase) -> bool
    ensures { result ≡ is_free ph }
{
    matches!(ph, Phase::Free)
}

// The place after a record: a fault stays where it is.
fn place_after(fault: bool, at: usize) -> usize
    ensures { result ≡ place_after fault at }
{
    if fault {
        return at;
    }
    if at < MOST {
        return at + 1;
    }
    at
}

// The walk after a record that it made.
fn went_by(w: Walk, x: Recorded) -> Walk
    ensures { result ≡ went_by w x }
{
    let d = w.device;
    let s = x.state;
    let fault = x.fault;
    Walk {
        device: d,
        state: s,
        number: w.number,
        stopped: fault,
        at: place_after(fault, w.at),
    }
}

// One record more; a walk that has stopped stays.
pub fn go_on(array: &mut [u8], w: Walk, r: Noted) -> Walk
    ensures { (result ≡ went_on w r array.old) × (array.new ≡ bytes_on w r array.old) }
{
    let stopped = w.stopped;
    if stopped {
        return w;
    }
    let d = w.device;
    let s = w.state;
    let x = recording::step_record(d, s, r, array);
    went_by(w, x)
}

fn wrong_length(d: Device, n: usize) -> bool
    ensures { result ≡ not (eqb (lent_in d.part.word n) (size_of d.part)) }
{
    let part = d.part;
    let word = part.word;
    !(units::lent_in(word, n) == device::size(part))
}

fn under_way(s: State) -> bool
    ensures { result ≡ under_way s.phase }
{
    let ph = s.phase;
    !is_free(ph)
}

// Refusals 1 to 3, then 12, on an array of n bytes; or 0.
fn start_number(d: Device, s: State, n: usize) -> u8
    ensures { result ≡ start_number d s n }
{
    if device::unknown_device(d) {
        return 1;
    }
    if wrong_length(d, n) {
        return 2;
    }
    if model_states::improper(d, s) {
        return 3;
    }
    if under_way(s) {
        return 12;
    }
    0
}

// The walk at its start, on an array of n bytes.
pub fn begin(d: Device, s: State, n: usize) -> Walk
    ensures { result ≡ walk_from d s n }
{
    let number = start_number(d, s, n);
    Walk {
        device: d,
        state: s,
        number: number,
        stopped: !(number == 0),
        at: 0,
    }
}

// The two slices hold the same bytes. The walk has no stop, as `==` has, so that the compiler takes many bytes at once.
fn same(a: &[u8], b: &[u8]) -> bool
    ensures { result ≡ same_bytes a.now b.now }
{
    if a.len() != b.len() {
        return false;
    }
    let mut bits: u8 = 0;
    for i in 0..a.len() {
        bits |= a[i] ^ b[i];
    }
    bits == 0
}

// The end is as it must be.
fn ends_well(promised: &[u8], array: &[u8], s: State) -> bool
    ensures { result ≡ ends_well (held_of s array.now) promised.now }
{
    let ph = s.phase;
    is_free(ph) & same(promised, array)
}

// What a walk that has come to the end of the list answers. The array is lent as a step's is, and stays.
pub fn end(promised: &[u8], array: &mut [u8], w: Walk) -> Checked
    ensures { (result ≡ end_of w promised.now array.old) × (array.new ≡ array.old) }
{
    let s = w.state;
    let stopped = w.stopped;
    Checked {
        number: w.number,
        accepted: !stopped & ends_well(promised, array, s),
        at: w.at,
        state: s,
    }
}

// A recording: refused by 1 to 3 or 12 before the list, or walked to its end, each record copied out and handed to `go_on`.
pub fn check_recording(
    d: Device,
    s: State,
    list: &[Noted],
    promised: &[u8],
    array: &mut [u8],
) -> Checked
    ensures { (result ≡ checked_of d s list.now promised.now array.old)
        × (array.new ≡ bytes_checked d s list.now array.old) }
{
    let mut w = begin(d, s, array.len());
    for r in list {
        w = go_on(array, w, *r);
    }
    end(promised, array, w)
}
