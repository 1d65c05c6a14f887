// The loader run against the model: the cycles are made one after the other until the load ends, and counted.
#![tactic(auto)]

ghost use Rattle.std.specs.Prelude.{◌≡◌, not, length, eqb};
ghost use Rattle.device.specs.Parts.{size_of};
ghost use Rattle.model_judge.specs.Judging.{judge_of};
ghost use Rattle.loader.specs.Stages.{is_ended};
ghost use Rattle.loader_steps.specs.Addresses.{first_address};
ghost use Rattle.loader_steps.specs.Inner.{here_of};
ghost use Rattle.loader_steps.specs.Outs.{cycle_of};
ghost use Rattle.loader_steps.specs.Front.{record_of};
ghost use Rattle.loader_run.specs.Turns.{is_refused, number_in, refusal_number, loader_by, scratch_by, answer_to, array_to};
ghost use Rattle.units.specs.Units.{units};
ghost use Rattle.loader_run.specs.Runs.{run_number, beginning, ran_by, driven, lent_run};
ghost use Rattle.model_types.specs.Phases.{under_way};

use device::{Device, Part};
use loader::stages::{first_stage, stage_is, verifies};
use loader::{Loader, Work};
use loader_moves::ended_by;
use loader_steps::front::{end_address, record_at, setup_number};
use loader_steps::outs::{cycle_in, first};
use loader_stores::advance;
use model::Seen;
use model_types::{Phase, Pins, State};

// What a run returns: the cycles made, the number of the end (0 well), for 25 the array address of the byte that differs, and the device's
// state.
#[derive(Clone, Copy)]
pub struct Ran {
    pub count: u64,
    pub end: u8,
    pub address: u32,
    pub state: State,
}

// What is run: a device in a state, the levels on it, a block, and what is done to it.
#[derive(Clone, Copy)]
pub struct Job {
    pub device: Device,
    pub state: State,
    pub pins: Pins,
    pub block: u8,
    pub work: Work,
}

// The loader's record and the device's state, between two cycles.
#[derive(Clone, Copy)]
pub struct Held {
    pub loader: Loader,
    pub state: State,
}

fn is_refused(seen: Seen) -> bool
    ensures { result ≡ is_refused seen }
{
    matches!(seen, Seen::Refused(_))
}

fn number_in(seen: Seen) -> u16
    ensures { result ≡ number_in seen }
{
    match seen {
        Seen::NoData => 0,
        Seen::Data(v) => v,
        Seen::Refused(n) => units::wide(n),
    }
}

fn refusal_number(seen: Seen) -> u8
    ensures { result ≡ refusal_number seen }
{
    match seen {
        Seen::NoData => 0,
        Seen::Data(_) => 0,
        Seen::Refused(n) => n,
    }
}

// The loader takes what the model answered.
fn taken(seen: Seen, l: Loader, wanted: &[u8], scratch: &mut [u8]) -> Loader
    ensures result { result
        ≡ loader_by seen l (units l.part.word wanted.now) (units l.part.word scratch.old) }
    ensures scratch_left { units l.part.word scratch.new
        ≡ scratch_by seen l (units l.part.word wanted.now) (units l.part.word scratch.old) }
{
    if is_refused(seen) {
        return ended_by(l, refusal_number(seen));
    }
    let v = number_in(seen);
    advance(l, v, wanted, scratch)
}

// The address of the unit at the record's place, by the block's first address.
fn here(start: u32, l: Loader) -> u32
    requires { start ≡ first_address l }
    ensures { result ≡ here_of l }
{
    if l.place < 16777216 {
        return start + l.place as u32;
    }
    start
}

// One cycle made, by the block's first address. Refusals 1 to 6 do not apply to it.
fn turn(d: Device, start: u32, h: Held, wanted: &[u8], scratch: &mut [u8], array: &mut [u8]) -> Held
    requires { (h.loader.part ≡ d.part) × (start ≡ first_address h.loader)
        × (judge_of d h.state (cycle_of h.loader (units d.part.word wanted.now)) (length (units d.part.word array.old)) 0
        ≡ 0) }
    ensures loader { result.loader
        ≡ loader_by
        (answer_to d (units d.part.word wanted.now) h.loader h.state
        (units d.part.word array.old)).seen h.loader (units d.part.word wanted.now)
        (units d.part.word scratch.old) }
    ensures state { result.state
        ≡ (answer_to d (units d.part.word wanted.now) h.loader h.state
        (units d.part.word array.old)).state }
    ensures scratch_left { units d.part.word scratch.new
        ≡ scratch_by
        (answer_to d (units d.part.word wanted.now) h.loader h.state
        (units d.part.word array.old)).seen h.loader (units d.part.word wanted.now)
        (units d.part.word scratch.old) }
    ensures array_left { units d.part.word array.new
        ≡ array_to d (units d.part.word wanted.now) h.loader h.state (units d.part.word array.old) }
{
    let l = h.loader;
    let s = h.state;
    let stage = l.stage;
    let c = cycle_in(stage, start, here(start, l), l, wanted);
    let a = model::after_judging(d, s, c, array, &wanted[0..0]);
    let seen = a.seen;
    let state = a.state;
    Held {
        loader: taken(seen, l, wanted, scratch),
        state: state,
    }
}

fn going(l: Loader) -> bool
    ensures { result ≡ not (is_ended l.stage) }
{
    let stage = l.stage;
    let e = stage_is(stage);
    !e.ended
}

// The record that a job begins with.
pub fn record_for(j: Job) -> Loader
    ensures { result ≡ record_of j.work j.device.part j.pins j.block }
{
    let d = j.device;
    let part = d.part;
    let p = j.pins;
    let work = j.work;
    let stage = first_stage(work);
    let verify = verifies(work);
    record_at(part, p, j.block, stage, verify)
}

// The job made to its end, where nothing refuses it.
fn drive(j: Job, wanted: &[u8], scratch: &mut [u8], array: &mut [u8]) -> Ran
    requires { run_number j (length (units j.device.part.word array.old)) (length (units j.device.part.word wanted.now))
        (length (units j.device.part.word scratch.old)) ≡ 0 }
    ensures result { result
        ≡ ran_by
        (driven j.device (units j.device.part.word wanted.now)
        (beginning j (units j.device.part.word array.old) (units j.device.part.word scratch.old))) }
    ensures scratch_left { units j.device.part.word scratch.new
        ≡ (driven j.device (units j.device.part.word wanted.now)
        (beginning j (units j.device.part.word array.old)
        (units j.device.part.word scratch.old))).scratch }
    ensures array_left { units j.device.part.word array.new
        ≡ (driven j.device (units j.device.part.word wanted.now)
        (beginning j (units j.device.part.word array.old) (units j.device.part.word scratch.old))).bytes }
{
    let d = j.device;
    let mut moving = record_for(j);
    let start = first(moving);
    let mut state = j.state;
    let mut count: u64 = 0;
    while going(moving) {
        let h = turn(
            d,
            start,
            Held {
                loader: moving,
                state: state,
            },
            wanted,
            scratch,
            array,
        );
        moving = h.loader;
        state = h.state;
        count += 1;
    }
    let stage = moving.stage;
    let e = stage_is(stage);
    let end = e.end;
    Ran {
        count: count,
        end: end,
        address: end_address(moving, end),
        state: state,
    }
}

fn under_way(ph: Phase) -> bool
    ensures { result ≡ under_way ph }
{
    !matches!(ph, Phase::Free)
}

fn wrong_array(part: Part, array: usize) -> bool
    ensures { result ≡ not (eqb array (size_of part)) }
{
    array != device::size(part)
}

// Refusals 1 to 4 and 10 to 12, the first in that order, or 0. The lengths are in units.
pub fn run_number(j: Job, array: usize, wanted: usize, scratch: usize) -> u8
    ensures { result ≡ run_number j array wanted scratch }
{
    let d = j.device;
    let s = j.state;
    let p = j.pins;
    let part = d.part;
    let ph = s.phase;
    if device::unknown_device(d) {
        return 1;
    }
    if wrong_array(part, array) {
        return 2;
    }
    if model_states::improper(d, s) {
        return 3;
    }
    let n = setup_number(part, p, j.block, wanted, scratch);
    if n != 0 {
        return n;
    }
    if under_way(ph) {
        return 12;
    }
    0
}

// A job made to its end, against the model.
pub fn run(j: Job, array: &mut [u8], wanted: &[u8], scratch: &mut [u8]) -> Ran
    ensures result { result ≡ (lent_run j array.old wanted.now scratch.old).ran }
    ensures array_left { array.new ≡ (lent_run j array.old wanted.now scratch.old).bytes }
    ensures scratch_left { scratch.new
        ≡ (lent_run j array.old wanted.now scratch.old).scratch }
{
    let d = j.device;
    let s = j.state;
    let part = d.part;
    let word = part.word;
    let n = run_number(
        j,
        units::lent_in(word, array.len()),
        units::lent_in(word, wanted.len()),
        units::lent_in(word, scratch.len()),
    );
    if n == 0 {
        return drive(j, wanted, scratch, array);
    }
    Ran {
        count: 0,
        end: n,
        address: 0,
        state: s,
    }
}
