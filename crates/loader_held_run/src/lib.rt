// A load whose erase is interrupted for readings, run against the model.
#![tactic(auto)]

ghost use Rattle.std.specs.Prelude.{◌≡◌, not, ◌≤◌, length};
ghost use Rattle.units.specs.Units.{units, spare};
ghost use Rattle.model_judge.specs.Judging.{judge_of};
ghost use Rattle.loader.specs.Stages.{is_ended};
ghost use Rattle.loader_run.specs.Runs.{run_number};
ghost use Rattle.loader_held.specs.Holds.{stopped, held_cycle, held_next, held_scratch, held_room, usual};
ghost use Rattle.loader_held_run.specs.HeldTurns.{pair_by, scratch_held, room_by, held_moved};
ghost use Rattle.loader_held_run.specs.HeldRuns.{held_conf, held_done, held_ran, ran_refused, held_run_number, lent_held};
ghost use Rattle.loader_held_run.specs.Inner.{holding_of, holding_ran, ReadsInside};

use device::Device;
use loader::Loader;
use loader::stages::stage_is;
use loader_held::holds::{held_next, held_out, store_room};
use loader_held::{Hold, Pair, Step};
use loader_held_lists::list_number;
use loader_moves::ended_by;
use loader_run::{Job, Ran, record_for, run_number};
use loader_steps::front::end_address;
use model::Seen;
use model_types::State;

// The loader's record, that of an interruption and the device's state, between two cycles.
#[derive(Clone, Copy)]
pub struct Holding {
    pub loader: Loader,
    pub hold: Hold,
    pub state: State,
}

// No interruption under way; n is the number of the erase's last poll.
fn resting(n: u32) -> Hold
    ensures { result ≡ usual n }
{
    Hold {
        step: Step::Usual,
        number: n,
        place: 0,
        waits: 0,
        suspended: false,
    }
}

// A refused cycle ends the load.
fn stop(l: Loader, h: Hold, n: u8) -> Pair
    ensures { result ≡ stopped l h n }
{
    Pair {
        loader: ended_by(l, n),
        hold: resting(h.number),
    }
}

// A cycle's data taken; k is the number of addresses.
fn data_taken(
    l: Loader,
    h: Hold,
    v: u16,
    k: usize,
    wanted: &[u8],
    scratch: &mut [u8],
    polls: &[u32],
    room: &mut [u8],
) -> Pair
    ensures result { result
        ≡ held_next h.step l h v k (units l.part.word wanted.now) (units l.part.word scratch.old)
        polls.now }
    ensures scratch_left { units l.part.word scratch.new
        ≡ held_scratch h.step l h v k (units l.part.word wanted.now) (units l.part.word scratch.old) }
    ensures room_left { units l.part.word room.new
        ≡ held_room h.step l.part.word h v (units l.part.word room.old) }
    ensures room_spare { spare l.part.word room.new ≡ spare l.part.word room.old }
{
    let step = h.step;
    let part = l.part;
    let word = part.word;
    store_room(step, word, h, v, room);
    held_next(step, l, h, v, k, wanted, scratch, polls)
}

// The records after what the model answered.
fn held_taken(
    seen: Seen,
    l: Loader,
    h: Hold,
    k: usize,
    wanted: &[u8],
    scratch: &mut [u8],
    polls: &[u32],
    room: &mut [u8],
) -> Pair
    ensures result { result
        ≡ pair_by seen l h k (units l.part.word wanted.now) (units l.part.word scratch.old)
        polls.now }
    ensures scratch_left { units l.part.word scratch.new
        ≡ scratch_held seen l h k (units l.part.word wanted.now) (units l.part.word scratch.old) }
    ensures room_left { units l.part.word room.new
        ≡ room_by seen l.part.word h (units l.part.word room.old) }
    ensures room_spare { spare l.part.word room.new ≡ spare l.part.word room.old }
{
    match seen {
        Seen::NoData => data_taken(l, h, 0, k, wanted, scratch, polls, room),
        Seen::Data(v) => data_taken(l, h, v, k, wanted, scratch, polls, room),
        Seen::Refused(n) => stop(l, h, n),
    }
}

// One cycle made. Refusals 1 to 6 do not apply to it.
fn held_turn(
    d: Device,
    h: Holding,
    wanted: &[u8],
    scratch: &mut [u8],
    array: &mut [u8],
    polls: &[u32],
    addresses: &[u32],
    room: &mut [u8],
) -> Holding
    requires { (h.loader.part ≡ d.part)
        × (judge_of d h.state (held_cycle h.hold.step h.loader h.hold (units d.part.word wanted.now) addresses.now)
        (length (units d.part.word array.old)) 0 ≡ 0) }
    ensures records { held_conf result.loader result.hold result.state (units d.part.word array.new)
        (units d.part.word scratch.new) (units d.part.word room.new) 1
        ≡ held_moved d (units d.part.word wanted.now) addresses.now polls.now
        (held_conf h.loader h.hold h.state (units d.part.word array.old)
        (units d.part.word scratch.old) (units d.part.word room.old) 0) }
    ensures room_spare { spare d.part.word room.new ≡ spare d.part.word room.old }
{
    let l = h.loader;
    let hold = h.hold;
    let s = h.state;
    let step = hold.step;
    let c = held_out(step, l, hold, wanted, addresses);
    let a = model::after_judging(d, s, c, array, &wanted[0..0]);
    let seen = a.seen;
    let state = a.state;
    let p = held_taken(seen, l, hold, addresses.len(), wanted, scratch, polls, room);
    let moving = p.loader;
    let held = p.hold;
    Holding {
        loader: moving,
        hold: held,
        state: state,
    }
}

// A load at its beginning.
fn begun(l: Loader, s: State) -> Holding
    ensures { result ≡ holding_of l (usual 0) s }
{
    Holding {
        loader: l,
        hold: resting(0),
        state: s,
    }
}

fn going(h: Holding) -> bool
    ensures { result ≡ not (is_ended h.loader.stage) }
{
    let l = h.loader;
    let stage = l.stage;
    let e = stage_is(stage);
    !e.ended
}

// What is returned after so many cycles.
fn over(h: Holding, count: u64) -> Ran
    ensures { result ≡ holding_ran h count }
{
    let l = h.loader;
    let state = h.state;
    let stage = l.stage;
    let e = stage_is(stage);
    let end = e.end;
    Ran {
        count: count,
        end: end,
        address: end_address(l, end),
        state: state,
    }
}

// The job made to its end, where nothing refuses it.
fn drive_held(
    j: Job,
    wanted: &[u8],
    scratch: &mut [u8],
    array: &mut [u8],
    polls: &[u32],
    addresses: &[u32],
    room: &mut [u8],
) -> Ran
    requires { (run_number j (length (units j.device.part.word array.old)) (length (units j.device.part.word wanted.now))
        (length (units j.device.part.word scratch.old)) ≡ 0)
        × ReadsInside j.device addresses.now × (length addresses.now ≤ 4096) }
    ensures result { result
        ≡ held_ran
        (held_done j array.old wanted.now scratch.old polls.now addresses.now
        room.old) }
    ensures array_left { units j.device.part.word array.new
        ≡ (held_done j array.old wanted.now scratch.old polls.now addresses.now
        room.old).bytes }
    ensures scratch_left { units j.device.part.word scratch.new
        ≡ (held_done j array.old wanted.now scratch.old polls.now addresses.now
        room.old).scratch }
    ensures room_left { units j.device.part.word room.new
        ≡ (held_done j array.old wanted.now scratch.old polls.now addresses.now
        room.old).room }
    ensures room_spare { spare j.device.part.word room.new ≡ spare j.device.part.word room.old }
{
    let d = j.device;
    let s = j.state;
    let mut h = begun(record_for(j), s);
    let mut count: u64 = 0;
    while going(h) {
        h = held_turn(d, h, wanted, scratch, array, polls, addresses, room);
        count += 1;
    }
    over(h, count)
}

// A run's number, then that of the addresses and the room. The lengths are in bytes.
pub fn held_number(
    j: Job,
    array: usize,
    wanted: usize,
    scratch: usize,
    addresses: &[u32],
    room: usize,
) -> u8
    ensures { result ≡ held_run_number j array wanted scratch addresses.now room }
{
    let d = j.device;
    let part = d.part;
    let word = part.word;
    let n = run_number(
        j,
        units::lent_in(word, array),
        units::lent_in(word, wanted),
        units::lent_in(word, scratch),
    );
    if n == 0 {
        return list_number(part, j.block, addresses, room);
    }
    n
}

// What is returned of a refused run.
pub fn refused(n: u8, s: State) -> Ran
    ensures { result ≡ ran_refused n s }
{
    Ran {
        count: 0,
        end: n,
        address: 0,
        state: s,
    }
}

// A job whose erase is interrupted at the polls given, against the model: a load, with the verify after it or without. A verify alone has
// no erase, and is made as it stands.
pub fn run_held(
    j: Job,
    array: &mut [u8],
    wanted: &[u8],
    scratch: &mut [u8],
    polls: &[u32],
    addresses: &[u32],
    room: &mut [u8],
) -> Ran
    ensures result { result
        ≡ (lent_held j array.old wanted.now scratch.old polls.now addresses.now
        room.old).ran }
    ensures array_left { array.new
        ≡ (lent_held j array.old wanted.now scratch.old polls.now addresses.now
        room.old).bytes }
    ensures scratch_left { scratch.new
        ≡ (lent_held j array.old wanted.now scratch.old polls.now addresses.now
        room.old).scratch }
    ensures room_left { room.new
        ≡ (lent_held j array.old wanted.now scratch.old polls.now addresses.now
        room.old).room }
{
    let s = j.state;
    let n = held_number(
        j,
        array.len(),
        wanted.len(),
        scratch.len(),
        addresses,
        room.len(),
    );
    if n == 0 {
        return drive_held(j, wanted, scratch, array, polls, addresses, room);
    }
    refused(n, s)
}
