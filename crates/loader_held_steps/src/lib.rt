// A load with interruptions a step at a time: its start, its step, and their tests.
#![tactic(auto)]

ghost use Rattle.std.specs.Prelude.{◌≡◌, length};
ghost use Rattle.units.specs.Units.{units, spare, lent};
ghost use Rattle.loader_steps.specs.Front.{bad_record, saying_told};
ghost use Rattle.loader_held.specs.Holds.{held_scratch, held_room};
ghost use Rattle.loader_held_steps.specs.HeldFront.{interrupting, fetching, waits_erase, bad_hold, bad_pair, place_next, used_number};
ghost use Rattle.loader_held_steps.specs.HeldFront.{start_held_number, step_held_number, held_saying_in, held_response, held_refused};
ghost use Rattle.loader_held_steps.specs.HeldFront.{beginning, start_held_response, start_held_told, held_move, step_held_response};
ghost use Rattle.loader_held_steps.specs.HeldFront.{step_held_told, held_scratch_left, held_room_left};

use device::Part;
use loader::stages::stage_is;
use loader::{Loader, Saying, Stage};
use loader_held::holds::{held_next, held_out, next_place, pair_of, store_room, usually};
use loader_held::{Hold, Pair, Step};
use loader_held_lists::{in_loaded, list_number, past_array, room_number};
use loader_steps::front::{end_address, no_block, record_at, setup_number};
use model_types::Pins;

// The answer beside the next records.
#[derive(Clone, Copy)]
pub struct HeldResponse {
    pub saying: Saying,
    pub pair: Pair,
}

fn is_interrupting(step: Step) -> bool
    ensures { result ≡ interrupting step }
{
    !matches!(step, Step::Usual)
}

fn is_fetching(step: Step) -> bool
    ensures { result ≡ fetching step }
{
    matches!(step, Step::Fetching)
}

fn waits_erase(stage: Stage) -> bool
    ensures { result ≡ waits_erase stage }
{
    matches!(stage, Stage::EraseWaiting)
}

// Refusal 3 of the loader's record.
fn bad_record(l: Loader) -> bool
    ensures { result ≡ bad_record l }
{
    let part = l.part;
    (65534 < l.polls) | (!no_block(part, l.block) & (device::length(part, l.block) <= l.place))
}

// .. of an interruption's record, with k addresses.
fn bad_hold(k: usize, l: Loader, h: Hold) -> bool
    ensures { result ≡ bad_hold k l h }
{
    let stage = l.stage;
    let step = h.step;
    (is_interrupting(step) & !waits_erase(stage))
        | (65534 < h.waits)
        | (is_fetching(step) & (k <= h.place))
}

fn bad_pair(k: usize, l: Loader, h: Hold) -> bool
    ensures { result ≡ bad_pair k l h }
{
    bad_record(l) | bad_hold(k, l, h)
}

// The place of the address that the next cycle reads; k where it reads none.
fn place_next(step: Step, place: usize, k: usize) -> usize
    ensures { result ≡ place_next step place k }
{
    match step {
        Step::Usual => k,
        Step::Halting => k,
        Step::Looking => k,
        Step::Settling => k,
        Step::ArrayAsking => 0,
        Step::Fetching => next_place(place, k),
        Step::Resuming => k,
    }
}

// The tests of the lists in a step: of the addresses only the one at place i.
fn used_number(part: Part, block: u8, i: usize, addresses: &[u32], room: usize) -> u8
    ensures { result ≡ used_number part block i addresses.now room }
{
    let word = part.word;
    let k = addresses.len();
    if i < k {
        let a = addresses[i];
        if past_array(part, a) {
            return 5;
        }
        if in_loaded(part, block, a) {
            return 45;
        }
        return room_number(word, k, room);
    }
    room_number(word, k, room)
}

fn start_number(
    part: Part,
    p: Pins,
    block: u8,
    wanted: usize,
    scratch: usize,
    addresses: &[u32],
    room: usize,
) -> u8
    ensures { result ≡ start_held_number part p block wanted scratch addresses.now room }
{
    if device::unknown_part(part) {
        return 1;
    }
    let n = setup_number(part, p, block, wanted, scratch);
    if n == 0 {
        return list_number(part, block, addresses, room);
    }
    n
}

fn step_number(
    l: Loader,
    h: Hold,
    wanted: usize,
    scratch: usize,
    addresses: &[u32],
    room: usize,
) -> u8
    ensures { result ≡ step_held_number l h wanted scratch addresses.now room }
{
    let part = l.part;
    let p = l.pins;
    let k = addresses.len();
    if device::unknown_part(part) {
        return 1;
    }
    if bad_pair(k, l, h) {
        return 3;
    }
    let n = setup_number(part, p, l.block, wanted, scratch);
    if n == 0 {
        let step = h.step;
        return used_number(part, l.block, place_next(step, h.place, k), addresses, room);
    }
    n
}

fn saying(l: Loader, h: Hold, wanted: &[u8], addresses: &[u32]) -> Saying
    ensures { result ≡ held_saying_in l h (units l.part.word wanted.now) addresses.now }
{
    let stage = l.stage;
    let e = stage_is(stage);
    let ended = e.ended;
    if ended {
        return Saying::Over(e.end, end_address(l, e.end));
    }
    let step = h.step;
    Saying::Out(held_out(step, l, h, wanted, addresses))
}

fn response_at(q: Pair, wanted: &[u8], addresses: &[u32]) -> HeldResponse
    ensures { result ≡ held_response q (units q.loader.part.word wanted.now) addresses.now }
{
    let l = q.loader;
    let h = q.hold;
    HeldResponse {
        saying: saying(l, h, wanted, addresses),
        pair: q,
    }
}

fn refused_by(n: u8, q: Pair) -> HeldResponse
    ensures { result ≡ held_refused n q }
{
    HeldResponse {
        saying: Saying::Refused(n),
        pair: q,
    }
}

// The records at a load's beginning.
fn begin(part: Part, p: Pins, block: u8, stage: Stage, verify: bool) -> Pair
    ensures { result ≡ beginning part p block stage verify }
{
    pair_of(record_at(part, p, block, stage, verify), usually(0))
}

// The first cycle of a load with the verify after it, or of a load alone.
pub fn start_held(
    verify: bool,
    part: Part,
    p: Pins,
    block: u8,
    wanted: &[u8],
    scratch: &[u8],
    addresses: &[u32],
    room: &[u8],
) -> HeldResponse
    ensures result { result
        ≡ start_held_response verify part p block (lent part.word wanted.now) (lent part.word scratch.now)
        addresses.now (length room.now) }
    ensures told { saying_told result.saying
        ≡ start_held_told verify part p block (lent part.word wanted.now) (lent part.word scratch.now)
        addresses.now (length room.now) }
{
    let word = part.word;
    let n = start_number(
        part,
        p,
        block,
        units::lent_in(word, wanted.len()),
        units::lent_in(word, scratch.len()),
        addresses,
        room.len(),
    );
    if n == 0 {
        return response_at(
            begin(part, p, block, Stage::Clearing, verify),
            wanted,
            addresses,
        );
    }
    refused_by(n, begin(part, p, block, Stage::Ended(n), verify))
}

// The data taken: the room, scratch and both records.
fn take(
    l: Loader,
    h: Hold,
    v: u16,
    wanted: &[u8],
    scratch: &mut [u8],
    polls: &[u32],
    addresses: &[u32],
    room: &mut [u8],
) -> Pair
    ensures result { result
        ≡ held_move l h v (units l.part.word wanted.now) (units l.part.word scratch.old) polls.now
        addresses.now }
    ensures scratch_left { units l.part.word scratch.new
        ≡ held_scratch h.step l h v (length addresses.now) (units l.part.word wanted.now)
        (units l.part.word scratch.old) }
    ensures room_left { units l.part.word room.new
        ≡ held_room h.step l.part.word h v (units l.part.word room.old) }
    ensures room_spare { spare l.part.word room.new ≡ spare l.part.word room.old }
{
    let part = l.part;
    let word = part.word;
    let step = h.step;
    store_room(step, word, h, v, room);
    held_next(step, l, h, v, addresses.len(), wanted, scratch, polls)
}

// The data read by the cycle that was out go in, the next cycle or the end comes out.
pub fn step_held(
    pair: Pair,
    v: u16,
    wanted: &[u8],
    scratch: &mut [u8],
    polls: &[u32],
    addresses: &[u32],
    room: &mut [u8],
) -> HeldResponse
    ensures result { result
        ≡ step_held_response pair.loader pair.hold v (lent pair.loader.part.word wanted.now)
        (lent pair.loader.part.word scratch.old) polls.now addresses.now
        (length room.old) }
    ensures told { saying_told result.saying
        ≡ step_held_told pair.loader pair.hold v (lent pair.loader.part.word wanted.now)
        (lent pair.loader.part.word scratch.old) polls.now addresses.now
        (length room.old) }
    ensures scratch_left { scratch.new
        ≡ held_scratch_left pair.loader pair.hold v wanted.now scratch.old addresses.now
        (length room.old) }
    ensures room_left { room.new
        ≡ held_room_left pair.loader pair.hold v wanted.now scratch.old addresses.now
        room.old }
{
    let l = pair.loader;
    let h = pair.hold;
    let part = l.part;
    let word = part.word;
    let n = step_number(
        l,
        h,
        units::lent_in(word, wanted.len()),
        units::lent_in(word, scratch.len()),
        addresses,
        room.len(),
    );
    if n == 0 {
        let next = take(l, h, v, wanted, scratch, polls, addresses, room);
        return response_at(next, wanted, addresses);
    }
    refused_by(n, pair)
}
