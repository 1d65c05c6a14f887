// The moves of an interruption beside those of the loader.
ghost use Rattle.std.specs.Prelude.{◌≡◌, get_or};
ghost use Rattle.units.specs.Units.{units, spare};
ghost use Rattle.loader_moves.specs.Moves.{next_of};
ghost use Rattle.loader_moves.specs.Inner.{past};
ghost use Rattle.loader_stores.specs.Stores.{store_of};
ghost use Rattle.loader_held.specs.Holds.{listed, sr6, hold_as, usual, held_to, pair_of, after_poll, numbered, moved_on, stopped};
ghost use Rattle.loader_held.specs.Holds.{settled_by, fetch_on, fetch_stored, resumed, held_next, held_scratch, held_room, held_cycle};
ghost use Rattle.loader_steps.specs.Outs.{cycle_at};

use crate::{Hold, Pair, Step};
use loader::statuses::{erase_end, is_ready};
use loader::{Loader, Stage};
use loader_moves::{ended_by, moved};
use loader_steps::outs::{first, out};
use loader_stores::advance;
use model_types::{Cycle, Kind};

// The number stands among the polls.
pub fn is_listed(n: u32, polls: &[u32]) -> bool
    ensures { result ≡ listed n polls.now }
{
    polls.contains(&n)
}

fn hold_as(step: Step, number: u32, place: usize, waits: u32, suspended: bool) -> Hold
    ensures { result ≡ hold_as step number place waits suspended }
{
    Hold {
        step: step,
        number: number,
        place: place,
        waits: waits,
        suspended: suspended,
    }
}

// No interruption under way, after poll n of the erase.
pub fn usually(n: u32) -> Hold
    ensures { result ≡ usual n }
{
    hold_as(Step::Usual, n, 0, 0, false)
}

fn held_to(h: Hold, step: Step) -> Hold
    ensures { result ≡ held_to h step }
{
    let suspended = h.suspended;
    hold_as(step, h.number, 0, 0, suspended)
}

// The two records side by side.
pub fn pair_of(l: Loader, h: Hold) -> Pair
    ensures { result ≡ pair_of l h }
{
    Pair { loader: l, hold: h }
}

// After poll n of the erase: the next, or an interruption in its place.
fn after_poll(n: u32, polls: &[u32]) -> Hold
    ensures { result ≡ after_poll n polls.now }
{
    if n < 4294967295 {
        if is_listed(n + 1, polls) {
            return hold_as(Step::Halting, n + 1, 0, 0, false);
        }
        return usually(n + 1);
    }
    usually(n)
}

fn numbering(stage: Stage, n: u32, polls: &[u32]) -> Hold
    ensures { result ≡ numbered stage n polls.now }
{
    match stage {
        Stage::Clearing => usually(n),
        Stage::Opening => usually(n),
        Stage::Reading => usually(n),
        Stage::EraseAsking => usually(n),
        Stage::EraseConfirming => usually(n),
        Stage::EraseWaiting => after_poll(n, polls),
        Stage::ProgramAsking => usually(n),
        Stage::ProgramSending => usually(n),
        Stage::ProgramWaiting => usually(n),
        Stage::Closing => usually(n),
        Stage::Verifying => usually(n),
        Stage::Ended(_) => usually(n),
    }
}

fn moved_on(l: Loader, n: u32, polls: &[u32]) -> Pair
    ensures { result ≡ moved_on l n polls.now }
{
    let stage = l.stage;
    pair_of(l, numbering(stage, n, polls))
}

fn stop_by(l: Loader, h: Hold, n: u8) -> Pair
    ensures { result ≡ stopped l h n }
{
    pair_of(ended_by(l, n), usually(h.number))
}

fn is_held(b: u8) -> bool
    ensures { result ≡ sr6 b }
{
    b / 0x40 % 2 == 1
}

// A poll of the suspend's own wait is in.
fn settled_by(l: Loader, h: Hold, b: u8) -> Pair
    ensures { result ≡ settled_by l h b }
{
    if is_ready(b) {
        let n = erase_end(b);
        if n == 0 {
            return pair_of(l, hold_as(Step::ArrayAsking, h.number, 0, 0, is_held(b)));
        }
        return stop_by(l, h, n);
    }
    if 65534 <= h.waits {
        return stop_by(l, h, 20);
    }
    pair_of(l, hold_as(Step::Settling, h.number, 0, h.waits + 1, false))
}

// The erase is found finished: the loader takes a ready poll.
fn finished(l: Loader, n: u32, wanted: &[u8], scratch: &mut [u8]) -> Pair
    ensures result { result
        ≡ pair_of
        (next_of l 0x80 (units l.part.word wanted.now)
        (store_of l 0x80 (units l.part.word wanted.now) (units l.part.word scratch.old))) (usual n) }
    ensures scratch_left { units l.part.word scratch.new
        ≡ store_of l 0x80 (units l.part.word wanted.now) (units l.part.word scratch.old) }
    ensures scratch_spare { spare l.part.word scratch.new ≡ spare l.part.word scratch.old }
{
    let next = advance(l, 0x80, wanted, scratch);
    pair_of(next, usually(n))
}

// The next unit to read is that of address i of k, or what follows the reads.
fn fetch_on(l: Loader, h: Hold, i: usize, k: usize, wanted: &[u8], scratch: &mut [u8]) -> Pair
    ensures result { result
        ≡ fetch_on l h i k (units l.part.word wanted.now) (units l.part.word scratch.old) }
    ensures scratch_left { units l.part.word scratch.new
        ≡ fetch_stored l h i k (units l.part.word wanted.now) (units l.part.word scratch.old) }
    ensures scratch_spare { spare l.part.word scratch.new ≡ spare l.part.word scratch.old }
{
    let suspended = h.suspended;
    if i < k {
        return pair_of(l, hold_as(Step::Fetching, h.number, i, 0, suspended));
    }
    if suspended {
        return pair_of(l, held_to(h, Step::Resuming));
    }
    finished(l, h.number, wanted, scratch)
}

fn resume(l: Loader, h: Hold, polls: &[u32]) -> Pair
    ensures { result ≡ resumed l h polls.now }
{
    pair_of(
        moved(l, Stage::EraseWaiting, 0, 0),
        after_poll(h.number, polls),
    )
}

// The place after p, no further than the end.
pub fn next_place(p: usize, n: usize) -> usize
    ensures { result ≡ past p n }
{
    if p < n {
        return p + 1;
    }
    p
}

// The loader's own cycle.
fn usual_next(l: Loader, n: u32, v: u16, wanted: &[u8], scratch: &mut [u8], polls: &[u32]) -> Pair
    ensures result { result
        ≡ moved_on
        (next_of l v (units l.part.word wanted.now)
        (store_of l v (units l.part.word wanted.now) (units l.part.word scratch.old))) n
        polls.now }
    ensures scratch_left { units l.part.word scratch.new
        ≡ store_of l v (units l.part.word wanted.now) (units l.part.word scratch.old) }
    ensures scratch_spare { spare l.part.word scratch.new ≡ spare l.part.word scratch.old }
{
    let next = advance(l, v, wanted, scratch);
    moved_on(next, n, polls)
}

// The room after a cycle's data.
pub fn store_room(step: Step, word: bool, h: Hold, v: u16, room: &mut [u8])
    ensures room_left { units word room.new ≡ held_room step word h v (units word room.old) }
    ensures room_spare { spare word room.new ≡ spare word room.old }
{
    match step {
        Step::Usual => {}
        Step::Halting => {}
        Step::Looking => {}
        Step::Settling => {}
        Step::ArrayAsking => {}
        Step::Fetching => units::put_unit(word, room, h.place, v),
        Step::Resuming => {}
    }
}

// The records after a cycle's data; k is the number of addresses.
pub fn held_next(
    step: Step,
    l: Loader,
    h: Hold,
    v: u16,
    k: usize,
    wanted: &[u8],
    scratch: &mut [u8],
    polls: &[u32],
) -> Pair
    ensures result { result
        ≡ held_next step l h v k (units l.part.word wanted.now) (units l.part.word scratch.old)
        polls.now }
    ensures scratch_left { units l.part.word scratch.new
        ≡ held_scratch step l h v k (units l.part.word wanted.now) (units l.part.word scratch.old) }
    ensures scratch_spare { spare l.part.word scratch.new ≡ spare l.part.word scratch.old }
{
    match step {
        Step::Usual => usual_next(l, h.number, v, wanted, scratch, polls),
        Step::Halting => pair_of(l, held_to(h, Step::Looking)),
        Step::Looking => pair_of(l, held_to(h, Step::Settling)),
        Step::Settling => settled_by(l, h, units::low(v)),
        Step::ArrayAsking => fetch_on(l, h, 0, k, wanted, scratch),
        Step::Fetching => fetch_on(l, h, next_place(h.place, k), k, wanted, scratch),
        Step::Resuming => resume(l, h, polls),
    }
}

fn cycle_by(l: Loader, kind: Kind, address: u32, v: u16) -> Cycle
    ensures { result ≡ cycle_at l kind address v }
{
    let pins = l.pins;
    Cycle {
        kind: kind,
        pins: pins,
        oe: 0,
        address: address,
        data: v,
    }
}

fn address_at(addresses: &[u32], i: usize) -> u32
    ensures { result ≡ get_or addresses.now i 0 }
{
    if i < addresses.len() {
        return addresses[i];
    }
    0
}

// The cycle that is out.
pub fn held_out(step: Step, l: Loader, h: Hold, wanted: &[u8], addresses: &[u32]) -> Cycle
    ensures { result ≡ held_cycle step l h (units l.part.word wanted.now) addresses.now }
{
    match step {
        Step::Usual => out(l, wanted),
        Step::Halting => cycle_by(l, Kind::Write, first(l), 0xB0),
        Step::Looking => cycle_by(l, Kind::Write, first(l), 0x70),
        Step::Settling => cycle_by(l, Kind::Read, first(l), 0),
        Step::ArrayAsking => cycle_by(l, Kind::Write, first(l), 0xFF),
        Step::Fetching => cycle_by(l, Kind::Read, address_at(addresses, h.place), 0),
        Step::Resuming => cycle_by(l, Kind::Write, first(l), 0xD0),
    }
}
