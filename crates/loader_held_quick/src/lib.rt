// A load whose erase is interrupted for readings, stage by stage: the load without interruptions, and what they add to it. The promise is
// that of `loader_held_run`, where loader and model are stepped against each other cycle by cycle. The load is made first and says whether
// a bit had to rise; what interruptions read lies in other blocks, which it leaves alone.
#![tactic(auto)]

ghost use Rattle.std.specs.Prelude.{◌≡◌, ◌+◌, ◌≤◌, ◌<◌, length, get_or, eqb, ltb, if◌then◌else◌};
ghost use Rattle.model_types.specs.declared.Mode.TheVariants.{Array};
ghost use Rattle.loader.specs.declared.Work.TheVariants.{Load};
ghost use Rattle.units.specs.Units.{units, spare, top};
ghost use Rattle.loader_quick.specs.Quick.{stuck_by, Timed};
ghost use Rattle.loader_held.specs.Holds.{listed};
ghost use Rattle.loader_held_run.specs.HeldRuns.{held_run_number, lent_held};
ghost use Rattle.loader_held_claims.specs.HeldMade.{filled_by, interrupts, added_in};
ghost use Rattle.loader_held_claims.specs.HeldEnds.{added_tried, ran_more};
ghost use Rattle.loader_held_ends.specs.HeldLent.{room_in};
ghost use Rattle.loader_held_quick.specs.HeldQuick.{NextListed, lower_of, cost_at, bare_count, turned_by};
ghost use Rattle.loader_held_quick.specs.HeldQuick.{erasing_of, extra_by, room_by, held_as};

use device::Device;
use loader::Work;
use loader_held::holds::is_listed;
use loader_held_run::{held_number, refused, run_held};
use loader_quick::{is_stuck, run_tested};
use loader_run::{Job, Ran};
use model_types::{Mode, State};

// What the interruptions of a load come to: the cycles that they add, and whether one stands in the place of the erase's last poll.
#[derive(Clone, Copy)]
struct Extra {
    cycles: u64,
    last: bool,
}

// Of two numbers the lower one, where it is not below `from`.
fn lower(from: u32, r: u32, p: u32) -> u32
    ensures { result ≡ lower_of from r p }
{
    if (from <= p) & (p < r) {
        return p;
    }
    r
}

// The lowest number listed from `from` on, or `past`.
fn next_listed(from: u32, past: u32, polls: &[u32]) -> u32
    requires { from ≤ past }
    ensures { NextListed from past polls.now result }
{
    let mut r = past;
    for p in polls {
        r = lower(from, r, *p);
    }
    r
}

// What one interruption for k readings adds.
fn cost_at(suspend: u8, k: usize, last: bool) -> u64
    requires { k ≤ 4096 }
    ensures { (result ≡ cost_at suspend k last) × (result ≤ 131072) }
{
    let n = k as u64 + 3;
    if last {
        return n;
    }
    if suspend < 2 {
        return n + 1;
    }
    n + (suspend as u64 - 1)
}

// What the poll p adds to an erase of e: nothing where it comes after the last.
fn cost_up(d: Device, k: usize, e: u32, p: u32) -> u64
    requires { k ≤ 4096 }
    ensures { (result ≡ (if ltb e p then 0 else cost_at d.suspend k (eqb p e))) × (result ≤ 131072) }
{
    if e < p {
        return 0;
    }
    cost_at(d.suspend, k, p == e)
}

// What all interruptions of an erase add that begins, by one walk, where each listed poll is above the one before it; else more than they
// ever add.
fn added_rising(d: Device, polls: &[u32], addresses: &[u32]) -> u64
    requires { length addresses.now ≤ 4096 }
    ensures { result ≤ 9000000000 → result ≡ added_in d addresses.now polls.now 0 d.erase }
{
    let e = d.erase as u32;
    let k = addresses.len();
    let mut n: u32 = 0;
    let mut added: u64 = 0;
    for p in polls {
        if *p <= n {
            return 9000000001;
        }
        let c = cost_up(d, k, e, *p);
        added += c;
        n = *p;
    }
    added
}

// .. whatever the list, from one listed poll to the next.
fn added_searched(d: Device, polls: &[u32], addresses: &[u32]) -> u64
    requires { length addresses.now ≤ 4096 }
    ensures { (result ≡ added_in d addresses.now polls.now 0 d.erase) × (result ≤ 9000000000) }
{
    let e = d.erase as u32;
    let k = addresses.len();
    let mut n: u32 = 0;
    let mut added: u64 = 0;
    while n < e {
        let next = next_listed(n + 1, e + 1, polls);
        if e < next {
            return added;
        }
        let c = cost_at(d.suspend, k, next == e);
        added += c;
        n = next;
    }
    added
}

// .. by the one or the other.
fn added_in(d: Device, polls: &[u32], addresses: &[u32]) -> u64
    requires { length addresses.now ≤ 4096 }
    ensures { (result ≡ added_in d addresses.now polls.now 0 d.erase) × (result ≤ 9000000000) }
{
    let c = added_rising(d, polls, addresses);
    if c <= 9000000000 {
        return c;
    }
    added_searched(d, polls, addresses)
}

// The array's unit at an address.
fn unit_at(word: bool, array: &[u8], address: u32) -> u16
    ensures { (result ≡ get_or (units word array.now) address 0) × (result ≤ top word) }
{
    units::get_unit(word, array, address as usize)
}

// The room filled: a unit of the array for each address.
fn fill_room(word: bool, array: &[u8], addresses: &[u32], room: &mut [u8])
    requires { length addresses.now ≤ length (units word room.old) }
    ensures room_left { units word room.new
        ≡ filled_by (units word array.now) addresses.now (units word room.old) }
    ensures room_spare { spare word room.new ≡ spare word room.old }
{
    for (i, a) in addresses.iter().enumerate() {
        let v = unit_at(word, array, *a);
        units::put_unit(word, room, i, v);
    }
}

// What an erase that cannot start adds where its one poll is interrupted.
fn tried(polls: &[u32]) -> u64
    ensures { (result ≡ added_tried polls.now) × (result ≤ 2) }
{
    if is_listed(1, polls) {
        return 2;
    }
    0
}

// An erase that begins: what its interruptions add, and the room filled where one is made.
fn erasing(d: Device, array: &[u8], polls: &[u32], addresses: &[u32], room: &mut [u8]) -> Extra
    requires { (length addresses.now ≤ 4096) × (length addresses.now ≤ length (units d.part.word room.old)) }
    ensures result { result ≡ erasing_of d addresses.now polls.now }
    ensures room_left { room.new
        ≡ (if interrupts polls.now 0 d.erase
        then room_in d.part.word array.now addresses.now room.old
        else room.old) }
    ensures bounded { result.cycles ≤ 9000000000 }
{
    let part = d.part;
    let word = part.word;
    let last = is_listed(d.erase as u32, polls);
    let c = added_in(d, polls, addresses);
    if c == 0 {
        return Extra {
            cycles: 0,
            last: last,
        };
    }
    fill_room(word, array, addresses, room);
    Extra {
        cycles: c,
        last: last,
    }
}

// What the interruptions of a job come to, and the room filled where one is made. Nothing where no bit must rise or no erase begins.
fn interrupted(
    j: Job,
    rises: bool,
    array: &[u8],
    polls: &[u32],
    addresses: &[u32],
    room: &mut [u8],
) -> Extra
    requires { (length addresses.now ≤ 4096) × (length addresses.now ≤ length (units j.device.part.word room.old)) }
    ensures result { result
        ≡ extra_by rises (stuck_by j.device.part j.pins j.block) j.device addresses.now polls.now }
    ensures room_left { room.new
        ≡ room_by rises (stuck_by j.device.part j.pins j.block) j.device polls.now
        (room_in j.device.part.word array.now addresses.now room.old) room.old }
    ensures bounded { result.cycles ≤ 9000000000 }
{
    let d = j.device;
    let p = j.pins;
    let part = d.part;
    if rises {
        if is_stuck(part, p, j.block) {
            return Extra {
                cycles: tried(polls),
                last: false,
            };
        }
        return erasing(d, array, polls, addresses, room);
    }
    Extra {
        cycles: 0,
        last: false,
    }
}

// The count of a good load of n units with an erase and no program, the verify after it or not.
fn bare_count(verify: bool, n: usize, d: Device) -> u64
    requires { n ≤ 1048576 }
    ensures result { result ≡ bare_count verify n d.erase }
    ensures timed { Timed d }
{
    let once = 2 + d.erase as u64;
    if verify {
        return 2 * (n as u64) + 3 + once;
    }
    n as u64 + 2 + once
}

// An interruption stands in the last poll's place, and nothing was programmed after it.
fn is_turned(verify: bool, last: bool, n: usize, d: Device, count: u64) -> bool
    requires { n ≤ 1048576 }
    ensures result { result ≡ turned_by verify last n d.erase count }
    ensures timed { Timed d }
{
    last & (count == bare_count(verify, n, d))
}

fn turned_mode(turned: bool, mode: Mode) -> Mode
    ensures { result ≡ (if turned then Array else mode) }
{
    if turned {
        return Mode::Array;
    }
    mode
}

// What a run returned, with cycles more, and in read array where that is so.
fn more(r: Ran, added: u64, turned: bool) -> Ran
    requires { r.count + added ≤ 18446744073709551615 }
    ensures { result ≡ ran_more r added turned }
{
    let s = r.state;
    let mode = s.mode;
    let phase = s.phase;
    let wear = s.wear;
    let next = turned_mode(turned, mode);
    let state = State {
        mode: next,
        status: s.status,
        phase: phase,
        left: s.left,
        address: s.address,
        wear: wear,
    };
    Ran {
        count: r.count + added,
        end: r.end,
        address: r.address,
        state: state,
    }
}

// A load that nothing refuses: the load without interruptions, then what they come to.
fn held_load(
    verify: bool,
    j: Job,
    wanted: &[u8],
    polls: &[u32],
    addresses: &[u32],
    array: &mut [u8],
    scratch: &mut [u8],
    room: &mut [u8],
) -> Ran
    requires { (held_run_number j (length array.old) (length wanted.now) (length scratch.old) addresses.now (length room.old) ≡ 0)
        × (j.work ≡ Load verify) }
    ensures { held_as result array.new scratch.new room.new
        ≡ lent_held j array.old wanted.now scratch.old polls.now addresses.now
        room.old }
{
    let d = j.device;
    let part = d.part;
    let word = part.word;
    let m = run_tested(j, array, wanted, scratch);
    let r = m.ran;
    let x = interrupted(j, m.rises, array, polls, addresses, room);
    let n = units::units_in(word, wanted.len());
    let turned = is_turned(verify, x.last, n, d, r.count);
    more(r, x.cycles, turned)
}

// A job whose erase is interrupted at the polls given, stage by stage: `loader_held_run::run_held` promises the same. A verify alone has no
// erase, and goes that way.
pub fn run_held_quick(
    j: Job,
    array: &mut [u8],
    wanted: &[u8],
    scratch: &mut [u8],
    polls: &[u32],
    addresses: &[u32],
    room: &mut [u8],
) -> Ran
    ensures { held_as result array.new scratch.new room.new
        ≡ lent_held j array.old wanted.now scratch.old polls.now addresses.now
        room.old }
{
    let s = j.state;
    let work = j.work;
    let a = array.len();
    let w = wanted.len();
    let m = scratch.len();
    let k = room.len();
    let n = held_number(j, a, w, m, addresses, k);
    if n != 0 {
        return refused(n, s);
    }
    match work {
        Work::Load(verify) => held_load(verify, j, wanted, polls, addresses, array, scratch, room),
        Work::Verify => run_held(j, array, wanted, scratch, polls, addresses, room),
    }
}
