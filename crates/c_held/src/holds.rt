// The records of a load that may be interrupted, as plain numbers.
ghost use Rattle.std.specs.Prelude.{◌≡◌};
ghost use Rattle.c_held.specs.Helds.{step_in, step_out, no_hold, waits_in, hold_in, hold_out, hold_back, held_in, held_out, held_back};

use crate::{HeldNumbers, HoldNumbers};
use c_cycle::states::flag_out;
use c_records::records::{loader_back, loader_in, loader_out};
use loader_held::{Hold, Pair, Step};

fn step_in(n: u8) -> Step
    ensures { result ≡ step_in n }
{
    match n {
        0 => Step::Usual,
        1 => Step::Halting,
        2 => Step::Looking,
        3 => Step::Settling,
        4 => Step::ArrayAsking,
        5 => Step::Fetching,
        _ => Step::Resuming,
    }
}

fn step_out(step: Step) -> u8
    ensures { result ≡ step_out step }
{
    match step {
        Step::Usual => 0,
        Step::Halting => 1,
        Step::Looking => 2,
        Step::Settling => 3,
        Step::ArrayAsking => 4,
        Step::Fetching => 5,
        Step::Resuming => 6,
    }
}

fn no_hold(n: HoldNumbers) -> bool
    ensures { result ≡ no_hold n }
{
    (6 < n.step) | (1 < n.suspended)
}

fn waits_in(n: HoldNumbers) -> u32
    ensures { result ≡ waits_in n }
{
    if no_hold(n) {
        return 65535;
    }
    n.waits
}

fn hold_in(n: HoldNumbers) -> Hold
    ensures { result ≡ hold_in n }
{
    Hold {
        step: step_in(n.step),
        number: n.number,
        place: n.place,
        waits: waits_in(n),
        suspended: n.suspended == 1,
    }
}

fn hold_out(h: Hold) -> HoldNumbers
    ensures { result ≡ hold_out h }
{
    let step = h.step;
    let suspended = h.suspended;
    HoldNumbers {
        step: step_out(step),
        suspended: flag_out(suspended),
        number: h.number,
        waits: h.waits,
        place: h.place,
    }
}

// The interruption's record that goes back for one that came in.
fn hold_back(n: HoldNumbers, h: Hold) -> HoldNumbers
    ensures { result ≡ hold_back n h }
{
    if no_hold(n) {
        return n;
    }
    hold_out(h)
}

// Numbers as the two records, the loader's and the interruption's.
pub fn held_in(n: HeldNumbers) -> Pair
    ensures { result ≡ held_in n }
{
    let loader = n.loader;
    let hold = n.hold;
    Pair {
        loader: loader_in(loader),
        hold: hold_in(hold),
    }
}

// The two records as numbers.
pub fn held_out(q: Pair) -> HeldNumbers
    ensures { result ≡ held_out q }
{
    let loader = q.loader;
    let hold = q.hold;
    HeldNumbers {
        loader: loader_out(loader),
        hold: hold_out(hold),
    }
}

// The records that go back for those that came in.
pub fn held_back(n: HeldNumbers, q: Pair) -> HeldNumbers
    ensures { result ≡ held_back n q }
{
    let came = n.loader;
    let waiting = n.hold;
    let loader = q.loader;
    let hold = q.hold;
    HeldNumbers {
        loader: loader_back(came, loader),
        hold: hold_back(waiting, hold),
    }
}
