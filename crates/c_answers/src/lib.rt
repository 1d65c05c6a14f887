// What a cycle answers, as numbers: by the state that it leaves, and by the typed way.
#![tactic(auto)]

ghost use Rattle.std.specs.Prelude.{◌≡◌};
ghost use Rattle.std.specs.Int.Bits.{bit_and};
ghost use Rattle.c_cycle.specs.Answers.{cycled, array_cycled};
ghost use Rattle.c_answers.specs.Answers.{seen_in, shown_in, polled_as, written_as, worn_in, given_as, ended_as, cut_as};
ghost use Rattle.c_answers.specs.Answers.{refused_as};

use c_cycle::states::{answer_out, cycle_in, device_in, state_in};
use c_cycle::{AnswerNumbers, BusNumbers, DeviceNumbers, StateNumbers, WearNumbers};
use c_ordinary::rested;
use model_types::counts::raise;

// The typed way.
pub fn typed(
    device: DeviceNumbers,
    state: StateNumbers,
    bus: BusNumbers,
    array: &mut [u8],
    residue: &[u8],
) -> AnswerNumbers
    ensures result { result ≡ cycled device state bus array.old residue.now }
    ensures array_left { array.new ≡ array_cycled device state bus array.old residue.now }
{
    let d = device_in(device);
    let s = state_in(state);
    let c = cycle_in(bus);
    let a = model::cycle(d, s, c, array, residue);
    answer_out(state, a)
}

// Whether a poll gives data: a read does.
fn seen_in(kind: u8) -> u8
    ensures { result ≡ seen_in kind }
{
    if kind == 0 {
        return 1;
    }
    0
}

// What it gives: the status, or nothing.
fn shown_in(kind: u8, status: u8) -> u16
    ensures { result ≡ shown_in kind status }
{
    if kind == 0 {
        return units::wide(status);
    }
    0
}

// A read or an idle cycle, by what it leaves.
pub fn polled(
    n: StateNumbers,
    kind: u8,
    status: u8,
    phase: u8,
    suspend: u8,
    left: u16,
) -> AnswerNumbers
    ensures { result ≡ polled_as n kind status phase suspend left }
{
    let w = n.wear;
    AnswerNumbers {
        seen: seen_in(kind),
        value: shown_in(kind, status),
        state: StateNumbers {
            mode: 1,
            status: status,
            phase: phase,
            suspend: suspend,
            left: left,
            data: n.data,
            address: n.address,
            wear: w,
        },
    }
}

// A write, by what it leaves.
pub fn written(
    n: StateNumbers,
    mode: u8,
    status: u8,
    phase: u8,
    suspend: u8,
    left: u16,
    unit: u16,
    address: u32,
) -> AnswerNumbers
    ensures { result ≡ written_as n.wear mode status phase suspend left unit address }
{
    let w = n.wear;
    AnswerNumbers {
        seen: 0,
        value: 0,
        state: StateNumbers {
            mode: mode,
            status: status,
            phase: phase,
            suspend: suspend,
            left: left,
            data: unit,
            address: address,
            wear: w,
        },
    }
}

// The counts after one more erase of a block: one changes, and the others go on as they lie.
fn raised(n: WearNumbers, block: u8) -> WearNumbers
    ensures { result ≡ worn_in n block }
{
    let mut w = n;
    if block == 0 {
        w.block0 = raise(w.block0);
        return w;
    }
    if block == 1 {
        w.block1 = raise(w.block1);
        return w;
    }
    if block == 2 {
        w.block2 = raise(w.block2);
        return w;
    }
    if block == 3 {
        w.block3 = raise(w.block3);
        return w;
    }
    if block == 4 {
        w.block4 = raise(w.block4);
        return w;
    }
    if block == 5 {
        w.block5 = raise(w.block5);
        return w;
    }
    if block == 6 {
        w.block6 = raise(w.block6);
        return w;
    }
    w
}

// A start of an erase, counted at its block.
pub fn worn(n: StateNumbers, time: u16, address: u32, block: u8) -> AnswerNumbers
    ensures { result ≡ written_as (worn_in n.wear block) 1 (bit_and n.status 0x7F) 4 0 time 0 address }
{
    let w = n.wear;
    let more = raised(w, block);
    AnswerNumbers {
        seen: 0,
        value: 0,
        state: StateNumbers {
            mode: 1,
            status: n.status & 0x7F,
            phase: 4,
            suspend: 0,
            left: time,
            data: 0,
            address: address,
            wear: more,
        },
    }
}

// What is seen of an end, and the state at rest.
pub fn ended(n: StateNumbers, kind: u8) -> AnswerNumbers
    ensures { result ≡ ended_as n kind }
{
    let status = n.status | 0x80;
    rested(n, seen_in(kind), shown_in(kind, status), 1, status, 0)
}

// A unit of the array, and the state as it was.
pub fn given(n: StateNumbers, v: u16) -> AnswerNumbers
    ensures { result ≡ given_as n v }
{
    AnswerNumbers {
        seen: 1,
        value: v,
        state: n,
    }
}

// What is seen of a cut, and the state at rest: as after a reset where RP# is low, and else with such bits in the status.
pub fn cut(n: StateNumbers, b: BusNumbers, bits: u8) -> AnswerNumbers
    ensures { result ≡ cut_as n b bits }
{
    if b.rp == 0 {
        return rested(n, 0, 0, 0, 0x80, 0);
    }
    let status = n.status & 0xBF | bits;
    rested(n, seen_in(b.kind), shown_in(b.kind, status), 1, status, 0)
}

// A refusal: the state as it was.
pub fn refused(n: StateNumbers, number: u16) -> AnswerNumbers
    ensures { result ≡ refused_as n number }
{
    AnswerNumbers {
        seen: 2,
        value: number,
        state: n,
    }
}
