// The loader's record, and what the loader says, as plain numbers.
ghost use Rattle.std.specs.Prelude.{◌≡◌};
ghost use Rattle.c_records.specs.Records.{stage_in, stage_out, end_out, no_record, polls_in, loader_in, loader_out, loader_back, no_cycle};
ghost use Rattle.c_records.specs.Records.{saying_at, saying_out};

use crate::{LoaderNumbers, SayingNumbers};
use c_cycle::BusNumbers;
use c_cycle::states::{cycle_out, flag_out, part_in, pins_in};
use loader::stages::stage_is;
use loader::{Loader, Saying, Stage};

fn stage_in(n: u8, end: u8) -> Stage
    ensures { result ≡ stage_in n end }
{
    match n {
        0 => Stage::Clearing,
        1 => Stage::Opening,
        2 => Stage::Reading,
        3 => Stage::EraseAsking,
        4 => Stage::EraseConfirming,
        5 => Stage::EraseWaiting,
        6 => Stage::ProgramAsking,
        7 => Stage::ProgramSending,
        8 => Stage::ProgramWaiting,
        9 => Stage::Closing,
        10 => Stage::Verifying,
        _ => Stage::Ended(end),
    }
}

fn stage_out(stage: Stage) -> u8
    ensures { result ≡ stage_out stage }
{
    match stage {
        Stage::Clearing => 0,
        Stage::Opening => 1,
        Stage::Reading => 2,
        Stage::EraseAsking => 3,
        Stage::EraseConfirming => 4,
        Stage::EraseWaiting => 5,
        Stage::ProgramAsking => 6,
        Stage::ProgramSending => 7,
        Stage::ProgramWaiting => 8,
        Stage::Closing => 9,
        Stage::Verifying => 10,
        Stage::Ended(_) => 11,
    }
}

fn end_out(stage: Stage) -> u8
    ensures { result ≡ end_out stage }
{
    let e = stage_is(stage);
    let ended = e.ended;
    if ended {
        return e.end;
    }
    0
}

fn no_record(n: LoaderNumbers) -> bool
    ensures { result ≡ no_record n }
{
    (11 < n.stage)
        | (!(n.end == 0) & !(n.stage == 11))
        | (1 < n.verify)
        | (1 < n.word)
        | (1 < n.high)
}

fn polls_in(n: LoaderNumbers) -> u32
    ensures { result ≡ polls_in n }
{
    if no_record(n) {
        return 65535;
    }
    n.polls
}

// Numbers as a loader's record.
pub fn loader_in(n: LoaderNumbers) -> Loader
    ensures { result ≡ loader_in n }
{
    Loader {
        part: part_in(n.part, n.word),
        pins: pins_in(n.rp, n.wp, n.vpp),
        block: n.block,
        stage: stage_in(n.stage, n.end),
        place: n.place,
        polls: polls_in(n),
        verify: n.verify == 1,
        high: n.high == 1,
    }
}

// A loader's record as numbers.
pub fn loader_out(l: Loader) -> LoaderNumbers
    ensures { result ≡ loader_out l }
{
    let stage = l.stage;
    let word = l.part.word;
    let verify = l.verify;
    let high = l.high;
    LoaderNumbers {
        part: l.part.number,
        word: flag_out(word),
        rp: l.pins.rp,
        wp: l.pins.wp,
        block: l.block,
        stage: stage_out(stage),
        end: end_out(stage),
        verify: flag_out(verify),
        high: flag_out(high),
        vpp: l.pins.vpp,
        polls: l.polls,
        place: l.place,
    }
}

// The record that goes back for one that came in.
pub fn loader_back(n: LoaderNumbers, l: Loader) -> LoaderNumbers
    ensures { result ≡ loader_back n l }
{
    if no_record(n) {
        return n;
    }
    loader_out(l)
}

fn no_cycle() -> BusNumbers
    ensures { result ≡ no_cycle }
{
    BusNumbers {
        kind: 0,
        rp: 0,
        oe: 0,
        wp: 0,
        data: 0,
        vpp: 0,
        address: 0,
    }
}

fn saying_at(turn: u8, number: u8, address: u32, cycle: BusNumbers) -> SayingNumbers
    ensures { result ≡ saying_at turn number address cycle }
{
    SayingNumbers {
        turn: turn,
        number: number,
        address: address,
        cycle: cycle,
    }
}

// What a start or a step says, as numbers.
pub fn saying_out(saying: Saying) -> SayingNumbers
    ensures { result ≡ saying_out saying }
{
    match saying {
        Saying::Out(c) => saying_at(0, 0, 0, cycle_out(c)),
        Saying::Over(n, a) => saying_at(1, n, a, no_cycle()),
        Saying::Refused(n) => saying_at(2, n, 0, no_cycle()),
    }
}
