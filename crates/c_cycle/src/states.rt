// Device, state, cycle, and what a cycle answers, as plain numbers.
ghost use Rattle.std.specs.Prelude.{◌≡◌};
ghost use Rattle.c_cycle.specs.Values.{number_in, part_in, flag_out, device_in, pins_in, mode_in, mode_out, phase_in, phase_out, data_out};
ghost use Rattle.c_cycle.specs.Values.{stray_data, stray_suspend, no_state, state_in, state_out, kind_in, kind_out, oe_in, cycle_in};
ghost use Rattle.c_cycle.specs.Values.{cycle_out};
ghost use Rattle.c_cycle.specs.Answers.{state_back, seen_out, value_out, answer_out};

use crate::counts::{wear_in, wear_out};
use crate::{AnswerNumbers, BusNumbers, DeviceNumbers, StateNumbers};
use device::{Device, Part};
use model::{Answer, Seen};
use model_states::suspend_left;
use model_types::counts::unworn;
use model_types::{Cycle, Kind, Mode, Phase, Pins, State};

// Modes as numbers.
pub const ARRAY: u8 = 0;

// .. read status,
pub const STATUS: u8 = 1;

// .. identifier.
pub const IDENTIFIER: u8 = 2;

// Phases as numbers. From PROGRAMMING on an operation is running, suspended or being suspended.
pub const FREE: u8 = 0;

// .. the confirm of an erase is awaited,
pub const ERASE_AWAITED: u8 = 1;

// .. data are awaited,
pub const DATA_AWAITED: u8 = 2;

// .. a unit is being programmed,
pub const PROGRAMMING: u8 = 3;

// .. a block is being erased,
pub const ERASING: u8 = 4;

// .. an erase is suspended,
pub const SUSPENDED: u8 = 5;

// .. an erase is being suspended.
pub const SUSPENDING: u8 = 6;

// Kinds of cycle as numbers.
pub const READ: u8 = 0;

// .. a write,
pub const WRITE: u8 = 1;

// .. an idle cycle.
pub const IDLE: u8 = 2;

// What a cycle answers, as a number.
pub const NO_DATA: u8 = 0;

// .. data,
pub const DATA: u8 = 1;

// .. a refusal.
pub const REFUSED: u8 = 2;

// The number of a part; where the mode is none, a number that is no part's.
fn number_in(number: u8, word: u8) -> u8
    ensures { result ≡ number_in number word }
{
    if 1 < word {
        return 0;
    }
    number
}

// A part by its number and its mode.
pub fn part_in(number: u8, word: u8) -> Part
    ensures { result ≡ part_in number word }
{
    Part {
        number: number_in(number, word),
        word: word == 1,
    }
}

// A flag as a number.
pub fn flag_out(flag: bool) -> u8
    ensures { result ≡ flag_out flag }
{
    if flag {
        return 1;
    }
    0
}

// The device that five numbers name.
pub fn device_in(n: DeviceNumbers) -> Device
    ensures { result ≡ device_in n }
{
    Device {
        part: part_in(n.number, n.word),
        program: n.program,
        erase: n.erase,
        suspend: n.suspend,
    }
}

// The levels that a run keeps fixed.
pub fn pins_in(rp: u8, wp: u8, vpp: u32) -> Pins
    ensures { result ≡ pins_in rp wp vpp }
{
    Pins {
        rp: rp,
        wp: wp,
        vpp: vpp,
    }
}

fn mode_in(n: u8) -> Mode
    ensures { result ≡ mode_in n }
{
    if n == ARRAY {
        return Mode::Array;
    }
    if n == STATUS {
        return Mode::Status;
    }
    Mode::Identifier
}

fn mode_out(m: Mode) -> u8
    ensures { result ≡ mode_out m }
{
    match m {
        Mode::Array => ARRAY,
        Mode::Status => STATUS,
        Mode::Identifier => IDENTIFIER,
    }
}

// A phase by its number, with the unit that is programmed or the cycles that a suspend still takes.
pub fn phase_in(n: u8, unit: u16, suspend: u8) -> Phase
    ensures { result ≡ phase_in n unit suspend }
{
    if n == FREE {
        return Phase::Free;
    }
    if n == ERASE_AWAITED {
        return Phase::EraseAwaited;
    }
    if n == DATA_AWAITED {
        return Phase::DataAwaited;
    }
    if n == PROGRAMMING {
        return Phase::Programming(unit);
    }
    if n == ERASING {
        return Phase::Erasing;
    }
    if n == SUSPENDED {
        return Phase::Suspended;
    }
    Phase::Suspending(suspend)
}

fn phase_out(ph: Phase) -> u8
    ensures { result ≡ phase_out ph }
{
    match ph {
        Phase::Free => FREE,
        Phase::EraseAwaited => ERASE_AWAITED,
        Phase::DataAwaited => DATA_AWAITED,
        Phase::Programming(_) => PROGRAMMING,
        Phase::Erasing => ERASING,
        Phase::Suspending(_) => SUSPENDING,
        Phase::Suspended => SUSPENDED,
    }
}

fn data_out(ph: Phase) -> u16
    ensures { result ≡ data_out ph }
{
    match ph {
        Phase::Free => 0,
        Phase::EraseAwaited => 0,
        Phase::DataAwaited => 0,
        Phase::Programming(unit) => unit,
        Phase::Erasing => 0,
        Phase::Suspending(_) => 0,
        Phase::Suspended => 0,
    }
}

// Data only where they are being programmed.
fn stray_data(n: StateNumbers) -> bool
    ensures { result ≡ stray_data n }
{
    !(n.data == 0) & !(n.phase == PROGRAMMING)
}

// A suspend's cycles only where one is under way.
fn stray_suspend(n: StateNumbers) -> bool
    ensures { result ≡ stray_suspend n }
{
    !(n.suspend == 0) & !(n.phase == SUSPENDING)
}

fn no_state(n: StateNumbers) -> bool
    ensures { result ≡ no_state n }
{
    (IDENTIFIER < n.mode) | (SUSPENDING < n.phase) | stray_data(n) | stray_suspend(n)
}

// Numbers as a state; those that stand for none become a state that no device has.
pub fn state_in(n: StateNumbers) -> State
    ensures { result ≡ state_in n }
{
    if no_state(n) {
        return State {
            mode: Mode::Array,
            status: 0,
            phase: Phase::Free,
            left: 0,
            address: 0,
            wear: unworn(),
        };
    }
    let w = n.wear;
    State {
        mode: mode_in(n.mode),
        status: n.status,
        phase: phase_in(n.phase, n.data, n.suspend),
        left: n.left,
        address: n.address,
        wear: wear_in(w),
    }
}

// A state as numbers.
pub fn state_out(s: State) -> StateNumbers
    ensures { result ≡ state_out s }
{
    let m = s.mode;
    let ph = s.phase;
    let w = s.wear;
    StateNumbers {
        mode: mode_out(m),
        status: s.status,
        phase: phase_out(ph),
        suspend: suspend_left(ph),
        left: s.left,
        data: data_out(ph),
        address: s.address,
        wear: wear_out(w),
    }
}

// The state that goes back for one that came in.
pub fn state_back(n: StateNumbers, s: State) -> StateNumbers
    ensures { result ≡ state_back n s }
{
    if no_state(n) {
        return n;
    }
    state_out(s)
}

fn kind_in(n: u8) -> Kind
    ensures { result ≡ kind_in n }
{
    if n == READ {
        return Kind::Read;
    }
    if n == WRITE {
        return Kind::Write;
    }
    Kind::Idle
}

fn kind_out(kind: Kind) -> u8
    ensures { result ≡ kind_out kind }
{
    match kind {
        Kind::Read => READ,
        Kind::Write => WRITE,
        Kind::Idle => IDLE,
    }
}

fn oe_in(kind: u8, oe: u8) -> u8
    ensures { result ≡ oe_in kind oe }
{
    if IDLE < kind {
        return 2;
    }
    oe
}

// Numbers as a cycle.
pub fn cycle_in(n: BusNumbers) -> Cycle
    ensures { result ≡ cycle_in n }
{
    Cycle {
        kind: kind_in(n.kind),
        pins: pins_in(n.rp, n.wp, n.vpp),
        oe: oe_in(n.kind, n.oe),
        address: n.address,
        data: n.data,
    }
}

// A cycle as numbers.
pub fn cycle_out(c: Cycle) -> BusNumbers
    ensures { result ≡ cycle_out c }
{
    let kind = c.kind;
    BusNumbers {
        kind: kind_out(kind),
        rp: c.pins.rp,
        oe: c.oe,
        wp: c.pins.wp,
        data: c.data,
        vpp: c.pins.vpp,
        address: c.address,
    }
}

fn seen_out(seen: Seen) -> u8
    ensures { result ≡ seen_out seen }
{
    match seen {
        Seen::NoData => NO_DATA,
        Seen::Data(_) => DATA,
        Seen::Refused(_) => REFUSED,
    }
}

fn value_out(seen: Seen) -> u16
    ensures { result ≡ value_out seen }
{
    match seen {
        Seen::NoData => 0,
        Seen::Data(v) => v,
        Seen::Refused(n) => units::wide(n),
    }
}

// An answer as numbers, its state for the numbers that came in.
pub fn answer_out(n: StateNumbers, a: Answer) -> AnswerNumbers
    ensures { result ≡ answer_out n a }
{
    let seen = a.seen;
    let state = a.state;
    AnswerNumbers {
        seen: seen_out(seen),
        value: value_out(seen),
        state: state_back(n, state),
    }
}
