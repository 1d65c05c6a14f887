// What comes of a write: what an action makes of the state.
#![tactic(auto)]

ghost use Rattle.std.specs.Prelude.{◌≡◌};
ghost use Rattle.model_types.specs.Status.{SR4};
ghost use Rattle.model_types.specs.declared.Phase.TheVariants.{Programming};
ghost use Rattle.model_actions.specs.Performed.{data_of};
ghost use Rattle.model_actions.specs.Performed.{in_mode, with_status, unsupplied};
ghost use Rattle.model_actions.specs.Performed.{wear_by, started_of, performed_of};

use device::{Device, Part};
use model_levels::{locked, vpp_low};
use model_states::{SR3, SR4, SR5, SR6, SR7, at_rest, in_phase};
use model_types::counts::wear_out;
use model_types::{Action, Cycle, Mode, Phase, State, Wear};

// What is set by a wrong second write.
const ERRORS: u8 = SR5 + SR4;

// What is kept: by a start, by a resume, and by 50H.
const BUSY: u8 = 0xFF - SR7;

const RESUMED: u8 = 0xFF - SR7 - SR6;

const CLEARED: u8 = 0xFF - SR5 - SR4 - SR3;

// The data of a cycle: in byte mode the high byte is not looked at.
#[tactic(auto, unfolding(crate::specs::Performed::data_of))]
fn data_of(part: Part, c: Cycle) -> u16
    ensures { result ≡ data_of part c }
{
    units::carry(part.word, c.data)
}

fn in_mode(m: Mode, s: State) -> State
    ensures { result ≡ in_mode m s }
{
    State { mode: m, ..s }
}

fn with_status(status: u8, s: State) -> State
    ensures { result ≡ with_status status s }
{
    State { status, ..s }
}

#[tactic(auto, unfolding(crate::specs::Performed::unsupplied))]
fn unsupplied(part: Part, c: Cycle, s: State) -> bool
    ensures { result ≡ unsupplied part c s }
{
    vpp_low(part, c.pins) | (s.status / SR3 % 2 != 0)
}

// The counts after an operation starts at this cycle's address: an erase counts at its block.
fn wear_of(ph: Phase, part: Part, c: Cycle, w: Wear) -> Wear
    ensures { result ≡ wear_by ph part c w }
{
    match ph {
        Phase::Erasing => wear_out(w, device::block_of(part, c.address)),
        _ => w,
    }
}

// A confirm or data: the operation starts, or the error bits say why not.
#[tactic(auto, unfolding(crate::specs::Performed::started_of))]
fn begin(part: Part, c: Cycle, s: State, ph: Phase, time: u16, bit: u8) -> State
    ensures { result ≡ started_of part c s ph time bit }
{
    if unsupplied(part, c, s) {
        return at_rest(s, s.mode, s.status | SR3 | bit);
    }
    if locked(part, c) {
        return at_rest(s, s.mode, s.status | bit);
    }
    State {
        status: s.status & BUSY,
        phase: ph,
        left: time,
        address: c.address,
        wear: wear_of(ph, part, c, s.wear),
        ..s
    }
}

// Data: a program starts, or the error bits say why not.
#[tactic(auto, unfolding(crate::specs::Performed::started_of))]
fn send(part: Part, c: Cycle, s: State, time: u16) -> State
    ensures { result ≡ started_of part c s (Programming (data_of part c)) time SR4 }
{
    begin(part, c, s, Phase::Programming(data_of(part, c)), time, SR4)
}

// What an action makes of the state.
pub fn perform(a: Action, d: Device, c: Cycle, s: State) -> State
    ensures { result ≡ performed_of a d c s }
{
    let part = d.part;
    match a {
        Action::ToArray => in_mode(Mode::Array, s),
        Action::ToIdentifier => in_mode(Mode::Identifier, s),
        Action::ToStatus => in_mode(Mode::Status, s),
        Action::Clear => with_status(s.status & CLEARED, s),
        Action::AwaitErase => in_phase(Phase::EraseAwaited, s.status, s),
        Action::AwaitData => in_phase(Phase::DataAwaited, s.status, s),
        Action::Confirm => begin(part, c, s, Phase::Erasing, d.erase, SR5),
        Action::Store => send(part, c, s, d.program),
        Action::WrongSecond => at_rest(s, s.mode, s.status | ERRORS),
        Action::Suspend => in_phase(Phase::Suspending(d.suspend), s.status, s),
        Action::Resume => in_phase(Phase::Erasing, s.status & RESUMED, s),
        Action::Ignore | Action::Refuse => s,
    }
}
