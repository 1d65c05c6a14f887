// One bus cycle on values alone, once it is judged: settle, respond. No slice comes near it.
#![tactic(auto)]

ghost use Rattle.std.specs.Prelude.{◌≡◌};
ghost use Rattle.model_rules.specs.Cycles.{refused_by, skips_last, code_place, identifier_of};
ghost use Rattle.model_rules.specs.Inner.{settled_by, in_suspended, decide_array, decide_identifier, decide_read, decide_write};
ghost use Rattle.model_rules.specs.Inner.{decide_kind};
ghost use Rattle.model_rules.specs.Inner.{decide_judged, asks_array};
ghost use Rattle.model_types.specs.Phases.{is_suspended, is_free};
ghost use Rattle.model_types.specs.Kinds.{is_read};

use device::{Device, Part};
use model_actions::perform;
use model_commands::{action, command_of, is_refuse};
use model_levels::rp_low;
use model_operation::settle;
use model_states::is_array;
use model_types::{Action, Cycle, Decision, Effect, Kind, Mode, Phase, Reply, Settled, State};

fn is_read(kind: Kind) -> bool
    ensures { result ≡ is_read kind }
{
    matches!(kind, Kind::Read)
}

fn is_free(ph: Phase) -> bool
    ensures { result ≡ is_free ph }
{
    matches!(ph, Phase::Free)
}

fn is_suspended(ph: Phase) -> bool
    ensures { result ≡ is_suspended ph }
{
    matches!(ph, Phase::Suspended)
}

fn refused(n: u8, s: State) -> Decision
    ensures { result ≡ refused_by n s }
{
    Decision {
        reply: Reply::Refuses(n),
        state: s,
        effect: Effect::Nothing,
    }
}

#[tactic(auto, unfolding(crate::specs::Cycles::skips_last))]
fn skips_last(part: Part) -> bool
    ensures { result ≡ skips_last part }
{
    device::is_large(part) & !part.word
}

// Which code an address asks for: more than 1 is none.
#[tactic(auto, unfolding(crate::specs::Cycles::code_place))]
pub fn code_place(part: Part, address: u32) -> u32
    ensures { result ≡ code_place part address }
{
    if skips_last(part) {
        return address / 2;
    }
    address
}

// The code at an address: the maker's, or the part's own.
#[tactic(auto, unfolding(crate::specs::Cycles::identifier_of))]
pub fn identifier(part: Part, address: u32) -> u16
    ensures { result ≡ identifier_of part address }
{
    if code_place(part, address) == 0 {
        return 0x89;
    }
    device::code(part)
}

// The settled state and effect under a reply. Step 4 in its parts is public for an engine that tells a write's action in another way.
pub fn settled_by(reply: Reply, t: Settled) -> Decision
    ensures { result ≡ settled_by reply t }
{
    Decision {
        reply,
        state: t.state,
        effect: t.effect,
    }
}

// The address is in the suspended block.
#[tactic(auto, unfolding(crate::specs::Inner::in_suspended))]
fn in_suspended(part: Part, s: State, address: u32) -> bool
    ensures { result ≡ in_suspended part s address }
{
    if is_suspended(s.phase) {
        return device::block_of(part, address) == device::block_of(part, s.address);
    }
    false
}

// An array read: 8, or the byte.
#[tactic(auto, unfolding(crate::specs::Inner::decide_array))]
fn read_array(part: Part, s: State, c: Cycle, t: Settled) -> Decision
    ensures { result ≡ decide_array part s c t }
{
    if in_suspended(part, t.state, c.address) {
        return refused(8, s);
    }
    settled_by(Reply::GivesArray(c.address), t)
}

// An identifier read: 9, or the code.
#[tactic(auto, unfolding(crate::specs::Inner::decide_identifier))]
fn read_identifier(part: Part, s: State, c: Cycle, t: Settled) -> Decision
    ensures { result ≡ decide_identifier part s c t }
{
    if 1 < code_place(part, c.address) {
        return refused(9, s);
    }
    settled_by(Reply::Gives(identifier(part, c.address)), t)
}

// The status as a read gives it: its high byte is 0.
fn sixteen(x: u8) -> u16
    ensures { result ≡ x }
{
    x as u16
}

// A read, by mode.
pub fn read(m: Mode, part: Part, s: State, c: Cycle, t: Settled) -> Decision
    ensures { result ≡ decide_read m part s c t }
{
    match m {
        Mode::Array => read_array(part, s, c, t),
        Mode::Status => settled_by(Reply::Gives(sixteen(t.state.status)), t),
        Mode::Identifier => read_identifier(part, s, c, t),
    }
}

// A write, by the action that it asks for: 7, or what comes of it.
#[tactic(auto, unfolding(crate::specs::Inner::decide_write))]
pub fn write(a: Action, d: Device, s: State, c: Cycle, t: Settled) -> Decision
    ensures { result ≡ decide_write a d s c t }
{
    let after = t.state;
    if is_refuse(a) {
        return refused(7, s);
    }
    Decision {
        reply: Reply::Quiet,
        state: perform(a, d, c, after),
        effect: t.effect,
    }
}

// Step 4: the read or write itself, or its refusal by the state that settling leaves.
fn respond(kind: Kind, d: Device, s: State, c: Cycle, t: Settled) -> Decision
    ensures { result ≡ decide_kind kind d s c t }
{
    match kind {
        Kind::Read => read(t.state.mode, d.part, s, c, t),
        Kind::Write => {
            let a = action(d.part, t.state.phase, command_of(c));
            write(a, d, s, c, t)
        }
        Kind::Idle => settled_by(Reply::Quiet, t),
    }
}

// Only for callers that know refusals 1 to 6 not to apply. With RP# low the cycle ends after step 1.
#[tactic(auto, unfolding(crate::specs::Inner::decide_judged))]
pub fn decide_judged(d: Device, s: State, c: Cycle) -> Decision
    ensures { result ≡ decide_judged d s c }
{
    let t = settle(d.part, s, c.pins);
    if rp_low(c.pins) {
        return settled_by(Reply::Quiet, t);
    }
    respond(c.kind, d, s, c, t)
}

// An array read of a device at rest with RP# up: the commonest cycle, told from all others at small cost.
#[tactic(auto, unfolding(crate::specs::Inner::asks_array))]
pub fn asks_array(s: State, c: Cycle) -> bool
    ensures { result ≡ asks_array s c }
{
    is_read(c.kind) & is_free(s.phase) & is_array(s.mode) & !rp_low(c.pins)
}
