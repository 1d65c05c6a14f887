// Steps 1 to 3 of a cycle: what becomes of an operation before the read or write.
#![tactic(auto)]

ghost use Rattle.std.specs.Prelude.{◌≡◌};
ghost use Rattle.model_operation.specs.Settling.{cut_of, finish_of, cut_bits, residue_for, reset_by, cut_by, counted_off, suspend_passed};
ghost use Rattle.model_operation.specs.Settling.{passed_of, settle_of};

use device::Part;
use model_levels::{rp_low, vpp_low};
use model_states::{
    SR3, SR4, SR5, SR6, SR7, at_rest, in_phase, is_busy, is_pending, is_suspending, reset,
    suspend_left,
};
use model_types::{Effect, Mode, Phase, Pins, Settled, State};

// The cut of the operation that is running, being suspended or suspended.
fn cut(ph: Phase, part: Part, address: u32) -> Effect
    ensures { result ≡ cut_of ph part address }
{
    match ph {
        Phase::Free | Phase::EraseAwaited | Phase::DataAwaited => Effect::Nothing,
        Phase::Programming(b) => Effect::CutProgram(address, b),
        Phase::Erasing | Phase::Suspending(_) | Phase::Suspended => {
            Effect::CutErase(device::block_of(part, address))
        }
    }
}

// The end of the operation that is running.
fn end(ph: Phase, part: Part, address: u32) -> Effect
    ensures { result ≡ finish_of ph part address }
{
    match ph {
        Phase::Programming(b) => Effect::Program(address, b),
        Phase::Erasing => Effect::Erase(device::block_of(part, address)),
        _ => Effect::Nothing,
    }
}

// What a cut by VPP sets, and what it keeps.
const CUT_PROGRAM: u8 = SR7 + SR4 + SR3;

const CUT_ERASE: u8 = SR7 + SR5 + SR3;

const UNSUSPENDED: u8 = 0xFF - SR6;

fn cut_bits(ph: Phase) -> u8
    ensures { result ≡ cut_bits ph }
{
    match ph {
        Phase::Free | Phase::EraseAwaited | Phase::DataAwaited => 0,
        Phase::Programming(_) => CUT_PROGRAM,
        Phase::Erasing | Phase::Suspending(_) | Phase::Suspended => CUT_ERASE,
    }
}

// The residue that a cut needs, in units.
pub fn residue_for(ph: Phase, part: Part, address: u32) -> usize
    ensures { result ≡ residue_for ph part address }
{
    match ph {
        Phase::Free | Phase::EraseAwaited | Phase::DataAwaited => 0,
        Phase::Programming(_) => 1,
        Phase::Erasing | Phase::Suspending(_) | Phase::Suspended => {
            device::length(part, device::block_of(part, address))
        }
    }
}

fn reset_by(part: Part, s: State) -> Settled
    ensures { result ≡ reset_by part s }
{
    Settled {
        state: reset(s),
        effect: cut(s.phase, part, s.address),
    }
}

#[tactic(auto, unfolding(crate::specs::Settling::cut_by))]
fn cut_by(part: Part, s: State) -> Settled
    ensures { result ≡ cut_by part s }
{
    Settled {
        state: at_rest(s, Mode::Status, s.status & UNSUSPENDED | cut_bits(s.phase)),
        effect: cut(s.phase, part, s.address),
    }
}

#[tactic(auto, unfolding(crate::specs::Settling::counted_off))]
fn counted_off(part: Part, s: State) -> Settled
    ensures { result ≡ counted_off part s }
{
    if s.left <= 1 {
        return Settled {
            state: at_rest(s, s.mode, s.status | SR7),
            effect: end(s.phase, part, s.address),
        };
    }
    Settled {
        state: State {
            left: s.left - 1,
            ..s
        },
        effect: Effect::Nothing,
    }
}

// What is set as a suspend is done.
const HELD: u8 = SR7 + SR6;

// One cycle of a suspend under way passes.
#[tactic(auto, unfolding(crate::specs::Settling::suspend_passed))]
fn suspend_passed(s: State) -> Settled
    ensures { result ≡ suspend_passed s }
{
    let n = suspend_left(s.phase);
    if n <= 1 {
        return Settled {
            state: in_phase(Phase::Suspended, s.status | HELD, s),
            effect: Effect::Nothing,
        };
    }
    Settled {
        state: in_phase(Phase::Suspending(n - 1), s.status, s),
        effect: Effect::Nothing,
    }
}

// One cycle of a busy device passes.
#[tactic(auto, unfolding(crate::specs::Settling::passed_of))]
fn passed(part: Part, s: State) -> Settled
    ensures { result ≡ passed_of part s }
{
    if is_suspending(s.phase) {
        return suspend_passed(s);
    }
    counted_off(part, s)
}

// The three steps in their order.
#[tactic(auto, unfolding(crate::specs::Settling::settle_of))]
pub fn settle(part: Part, s: State, p: Pins) -> Settled
    ensures { result ≡ settle_of part s p }
{
    if rp_low(p) {
        return reset_by(part, s);
    }
    if vpp_low(part, p) & is_pending(s.phase) {
        return cut_by(part, s);
    }
    if is_busy(s.phase) {
        return passed(part, s);
    }
    Settled {
        state: s,
        effect: Effect::Nothing,
    }
}
