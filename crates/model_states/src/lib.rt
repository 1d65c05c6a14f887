// Device states: the status register, and what makes a state proper.
#![tactic(auto)]

ghost use Rattle.std.specs.Prelude.{◌≡◌};
ghost use Rattle.model_states.specs.States.{most_left, is_array, is_status, is_identifier, improper, is_at_rest, in_phase};
ghost use Rattle.model_states.specs.States.{fresh_state, reset_of};
ghost use Rattle.model_states.specs.Inner.{top_bits, bad_mode, bad_status, bad_suspend, bad_left, bad_address};
ghost use Rattle.model_types.specs.Phases.{is_busy, is_suspending, suspend_left, is_pending};

use device::Device;
use model_types::counts::unworn;
use model_types::{Mode, Phase, State};

// The bits of the status register: ready, erase suspended, erase error, program error, VPP low.
pub const SR7: u8 = 0x80;

// .. erase suspended,
pub const SR6: u8 = 0x40;

// .. erase error,
pub const SR5: u8 = 0x20;

// .. program error,
pub const SR4: u8 = 0x10;

// .. VPP low.
pub const SR3: u8 = 0x08;

// An operation is running, or a suspend of it is under way.
pub fn is_busy(ph: Phase) -> bool
    ensures { result ≡ is_busy ph }
{
    matches!(
        ph,
        Phase::Programming(_) | Phase::Erasing | Phase::Suspending(_)
    )
}

// A suspend is under way: the erase stands still.
pub fn is_suspending(ph: Phase) -> bool
    ensures { result ≡ is_suspending ph }
{
    matches!(ph, Phase::Suspending(_))
}

// The cycles that a suspend under way has to go.
pub fn suspend_left(ph: Phase) -> u8
    ensures { result ≡ suspend_left ph }
{
    match ph {
        Phase::Suspending(n) => n,
        _ => 0,
    }
}

// An operation is running, being suspended or suspended.
pub fn is_pending(ph: Phase) -> bool
    ensures { result ≡ is_pending ph }
{
    is_busy(ph) | matches!(ph, Phase::Suspended)
}

fn top_bits(ph: Phase) -> u8
    ensures { result ≡ top_bits ph }
{
    match ph {
        Phase::Free | Phase::EraseAwaited | Phase::DataAwaited => 2,
        Phase::Programming(_) | Phase::Erasing | Phase::Suspending(_) => 0,
        Phase::Suspended => 3,
    }
}

fn most_left(d: Device, ph: Phase) -> u16
    ensures { result ≡ most_left d ph }
{
    match ph {
        Phase::Free | Phase::EraseAwaited | Phase::DataAwaited => 0,
        Phase::Programming(_) => d.program,
        Phase::Erasing | Phase::Suspending(_) | Phase::Suspended => d.erase,
    }
}

// The mode is read array.
pub fn is_array(m: Mode) -> bool
    ensures { result ≡ is_array m }
{
    matches!(m, Mode::Array)
}

fn is_status(m: Mode) -> bool
    ensures { result ≡ is_status m }
{
    matches!(m, Mode::Status)
}

// The mode is identifier.
pub fn is_identifier(m: Mode) -> bool
    ensures { result ≡ is_identifier m }
{
    matches!(m, Mode::Identifier)
}

fn bad_mode(ph: Phase, m: Mode) -> bool
    ensures { result ≡ bad_mode ph m }
{
    match ph {
        Phase::Free => false,
        Phase::Suspended => is_identifier(m),
        _ => !is_status(m),
    }
}

#[tactic(auto, unfolding(crate::specs::Inner::bad_status))]
fn bad_status(ph: Phase, status: u8) -> bool
    ensures { result ≡ bad_status ph status }
{
    (status % SR3 != 0) | (status / SR6 != top_bits(ph))
}

fn bad_suspend(d: Device, ph: Phase) -> bool
    ensures { result ≡ bad_suspend d ph }
{
    match ph {
        Phase::Suspending(n) => (n == 0) | (d.suspend < n),
        _ => false,
    }
}

#[tactic(auto, unfolding(crate::specs::Inner::bad_left))]
fn bad_left(d: Device, ph: Phase, left: u16) -> bool
    ensures { result ≡ bad_left d ph left }
{
    if is_pending(ph) {
        return (left == 0) | (most_left(d, ph) < left) | bad_suspend(d, ph);
    }
    left != 0
}

#[tactic(auto, unfolding(crate::specs::Inner::bad_address))]
fn bad_address(d: Device, ph: Phase, address: u32) -> bool
    ensures { result ≡ bad_address d ph address }
{
    if is_pending(ph) {
        return device::size(d.part) <= address as usize;
    }
    address != 0
}

// Refusal 3.
pub fn improper(d: Device, s: State) -> bool
    ensures { result ≡ improper d s }
{
    bad_mode(s.phase, s.mode)
        | bad_status(s.phase, s.status)
        | bad_left(d, s.phase, s.left)
        | bad_address(d, s.phase, s.address)
}

// A state come to rest: nothing awaited, running or suspended; the counts of erases stay.
pub fn at_rest(s: State, m: Mode, status: u8) -> State
    ensures { result ≡ is_at_rest s m status }
{
    State {
        mode: m,
        status,
        phase: Phase::Free,
        left: 0,
        address: 0,
        ..s
    }
}

// A state in another phase and status, mode read status.
pub fn in_phase(ph: Phase, status: u8, s: State) -> State
    ensures { result ≡ in_phase ph status s }
{
    State {
        mode: Mode::Status,
        status,
        phase: ph,
        ..s
    }
}

// A fresh device: read array, 80H.
pub fn fresh() -> State
    ensures { result ≡ fresh_state }
{
    State {
        mode: Mode::Array,
        status: SR7,
        phase: Phase::Free,
        left: 0,
        address: 0,
        wear: unworn(),
    }
}

// What RP# low makes of a state.
pub fn reset(s: State) -> State
    ensures { result ≡ reset_of s }
{
    at_rest(s, Mode::Array, SR7)
}
