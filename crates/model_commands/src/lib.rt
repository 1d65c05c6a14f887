// What a write asks for.
#![tactic(auto)]

ghost use Rattle.std.specs.Prelude.{◌≡◌};
ghost use Rattle.model_commands.specs.Commands.{command_of, asks_program, first_write, after_erase, while_erasing};
ghost use Rattle.model_commands.specs.Commands.{while_suspending, while_suspended, action_of, is_refuse};

use device::Part;
use model_types::{Action, Cycle, Phase};

// The command of a cycle: the low 8 bits.
#[tactic(auto, unfolding(crate::specs::Commands::command_of))]
pub fn command_of(c: Cycle) -> u8
    ensures { result ≡ command_of c }
{
    units::low(c.data)
}

// 40H, and 10H on the parts that know it.
#[tactic(auto, unfolding(crate::specs::Commands::asks_program))]
fn asks_program(part: Part, b: u8) -> bool
    ensures { result ≡ asks_program part b }
{
    (b == 0x40) | (device::is_large(part) & (b == 0x10))
}

#[tactic(auto, unfolding(crate::specs::Commands::first_write))]
fn first_write(part: Part, b: u8) -> Action
    ensures { result ≡ first_write part b }
{
    match b {
        0xFF | 0xB0 => Action::ToArray,
        0x90 => Action::ToIdentifier,
        0x70 => Action::ToStatus,
        0x50 => Action::Clear,
        0x20 => Action::AwaitErase,
        _ if asks_program(part, b) => Action::AwaitData,
        _ => Action::Refuse,
    }
}

#[tactic(auto, unfolding(crate::specs::Commands::after_erase))]
fn after_erase(b: u8) -> Action
    ensures { result ≡ after_erase b }
{
    match b {
        0xD0 => Action::Confirm,
        _ => Action::WrongSecond,
    }
}

#[tactic(auto, unfolding(crate::specs::Commands::while_erasing))]
fn while_erasing(b: u8) -> Action
    ensures { result ≡ while_erasing b }
{
    match b {
        0xB0 => Action::Suspend,
        _ => Action::Ignore,
    }
}

#[tactic(auto, unfolding(crate::specs::Commands::while_suspending))]
fn while_suspending(b: u8) -> Action
    ensures { result ≡ while_suspending b }
{
    match b {
        0x70 => Action::ToStatus,
        _ => Action::Ignore,
    }
}

#[tactic(auto, unfolding(crate::specs::Commands::while_suspended))]
fn while_suspended(b: u8) -> Action
    ensures { result ≡ while_suspended b }
{
    match b {
        0xFF => Action::ToArray,
        0x70 => Action::ToStatus,
        0xD0 => Action::Resume,
        _ => Action::Ignore,
    }
}

// The command rules, by what the device is about and the byte written.
pub fn action(part: Part, ph: Phase, b: u8) -> Action
    ensures { result ≡ action_of part ph b }
{
    match ph {
        Phase::Free => first_write(part, b),
        Phase::EraseAwaited => after_erase(b),
        Phase::DataAwaited => Action::Store,
        Phase::Programming(_) => Action::Ignore,
        Phase::Erasing => while_erasing(b),
        Phase::Suspending(_) => while_suspending(b),
        Phase::Suspended => while_suspended(b),
    }
}

// The write asks for nothing that there is.
pub fn is_refuse(a: Action) -> bool
    ensures { result ≡ is_refuse a }
{
    matches!(a, Action::Refuse)
}
