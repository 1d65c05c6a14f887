// What a status says of an operation that is waited for.
ghost use Rattle.std.specs.Prelude.{◌≡◌};
ghost use Rattle.loader.specs.Statuses.{is_ready, sr3, sr4, sr5, both_errors, erase_end, program_end};

use model_states::{SR3, SR4, SR5, SR7};

// SR.7 of a status.
pub fn is_ready(b: u8) -> bool
    ensures { result ≡ is_ready b }
{
    SR7 <= b
}

fn supply_end(b: u8) -> bool
    ensures { result ≡ sr3 b }
{
    b / SR3 % 2 == 1
}

fn program_error(b: u8) -> bool
    ensures { result ≡ sr4 b }
{
    b / SR4 % 2 == 1
}

fn erase_error(b: u8) -> bool
    ensures { result ≡ sr5 b }
{
    b / SR5 % 2 == 1
}

fn both_errors(b: u8) -> bool
    ensures { result ≡ both_errors b }
{
    program_error(b) & erase_error(b)
}

// How an erase ended, by its ready status: 21, 22, 23, or 0 where it went well.
pub fn erase_end(b: u8) -> u8
    ensures { result ≡ erase_end b }
{
    if supply_end(b) {
        return 21;
    }
    if both_errors(b) {
        return 22;
    }
    if erase_error(b) {
        return 23;
    }
    0
}

// How a program ended, by its ready status: 21, 22, 24, or 0 where it went well.
pub fn program_end(b: u8) -> u8
    ensures { result ≡ program_end b }
{
    if supply_end(b) {
        return 21;
    }
    if both_errors(b) {
        return 22;
    }
    if program_error(b) {
        return 24;
    }
    0
}
