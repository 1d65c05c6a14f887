// Refusals 1 to 6 of a bus cycle, on values alone.
#![tactic(auto)]

ghost use Rattle.std.specs.Prelude.{◌≡◌, not, ◌||◌, eqb};
ghost use Rattle.model_levels.specs.Levels.{rp_low, vpp_low};
ghost use Rattle.device.specs.Parts.{size_of};
ghost use Rattle.model_judge.specs.Judging.{past_array, short_residue, judge_of};
ghost use Rattle.model_types.specs.Kinds.{is_idle};

use device::{Device, Part};
use model_levels::{bad_levels, rp_low, vpp_low};
use model_operation::residue_for;
use model_states::improper;
use model_types::{Cycle, Kind, Pins, State};

fn is_idle(kind: Kind) -> bool
    ensures { result ≡ is_idle kind }
{
    matches!(kind, Kind::Idle)
}

// Refusal 5.
#[tactic(auto, unfolding(crate::specs::Judging::past_array))]
fn past_array(part: Part, c: Cycle) -> bool
    ensures { result ≡ past_array part c }
{
    (device::size(part) <= c.address as usize) & !rp_low(c.pins) & !is_idle(c.kind)
}

// A cycle with such levels cuts what is running or suspended.
fn cuts(part: Part, p: Pins) -> bool
    ensures { result ≡ (rp_low p || vpp_low part p) }
{
    rp_low(p) | vpp_low(part, p)
}

// Refusal 6.
#[tactic(auto, unfolding(crate::specs::Judging::short_residue))]
fn short_residue(part: Part, s: State, c: Cycle, residue: usize) -> bool
    ensures { result ≡ short_residue part s c residue }
{
    if cuts(part, c.pins) {
        return residue < residue_for(s.phase, part, s.address);
    }
    false
}

fn wrong_length(part: Part, array: usize) -> bool
    ensures { result ≡ not (eqb array (size_of part)) }
{
    array != device::size(part)
}

// Refusals 1 to 6, the lowest that applies, or 0. The lengths are in units.
#[tactic(auto, unfolding(crate::specs::Judging::judge_of))]
pub fn judge(d: Device, s: State, c: Cycle, array: usize, residue: usize) -> u8
    ensures { result ≡ judge_of d s c array residue }
{
    let part = d.part;
    if device::unknown_device(d) {
        return 1;
    }
    if wrong_length(part, array) {
        return 2;
    }
    if improper(d, s) {
        return 3;
    }
    if bad_levels(part, c) {
        return 4;
    }
    if past_array(part, c) {
        return 5;
    }
    if short_residue(part, s, c, residue) {
        return 6;
    }
    0
}
