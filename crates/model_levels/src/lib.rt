// Pin levels and supply bands.
#![tactic(auto)]

ghost use Rattle.std.specs.Prelude.{◌≡◌};
ghost use Rattle.model_levels.specs.Levels.{rp_low, vpp_low, at_twelve, at_five, vpp_high, bad_wp, bad_pins, most_oe, bad_oe, bad_levels};
ghost use Rattle.model_levels.specs.Levels.{unlocked, locked};

use device::Part;
use model_types::{Cycle, Kind, Pins};

// RP# is low.
pub fn rp_low(p: Pins) -> bool
    ensures { result ≡ rp_low p }
{
    p.rp == 0
}

// VPP is low.
#[tactic(auto, unfolding(crate::specs::Levels::vpp_low))]
pub fn vpp_low(part: Part, p: Pins) -> bool
    ensures { result ≡ vpp_low part p }
{
    if device::is_large(part) {
        return p.vpp <= 1500;
    }
    p.vpp <= 6500
}

#[tactic(auto, unfolding(crate::specs::Levels::at_twelve))]
fn at_twelve(p: Pins) -> bool
    ensures { result ≡ at_twelve p }
{
    (11400 <= p.vpp) & (p.vpp <= 12600)
}

#[tactic(auto, unfolding(crate::specs::Levels::at_five))]
fn at_five(p: Pins) -> bool
    ensures { result ≡ at_five p }
{
    (4500 <= p.vpp) & (p.vpp <= 5500)
}

// VPP is high.
#[tactic(auto, unfolding(crate::specs::Levels::vpp_high))]
pub fn vpp_high(part: Part, p: Pins) -> bool
    ensures { result ≡ vpp_high part p }
{
    if device::is_large(part) {
        return at_five(p) | at_twelve(p);
    }
    at_twelve(p)
}

// WP# is no level, on a part that has it.
#[tactic(auto, unfolding(crate::specs::Levels::bad_wp))]
fn bad_wp(part: Part, p: Pins) -> bool
    ensures { result ≡ bad_wp part p }
{
    device::is_large(part) & (1 < p.wp)
}

// A level of RP#, VPP or WP# that there is not.
#[tactic(auto, unfolding(crate::specs::Levels::bad_pins))]
pub fn bad_pins(part: Part, p: Pins) -> bool
    ensures { result ≡ bad_pins part p }
{
    (2 < p.rp) | !(vpp_low(part, p) | vpp_high(part, p)) | bad_wp(part, p)
}

// The highest level of OE# on a write.
#[tactic(auto, unfolding(crate::specs::Levels::most_oe))]
fn most_oe(part: Part) -> u8
    ensures { result ≡ most_oe part }
{
    if device::is_large(part) {
        return 0;
    }
    1
}

fn bad_oe(part: Part, kind: Kind, oe: u8) -> bool
    ensures { result ≡ bad_oe part kind oe }
{
    match kind {
        Kind::Read | Kind::Idle => 0 < oe,
        Kind::Write => most_oe(part) < oe,
    }
}

// Refusal 4.
#[tactic(auto, unfolding(crate::specs::Levels::bad_levels))]
pub fn bad_levels(part: Part, c: Cycle) -> bool
    ensures { result ≡ bad_levels part c }
{
    bad_pins(part, c.pins) | bad_oe(part, c.kind, c.oe)
}

// RP# or OE# at V_HH unlocks the boot block; on devices 5 to 8 RP# at V_HH or WP# high.
#[tactic(auto, unfolding(crate::specs::Levels::unlocked))]
pub fn unlocked(part: Part, p: Pins, oe: u8) -> bool
    ensures { result ≡ unlocked part p oe }
{
    if device::is_large(part) {
        return (p.rp == 2) | (p.wp == 1);
    }
    (p.rp == 2) | (oe == 1)
}

// The address is in the boot block, and nothing unlocks it.
#[tactic(auto, unfolding(crate::specs::Levels::locked))]
pub fn locked(part: Part, c: Cycle) -> bool
    ensures { result ≡ locked part c }
{
    if unlocked(part, c.pins, c.oe) {
        return false;
    }
    device::block_of(part, c.address) == 0
}
