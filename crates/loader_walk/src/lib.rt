// Walks over what is wanted and what the block held, unit by unit.
#![tactic(auto)]

ghost use Rattle.std.specs.Prelude.{◌≡◌, length};
ghost use Rattle.units.specs.Units.{units};
ghost use Rattle.loader_walk.specs.Walks.{must_rise, rises_in, diff_from};

// How many units lent bytes have.
pub fn units_of(word: bool, s: &[u8]) -> usize
    ensures { result ≡ length (units word s.now) }
{
    units::units_in(word, s.len())
}

// Some bit is 1 in the wanted unit where the held one has a 0.
fn must_rise(held: u16, wanted: u16) -> bool
    ensures { result ≡ must_rise held wanted }
{
    !(held & wanted == wanted)
}

// Some bit of the block must rise.
pub fn rises_in(word: bool, wanted: &[u8], scratch: &[u8]) -> bool
    ensures { result ≡ rises_in (units word wanted.now) (units word scratch.now) }
{
    (0..units_of(word, wanted)).any(|i| {
        must_rise(
            units::get_unit(word, scratch, i),
            units::get_unit(word, wanted, i),
        )
    })
}

// The first place from `from` on where the block differs from what is wanted, or its length. It is laid into its callers, so that the
// compiler may know the width.
#[inline(always)]
pub fn diff_from(word: bool, from: usize, wanted: &[u8], scratch: &[u8]) -> usize
    ensures { result ≡ diff_from from (units word wanted.now) (units word scratch.now) }
{
    let n = units_of(word, wanted);
    for i in from..n {
        if units::get_unit(word, scratch, i) != units::get_unit(word, wanted, i) {
            return i;
        }
    }
    from.max(n)
}
