// The cycle that is out.
ghost use Rattle.std.specs.Prelude.{◌≡◌};
ghost use Rattle.units.specs.Units.{units};
ghost use Rattle.loader_steps.specs.Addresses.{first_address};
ghost use Rattle.loader_steps.specs.Inner.{here_of};
ghost use Rattle.loader_steps.specs.Outs.{byte_here, address_in, carried_in, cycle_at, cycle_at_stage, cycle_of};

use loader::stages::stage_is;
use loader::{Loader, Stage};
use model_types::{Cycle, Kind};

// The block's first address.
pub fn first(l: Loader) -> u32
    ensures { result ≡ first_address l }
{
    device::start(l.part, l.block) as u32
}

// The address of the unit at the record's place, by the block's first address.
fn here(start: u32, l: Loader) -> u32
    requires { start ≡ first_address l }
    ensures { result ≡ here_of l }
{
    if l.place < 16777216 {
        return start + l.place as u32;
    }
    start
}

// The byte address of the byte that differs there.
pub(crate) fn byte_here(l: Loader) -> u32
    ensures { result ≡ byte_here l }
{
    let a = first(l);
    units::byte_at(l.part.word, here(a, l), l.high) as u32
}

fn cycle_at(l: Loader, kind: Kind, address: u32, v: u16) -> Cycle
    ensures { result ≡ cycle_at l kind address v }
{
    Cycle {
        kind,
        pins: l.pins,
        oe: 0,
        address,
        data: v,
    }
}

// Where the cycle goes.
fn address_in(here: bool, first: u32, at: u32) -> u32
    ensures { result ≡ address_in here first at }
{
    if here {
        return at;
    }
    first
}

// What it carries.
fn carried_in(own: bool, command: u8, place: usize, word: bool, wanted: &[u8]) -> u16
    ensures { result ≡ carried_in own command place (units word wanted.now) }
{
    if own {
        return units::get_unit(word, wanted, place);
    }
    units::wide(command)
}

// The cycle that is out, by the block's first address and that of the unit at the record's place.
pub fn cycle_in(stage: Stage, first: u32, here: u32, l: Loader, wanted: &[u8]) -> Cycle
    ensures { result ≡ cycle_at_stage stage first here l (units l.part.word wanted.now) }
{
    let e = stage_is(stage);
    let address = address_in(e.here, first, here);
    let word = l.part.word;
    cycle_at(
        l,
        e.kind,
        address,
        carried_in(e.wanted, e.command, l.place, word, wanted),
    )
}

// The cycle that is out.
pub fn out(l: Loader, wanted: &[u8]) -> Cycle
    ensures { result ≡ cycle_of l (units l.part.word wanted.now) }
{
    let a = first(l);
    cycle_in(l.stage, a, here(a, l), l, wanted)
}
