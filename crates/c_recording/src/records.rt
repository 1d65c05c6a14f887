// Records, and what the check of a recording answers, as plain numbers. The conversions are total: a record whose answer seen is neither
// none nor data becomes one whose cycle every rule refuses.
ghost use Rattle.std.specs.Prelude.{◌≡◌};
ghost use Rattle.c_recording.specs.Records.{heard_in, kind_seen, bus_seen, record_in, checked_out};

use crate::{CheckedNumbers, RecordNumbers};
use c_cycle::states::{DATA, NO_DATA};
use c_cycle::{BusNumbers, StateNumbers};
use recording::Noted;
use recording_walk::Checked;

fn heard_in(seen: u8, value: u16) -> Option<u16>
    ensures { result ≡ heard_in seen value }
{
    if seen == NO_DATA {
        return None;
    }
    Some(value)
}

// The kind of the cycle; where the answer seen is none that there is, a kind that is none.
fn kind_seen(seen: u8, kind: u8) -> u8
    ensures { result ≡ kind_seen seen kind }
{
    if DATA < seen {
        return 3;
    }
    kind
}

// The cycle's numbers, refused where the answer seen is none that there is.
fn bus_seen(n: RecordNumbers) -> BusNumbers
    ensures { result ≡ bus_seen n }
{
    let bus = n.bus;
    BusNumbers {
        kind: kind_seen(n.seen, bus.kind),
        rp: bus.rp,
        oe: bus.oe,
        wp: bus.wp,
        data: bus.data,
        vpp: bus.vpp,
        address: bus.address,
    }
}

// Numbers as a record of a recording.
pub fn record_in(n: RecordNumbers) -> Noted
    ensures { result ≡ record_in n }
{
    let bus = bus_seen(n);
    Noted {
        cycle: c_cycle::states::cycle_in(bus),
        heard: heard_in(n.seen, n.value),
        busy: n.busy,
    }
}

// What a check answers, as numbers, its state for the numbers that came in.
pub fn checked_out(n: StateNumbers, c: Checked) -> CheckedNumbers
    ensures { result ≡ checked_out n c }
{
    let state = c.state;
    CheckedNumbers {
        refusal: c.number,
        accepted: c_cycle::states::flag_out(c.accepted),
        at: c.at,
        state: c_cycle::states::state_back(n, state),
    }
}
