// What is run, and what a run or a load returns, as plain numbers.
ghost use Rattle.std.specs.Prelude.{◌≡◌};
ghost use Rattle.c_records.specs.Records.{job_in, ran_out};

use crate::RanNumbers;
use c_cycle::states::{device_in, pins_in, state_back, state_in};
use c_cycle::{DeviceNumbers, StateNumbers};
use loader::Work;
use loader_run::{Job, Ran};

// A work on a device in a state, by their numbers, with the levels on it.
pub fn job_in(
    work: Work,
    device: DeviceNumbers,
    state: StateNumbers,
    rp: u8,
    wp: u8,
    vpp: u32,
    block: u8,
) -> Job
    ensures { result ≡ job_in work device state rp wp vpp block }
{
    Job {
        device: device_in(device),
        state: state_in(state),
        pins: pins_in(rp, wp, vpp),
        block: block,
        work: work,
    }
}

// Its state is for the numbers that came in.
pub fn ran_out(n: StateNumbers, ran: Ran) -> RanNumbers
    ensures { result ≡ ran_out n ran }
{
    let state = ran.state;
    RanNumbers {
        count: ran.count,
        end: ran.end,
        address: ran.address,
        state: state_back(n, state),
    }
}
