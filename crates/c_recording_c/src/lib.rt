// The check of a recording for a C program, in an archive of its own: the export hands its parameters to the function of its name in
// c_recording and promises what that does. include/torfbarke.h declares it.
#![tactic(auto)]

ghost use Rattle.std.specs.Prelude.{◌≡◌};
ghost use Rattle.c_recording.specs.Records.{checked_returned, array_checked};

use c_cycle::{DeviceNumbers, StateNumbers};
use c_recording::{CheckedNumbers, RecordNumbers};

// A recording: a list of records walked to its end.
#[unsafe(no_mangle)]
pub extern "C" fn tb_recording(
    device: DeviceNumbers,
    state: StateNumbers,
    list: &[RecordNumbers],
    promised: &[u8],
    array: &mut [u8],
) -> CheckedNumbers
    ensures { (result ≡ checked_returned device state list.now promised.now array.old)
        × (array.new ≡ array_checked device state list.now array.old) }
{
    c_recording::tb_recording(device, state, list, promised, array)
}
