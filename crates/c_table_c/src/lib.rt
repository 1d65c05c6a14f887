// The second engine for a C program, in an archive of its own: the export hands its parameters to the function of its name in c_table and
// promises what that does. include/torfbarke.h declares it.
#![tactic(auto)]

ghost use Rattle.std.specs.Prelude.{◌≡◌};
ghost use Rattle.c_cycle.specs.Answers.{cycled, array_cycled};

use c_cycle::{AnswerNumbers, BusNumbers, DeviceNumbers, StateNumbers};

// One bus cycle, by the table.
#[unsafe(no_mangle)]
pub extern "C" fn tb_table_cycle(
    device: DeviceNumbers,
    state: StateNumbers,
    bus: BusNumbers,
    array: &mut [u8],
    residue: &[u8],
) -> AnswerNumbers
    ensures result { result ≡ cycled device state bus array.old residue.now }
    ensures array_left { array.new ≡ array_cycled device state bus array.old residue.now }
{
    c_table::tb_table_cycle(device, state, bus, array, residue)
}
