// The second engine for a C program, in an archive of its own: beside the first one the compiler would lay neither into its callers.
// include/torfbarke.h declares it.
#![tactic(auto)]

ghost use Rattle.std.specs.Prelude.{◌≡◌};
ghost use Rattle.c_cycle.specs.Answers.{cycled, array_cycled};

use c_cycle::{AnswerNumbers, BusNumbers, DeviceNumbers, StateNumbers};

// One bus cycle, by the table.
#[unsafe(no_mangle)]
pub extern "C" fn tb_table_cycle(
    device: DeviceNumbers,
    state: StateNumbers,
    bus: BusNumbers,
    array: &mut [u8],
    residue: &[u8],
) -> AnswerNumbers
    ensures result { result ≡ cycled device state bus array.old residue.now }
    ensures array_left { array.new ≡ array_cycled device state bus array.old residue.now }
{
    let d = c_cycle::states::device_in(device);
    let s = c_cycle::states::state_in(state);
    let c = c_cycle::states::cycle_in(bus);
    let a = table_engine::cycle(d, s, c, array, residue);
    c_cycle::states::answer_out(state, a)
}
