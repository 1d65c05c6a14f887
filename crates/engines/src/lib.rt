// Two engines behind one trait: the rules tested one by one, and the table of `command_table`. The promise stands once, at the trait: it
// names no engine, since they agree.
#![tactic(auto)]

ghost use Rattle.std.specs.Prelude.{◌≡◌};
ghost use Rattle.units.specs.Units.{units, lent};
ghost use Rattle.model.specs.Arrays.{answer_of, seen_told, cycle_told, bytes_after};

use device::Device;
use model::Answer;
use model_types::{Cycle, State};

// What answers a bus cycle. An engine is a type, so that what is written for any engine is compiled for each, and a program that names
// one does not hold the other.
pub trait Engine {
    // One bus cycle.
    fn cycle(d: Device, s: State, c: Cycle, array: &mut [u8], residue: &[u8]) -> Answer
        ensures result { result
            ≡ answer_of d s c (lent d.part.word array.old) (units d.part.word residue.now) }
        ensures told { seen_told result.seen
            ≡ cycle_told d s c (lent d.part.word array.old) (units d.part.word residue.now) }
        ensures array_left { array.new ≡ bytes_after d s c array.old residue.now };
}

// The rules, tested one by one.
#[derive(Clone, Copy)]
pub struct Rules;

// The table of `command_table`.
#[derive(Clone, Copy)]
pub struct Table;

impl Engine for Rules {
    // By the model.
    fn cycle(d: Device, s: State, c: Cycle, array: &mut [u8], residue: &[u8]) -> Answer {
        model::cycle(d, s, c, array, residue)
    }
}

impl Engine for Table {
    // By the second engine.
    fn cycle(d: Device, s: State, c: Cycle, array: &mut [u8], residue: &[u8]) -> Answer {
        table_engine::cycle(d, s, c, array, residue)
    }
}
