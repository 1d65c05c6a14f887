// Runs the cases that it reads on the bench model and prints a line for each. The cases and the lines that they must print come
// from tests/vectors_model.py, which has a model of its own and says what a row holds.
#![tactic(auto)]

use device::Device;
use model::Seen;
use model_types::{Cycle, State, Wear};
use vectors_states::{Erases, PhaseData, Shape};
use vectors_text::Group;

// What stands from row to row: the device and its state, the counts of the states that rows put, how much of array and residue
// is lent, the group, and the lines printed.
#[derive(Clone, Copy)]
struct Bench {
    device: Device,
    state: State,
    wear: Wear,
    array: usize,
    residue: usize,
    group: Group,
    lines: u32,
}

// The bench before the first row.
fn bare() -> Bench {
    let state = model::fresh();
    Bench {
        device: vectors_states::NO_DEVICE,
        state,
        wear: state.wear,
        array: 0,
        residue: 0,
        group: vectors_text::UNNAMED,
        lines: 0,
    }
}

// What was seen.
fn print_seen(rt: &impl Print, seen: Seen) {
    let _ = match seen {
        Seen::NoData => print!(rt; "N ---- "),
        Seen::Data(v) => print!(rt; "D {v:04X} "),
        Seen::Refused(n) => print!(rt; "X {:02} ", n % 100),
    };
}

// One whole line: its label, what was seen, the state, cycles left, address, digest, and the erases begun.
fn print_line(rt: &impl Print, b: Bench, seen: Seen, sum: u64) {
    let s = b.state;
    let shape = Shape(s);
    let data = PhaseData(s.phase);
    let erases = Erases(s.wear);
    streams::write_all(rt, &vectors_text::letters(b.group));
    let _ = print!(rt; " {:04} ", b.lines);
    print_seen(rt, seen);
    let _ = print!(rt;
        "{shape}{data} {:05} {:08X} {sum:04X}{erases}\n",
        s.left, s.address
    );
}

// Prints a line about a state and what was seen, and gives the bench after it.
fn show(rt: &impl Print, b: Bench, state: State, seen: Seen, array: &[u8]) -> Bench {
    let after = Bench {
        state,
        lines: b.lines % 9999 + 1,
        ..b
    };
    print_line(rt, after, seen, vectors_text::digest_front(array, b.array));
    after
}

// One bus cycle and its line.
fn run(rt: &impl Print, b: Bench, c: Cycle, array: &mut [u8], residue: &[u8]) -> Bench {
    let n = b.array.min(array.len());
    let m = b.residue.min(residue.len());
    let x = model::cycle(b.device, b.state, c, &mut array[..n], &residue[..m]);
    show(rt, b, x.state, x.seen, array)
}

// The rows that set the bench, those that make the device fresh or reset it among them; any other leaves it.
fn set(row: &[u8], op: u8, b: Bench) -> Bench {
    match op {
        b'G' => Bench {
            group: vectors_text::group_at(row),
            ..b
        },
        b'D' => Bench {
            device: vectors_states::device_at(row),
            array: vectors_text::size_at(row, 10, 24, 6),
            residue: vectors_text::size_at(row, 10, 31, 6),
            ..b
        },
        b'E' => Bench {
            wear: vectors_states::wear_at(row, 2),
            ..b
        },
        b'S' => Bench {
            state: vectors_states::state_at(row, b.wear),
            ..b
        },
        b'F' => Bench {
            state: model::fresh(),
            ..b
        },
        b'Z' => Bench {
            state: model::reset(b.state),
            ..b
        },
        _ => b,
    }
}

// The rows that print a line: those of a bus cycle, and those of a device that is fresh or was reset.
fn act(rt: &impl Print, row: &[u8], op: u8, b: Bench, array: &mut [u8], residue: &[u8]) -> Bench {
    match op {
        b'R' | b'W' | b'I' => run(rt, b, vectors_states::cycle_at(row, op), array, residue),
        b'F' | b'Z' => show(rt, b, b.state, Seen::NoData, array),
        _ => b,
    }
}

// One row: first what it sets, then what it prints.
fn take_row(rt: &impl Print, row: &[u8], b: Bench, array: &mut [u8], residue: &mut [u8]) -> Bench {
    let op = common::nth(row, 0);
    match op {
        b'A' => {
            vectors_text::sow(array, b.array, row, 2);
            b
        }
        b'B' => {
            vectors_text::sow(residue, b.residue, row, 2);
            b
        }
        _ => act(rt, row, op, set(row, op, b), array, residue),
    }
}

// Every row in its order.
fn all(rt: &impl Print, text: &[u8], array: &mut [u8], residue: &mut [u8]) {
    let mut b = bare();
    let mut at = 0;
    while at < text.len() {
        b = take_row(rt, &text[at..], b, array, residue);
        at = vectors_text::next_row(text, at);
    }
}

fn main(rt: HostRuntime) {
    let mut text = vectors_states::vast();
    let mut array = vectors_states::vast();
    let mut residue = vectors_text::blank();
    let n = streams::read_input(&rt, &mut text);
    all(&rt, &text[..n], &mut array, &mut residue);
}
