// Checks the recordings that it reads, record by record, and prints a line for each. The recordings and the lines that they must print
// come from tests/vectors_recording.py, which has a check of its own and says what a row holds.
#![tactic(auto)]

use device::Device;
use model_types::{State, Wear};
use recording::Noted;
use recording_walk::{Checked, Walk};
use vectors_states::{Erases, PhaseData, Shape};
use vectors_text::Group;

// What stands from row to row: the device and its state, the counts of the states that rows put, how much of the array and of the
// promised one is lent, the walk over the records, the group, and the lines printed.
#[derive(Clone, Copy)]
struct Bench {
    device: Device,
    state: State,
    wear: Wear,
    array: usize,
    promised: usize,
    walk: Walk,
    group: Group,
    lines: u32,
}

// The record of a row: its cycle, the answer seen, and the busy count.
fn record_of(row: &[u8], op: u8) -> Noted {
    let mut heard = None;
    if common::nth(row, 39) == b'D' {
        heard = Some(vectors_text::half_at(row, 16, 41, 4));
    }
    Noted {
        cycle: vectors_states::cycle_at(row, op),
        heard,
        busy: vectors_text::word_at(row, 10, 46, 10),
    }
}

// The bench before the first row.
fn bare() -> Bench {
    let device = vectors_states::NO_DEVICE;
    let state = model::fresh();
    Bench {
        device,
        state,
        wear: state.wear,
        array: 0,
        promised: 0,
        walk: recording_walk::begin(device, state, 0),
        group: vectors_text::UNNAMED,
        lines: 0,
    }
}

// The verdict: refused and the number, accepted, or at fault and the last five digits of the place.
fn print_verdict(rt: &impl Print, c: Checked) {
    let _ = if c.number != 0 {
        print!(rt; "X {:05} ", c.number)
    } else if c.accepted {
        print!(rt; "A {:05} ", c.at % 100000)
    } else {
        print!(rt; "F {:05} ", c.at % 100000)
    };
}

// One whole line: its label, the verdict, the state, cycles left, address, digest, and the erases begun.
fn print_line(rt: &impl Print, g: Group, line: u32, c: Checked, sum: u64) {
    let s = c.state;
    let shape = Shape(s);
    let data = PhaseData(s.phase);
    let erases = Erases(s.wear);
    streams::write_all(rt, &vectors_text::letters(g));
    let _ = print!(rt; " {line:04} ");
    print_verdict(rt, c);
    let _ = print!(rt;
        "{shape}{data} {:05} {:08X} {sum:04X}{erases}\n",
        s.left, s.address
    );
}

// The end of a recording and its line.
fn judge(rt: &impl Print, b: Bench, array: &mut [u8], promised: &[u8]) -> Bench {
    let n = b.array.min(array.len());
    let m = b.promised.min(promised.len());
    let c = recording_walk::end(&promised[..m], &mut array[..n], b.walk);
    let lines = b.lines % 9999 + 1;
    print_line(rt, b.group, lines, c, vectors_text::digest(&array[..n]));
    Bench { lines, ..b }
}

// One record more.
fn go_on(b: Bench, r: Noted, array: &mut [u8]) -> Bench {
    let n = b.array.min(array.len());
    Bench {
        walk: recording_walk::go_on(&mut array[..n], b.walk, r),
        ..b
    }
}

// The promised array is FFH with the array over it.
fn promise(promised: &mut [u8], array: &[u8], lent: usize) {
    let n = lent.min(array.len());
    promised.fill(255);
    common::copy(promised, &array[..n]);
}

// The rows that set the bench; any other leaves it. A walk begins anew with the promised array's length.
fn set(row: &[u8], op: u8, b: Bench) -> Bench {
    match op {
        b'G' => Bench {
            group: vectors_text::group_at(row),
            ..b
        },
        b'D' => Bench {
            device: vectors_states::device_at(row),
            array: vectors_text::size_at(row, 10, 24, 6),
            ..b
        },
        b'E' => Bench {
            wear: vectors_states::wear_at(row, 2),
            ..b
        },
        b'S' => Bench {
            state: vectors_states::state_at(row, b.wear),
            ..b
        },
        b'F' => Bench {
            state: model::fresh(),
            ..b
        },
        b'C' => Bench {
            promised: vectors_text::size_at(row, 10, 2, 6),
            walk: recording_walk::begin(b.device, b.state, b.array),
            ..b
        },
        _ => b,
    }
}

// One row: what it fills, sets, records or judges.
fn take_row(rt: &impl Print, row: &[u8], b: Bench, array: &mut [u8], promised: &mut [u8]) -> Bench {
    let op = common::nth(row, 0);
    match op {
        b'A' => {
            vectors_text::sow(array, b.array, row, 2);
            b
        }
        b'Q' => {
            vectors_text::put_stretch(promised, row);
            b
        }
        b'C' => {
            promise(promised, array, b.array);
            set(row, op, b)
        }
        b'R' | b'W' | b'I' => go_on(b, record_of(row, op), array),
        b'K' => judge(rt, b, array, promised),
        _ => set(row, op, b),
    }
}

// Every row in its order.
fn all(rt: &impl Print, text: &[u8], array: &mut [u8], promised: &mut [u8]) {
    let mut b = bare();
    let mut at = 0;
    while at < text.len() {
        b = take_row(rt, &text[at..], b, array, promised);
        at = vectors_text::next_row(text, at);
    }
}

fn main(rt: HostRuntime) {
    let mut text = vectors_states::vast();
    let mut array = vectors_states::vast();
    let mut promised = vectors_states::vast();
    let n = streams::read_input(&rt, &mut text);
    all(&rt, &text[..n], &mut array, &mut promised);
}
