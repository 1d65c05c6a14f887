// Runs the loads that it reads, whole against the bench model or stepped by hand, and prints a line for each. A whole run goes stage by
// stage, and on copies cycle by cycle; a second line says where the two differ. The rows and the lines that they must print come from
// tests/vectors_run.py, which has a loader of its own and says what a row holds.
#![tactic(auto)]

use device::Device;
use loader::{Loader, Response, Saying, Stage, Work};
use loader_run::{Job, Ran};
use model_types::{Pins, State, Wear};
use vectors_states::{Erases, Outgoing, Shape};
use vectors_text::Group;

// What is loaded and with what: the device, the levels, the block, and how much of each slice is lent.
#[derive(Clone, Copy)]
struct Setup {
    device: Device,
    pins: Pins,
    block: u8,
    array: usize,
    wanted: usize,
    scratch: usize,
}

// What stands from row to row; `wear` has the counts of the states that rows put.
#[derive(Clone, Copy)]
struct Bench {
    setup: Setup,
    state: State,
    wear: Wear,
    loader: Loader,
    group: Group,
    lines: u32,
}

fn setup_of(row: &[u8], old: Setup) -> Setup {
    Setup {
        device: vectors_states::device_at(row),
        array: vectors_text::size_at(row, 10, 24, 6),
        wanted: vectors_text::size_at(row, 10, 31, 6),
        scratch: vectors_text::size_at(row, 10, 38, 6),
        ..old
    }
}

fn levels_of(row: &[u8], old: Setup) -> Setup {
    Setup {
        pins: vectors_states::levels_at(row),
        block: vectors_text::byte_at(row, 10, 21, 3),
        ..old
    }
}

// The bench before the first row.
fn bare() -> Bench {
    let state = model::fresh();
    let device = vectors_states::NO_DEVICE;
    let pins = vectors_states::NO_PINS;
    Bench {
        setup: Setup {
            device,
            pins,
            block: 0,
            array: 0,
            wanted: 0,
            scratch: 0,
        },
        state,
        wear: state.wear,
        loader: loader_steps::front::record_at(device.part, pins, 0, Stage::Clearing, true),
        group: vectors_text::UNNAMED,
        lines: 0,
    }
}

// The bench after one more line, with the state and the record that the line shows; the line begins with its label.
fn after_line(rt: &impl Print, b: Bench, state: State, loader: Loader) -> Bench {
    let lines = b.lines % 9999 + 1;
    streams::write_all(rt, &vectors_text::letters(b.group));
    let _ = print!(rt; " {lines:04} ");
    Bench {
        state,
        loader,
        lines,
        ..b
    }
}

// What a run, or a load or a verify alone, returns, and digests of what it leaves of array and scratch.
#[derive(Clone, Copy)]
struct Shown {
    ran: Ran,
    array: u64,
    scratch: u64,
}

// A whole run, or a load or a verify alone: its end, count and address, the state, digests of array and scratch, and the erases
// begun before it and after it.
fn print_run(rt: &impl Print, op: u8, shows: Shown, had: Wear) {
    let x = shows.ran;
    let shape = Shape(x.state);
    let had = Erases(had);
    let has = Erases(x.state.wear);
    let _ = print!(rt;
        "{} {:03} {:010} {:08X} ",
        char::from(op),
        x.end,
        x.count % 10_000_000_000,
        x.address
    );
    let _ = print!(rt;
        "{shape} {:04X} {:04X}{had} >{has}\n",
        shows.array, shows.scratch
    );
}

// What the loader gave: the cycle that is out, the end, or a refusal.
// Kept: vectors_held has these lines too; a library for them, between the loader and both programs, is no plainer.
fn print_saying(rt: &impl Print, saying: Saying) {
    let _ = match saying {
        Saying::Out(c) => print!(rt; "{} ", Outgoing(c)),
        Saying::Over(n, address) => print!(rt; "E {n:03} {address:08X} "),
        Saying::Refused(n) => print!(rt; "X {n:03} "),
    };
}

// A whole run, a load alone or a verify alone.
fn work_of(op: u8) -> Work {
    match op {
        b'O' => Work::Load(false),
        b'V' => Work::Verify,
        _ => Work::Load(true),
    }
}

// It is made cycle by cycle against the model, or stage by stage, on what is lent.
fn ran(cycles: bool, op: u8, b: Bench, array: &mut [u8], wanted: &[u8], scratch: &mut [u8]) -> Ran {
    let j = Job {
        device: b.setup.device,
        state: b.state,
        pins: b.setup.pins,
        block: b.setup.block,
        work: work_of(op),
    };
    if cycles {
        return loader_run::run(j, array, wanted, scratch);
    }
    loader_quick::run_quick(j, array, wanted, scratch)
}

// .. the fronts of three slices.
fn made_shown(
    cycles: bool,
    op: u8,
    b: Bench,
    array: &mut [u8],
    wanted: &[u8],
    scratch: &mut [u8],
) -> Shown {
    let s = b.setup;
    let n = s.array.min(array.len());
    let m = s.wanted.min(wanted.len());
    let k = s.scratch.min(scratch.len());
    Shown {
        ran: ran(
            cycles,
            op,
            b,
            &mut array[..n],
            &wanted[..m],
            &mut scratch[..k],
        ),
        array: vectors_text::digest(&array[..n]),
        scratch: vectors_text::digest(&scratch[..k]),
    }
}

// The run cycle by cycle, on copies.
fn by_cycles(op: u8, b: Bench, array: &[u8], wanted: &[u8], scratch: &[u8]) -> Shown {
    let mut twin = vectors_states::vast();
    let mut room = vectors_text::blank();
    common::copy(&mut twin, array);
    common::copy(&mut room, scratch);
    made_shown(true, op, b, &mut twin, wanted, &mut room)
}

// Two runs returned and left the same.
fn same_shown(a: Shown, b: Shown) -> bool {
    let x = a.ran;
    let y = b.ran;
    (x.count == y.count)
        & (x.end == y.end)
        & (x.address == y.address)
        & vectors_states::same_state(x.state, y.state)
        & (a.array == b.array)
        & (a.scratch == b.scratch)
}

// A whole run, or a part of it alone, and its line; a second line where the run cycle by cycle returns or leaves something else.
fn run_line(
    rt: &impl Print,
    op: u8,
    b: Bench,
    array: &mut [u8],
    wanted: &[u8],
    scratch: &mut [u8],
) -> Bench {
    let had = b.state.wear;
    let other = by_cycles(op, b, array, wanted, scratch);
    let shows = made_shown(false, op, b, array, wanted, scratch);
    let after = after_line(rt, b, shows.ran.state, b.loader);
    print_run(rt, op, shows, had);
    if !same_shown(shows, other) {
        let _ = print!(rt; "cycle by cycle: ");
        print_run(rt, op, other, had);
    }
    after
}

// The line of a start or a step.
fn response_line(rt: &impl Print, b: Bench, g: Response, room: u64) -> Bench {
    let after = after_line(rt, b, b.state, g.loader);
    print_saying(rt, g.saying);
    let _ = print!(rt; "{room:04X}\n");
    after
}

// What a start is of: a run, a load alone or a verify alone.
fn start_work(op: u8) -> Work {
    match op {
        b'P' => Work::Load(false),
        b'U' => Work::Verify,
        _ => Work::Load(true),
    }
}

// A start and its line.
fn start_line(rt: &impl Print, op: u8, b: Bench, wanted: &[u8], scratch: &[u8]) -> Bench {
    let s = b.setup;
    let m = s.wanted.min(wanted.len());
    let k = s.scratch.min(scratch.len());
    let g = loader_steps::front::start(
        start_work(op),
        s.device.part,
        s.pins,
        s.block,
        &wanted[..m],
        &scratch[..k],
    );
    response_line(rt, b, g, vectors_text::digest(&scratch[..k]))
}

// Steps with the same data, at least one.
fn steps(l: Loader, value: u16, times: u32, wanted: &[u8], scratch: &mut [u8]) -> Response {
    let mut g = loader_steps::front::step(l, value, wanted, scratch);
    for _ in 1..times {
        g = loader_steps::front::step(g.loader, value, wanted, scratch);
    }
    g
}

// The steps of a row on what is lent, and the line of the last.
fn step_line(rt: &impl Print, b: Bench, row: &[u8], wanted: &[u8], scratch: &mut [u8]) -> Bench {
    let m = b.setup.wanted.min(wanted.len());
    let k = b.setup.scratch.min(scratch.len());
    let value = vectors_text::half_at(row, 16, 2, 4);
    let times = vectors_text::word_at(row, 10, 7, 5);
    let g = steps(b.loader, value, times, &wanted[..m], &mut scratch[..k]);
    response_line(rt, b, g, vectors_text::digest(&scratch[..k]))
}

// The record that a host hands back: the bench's part, levels and block, a place and polls, at the stage that it had.
fn handed(row: &[u8], b: Bench) -> Loader {
    Loader {
        part: b.setup.device.part,
        pins: b.setup.pins,
        block: b.setup.block,
        place: vectors_text::size_at(row, 10, 2, 6),
        polls: vectors_text::word_at(row, 10, 9, 10),
        ..b.loader
    }
}

// The rows that set the bench; any other leaves it.
fn set(row: &[u8], op: u8, b: Bench) -> Bench {
    match op {
        b'G' => Bench {
            group: vectors_text::group_at(row),
            ..b
        },
        b'D' => Bench {
            setup: setup_of(row, b.setup),
            ..b
        },
        b'S' => Bench {
            state: vectors_states::state_at(row, b.wear),
            ..b
        },
        b'E' => Bench {
            wear: vectors_states::wear_at(row, 2),
            ..b
        },
        b'F' => Bench {
            state: model::fresh(),
            ..b
        },
        b'K' => Bench {
            loader: handed(row, b),
            ..b
        },
        b'L' => Bench {
            setup: levels_of(row, b.setup),
            ..b
        },
        _ => b,
    }
}

// The rows that print a line.
fn act(
    rt: &impl Print,
    row: &[u8],
    op: u8,
    b: Bench,
    array: &mut [u8],
    wanted: &[u8],
    scratch: &mut [u8],
) -> Bench {
    match op {
        b'R' | b'O' | b'V' => run_line(rt, op, b, array, wanted, scratch),
        b'Q' | b'P' | b'U' => start_line(rt, op, b, wanted, scratch),
        b'N' => step_line(rt, b, row, wanted, scratch),
        _ => b,
    }
}

// One row: it fills a slice or changes one byte of it, sets the bench, or prints. A row that sets the bench prints nothing, and one
// that prints sets nothing.
fn take_row(
    rt: &impl Print,
    row: &[u8],
    b: Bench,
    array: &mut [u8],
    wanted: &mut [u8],
    scratch: &mut [u8],
) -> Bench {
    let op = common::nth(row, 0);
    match op {
        b'A' => vectors_text::sow(array, b.setup.array, row, 2),
        b'X' => vectors_text::put_byte(array, row),
        b'W' => vectors_text::sow(wanted, b.setup.wanted, row, 2),
        b'B' => vectors_text::put_byte(wanted, row),
        b'C' => vectors_text::sow(scratch, b.setup.scratch, row, 2),
        _ => return act(rt, row, op, set(row, op, b), array, wanted, scratch),
    }
    b
}

// Every row in its order.
fn all(rt: &impl Print, text: &[u8], array: &mut [u8], wanted: &mut [u8], scratch: &mut [u8]) {
    let mut b = bare();
    let mut at = 0;
    while at < text.len() {
        b = take_row(rt, &text[at..], b, array, wanted, scratch);
        at = vectors_text::next_row(text, at);
    }
}

fn main(rt: HostRuntime) {
    let mut text = vectors_text::blank();
    let mut array = vectors_states::vast();
    let mut wanted = vectors_text::blank();
    let mut scratch = vectors_text::blank();
    let n = streams::read_input(&rt, &mut text);
    all(&rt, &text[..n], &mut array, &mut wanted, &mut scratch);
}
