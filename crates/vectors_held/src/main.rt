// Runs the interrupted loads that it reads, whole against the bench model or stepped by hand, and prints a line for each. The rows and
// the lines that they must print come from tests/vectors_held.py, which has a loader of its own and says what a row holds.
#![tactic(auto)]

use device::Device;
use loader::{Loader, Saying, Stage, Work};
use loader_held::{Hold, Pair, Step};
use loader_held_steps::HeldResponse;
use loader_run::{Job, Ran};
use model_types::{Pins, State, Wear};
use vectors_states::{Erases, Outgoing, Shape};
use vectors_text::Group;

// The polls stand in the front of the numbers, as many as this at most, and the addresses behind them.
const POLLS: usize = 9;

// What is loaded and with what: the device, the levels, the block, and how much of each slice and list is lent.
#[derive(Clone, Copy)]
struct Setup {
    device: Device,
    pins: Pins,
    block: u8,
    array: usize,
    wanted: usize,
    scratch: usize,
    polls: usize,
    addresses: usize,
    room: usize,
}

// What stands from row to row; `wear` has the counts of the states that rows put.
#[derive(Clone, Copy)]
struct Bench {
    setup: Setup,
    state: State,
    wear: Wear,
    pair: Pair,
    group: Group,
    lines: u32,
}

fn setup_of(row: &[u8], old: Setup) -> Setup {
    Setup {
        device: vectors_states::device_at(row),
        array: vectors_text::size_at(row, 10, 24, 6),
        wanted: vectors_text::size_at(row, 10, 31, 6),
        scratch: vectors_text::size_at(row, 10, 38, 6),
        ..old
    }
}

fn levels_of(row: &[u8], old: Setup) -> Setup {
    Setup {
        pins: vectors_states::levels_at(row),
        block: vectors_text::byte_at(row, 10, 21, 3),
        ..old
    }
}

// No interruption under way.
const NO_HOLD: Hold = Hold {
    step: Step::Usual,
    number: 0,
    place: 0,
    waits: 0,
    suspended: false,
};

// The bench before the first row.
fn bare() -> Bench {
    let state = model::fresh();
    let device = vectors_states::NO_DEVICE;
    let pins = vectors_states::NO_PINS;
    Bench {
        setup: Setup {
            device,
            pins,
            block: 0,
            array: 0,
            wanted: 0,
            scratch: 0,
            polls: 0,
            addresses: 0,
            room: 0,
        },
        state,
        wear: state.wear,
        pair: Pair {
            loader: loader_steps::front::record_at(device.part, pins, 0, Stage::Clearing, true),
            hold: NO_HOLD,
        },
        group: vectors_text::UNNAMED,
        lines: 0,
    }
}

// The bench after one more line, with the state and the records that the line shows; the line begins with its label.
fn after_line(rt: &impl Print, b: Bench, state: State, pair: Pair) -> Bench {
    let lines = b.lines % 9999 + 1;
    streams::write_all(rt, &vectors_text::letters(b.group));
    let _ = print!(rt; " {lines:04} ");
    Bench {
        state,
        pair,
        lines,
        ..b
    }
}

// What a line of a run shows beside the counts before it: the run's result, and digests of array, scratch and room.
#[derive(Clone, Copy)]
struct Shown {
    ran: Ran,
    array: u64,
    scratch: u64,
    room: u64,
}

// A whole run, or a load alone: its end, count and address, the state, digests of array, scratch and room, and the erases begun before
// it and after it.
fn print_run(rt: &impl Print, op: u8, shows: Shown, had: Wear) {
    let x = shows.ran;
    let shape = Shape(x.state);
    let had = Erases(had);
    let has = Erases(x.state.wear);
    let _ = print!(rt;
        "{} {:03} {:010} {:08X} ",
        char::from(op),
        x.end,
        x.count % 10_000_000_000,
        x.address
    );
    let _ = print!(rt;
        "{shape} {:04X} {:04X} {:04X}",
        shows.array, shows.scratch, shows.room
    );
    let _ = print!(rt; "{had} >{has}\n");
}

// What the loader gave: the cycle that is out, the end, or a refusal.
// Kept: vectors_run has these lines too; a library for them, between the loader and both programs, is no plainer.
fn print_saying(rt: &impl Print, saying: Saying) {
    let _ = match saying {
        Saying::Out(c) => print!(rt; "{} ", Outgoing(c)),
        Saying::Over(n, address) => print!(rt; "E {n:03} {address:08X} "),
        Saying::Refused(n) => print!(rt; "X {n:03} "),
    };
}

// A run or a load alone, cycle by cycle or stage by stage: the two promise the same.
fn made(
    cycles: bool,
    j: Job,
    array: &mut [u8],
    wanted: &[u8],
    scratch: &mut [u8],
    polls: &[u32],
    addresses: &[u32],
    room: &mut [u8],
) -> Ran {
    if cycles {
        return loader_held_run::run_held(j, array, wanted, scratch, polls, addresses, room);
    }
    loader_held_quick::run_held_quick(j, array, wanted, scratch, polls, addresses, room)
}

// What is lent of the numbers: the polls, and the addresses behind all of them.
fn lists_lent(setup: Setup, numbers: &[u32]) -> (&[u32], &[u32]) {
    let (polls, addresses) = numbers.split_at(POLLS.min(numbers.len()));
    let q = setup.polls.min(polls.len());
    let a = setup.addresses.min(addresses.len());
    (&polls[..q], &addresses[..a])
}

// .. on what is lent.
fn made_shown(
    cycles: bool,
    op: u8,
    b: Bench,
    array: &mut [u8],
    wanted: &[u8],
    scratch: &mut [u8],
    numbers: &[u32],
    room: &mut [u8],
) -> Shown {
    let s = b.setup;
    let n = s.array.min(array.len());
    let m = s.wanted.min(wanted.len());
    let k = s.scratch.min(scratch.len());
    let r = s.room.min(room.len());
    let (polls, addresses) = lists_lent(s, numbers);
    let j = Job {
        device: s.device,
        state: b.state,
        pins: s.pins,
        block: s.block,
        work: Work::Load(op == b'R'),
    };
    Shown {
        ran: made(
            cycles,
            j,
            &mut array[..n],
            &wanted[..m],
            &mut scratch[..k],
            polls,
            addresses,
            &mut room[..r],
        ),
        array: vectors_text::digest(&array[..n]),
        scratch: vectors_text::digest(&scratch[..k]),
        room: vectors_text::digest(&room[..r]),
    }
}

// The same cycle by cycle, on copies.
fn by_cycles(
    op: u8,
    b: Bench,
    array: &[u8],
    wanted: &[u8],
    scratch: &[u8],
    numbers: &[u32],
    room: &[u8],
) -> Shown {
    let mut twin = vectors_states::vast();
    let mut notes = vectors_text::blank();
    let mut read = vectors_text::blank();
    common::copy(&mut twin, array);
    common::copy(&mut notes, scratch);
    common::copy(&mut read, room);
    made_shown(
        true, op, b, &mut twin, wanted, &mut notes, numbers, &mut read,
    )
}

// Two runs returned and left the same.
fn same_shown(a: Shown, b: Shown) -> bool {
    let x = a.ran;
    let y = b.ran;
    let same = (x.count == y.count) & (x.end == y.end) & (x.address == y.address);
    same & vectors_states::same_state(x.state, y.state)
        & (a.array == b.array)
        & (a.scratch == b.scratch)
        & (a.room == b.room)
}

// A run or a load alone, and its line; a second line where it is another cycle by cycle.
fn run_line(
    rt: &impl Print,
    op: u8,
    b: Bench,
    array: &mut [u8],
    wanted: &[u8],
    scratch: &mut [u8],
    numbers: &[u32],
    room: &mut [u8],
) -> Bench {
    let other = by_cycles(op, b, array, wanted, scratch, numbers, room);
    let shows = made_shown(false, op, b, array, wanted, scratch, numbers, room);
    let after = told(rt, op, b, shows);
    if same_shown(shows, other) {
        return after;
    }
    let _ = print!(rt; "cycle by cycle: ");
    told(rt, op, b, other)
}

// The line itself.
fn told(rt: &impl Print, op: u8, b: Bench, shows: Shown) -> Bench {
    let after = after_line(rt, b, shows.ran.state, b.pair);
    print_run(rt, op, shows, b.state.wear);
    after
}

// The line of a start or a step, with digests of scratch and room.
fn response_line(rt: &impl Print, b: Bench, g: HeldResponse, notes: u64, read: u64) -> Bench {
    let after = after_line(rt, b, b.state, g.pair);
    print_saying(rt, g.saying);
    let _ = print!(rt; "{notes:04X} {read:04X}\n");
    after
}

// A start of a run or of a load alone, and its line.
fn start_line(
    rt: &impl Print,
    op: u8,
    b: Bench,
    wanted: &[u8],
    scratch: &[u8],
    numbers: &[u32],
    room: &[u8],
) -> Bench {
    let s = b.setup;
    let m = s.wanted.min(wanted.len());
    let k = s.scratch.min(scratch.len());
    let r = s.room.min(room.len());
    let (_, addresses) = lists_lent(s, numbers);
    let g = loader_held_steps::start_held(
        op == b'Q',
        s.device.part,
        s.pins,
        s.block,
        &wanted[..m],
        &scratch[..k],
        addresses,
        &room[..r],
    );
    let notes = vectors_text::digest(&scratch[..k]);
    let read = vectors_text::digest(&room[..r]);
    response_line(rt, b, g, notes, read)
}

// Steps with the same data, at least one.
fn steps(
    before: Pair,
    value: u16,
    times: u32,
    wanted: &[u8],
    scratch: &mut [u8],
    polls: &[u32],
    addresses: &[u32],
    room: &mut [u8],
) -> HeldResponse {
    let mut g = loader_held_steps::step_held(
        before, value, wanted, scratch, polls, addresses, room,
    );
    for _ in 1..times {
        g = loader_held_steps::step_held(g.pair, value, wanted, scratch, polls, addresses, room);
    }
    g
}

// The steps of a row on what is lent, and the line of the last.
fn step_line(
    rt: &impl Print,
    b: Bench,
    row: &[u8],
    wanted: &[u8],
    scratch: &mut [u8],
    numbers: &[u32],
    room: &mut [u8],
) -> Bench {
    let s = b.setup;
    let m = s.wanted.min(wanted.len());
    let k = s.scratch.min(scratch.len());
    let r = s.room.min(room.len());
    let (polls, addresses) = lists_lent(s, numbers);
    let g = steps(
        b.pair,
        vectors_text::half_at(row, 16, 2, 4),
        vectors_text::word_at(row, 10, 7, 5),
        &wanted[..m],
        &mut scratch[..k],
        polls,
        addresses,
        &mut room[..r],
    );
    let notes = vectors_text::digest(&scratch[..k]);
    let read = vectors_text::digest(&room[..r]);
    response_line(rt, b, g, notes, read)
}

// One number of a list, where it has that place.
fn put_number(s: &mut [u32], at: usize, n: u32) {
    if let Some(x) = s.get_mut(at) {
        *x = n;
    }
}

// So many addresses from a place on: a first one, and each of the others a step behind the one before, as far as numbers go.
fn put_numbers(s: &mut [u32], from: usize, first: u32, step: u32, count: usize) {
    let start = POLLS + from.min(4097);
    let mut v = first;
    for x in s.iter_mut().skip(start).take(count.min(4097)) {
        *x = v;
        v = v.checked_add(step).unwrap_or(v);
    }
}

// The loader's record that a host hands back: the bench's part, levels and block, a place and polls, at the stage that it had.
fn handed_loader(row: &[u8], b: Bench) -> Loader {
    Loader {
        part: b.setup.device.part,
        pins: b.setup.pins,
        block: b.setup.block,
        place: vectors_text::size_at(row, 10, 2, 6),
        polls: vectors_text::word_at(row, 10, 9, 10),
        ..b.pair.loader
    }
}

fn step_of(n: u8) -> Step {
    match n {
        0 => Step::Usual,
        1 => Step::Halting,
        2 => Step::Looking,
        3 => Step::Settling,
        4 => Step::ArrayAsking,
        5 => Step::Fetching,
        _ => Step::Resuming,
    }
}

// An interruption's record that a host hands back.
fn hold_of(row: &[u8]) -> Hold {
    Hold {
        step: step_of(vectors_text::byte_at(row, 10, 2, 1)),
        number: vectors_text::word_at(row, 10, 4, 10),
        place: vectors_text::size_at(row, 10, 15, 5),
        waits: vectors_text::word_at(row, 10, 21, 5),
        suspended: vectors_text::byte_at(row, 10, 27, 1) == 1,
    }
}

// The records after a row that hands one of them back.
fn handed(row: &[u8], op: u8, b: Bench) -> Pair {
    if op == b'K' {
        return Pair {
            loader: handed_loader(row, b),
            ..b.pair
        };
    }
    Pair {
        hold: hold_of(row),
        ..b.pair
    }
}

// How many of the lists and of the room are lent after a row that changes them.
fn lengths_by(row: &[u8], op: u8, old: Setup) -> Setup {
    match op {
        b'Z' => Setup {
            polls: 0,
            addresses: 0,
            ..old
        },
        b'T' => Setup {
            polls: old.polls.min(8) + 1,
            ..old
        },
        b'M' => Setup {
            addresses: old.addresses.min(4097) + vectors_text::size_at(row, 10, 17, 5).min(4097),
            ..old
        },
        _ => Setup {
            room: vectors_text::size_at(row, 10, 2, 6),
            ..old
        },
    }
}

// The rows that set the bench; any other leaves it.
fn set(row: &[u8], op: u8, b: Bench) -> Bench {
    match op {
        b'G' => Bench {
            group: vectors_text::group_at(row),
            ..b
        },
        b'D' => Bench {
            setup: setup_of(row, b.setup),
            ..b
        },
        b'S' => Bench {
            state: vectors_states::state_at(row, b.wear),
            ..b
        },
        b'E' => Bench {
            wear: vectors_states::wear_at(row, 2),
            ..b
        },
        b'F' => Bench {
            state: model::fresh(),
            ..b
        },
        b'K' | b'H' => Bench {
            pair: handed(row, op, b),
            ..b
        },
        b'L' => Bench {
            setup: levels_of(row, b.setup),
            ..b
        },
        _ => b,
    }
}

// The rows that change a list or the room, by what was lent of it before.
fn list(row: &[u8], op: u8, old: Setup, numbers: &mut [u32], room: &mut [u8]) {
    match op {
        b'T' => put_number(
            numbers,
            old.polls.min(POLLS),
            vectors_text::word_at(row, 10, 2, 10),
        ),
        b'M' => put_numbers(
            numbers,
            old.addresses,
            vectors_text::word_at(row, 16, 2, 8),
            vectors_text::word_at(row, 10, 11, 5),
            vectors_text::size_at(row, 10, 17, 5),
        ),
        b'J' => vectors_text::sow(room, vectors_text::size_at(row, 10, 2, 6), row, 9),
        _ => {}
    }
}

// The rows that print a line.
fn act(
    rt: &impl Print,
    row: &[u8],
    op: u8,
    b: Bench,
    array: &mut [u8],
    wanted: &[u8],
    scratch: &mut [u8],
    numbers: &[u32],
    room: &mut [u8],
) -> Bench {
    match op {
        b'R' | b'O' => run_line(rt, op, b, array, wanted, scratch, numbers, room),
        b'Q' | b'P' => start_line(rt, op, b, wanted, scratch, numbers, room),
        b'N' => step_line(rt, b, row, wanted, scratch, numbers, room),
        _ => b,
    }
}

// The rows that change a list or the room; any other sets the bench or prints. A row that sets the bench prints nothing, and one that
// prints sets nothing.
fn change_list(
    rt: &impl Print,
    row: &[u8],
    b: Bench,
    array: &mut [u8],
    wanted: &[u8],
    scratch: &mut [u8],
    numbers: &mut [u32],
    room: &mut [u8],
) -> Bench {
    let op = common::nth(row, 0);
    if matches!(op, b'Z' | b'T' | b'M' | b'J') {
        list(row, op, b.setup, numbers, room);
        return Bench {
            setup: lengths_by(row, op, b.setup),
            ..b
        };
    }
    let after = set(row, op, b);
    act(rt, row, op, after, array, wanted, scratch, numbers, room)
}

// One row: those that fill a slice or change one byte of it come first.
fn take_row(
    rt: &impl Print,
    row: &[u8],
    b: Bench,
    array: &mut [u8],
    wanted: &mut [u8],
    scratch: &mut [u8],
    numbers: &mut [u32],
    room: &mut [u8],
) -> Bench {
    match common::nth(row, 0) {
        b'A' => vectors_text::sow(array, b.setup.array, row, 2),
        b'X' => vectors_text::put_byte(array, row),
        b'W' => vectors_text::sow(wanted, b.setup.wanted, row, 2),
        b'B' => vectors_text::put_byte(wanted, row),
        b'C' => vectors_text::sow(scratch, b.setup.scratch, row, 2),
        _ => return change_list(rt, row, b, array, wanted, scratch, numbers, room),
    }
    b
}

// Every row in its order.
fn all(
    rt: &impl Print,
    text: &[u8],
    array: &mut [u8],
    wanted: &mut [u8],
    scratch: &mut [u8],
    numbers: &mut [u32],
    room: &mut [u8],
) {
    let mut b = bare();
    let mut at = 0;
    while at < text.len() {
        b = take_row(rt, &text[at..], b, array, wanted, scratch, numbers, room);
        at = vectors_text::next_row(text, at);
    }
}

fn main(rt: HostRuntime) {
    let mut text = vectors_text::blank();
    let mut array = vectors_states::vast();
    let mut wanted = vectors_text::blank();
    let mut scratch = vectors_text::blank();
    let mut room = vectors_text::blank();
    let mut numbers = [0u32; 8203];
    let n = streams::read_input(&rt, &mut text);
    all(
        &rt,
        &text[..n],
        &mut array,
        &mut wanted,
        &mut scratch,
        &mut numbers,
        &mut room,
    );
}
