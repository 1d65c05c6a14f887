// Runs the cases that it reads on the report of wear and prints a line for each. The cases and the lines that they must print come
// from tests/vectors_wear.py, which works a report out from the request and says what a row holds.
#![tactic(auto)]

ghost use Rattle.std.specs.Prelude.{◌≡◌, length};

use model_types::Wear;
use vectors_text::Group;
use wear::{Report, Reported, Tally};

// What stands from row to row: the device number that is reported on, the traces held and how much of them is lent, a report that is
// added to trace by trace, the group, and the lines printed.
#[derive(Clone, Copy)]
struct Desk {
    number: u8,
    held: usize,
    numbers: usize,
    counts: usize,
    report: Report,
    group: Group,
    lines: u32,
}

// Before the first row.
fn bare() -> Desk {
    Desk {
        number: 0,
        held: 0,
        numbers: 0,
        counts: 0,
        report: wear::none(),
        group: vectors_text::UNNAMED,
        lines: 0,
    }
}

// A block: total, largest, smallest, passed.
fn print_tally(rt: &impl Print, t: Tally) {
    let _ = print!(rt; " | {} {} {} {}", t.total, t.largest, t.smallest, t.passed);
}

// The traces and the seven blocks.
fn print_report(rt: &impl Print, r: Report) {
    let _ = print!(rt; " {}", r.traces);
    for t in [
        r.block0, r.block1, r.block2, r.block3, r.block4, r.block5, r.block6,
    ] {
        print_tally(rt, t);
    }
    let _ = println!(rt; "");
}

// A line: the label, the letter of the row, the number given, the report.
fn print_line(rt: &impl Print, d: Desk, op: u8, number: u8, report: Report) {
    streams::write_all(rt, &vectors_text::letters(d.group));
    let _ = print!(rt; " {} ", d.lines);
    streams::write_all(rt, &[op]);
    let _ = print!(rt; " {number}");
    print_report(rt, report);
}

// Traces with the same counts, from one place up to another: the number of the device and seven counts each.
fn put_traces(
    numbers: &mut [u8],
    counts: &mut [u32],
    first: usize,
    past: usize,
    from: u8,
    w: Wear,
) {
    let seven = [
        w.block0, w.block1, w.block2, w.block3, w.block4, w.block5, w.block6,
    ];
    let traces = numbers.iter_mut().zip(counts.chunks_exact_mut(7));
    for (number, trace) in traces.take(past).skip(first) {
        *number = from;
        trace.copy_from_slice(&seven);
    }
}

// A row's traces behind those that are held; all of them are lent then.
fn more(row: &[u8], d: Desk, numbers: &mut [u8], counts: &mut [u32]) -> Desk {
    let from = vectors_text::byte_at(row, 10, 2, 3);
    let times = vectors_text::half_at(row, 10, 6, 5);
    let w = vectors_states::wear_at(row, 12);
    let first = d.held.min(65536);
    let past = (first + usize::from(times)).min(65536);
    put_traces(numbers, counts, first, past, from, w);
    Desk {
        held: past,
        numbers: past,
        counts: 7 * past,
        ..d
    }
}

// The report on what is lent.
fn reported(d: Desk, numbers: &[u8], counts: &[u32]) -> Reported {
    let n = d.numbers.min(numbers.len());
    let m = d.counts.min(counts.len());
    wear::report_on(d.number, &numbers[..n], &counts[..m])
}

// A report with one trace more: tested as the row says, or not.
fn added(row: &[u8], op: u8, d: Desk) -> Reported {
    let from = vectors_text::byte_at(row, 10, 2, 3);
    let w = vectors_states::wear_at(row, 12);
    if op == b'P' {
        return Reported {
            number: 0,
            report: wear::add(d.report, w),
        };
    }
    wear::add_to(d.number, d.report, from, w)
}

// A report as a host may hold it: the same numbers for every block, the total by its high and its low half.
fn handed(row: &[u8]) -> Report {
    let high = vectors_text::word_at(row, 10, 13, 10);
    let low = vectors_text::word_at(row, 10, 24, 10);
    let t = Tally {
        total: u64::from(high) * 4294967296 + u64::from(low),
        largest: vectors_text::word_at(row, 10, 35, 10),
        smallest: vectors_text::word_at(row, 10, 46, 10),
        passed: vectors_text::word_at(row, 10, 57, 10),
    };
    Report {
        traces: vectors_text::word_at(row, 10, 2, 10),
        block0: t,
        block1: t,
        block2: t,
        block3: t,
        block4: t,
        block5: t,
        block6: t,
    }
}

// The rows that set the desk; any other leaves it.
fn set(row: &[u8], op: u8, d: Desk) -> Desk {
    match op {
        b'G' => Desk {
            group: vectors_text::group_at(row),
            ..d
        },
        b'N' => Desk {
            number: vectors_text::byte_at(row, 10, 2, 3),
            group: d.group,
            lines: d.lines,
            ..bare()
        },
        b'L' => Desk {
            numbers: vectors_text::size_at(row, 10, 2, 5),
            counts: vectors_text::size_at(row, 10, 8, 6),
            ..d
        },
        b'H' => Desk {
            report: handed(row),
            ..d
        },
        _ => d,
    }
}

// One more line, and the report that is now held.
fn shown(rt: &impl Print, d: Desk, op: u8, x: Reported, report: Report) -> Desk {
    let after = Desk {
        report,
        lines: d.lines % 9999 + 1,
        ..d
    };
    print_line(rt, after, op, x.number, x.report);
    after
}

// The rows that print a line: a whole report, a trace more, the report that is held.
fn act(rt: &impl Print, row: &[u8], op: u8, d: Desk, numbers: &[u8], counts: &[u32]) -> Desk {
    match op {
        b'R' => shown(rt, d, op, reported(d, numbers, counts), d.report),
        b'A' | b'P' => {
            let x = added(row, op, d);
            shown(rt, d, op, x, x.report)
        }
        b'O' => {
            let x = Reported {
                number: 0,
                report: d.report,
            };
            shown(rt, d, op, x, d.report)
        }
        _ => set(row, op, d),
    }
}

// One row.
fn take_row(rt: &impl Print, row: &[u8], d: Desk, numbers: &mut [u8], counts: &mut [u32]) -> Desk {
    let op = common::nth(row, 0);
    if op == b'T' {
        return more(row, d, numbers, counts);
    }
    act(rt, row, op, d, numbers, counts)
}

// Every row in its order.
fn all(rt: &impl Print, text: &[u8], numbers: &mut [u8], counts: &mut [u32]) {
    let mut d = bare();
    let mut at = 0;
    while at < text.len() {
        d = take_row(rt, &text[at..], d, numbers, counts);
        at = vectors_text::next_row(text, at);
    }
}

// Room for seven counts of each of 65,536 traces, and one more.
fn room() -> [u32; 458753]
    ensures { 458753 ≡ length result }
{
    [0; 458753]
}

fn main(rt: HostRuntime) {
    let mut text = vectors_text::blank();
    let mut numbers = vectors_text::blank();
    let mut counts = room();
    let n = streams::read_input(&rt, &mut text);
    all(&rt, &text[..n], &mut numbers, &mut counts);
}
