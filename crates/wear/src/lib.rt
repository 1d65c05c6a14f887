// The report on the wear of many traces from one device: for each block the total, the largest and the smallest count of erases, and
// how many traces passed the sheet's 100,000.
#![tactic(auto)]

ghost use Rattle.std.specs.Prelude.{◌≡◌, false, not, ◌+◌, ◌-◌, ◌*◌, ◌<◌, ◌≤◌, eqb, length, get_or};
ghost use Rattle.model_types.specs.Counts.{stop};
ghost use Rattle.wear.specs.Reports.{most, added_up, larger, lowest, passing, tallied, no_tally, no_report, added, report_from, tally_of};
ghost use Rattle.wear.specs.Columns.{column_from, first_tally, Room, Few};
ghost use Rattle.wear.specs.Refusals.{differ, unknown_number, uneven_counts, report_number, reported_of, add_number, added_to};

use device::Part;
use model_types::Wear;
use model_types::counts::raise;

// Of one block: the sum of its counts, the largest, the smallest (0 of no traces) and how many are over 100,000.
#[derive(Clone, Copy)]
pub struct Tally {
    pub total: u64,
    pub largest: u32,
    pub smallest: u32,
    pub passed: u32,
}

// Of the traces so far.
#[derive(Clone, Copy)]
pub struct Report {
    pub traces: u32,
    pub block0: Tally,
    pub block1: Tally,
    pub block2: Tally,
    pub block3: Tally,
    pub block4: Tally,
    pub block5: Tally,
    pub block6: Tally,
}

// A refusal, or 0, with the report; refused, with the one that there was before.
#[derive(Clone, Copy)]
pub struct Reported {
    pub number: u8,
    pub report: Report,
}

// What a trace must pass to be counted as passed.
const SHEET: u32 = 100000;

// The most traces.
const TRACES: u32 = 65535;

fn lowest(first: bool, a: u32, n: u32) -> u32
    ensures { result ≡ lowest first a n }
{
    if first { n } else { a.min(n) }
}

fn pass(a: u32, n: u32) -> u32
    ensures { result ≡ passing a n }
{
    if SHEET < n {
        return raise(a);
    }
    a
}

// One block, with one trace more.
fn tally_up(first: bool, t: Tally, n: u32) -> Tally
    ensures { result ≡ tallied first t n }
{
    Tally {
        total: t.total.saturating_add(u64::from(n)),
        largest: t.largest.max(n),
        smallest: lowest(first, t.smallest, n),
        passed: pass(t.passed, n),
    }
}

fn no_tally() -> Tally
    ensures { result ≡ no_tally }
{
    Tally {
        total: 0,
        largest: 0,
        smallest: 0,
        passed: 0,
    }
}

// The report on no traces.
pub fn none() -> Report
    ensures { result ≡ no_report }
{
    let t = no_tally();
    Report {
        traces: 0,
        block0: t,
        block1: t,
        block2: t,
        block3: t,
        block4: t,
        block5: t,
        block6: t,
    }
}

// A report with one trace more, by the counts of its last state.
pub fn add(r: Report, w: Wear) -> Report
    ensures { result ≡ added r w }
{
    let first = r.traces == 0;
    Report {
        traces: raise(r.traces),
        block0: tally_up(first, r.block0, w.block0),
        block1: tally_up(first, r.block1, w.block1),
        block2: tally_up(first, r.block2, w.block2),
        block3: tally_up(first, r.block3, w.block3),
        block4: tally_up(first, r.block4, w.block4),
        block5: tally_up(first, r.block5, w.block5),
        block6: tally_up(first, r.block6, w.block6),
    }
}

// The number at a place, 0 past the end.
fn count_at(s: &[u32], at: usize) -> u32
    ensures { result ≡ get_or s.now at 0 }
{
    s.get(at).copied().unwrap_or(0)
}

// One more where a count passed the sheet's, where it has room.
fn pass_in(a: u32, n: u32) -> u32
    requires { a < stop }
    ensures { (result ≡ passing a n) × (result ≤ a + 1) }
{
    if n <= SHEET {
        return a;
    }
    a + 1
}

// One block, with one trace more that is not the first, where its numbers have room.
fn tally_in(t: Tally, n: u32) -> Tally
    requires { (t.total + n ≤ most) × (t.passed < stop) }
    ensures { (result ≡ tallied false t n) × ((result.total ≡ t.total + n) × (result.passed ≤ t.passed + 1)) }
{
    Tally {
        total: t.total + u64::from(n),
        largest: t.largest.max(n),
        smallest: lowest(false, t.smallest, n),
        passed: pass_in(t.passed, n),
    }
}

// A block before its first trace, with this count as the smallest.
fn first_tally(n: u32) -> Tally
    ensures { result ≡ first_tally n }
{
    Tally {
        total: 0,
        largest: 0,
        smallest: n,
        passed: 0,
    }
}

// The first 2 m counts of block k, two at a time: four numbers, which the compiler keeps in registers.
fn pairs(s: &[u32], k: usize, m: usize, from: Tally) -> Tally
    requires { Few k (2 * m) (length s.now) × ((from.total ≡ 0) × (from.passed ≡ 0)) }
    ensures { (result ≡ column_from (2 * m) 0 k s.now from) × Room (2 * m) result }
{
    let mut t = from;
    for i in 0..m {
        let at = 14 * i + k;
        let u = tally_in(t, s[at]);
        t = tally_in(u, s[at + 7]);
    }
    t
}

// The last count, where their number is odd.
fn odd(s: &[u32], k: usize, i: usize, n: usize, t: Tally) -> Tally
    requires { Few k n (length s.now) × ((i ≤ n) × ((n ≤ i + 1) × Room i t)) }
    ensures { result ≡ column_from (n - i) i k s.now t }
{
    if i < n { tally_in(t, s[7 * i + k]) } else { t }
}

// Block k of the report on n traces.
fn column(s: &[u32], k: usize, n: usize) -> Tally
    requires { (k < 7) × ((n < 65536) × (length s.now ≡ 7 * n)) }
    ensures { result ≡ tally_of (report_from n 0 s.now no_report) k }
{
    let m = n / 2;
    let from = first_tally(count_at(s, k));
    let t = pairs(s, k, m, from);
    odd(s, k, 2 * m, n, t)
}

// The report on the n traces, block by block.
fn sum(s: &[u32], n: usize) -> Report
    requires { (n < 65536) × (length s.now ≡ 7 * n) }
    ensures { result ≡ report_from n 0 s.now no_report }
{
    Report {
        traces: n as u32,
        block0: column(s, 0, n),
        block1: column(s, 1, n),
        block2: column(s, 2, n),
        block3: column(s, 3, n),
        block4: column(s, 4, n),
        block5: column(s, 5, n),
        block6: column(s, 6, n),
    }
}

// Whether some trace is from another device number. The walk has no stop, so that the compiler takes many numbers at once.
fn differ(number: u8, s: &[u8]) -> bool
    ensures { result ≡ differ number s.now }
{
    s.iter().fold(false, |found, x| found | (*x != number))
}

// Whether the counts are not seven for each trace.
fn uneven_counts(traces: usize, counts: usize) -> bool
    ensures { result ≡ uneven_counts traces counts }
{
    counts / 7 != traces || counts % 7 != 0
}

fn unknown(number: u8) -> bool
    ensures { result ≡ unknown_number number }
{
    device::unknown_part(Part {
        number,
        word: false,
    })
}

fn report_number(number: u8, numbers: &[u8], counts: usize) -> u8
    ensures { result ≡ report_number number numbers.now counts }
{
    if unknown(number) {
        return 1;
    }
    if uneven_counts(numbers.len(), counts) {
        return 11;
    }
    if 65535 < numbers.len() {
        return 47;
    }
    if differ(number, numbers) {
        return 48;
    }
    0
}

// The report on traces from the device of this number: the number of the device that each is from, and seven counts for each.
pub fn report_on(number: u8, numbers: &[u8], counts: &[u32]) -> Reported
    ensures { result ≡ reported_of number numbers.now counts.now }
{
    let m = report_number(number, numbers, counts.len());
    if m != 0 {
        return Reported {
            number: m,
            report: none(),
        };
    }
    Reported {
        number: 0,
        report: sum(counts, numbers.len()),
    }
}

fn add_number(number: u8, from: u8, traces: u32) -> u8
    ensures { result ≡ add_number number from traces }
{
    if unknown(number) {
        return 1;
    }
    if TRACES <= traces {
        return 47;
    }
    if from != number {
        return 48;
    }
    0
}

// A report on the device of this number, with one trace more from the device of number `from`.
pub fn add_to(number: u8, r: Report, from: u8, w: Wear) -> Reported
    ensures { result ≡ added_to number r from w }
{
    let m = add_number(number, from, r.traces);
    if m != 0 {
        return Reported {
            number: m,
            report: r,
        };
    }
    Reported {
        number: 0,
        report: add(r, w),
    }
}
