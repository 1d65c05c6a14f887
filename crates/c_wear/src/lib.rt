// The report on the wear of many traces, as structs of numbers for a C program, each way. All numbers stand for a report.
#![tactic(auto)]

ghost use Rattle.std.specs.Prelude.{◌≡◌};
ghost use Rattle.c_wear.specs.Reports.{tally_in, tally_out, report_in, report_out, reported_out};

use wear::{Report, Reported, Tally};

// Of one block: the sum of its counts, the largest, the smallest and how many are over 100,000.
#[repr(C)]
#[derive(Clone, Copy)]
pub struct TallyNumbers {
    pub total: u64,
    pub largest: u32,
    pub smallest: u32,
    pub passed: u32,
}

// Of the traces so far.
#[repr(C)]
#[derive(Clone, Copy)]
pub struct ReportNumbers {
    pub traces: u32,
    pub block0: TallyNumbers,
    pub block1: TallyNumbers,
    pub block2: TallyNumbers,
    pub block3: TallyNumbers,
    pub block4: TallyNumbers,
    pub block5: TallyNumbers,
    pub block6: TallyNumbers,
}

// A refusal, or 0, with the report.
#[repr(C)]
#[derive(Clone, Copy)]
pub struct ReportedNumbers {
    pub number: u8,
    pub report: ReportNumbers,
}

fn tally_in(n: TallyNumbers) -> Tally
    ensures { result ≡ tally_in n }
{
    Tally {
        total: n.total,
        largest: n.largest,
        smallest: n.smallest,
        passed: n.passed,
    }
}

fn tally_out(t: Tally) -> TallyNumbers
    ensures { result ≡ tally_out t }
{
    TallyNumbers {
        total: t.total,
        largest: t.largest,
        smallest: t.smallest,
        passed: t.passed,
    }
}

// Numbers as a report.
pub fn report_in(n: ReportNumbers) -> Report
    ensures { result ≡ report_in n }
{
    let t0 = n.block0;
    let t1 = n.block1;
    let t2 = n.block2;
    let t3 = n.block3;
    let t4 = n.block4;
    let t5 = n.block5;
    let t6 = n.block6;
    Report {
        traces: n.traces,
        block0: tally_in(t0),
        block1: tally_in(t1),
        block2: tally_in(t2),
        block3: tally_in(t3),
        block4: tally_in(t4),
        block5: tally_in(t5),
        block6: tally_in(t6),
    }
}

// A report as numbers.
pub fn report_out(r: Report) -> ReportNumbers
    ensures { result ≡ report_out r }
{
    let t0 = r.block0;
    let t1 = r.block1;
    let t2 = r.block2;
    let t3 = r.block3;
    let t4 = r.block4;
    let t5 = r.block5;
    let t6 = r.block6;
    ReportNumbers {
        traces: r.traces,
        block0: tally_out(t0),
        block1: tally_out(t1),
        block2: tally_out(t2),
        block3: tally_out(t3),
        block4: tally_out(t4),
        block5: tally_out(t5),
        block6: tally_out(t6),
    }
}

// A refusal or 0, and the report, as numbers.
pub fn reported_out(r: Reported) -> ReportedNumbers
    ensures { result ≡ reported_out r }
{
    let report = r.report;
    ReportedNumbers {
        number: r.number,
        report: report_out(report),
    }
}
