// What the wear program says of the traces and recordings that its arguments name: a line for each that is not counted, and the table
// where all are. The public functions take any input.
#![tactic(auto)]

ghost use Rattle.std.specs.Prelude.{◌≡◌};
ghost use Rattle.std.specs.Counts.{IsPrefixLen};
ghost use Rattle.wear_print.specs.Tables.{laid_in, count_in};
ghost use Rattle.wear_answer.specs.Answers.{none_yet, worn_traced, worn_fresh, unread, said_in, uncounted, wear_said, more_said};
ghost use Rattle.wear_answer.specs.Answers.{final_text};

use model_types::Wear;
use trace_wear::BadLine;
use wear::Report;

// As many bytes as 9,999 lines of a recording have: what fills them is too long, whatever follows. A trace's lines are shorter.
pub const ROOM: usize = 309969;

// What is known after some traces: the report on those that are counted, and whether all of them are.
#[derive(Clone, Copy)]
pub struct Counting {
    pub report: Report,
    pub good: bool,
}

// The same after one trace more, and how many bytes in front of the lent slice say why that one is not counted: none where it is.
#[derive(Clone, Copy)]
pub struct Said {
    pub counting: Counting,
    pub used: usize,
}

// No trace yet.
pub fn none() -> Counting
    ensures { result ≡ none_yet }
{
    let report = wear::none();
    Counting {
        report: report,
        good: true,
    }
}

// A trace on bench T, fresh, with an array and a residue of FFH.
fn traced(text: &[u8]) -> Result<Wear, BadLine>
    ensures { result ≡ worn_traced text.now }
{
    let mut array = [255u8; 16384];
    let residue = [255u8; 16384];
    trace_wear::count(text, &mut array, &residue)
}

// A trace or a recording: which of them it is, its first line says.
fn judged(text: &[u8]) -> Result<Wear, BadLine>
    ensures { result ≡ worn_fresh text.now }
{
    if recording_wear::is_recording(text) {
        return recording_wear::count(text);
    }
    traced(text)
}

// Whether a trace of so many bytes was not read to its end: the room is not full, and the file does not end there.
fn unread(n: usize, ended: bool) -> bool
    ensures { result ≡ unread n ended }
{
    (n < ROOM) & !ended
}

// A trace that is not counted: its sign, its argument's number, and what is wrong.
fn say(counting: Counting, out: &mut [u8], sign: u8, k: usize, n: usize) -> Said
    ensures result { result ≡ said_in out.old (uncounted counting sign k n) }
    ensures out_left { out.new ≡ laid_in out.old (uncounted counting sign k n).line }
    ensures out_used { IsPrefixLen result.used out.new }
{
    let report = counting.report;
    let used = wear_print::line(out, sign, k as u64, n as u64);
    let after = Counting {
        report: report,
        good: false,
    };
    Said {
        counting: after,
        used: used,
    }
}

// A trace's counts, from bench T, which is device 3.
fn add_wear(counting: Counting, out: &mut [u8], k: usize, w: Wear) -> Said
    ensures result { result ≡ said_in out.old (wear_said counting k w) }
    ensures out_left { out.new ≡ laid_in out.old (wear_said counting k w).line }
    ensures out_used { IsPrefixLen result.used out.new }
{
    let before = counting.report;
    let good = counting.good;
    let r = wear::add_to(3, before, 3, w);
    let n = r.number;
    if n != 0 {
        return say(counting, out, b'X', k, n as usize);
    }
    let report = r.report;
    let after = Counting {
        report: report,
        good: good,
    };
    Said {
        counting: after,
        used: 0,
    }
}

// One trace more, that of argument k: its text, and whether its file ended there. The line goes into the front of out, which needs room
// for 512 bytes.
pub fn one_more(counting: Counting, out: &mut [u8], k: usize, text: &[u8], ended: bool) -> Said
    ensures result { result ≡ said_in out.old (more_said counting k text.now ended) }
    ensures out_left { out.new ≡ laid_in out.old (more_said counting k text.now ended).line }
    ensures out_used { IsPrefixLen result.used out.new }
{
    if unread(text.len(), ended) {
        return say(counting, out, b'!', k, 0);
    }
    match judged(text) {
        Ok(w) => add_wear(counting, out, k, w),
        Err(e) => say(counting, out, b'?', k, e.line),
    }
}

// The table in the front of out, where every trace was counted; else nothing. How many bytes it takes.
pub fn finish(counting: Counting, out: &mut [u8]) -> usize
    ensures result { result ≡ count_in out.old (final_text counting) }
    ensures out_left { out.new ≡ laid_in out.old (final_text counting) }
    ensures out_used { IsPrefixLen result out.new }
{
    let report = counting.report;
    if counting.good {
        return wear_print::table(out, report);
    }
    0
}
