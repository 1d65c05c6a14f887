// The wear that a whole recording leaves on bench T, counted from a fresh and blank part.
#![tactic(auto)]

ghost use Rattle.std.specs.Prelude.{◌≡◌};
ghost use Rattle.trace_wear.specs.Wears.{worn_told};
ghost use Rattle.recording_wear.specs.Recorded.{looks_recorded, fault_in, judged_blank, worn_recorded, recorded_told};

use model_types::Wear;
use recording_text::Judged;
use trace_wear::BadLine;

// A text is taken as a recording where its first line goes on at the place where a line of a trace ends.
pub fn is_recording(text: &[u8]) -> bool
    ensures { result ≡ looks_recorded text.now }
{
    common::nth(text, 19) == b' '
}

// The first line that is none or whose record is at fault, or 0.
fn fault_in(lines: usize, bad: usize, at: usize) -> usize
    ensures { result ≡ fault_in lines bad at }
{
    if at < lines {
        return at + 1;
    }
    bad
}

// Judged on a blank part. Nothing is promised, and the end is not asked.
fn judged(text: &[u8]) -> Judged
    ensures { result ≡ judged_blank text.now }
{
    let mut array = [255u8; 16384];
    let none = [0u8; 0];
    recording_text::judge(text, &none, &mut array)
}

// The counts that a recording leaves, or its first line that is none or whose record is at fault. Such a recording has no counts.
pub fn count(text: &[u8]) -> Result<Wear, BadLine>
    ensures result { result ≡ worn_recorded text.now }
    ensures told { worn_told result ≡ recorded_told text.now }
{
    let j = judged(text);
    let n = fault_in(j.lines, j.bad, j.checked.at);
    if n != 0 {
        return Err(BadLine { line: n });
    }
    Ok(j.checked.state.wear)
}
