// A load and a verify from a file: the file is judged for the letter asked, and only then the flash block is loaded with it, or
// verified against it.
#![tactic(auto)]

ghost use Rattle.std.specs.Prelude.{◌≡◌, ◌≤◌, length};
ghost use Rattle.loader_from_file.specs.Loads.{file_number, wanted_by, load_number, load_left};

use loader_run::{Job, Ran};

// Refusals 30 to 35 and 38 of a file for the letter asked and a block of n bytes, or 0.
pub fn file_number(file: &[u8], asked: u8, n: usize) -> u8
    ensures { result ≡ file_number file.now asked n }
{
    if n < file.len() {
        return 30;
    }
    match file_codec::judge(file, asked) {
        Ok(_) => 0,
        Err(refusal) => refusal.number(),
    }
}

// Where the number is 0, wanted becomes the file, then FFH to its end.
fn fill_wanted(number: u8, file: &[u8], wanted: &mut [u8])
    requires { number ≡ 0 → length file.now ≤ length wanted.old }
    ensures { wanted.new ≡ wanted_by number file.now wanted.old }
{
    if number != 0 {
        return;
    }
    let n = file.len();
    common::copy(wanted, file);
    common::fill(&mut wanted[n..], 255)
}

// A run's number, then the file's. The lengths are in bytes.
fn load_number(j: Job, array: usize, wanted: usize, scratch: usize, file: &[u8], asked: u8) -> u8
    ensures { result ≡ load_number j array wanted scratch file.now asked }
{
    let d = j.device;
    let part = d.part;
    let word = part.word;
    let n = loader_run::run_number(
        j,
        units::lent_in(word, array),
        units::lent_in(word, wanted),
        units::lent_in(word, scratch),
    );
    if n == 0 {
        return file_number(file, asked, wanted);
    }
    n
}

// The number of a load from a file; where it is 0, wanted becomes the file, then FFH to its end.
fn prepared(j: Job, array: usize, wanted: &mut [u8], scratch: usize, file: &[u8], asked: u8) -> u8
    ensures result { result ≡ load_number j array (length wanted.old) scratch file.now asked }
    ensures wanted_left { wanted.new
        ≡ wanted_by (load_number j array (length wanted.old) scratch file.now asked) file.now
        wanted.old }
{
    let n = load_number(j, array, wanted.len(), scratch, file, asked);
    fill_wanted(n, file, wanted);
    n
}

// A job from a file: the block is loaded with it, or verified against it.
pub fn load(
    j: Job,
    array: &mut [u8],
    wanted: &mut [u8],
    scratch: &mut [u8],
    file: &[u8],
    asked: u8,
) -> Ran
    ensures result { result
        ≡ (load_left j array.old wanted.old scratch.old file.now asked).ran }
    ensures array_left { array.new
        ≡ (load_left j array.old wanted.old scratch.old file.now asked).bytes }
    ensures wanted_left { wanted.new
        ≡ (load_left j array.old wanted.old scratch.old file.now asked).wanted }
    ensures scratch_left { scratch.new
        ≡ (load_left j array.old wanted.old scratch.old file.now asked).scratch }
{
    let s = j.state;
    let n = prepared(j, array.len(), wanted, scratch.len(), file, asked);
    if n == 0 {
        let m = loader_quick::run_tested(j, array, wanted, scratch);
        let r = m.ran;
        return r;
    }
    Ran {
        count: 0,
        end: n,
        address: 0,
        state: s,
    }
}
