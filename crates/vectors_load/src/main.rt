// Loads and verifies from a file: a case a line of standard input, an answer a line of standard output. A case is a name of 24 bytes and
// 46 numbers of six digits, then seven counts of ten; tests/vectors_load.py says what they mean and works out the answers.
#![tactic(auto)]

ghost use Rattle.std.specs.Prelude.{◌<◌, ◌≤◌};

use device::{Device, Part};
use loader::Work;
use loader_run::{Job, Ran};
use model_types::{Pins, State};
use vectors_states::{Erases, Shape};

// Number k of a case: as a length, as a byte, as 16 bits, as 32 bits.
fn field(case: &[u8], k: usize) -> usize
    requires { k < 100 }
{
    vectors_text::size_at(case, 10, 7 * k + 24, 6)
}

fn byte(case: &[u8], k: usize) -> u8
    requires { k < 100 }
{
    vectors_text::byte_at(case, 10, 7 * k + 24, 6)
}

fn half(case: &[u8], k: usize) -> u16
    requires { k < 100 }
{
    vectors_text::half_at(case, 10, 7 * k + 24, 6)
}

fn long(case: &[u8], k: usize) -> u32
    requires { k < 100 }
{
    vectors_text::word_at(case, 10, 7 * k + 24, 6)
}

// How much of a slice is lent, as number k says.
fn lent(case: &[u8], k: usize, there: usize) -> usize
    requires { k < 100 }
    ensures { result ≤ there }
{
    field(case, k).min(there)
}

// A slice gets the pattern of numbers j and j + 1.
fn prepare(case: &[u8], j: usize, s: &mut [u8])
    requires { j < 99 }
{
    let first = field(case, j);
    let step = field(case, j + 1);
    vectors_text::pattern(s, 256, first, step);
}

// So many bytes are changed, as the pairs of numbers from k on say.
fn change_all(case: &[u8], k: usize, n: usize, s: &mut [u8])
    requires { (k < 50) × (n < 10) }
{
    for at in (k..k + 2 * n).step_by(2) {
        text::put(s, field(case, at), byte(case, at + 1));
    }
}

// A file is written over the byte that the case says, and six bytes of it are changed.
fn write(case: &[u8], file: &mut [u8]) {
    let mut payload = [0u8; 113200];
    vectors_text::pattern(&mut payload, 256, 3, 7);
    let size = lent(case, 1, 113200);
    file.fill(byte(case, 43));
    let _ = file_writer::write(byte(case, 0), &payload[0..size], file);
    change_all(case, 2, 6, file);
}

// The file is laid into the array, where the case has a place for it.
fn lay(case: &[u8], array: &mut [u8], file: &[u8]) {
    let at = field(case, 36);
    if at < array.len() {
        common::copy(&mut array[at..], file);
    }
}

// The array before the load.
fn hold(case: &[u8], array: &mut [u8], file: &[u8]) {
    prepare(case, 30, array);
    lay(case, array, file);
    change_all(case, 37, 2, array);
}

fn device_of(case: &[u8]) -> Device {
    Device {
        part: Part {
            number: byte(case, 16),
            word: byte(case, 44) == 1,
        },
        program: half(case, 17),
        erase: half(case, 18),
        suspend: byte(case, 41),
    }
}

fn pins_of(case: &[u8]) -> Pins {
    Pins {
        rp: byte(case, 19),
        wp: byte(case, 45),
        vpp: long(case, 20),
    }
}

fn state_of(case: &[u8]) -> State {
    State {
        mode: vectors_states::mode_by(byte(case, 22)),
        status: byte(case, 23),
        phase: vectors_states::phase_by(byte(case, 24), 1),
        left: half(case, 25),
        address: long(case, 26),
        wear: vectors_states::wear_at(case, 346),
    }
}

// What is done with the file: a load and the verify after it, or a verify.
fn work_of(case: &[u8]) -> Work {
    if byte(case, 42) == 1 {
        return Work::Verify;
    }
    Work::Load(true)
}

// The load, or the verify where the case says so.
fn loaded(
    case: &[u8],
    array: &mut [u8],
    wanted: &mut [u8],
    scratch: &mut [u8],
    file: &[u8],
) -> Ran {
    let j = Job {
        device: device_of(case),
        state: state_of(case),
        pins: pins_of(case),
        block: byte(case, 21),
        work: work_of(case),
    };
    loader_from_file::load(j, array, wanted, scratch, file, byte(case, 15))
}

// What a slice holds: a digest, its first byte and its last, 0 where there is none.
fn tell_slice(rt: &impl Print, mark: char, s: &[u8]) {
    let sum = vectors_text::digest(s);
    let first = common::nth(s, 0);
    let last = common::nth(s, s.len().saturating_sub(1));
    let _ = print!(rt; " {mark} {sum} {first:02X} {last:02X}");
}

// The name of a case, the end, its address, the count and the state.
fn tell_end(rt: &impl Print, case: &[u8], x: Ran) {
    let n = case.len().min(24);
    streams::write_all(rt, &case[..n]);
    let _ = print!(rt;
        "E {} A {} N {} S {}",
        x.end,
        x.address,
        x.count,
        Shape(x.state)
    );
}

// The three slices after the load.
fn tell_slices(rt: &impl Print, array: &[u8], wanted: &[u8], scratch: &[u8]) {
    tell_slice(rt, 'a', array);
    tell_slice(rt, 'w', wanted);
    tell_slice(rt, 's', scratch);
}

// The counts before the load and after it.
fn tell_counts(rt: &impl Print, case: &[u8], x: Ran) {
    let had = Erases(state_of(case).wear);
    let has = Erases(x.state.wear);
    let _ = print!(rt; "{had} >{has}\n");
}

// The three slices are prepared, as far as they are lent.
fn ready(case: &[u8], array: &mut [u8], wanted: &mut [u8], scratch: &mut [u8], file: &[u8]) {
    hold(case, array, file);
    prepare(case, 32, wanted);
    prepare(case, 34, scratch);
}

// The load on what is lent, and its line.
fn run_case(
    rt: &impl Print,
    case: &[u8],
    array: &mut [u8],
    wanted: &mut [u8],
    scratch: &mut [u8],
    file: &[u8],
) {
    ready(case, array, wanted, scratch, file);
    let x = loaded(case, array, wanted, scratch, file);
    tell_end(rt, case, x);
    tell_slices(rt, array, wanted, scratch);
    tell_counts(rt, case, x);
}

// As much of each slice is lent as the case says.
fn with_slices(rt: &impl Print, case: &[u8], file: &[u8]) {
    let mut array = vectors_states::vast();
    let mut wanted = vectors_text::blank();
    let mut scratch = vectors_text::blank();
    let n = lent(case, 27, 524289);
    let m = lent(case, 28, 131073);
    let k = lent(case, 29, 131073);
    run_case(
        rt,
        case,
        &mut array[0..n],
        &mut wanted[0..m],
        &mut scratch[0..k],
        file,
    );
}

// One case: the file is made, and as much of it is used as the case says.
fn one(rt: &impl Print, case: &[u8]) {
    let mut file = [0u8; 115300];
    write(case, &mut file);
    let n = lent(case, 14, 115300);
    with_slices(rt, case, &file[0..n]);
}

// All cases of a text.
fn run_all(rt: &impl Print, text: &[u8]) {
    for case in text.chunks_exact(423) {
        one(rt, case);
    }
}

fn main(rt: HostRuntime) {
    let mut text = vectors_states::vast();
    let n = streams::read_input(&rt, &mut text);
    run_all(&rt, &text[..n]);
}
