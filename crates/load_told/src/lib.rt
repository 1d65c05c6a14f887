// What is said of a load into an image of a part: the words of a call become a device, a block and a letter, the load is run on the image,
// and its end is told. The public function takes any input.
#![tactic(auto)]

ghost use Rattle.std.specs.Prelude.{◌≡◌, ◌++◌, ◌-◌, eqb, drop};
ghost use Rattle.model_types.specs.Counts.{count_of};
ghost use Rattle.text.specs.Writing.{laid_at, behind, Used};
ghost use Rattle.verify_answer.specs.Answers.{bytes_of};
ghost use Rattle.load_told.specs.Tellings.{time_of, call_wrong, usage, pins_of, load_of, erase_cost, programs_of, number_text, unit_text};
ghost use Rattle.load_told.specs.Tellings.{done_text, end_text, told, said_on};

use device::{Device, Part};
use loader::Work;
use loader_run::{Job, Ran};
use model_types::{Pins, Wear};

// What a call gives back: the bytes of its line in front of out, and whether the load ended well.
#[derive(Clone, Copy)]
pub struct Said {
    pub used: usize,
    pub loaded: bool,
}

// A wrong call.
fn call_wrong(count: usize, letter: &[u8], mode: u8) -> bool
    ensures { result ≡ call_wrong count letter.now mode }
{
    let n = letter.len();
    (count != 10) | (n != 1) | (1 < mode)
}

// A busy time by its word.
fn time_of(word: &[u8]) -> u16
    ensures { result ≡ time_of word.now }
{
    let a = text::hex_digit(common::nth(word, 0)) as u16;
    let b = text::hex_digit(common::nth(word, 1)) as u16;
    let c = text::hex_digit(common::nth(word, 2)) as u16;
    let d = text::hex_digit(common::nth(word, 3)) as u16;
    ((a * 16 + b) * 16 + c) * 16 + d
}

// The levels of a load.
fn pins_of(block: u8) -> Pins
    ensures { result ≡ pins_of block }
{
    if block == 0 {
        return Pins {
            rp: 2,
            wp: 0,
            vpp: 12000,
        };
    }
    Pins {
        rp: 1,
        wp: 0,
        vpp: 12000,
    }
}

// The erases of a block.
fn erases_of(w: Wear, k: u8) -> u32
    ensures { result ≡ count_of w k }
{
    if k == 0 {
        return w.block0;
    }
    if k == 1 {
        return w.block1;
    }
    if k == 2 {
        return w.block2;
    }
    if k == 3 {
        return w.block3;
    }
    if k == 4 {
        return w.block4;
    }
    if k == 5 {
        return w.block5;
    }
    if k == 6 {
        return w.block6;
    }
    0
}

// The cycles of the erase, where one was begun.
fn erase_cost(erases: u32, time: u16) -> u64
    ensures { result ≡ erase_cost erases time }
{
    if erases == 0 {
        return 0;
    }
    2 + time as u64
}

// A difference that stops at zero.
fn less(a: u64, b: u64) -> u64
    ensures { result ≡ a - b }
{
    if a < b {
        return 0;
    }
    a - b
}

// The programs of a good run on n units.
fn programs_of(d: Device, n: usize, erases: u32, count: u64) -> u64
    ensures { result ≡ programs_of d n erases count }
{
    let m = common::least(n, 1048576) as u64;
    let rest = less(count, 2 * m + 3);
    less(rest, erase_cost(erases, d.erase)) / (2 + d.program as u64)
}

// A number in ten digits, from a place on; the place behind it.
fn put_number(out: &mut [u8], at: usize, n: u64) -> usize
    ensures result { result ≡ behind out.old at (number_text n) }
    ensures out_left { out.new ≡ laid_at out.old at (number_text n) }
{
    let mut digits = [0u8; 10];
    text::decimal(&mut digits, n);
    text::put_text(out, at, &digits[0..10])
}

// What was programmed, from a place on; the place behind it.
fn put_unit(out: &mut [u8], at: usize, word: bool) -> usize
    ensures result { result ≡ behind out.old at (unit_text word) }
    ensures out_left { out.new ≡ laid_at out.old at (unit_text word) }
{
    if word {
        return text::put_text(out, at, b", words programmed ");
    }
    text::put_text(out, at, b", bytes programmed ")
}

// What a good load took, in the front of out; the place behind it.
fn put_done(out: &mut [u8], word: bool, cycles: u64, erases: u32, programs: u64) -> usize
    ensures result { result ≡ behind out.old 0 (done_text word cycles erases programs) }
    ensures out_left { out.new ≡ laid_at out.old 0 (done_text word cycles erases programs) }
{
    let a = text::put_text(out, 0, b"cycles ");
    let b = put_number(out, a, cycles);
    let c = text::put_text(out, b, b", erases begun ");
    let d = text::put_decimal(out, c, erases);
    let e = put_unit(out, d, word);
    let f = put_number(out, e, programs);
    text::put_text(out, f, b"\n")
}

// How a run of a block ended, in the front of out; the place behind it.
fn put_end(out: &mut [u8], d: Device, block: u8, r: Ran) -> usize
    ensures result { result ≡ behind out.old 0 (end_text d block r) }
    ensures out_left { out.new ≡ laid_at out.old 0 (end_text d block r) }
{
    let part = d.part;
    let state = r.state;
    let wear = state.wear;
    let word = part.word;
    let e = erases_of(wear, block);
    let p = programs_of(d, device::length(part, block), e, r.count);
    if r.end == 0 {
        return put_done(out, word, r.count, e, p);
    }
    verify_answer::put_refusal(out, r.end)
}

// The load of a block of an image, on a fresh part, in the front of wanted and scratch.
fn loaded(
    d: Device,
    block: u8,
    image: &mut [u8],
    wanted: &mut [u8],
    scratch: &mut [u8],
    file: &[u8],
    letter: u8,
) -> Ran
    ensures result { result
        ≡ (load_of d block image.old wanted.old scratch.old file.now letter).ran }
    ensures image_left { image.new
        ≡ (load_of d block image.old wanted.old scratch.old file.now letter).bytes }
    ensures wanted_left { wanted.new
        ≡ (load_of d block image.old wanted.old scratch.old file.now letter).wanted
        ++ drop (bytes_of d.part block wanted.old scratch.old) wanted.old }
    ensures scratch_left { scratch.new
        ≡ (load_of d block image.old wanted.old scratch.old file.now letter).scratch
        ++ drop (bytes_of d.part block wanted.old scratch.old) scratch.old }
{
    let part = d.part;
    let n = verify_answer::block_bytes(part, block, wanted.len(), scratch.len());
    let state = model::fresh();
    let pins = pins_of(block);
    let j = Job {
        device: d,
        state: state,
        pins: pins,
        block: block,
        work: Work::Load(true),
    };
    loader_from_file::load(
        j,
        image,
        &mut wanted[0..n],
        &mut scratch[0..n],
        file,
        letter,
    )
}

// How the program is called, in the front of out; the place behind it.
fn put_usage(out: &mut [u8]) -> usize
    ensures result { result ≡ behind out.old 0 usage }
    ensures out_left { out.new ≡ laid_at out.old 0 usage }
{
    text::put_text(
        out,
        0,
        b"usage: desk load IMAGE DEVICE BLOCK FILE LETTER MODE PROGRAM ERASE\n",
    )
}

// The answer to a call of so many words, the program's own and `load` among them: an image, a device, a block, a file, a letter, a mode and
// the busy times of a program and an erase. The line goes into the front of out; a room of 96 bytes holds every line.
pub fn tell(
    count: usize,
    image: &mut [u8],
    device: &[u8],
    block: &[u8],
    file: &[u8],
    letter: &[u8],
    mode: &[u8],
    program: &[u8],
    erase: &[u8],
    wanted: &mut [u8],
    scratch: &mut [u8],
    out: &mut [u8],
) -> Said
    ensures result { result
        ≡ said_on out.old
        (told count image.old device.now block.now file.now letter.now
        mode.now program.now erase.now wanted.old scratch.old) }
    ensures out_left { out.new
        ≡ laid_at out.old 0
        (told count image.old device.now block.now file.now letter.now
        mode.now program.now erase.now wanted.old scratch.old).line }
    ensures image_left { image.new
        ≡ (told count image.old device.now block.now file.now letter.now
        mode.now program.now erase.now wanted.old scratch.old).image }
    ensures wanted_left { wanted.new
        ≡ (told count image.old device.now block.now file.now letter.now
        mode.now program.now erase.now wanted.old scratch.old).wanted }
    ensures scratch_left { scratch.new
        ≡ (told count image.old device.now block.now file.now letter.now
        mode.now program.now erase.now wanted.old scratch.old).scratch }
    ensures out_used { Used result.used out.new }
{
    let m = verify_answer::numeral(mode);
    if call_wrong(count, letter, m) {
        return Said {
            used: put_usage(out),
            loaded: false,
        };
    }
    let k = verify_answer::numeral(block);
    let part = Part {
        number: verify_answer::numeral(device),
        word: m == 1,
    };
    let d = Device {
        part: part,
        program: time_of(program),
        erase: time_of(erase),
        suspend: 1,
    };
    let x = loaded(d, k, image, wanted, scratch, file, common::nth(letter, 0));
    Said {
        used: put_end(out, d, k, x),
        loaded: x.end == 0,
    }
}
