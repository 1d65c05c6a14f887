// The line that a verify prints: the words of a call become a part, a block and a letter, the image is verified, and the result is told.
// Each public function takes any input.
#![tactic(auto)]

ghost use Rattle.std.specs.Prelude.{◌≡◌, ◌++◌, min, drop};
ghost use Rattle.device.specs.Parts.{length_of};
ghost use Rattle.text.specs.Writing.{laid_at, behind, Used, told_on};
ghost use Rattle.verify_answer.specs.Answers.{is_numeral, numeral_of, call_wrong, verify_words, refused_line, address_text, differs_text};
ghost use Rattle.verify_answer.specs.Answers.{end_text, narrowed, bytes_of, verify_job, verify_of, usage, answered, told};

use device::{Device, Part};
use loader::Work;
use loader_run::{Job, Ran};
use model_types::Pins;
use text::Told;

// A word that is one digit.
fn is_numeral(word: &[u8]) -> bool
    ensures { result ≡ is_numeral word.now }
{
    let n = word.len();
    (n == 1) & text::is_digit(common::nth(word, 0))
}

// What it counts; 255 where it is none.
pub fn numeral(word: &[u8]) -> u8
    ensures { result ≡ numeral_of word.now }
{
    if is_numeral(word) {
        return text::digit(common::nth(word, 0));
    }
    255
}

// A wrong call.
fn call_wrong(count: usize, letter: &[u8], mode: u8) -> bool
    ensures { result ≡ call_wrong count letter.now mode }
{
    let n = letter.len();
    (count != 8) | (n != 1) | (1 < mode)
}

// What a refusal means, from a place on; the place behind it.
fn put_words(out: &mut [u8], at: usize, n: u8) -> usize
    ensures result { result ≡ behind out.old at (verify_words n) }
    ensures out_left { out.new ≡ laid_at out.old at (verify_words n) }
{
    if n == 1 {
        return text::put_text(
            out,
            at,
            b"there is no such device, or it has no word mode\n",
        );
    }
    if n == 2 {
        return text::put_text(out, at, b"the image is not as long as the part\n");
    }
    if n == 10 {
        return text::put_text(out, at, b"there is no such block\n");
    }
    if n == 30 {
        return text::put_text(
            out,
            at,
            b"the file's length is wrong, or it is longer than the block\n",
        );
    }
    refusal_words::put_file_words(out, at, n)
}

// A refusal of a verify, or of a load, in the front of out; the place behind it.
pub fn put_refusal(out: &mut [u8], n: u8) -> usize
    ensures result { result ≡ behind out.old 0 (refused_line n) }
    ensures out_left { out.new ≡ laid_at out.old 0 (refused_line n) }
{
    let a = refusal_words::put_refused(out, 0, n);
    let b = text::put_text(out, a, b": ");
    put_words(out, b, n)
}

// An address in five hexadecimal digits, from a place on; the place behind it.
fn put_address(out: &mut [u8], at: usize, address: u32) -> usize
    ensures result { result ≡ behind out.old at (address_text address) }
    ensures out_left { out.new ≡ laid_at out.old at (address_text address) }
{
    let mut digits = [0u8; 5];
    text::hex(&mut digits, address as u64);
    text::put_text(out, at, &digits[0..5])
}

// The address that differs, in the front of out; the place behind it.
fn put_differs(out: &mut [u8], address: u32) -> usize
    ensures result { result ≡ behind out.old 0 (differs_text address) }
    ensures out_left { out.new ≡ laid_at out.old 0 (differs_text address) }
{
    let a = text::put_text(out, 0, b"differs at ");
    let b = put_address(out, a, address);
    text::put_text(out, b, b"\n")
}

// How a verify ended, in the front of out; the place behind it.
fn put_end(out: &mut [u8], end: u8, address: u32) -> usize
    ensures result { result ≡ behind out.old 0 (end_text end address) }
    ensures out_left { out.new ≡ laid_at out.old 0 (end_text end address) }
{
    if end == 0 {
        return text::put_text(out, 0, b"the block holds the file\n");
    }
    if end == 25 {
        return put_differs(out, address);
    }
    put_refusal(out, end)
}

// The bytes of a flash block, as many as the rooms lent have.
pub fn block_bytes(part: Part, block: u8, wanted: usize, scratch: usize) -> usize
    ensures { result ≡ min (length_of (narrowed part) block) (min wanted scratch) }
{
    let narrow = Part {
        number: part.number,
        word: false,
    };
    common::least(
        device::length(narrow, block),
        common::least(wanted, scratch),
    )
}

// What is verified: a block of a fresh part, at the levels of a reading.
fn verify_job(part: Part, block: u8) -> Job
    ensures { result ≡ verify_job part block }
{
    let state = model::fresh();
    let pins = Pins {
        rp: 1,
        wp: 0,
        vpp: 0,
    };
    let device = Device {
        part: part,
        program: 1,
        erase: 1,
        suspend: 1,
    };
    Job {
        device: device,
        state: state,
        pins: pins,
        block: block,
        work: Work::Verify,
    }
}

// The verify of a block of an image, on a fresh part, in the front of wanted and scratch.
fn verified(
    part: Part,
    block: u8,
    image: &mut [u8],
    wanted: &mut [u8],
    scratch: &mut [u8],
    file: &[u8],
    letter: u8,
) -> Ran
    ensures result { result
        ≡ (verify_of part block image.old wanted.old scratch.old file.now letter).ran }
    ensures image_left { image.new
        ≡ (verify_of part block image.old wanted.old scratch.old file.now letter).bytes }
    ensures wanted_left { wanted.new
        ≡ (verify_of part block image.old wanted.old scratch.old file.now letter).wanted
        ++ drop (bytes_of part block wanted.old scratch.old) wanted.old }
    ensures scratch_left { scratch.new
        ≡ (verify_of part block image.old wanted.old scratch.old file.now letter).scratch
        ++ drop (bytes_of part block wanted.old scratch.old) scratch.old }
{
    let n = block_bytes(part, block, wanted.len(), scratch.len());
    let j = verify_job(part, block);
    loader_from_file::load(
        j,
        image,
        &mut wanted[0..n],
        &mut scratch[0..n],
        file,
        letter,
    )
}

// How the program is called, in the front of out.
fn put_usage(out: &mut [u8]) -> usize
    ensures result { result ≡ behind out.old 0 usage }
    ensures out_left { out.new ≡ laid_at out.old 0 usage }
{
    text::put_text(
        out,
        0,
        b"usage: desk verify IMAGE DEVICE BLOCK FILE LETTER MODE\n",
    )
}

// The answer to a call of so many words, the program's own and `verify` among them: an image, a device, a block, a file, a letter and
// a mode. The
// line goes into the front of out; a room of 96 bytes holds every line.
pub fn answer(
    count: usize,
    image: &mut [u8],
    device: &[u8],
    block: &[u8],
    file: &[u8],
    letter: &[u8],
    mode: &[u8],
    wanted: &mut [u8],
    scratch: &mut [u8],
    out: &mut [u8],
) -> Told
    ensures result { result
        ≡ told_on
        (answered count image.old device.now block.now file.now letter.now
        mode.now wanted.old scratch.old).stream out.old
        (answered count image.old device.now block.now file.now letter.now
        mode.now wanted.old scratch.old).line }
    ensures out_left { out.new
        ≡ laid_at out.old 0
        (answered count image.old device.now block.now file.now letter.now
        mode.now wanted.old scratch.old).line }
    ensures image_left { image.new
        ≡ (answered count image.old device.now block.now file.now letter.now
        mode.now wanted.old scratch.old).image }
    ensures wanted_left { wanted.new
        ≡ (answered count image.old device.now block.now file.now letter.now
        mode.now wanted.old scratch.old).wanted }
    ensures scratch_left { scratch.new
        ≡ (answered count image.old device.now block.now file.now letter.now
        mode.now wanted.old scratch.old).scratch }
    ensures out_used { Used result.used out.new }
{
    let m = numeral(mode);
    if call_wrong(count, letter, m) {
        return Told {
            used: put_usage(out),
            stream: 2,
        };
    }
    let part = Part {
        number: numeral(device),
        word: m == 1,
    };
    let x = verified(
        part,
        numeral(block),
        image,
        wanted,
        scratch,
        file,
        common::nth(letter, 0),
    );
    Told {
        used: put_end(out, x.end, x.address),
        stream: 1,
    }
}

// The same with rooms of its own, as long as the longest flash block.
pub fn tell(
    count: usize,
    image: &mut [u8],
    device: &[u8],
    block: &[u8],
    file: &[u8],
    letter: &[u8],
    mode: &[u8],
    out: &mut [u8],
) -> Told
    ensures result { result
        ≡ told_on
        (told count image.old device.now block.now file.now letter.now
        mode.now).stream out.old
        (told count image.old device.now block.now file.now letter.now
        mode.now).line }
    ensures out_left { out.new
        ≡ laid_at out.old 0
        (told count image.old device.now block.now file.now letter.now
        mode.now).line }
    ensures image_left { image.new
        ≡ (told count image.old device.now block.now file.now letter.now
        mode.now).image }
    ensures out_used { Used result.used out.new }
{
    let mut wanted = [0u8; 131072];
    let mut scratch = [0u8; 131072];
    answer(
        count,
        image,
        device,
        block,
        file,
        letter,
        mode,
        &mut wanted,
        &mut scratch,
        out,
    )
}
