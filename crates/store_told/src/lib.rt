// What is said of a call on a store: the words of the call become a part, a letter and what is asked; a question is answered by a line or
// a file, a change by the image that its run leaves and a line. The public function takes any input.
#![tactic(auto)]

ghost use Rattle.std.specs.Prelude.{◌≡◌, false, ◌++◌, min, eqb, length, drop};
ghost use Rattle.device.specs.Parts.{length_of};
ghost use Rattle.text.specs.Writing.{laid_at, behind, Used};
ghost use Rattle.file_codec.specs.File.{in_room, left_in};
ghost use Rattle.reading.specs.Readings.{answer_as};
ghost use Rattle.reading_text.specs.Numbers.{number_told};
ghost use Rattle.store_find.specs.Finds.{found_as, read_by};
ghost use Rattle.store.specs.Stores.{found_on};
ghost use Rattle.store_answer.specs.Words.{change_line};
ghost use Rattle.store_told.specs.Sayings.{is_change, is_word, call_wrong, usage, part_of, list_line, answer_line, find_asked};
ghost use Rattle.store_told.specs.Sayings.{read_by_said};
ghost use Rattle.store_told.specs.Sayings.{asked, asked_on, bytes_of, change_of, answered, answered_on, said_on};

use device::{Device, Part};
use loader_run::Ran;
use model_types::Pins;
use reading::ReadingAnswer;

// What a call gives back: the bytes of its line in front of out and the stream that it goes to, the bytes of a file in front of memory,
// and whether the image was changed by a run that ended well.
#[derive(Clone, Copy)]
pub struct Said {
    pub used: usize,
    pub stream: u8,
    pub filled: usize,
    pub changed: bool,
}

// A drop or an add.
fn is_change(b: u8) -> bool
    ensures { result ≡ is_change b }
{
    (b == b'D') | (b == b'A')
}

// One of the five words.
fn is_word(b: u8) -> bool
    ensures { result ≡ is_word b }
{
    (b == b'L') | (b == b'F') | (b == b'R') | is_change(b)
}

// A wrong call.
fn call_wrong(count: usize, word: &[u8], letter: &[u8]) -> bool
    ensures { result ≡ call_wrong count word.now letter.now }
{
    let n = word.len();
    let m = letter.len();
    (count != 8) | (n != 1) | !is_word(common::nth(word, 0)) | (m != 1)
}

// How the program is called, in the front of out; the place behind it.
fn put_usage(out: &mut [u8]) -> usize
    ensures result { result ≡ behind out.old 0 usage }
    ensures out_left { out.new ≡ laid_at out.old 0 usage }
{
    text::put_text(
        out,
        0,
        b"usage: desk store L|F|R|D|A IMAGE DEVICE LETTER MICROVOLTS FILE\n",
    )
}

// The part of a call.
fn part_of(device: &[u8]) -> Part
    ensures { result ≡ part_of device.now }
{
    Part {
        number: verify_answer::numeral(device),
        word: false,
    }
}

// What the main block holds, in the front of out; the place behind it.
fn put_listed(out: &mut [u8], part: Part, image: &[u8]) -> usize
    ensures result { result ≡ behind out.old 0 (list_line part image.now) }
    ensures out_left { out.new ≡ laid_at out.old 0 (list_line part image.now) }
{
    let n = store::part_number(part, image.len());
    if n != 0 {
        return store_answer::say_refusal(n, out);
    }
    let from = device::start(part, 3);
    let to = from + device::length(part, 3);
    store_answer::list(&image[from..to], out)
}

// An answer of a reading, in the front of out; the place behind it.
fn put_answer(out: &mut [u8], answer: ReadingAnswer) -> usize
    ensures result { result ≡ behind out.old 0 (answer_line answer) }
    ensures out_left { out.new ≡ laid_at out.old 0 (answer_line answer) }
{
    match answer {
        ReadingAnswer::Read(r) => reading_answer::put_reading(out, r),
        ReadingAnswer::Refused(n) => store_answer::say_refusal(n, out),
    }
}

// The reading at x by the file under a letter, in the front of out; the place behind it. The payload goes into memory.
fn put_read(
    out: &mut [u8],
    part: Part,
    image: &[u8],
    letter: u8,
    x: i32,
    memory: &mut [u8],
) -> usize
    ensures result { result
        ≡ behind out.old 0
        (answer_line (answer_as x (in_room (length memory.old) (read_by letter (found_on part image.now letter))))) }
    ensures out_left { out.new
        ≡ laid_at out.old 0
        (answer_line (answer_as x (in_room (length memory.old) (read_by letter (found_on part image.now letter))))) }
    ensures memory_left { memory.new
        ≡ left_in memory.old
        (in_room (length memory.old) (read_by letter (found_on part image.now letter))) }
{
    let answer = store::read_letter(part, image, letter, memory, x);
    put_answer(out, answer)
}

// What is given back, as one value.
fn as_said(used: usize, stream: u8, filled: usize, changed: bool) -> Said
    ensures { result ≡ record { used = used; stream = stream; filled = filled; changed = changed } }
{
    Said {
        used: used,
        stream: stream,
        filled: filled,
        changed: changed,
    }
}

// The file under a letter into the front of memory; a refusal is a line in the front of out.
fn found(out: &mut [u8], part: Part, image: &[u8], letter: u8, memory: &mut [u8]) -> Said
    ensures result { result
        ≡ asked_on out.old
        (find_asked (in_room (length memory.old) (found_on part image.now letter)) memory.old) }
    ensures out_left { out.new
        ≡ laid_at out.old 0
        (find_asked (in_room (length memory.old) (found_on part image.now letter)) memory.old).line }
    ensures memory_left { memory.new
        ≡ (find_asked (in_room (length memory.old) (found_on part image.now letter)) memory.old).memory }
{
    let f = store::find_letter(part, image, letter, memory);
    let n = f.number;
    if n != 0 {
        return as_said(store_answer::say_refusal(n, out), 2, f.length, false);
    }
    as_said(0, 2, f.length, false)
}

// The reading that is asked for, in the front of out, or the usage where the microvolts are no number.
fn read_asked(
    out: &mut [u8],
    part: Part,
    image: &[u8],
    letter: u8,
    volts: &[u8],
    memory: &mut [u8],
) -> Said
    ensures result { result
        ≡ asked_on out.old
        (read_by_said (number_told volts.now)
        (in_room (length memory.old) (read_by letter (found_on part image.now letter))) memory.old) }
    ensures out_left { out.new
        ≡ laid_at out.old 0
        (read_by_said (number_told volts.now)
        (in_room (length memory.old) (read_by letter (found_on part image.now letter)))
        memory.old).line }
    ensures memory_left { memory.new
        ≡ (read_by_said (number_told volts.now)
        (in_room (length memory.old) (read_by letter (found_on part image.now letter))) memory.old).memory }
{
    match reading_text::read_number(volts) {
        Some(x) => as_said(put_read(out, part, image, letter, x, memory), 1, 0, false),
        None => as_said(put_usage(out), 2, 0, false),
    }
}

// The question of a word: list, find or read.
fn question(
    out: &mut [u8],
    b: u8,
    part: Part,
    image: &[u8],
    letter: u8,
    volts: &[u8],
    memory: &mut [u8],
) -> Said
    ensures result { result
        ≡ asked_on out.old (asked b part image.now letter volts.now memory.old) }
    ensures out_left { out.new
        ≡ laid_at out.old 0 (asked b part image.now letter volts.now memory.old).line }
    ensures memory_left { memory.new
        ≡ (asked b part image.now letter volts.now memory.old).memory }
{
    if b == b'L' {
        return as_said(put_listed(out, part, image), 1, 0, false);
    }
    if b == b'F' {
        return found(out, part, image, letter, memory);
    }
    read_asked(out, part, image, letter, volts, memory)
}

// The bytes of the main block, as many as the rooms lent have.
fn block_bytes(part: Part, memory: usize, scratch: usize) -> usize
    ensures { result ≡ min (length_of part 3) (min memory scratch) }
{
    common::least(device::length(part, 3), common::least(memory, scratch))
}

// The change on a fresh device at 12 V, in the front of memory and scratch: an add, or a drop.
fn change_made(
    b: u8,
    part: Part,
    image: &mut [u8],
    memory: &mut [u8],
    scratch: &mut [u8],
    file: &[u8],
    letter: u8,
) -> Ran
    ensures result { result
        ≡ (change_of b part image.old memory.old scratch.old file.now letter).ran }
    ensures image_left { image.new
        ≡ (change_of b part image.old memory.old scratch.old file.now letter).bytes }
    ensures memory_left { memory.new
        ≡ (change_of b part image.old memory.old scratch.old file.now letter).memory
        ++ drop (bytes_of part memory.old scratch.old) memory.old }
    ensures scratch_left { scratch.new
        ≡ (change_of b part image.old memory.old scratch.old file.now letter).scratch
        ++ drop (bytes_of part memory.old scratch.old) scratch.old }
{
    let n = block_bytes(part, memory.len(), scratch.len());
    let s = model::fresh();
    let p = Pins {
        rp: 1,
        wp: 0,
        vpp: 12000,
    };
    let d = Device {
        part: part,
        program: 1,
        erase: 1,
        suspend: 1,
    };
    if b == b'A' {
        return store::add_file(
            d,
            s,
            p,
            image,
            &mut memory[0..n],
            &mut scratch[0..n],
            file,
            letter,
        );
    }
    store::drop_letter(
        d,
        s,
        p,
        image,
        &mut memory[0..n],
        &mut scratch[0..n],
        letter,
    )
}

// How a change ended: its line in the front of out.
fn change_said(out: &mut [u8], ran: Ran) -> Said
    ensures result { result ≡ said_on out.old (change_line ran.end ran.state.wear.block3) 2 0 (eqb ran.end 0) }
    ensures out_left { out.new ≡ laid_at out.old 0 (change_line ran.end ran.state.wear.block3) }
{
    let state = ran.state;
    let wear = state.wear;
    let end = ran.end;
    as_said(
        store_answer::say_change(end, wear.block3, out),
        2,
        0,
        end == 0,
    )
}

// The answer to a call of so many words, the program's own and `store` among them: a word, an image, a device, a letter, microvolts
// and a file. The
// line goes into the front of out (1,200 bytes hold every line), a file found into the front of memory; a change leaves the new image.
pub fn answer(
    count: usize,
    word: &[u8],
    image: &mut [u8],
    device: &[u8],
    letter: &[u8],
    volts: &[u8],
    file: &[u8],
    memory: &mut [u8],
    scratch: &mut [u8],
    out: &mut [u8],
) -> Said
    ensures result { result
        ≡ answered_on out.old
        (answered count word.now image.old device.now letter.now volts.now
        file.now memory.old scratch.old) }
    ensures out_left { out.new
        ≡ laid_at out.old 0
        (answered count word.now image.old device.now letter.now volts.now
        file.now memory.old scratch.old).line }
    ensures image_left { image.new
        ≡ (answered count word.now image.old device.now letter.now volts.now
        file.now memory.old scratch.old).image }
    ensures memory_left { memory.new
        ≡ (answered count word.now image.old device.now letter.now volts.now
        file.now memory.old scratch.old).memory }
    ensures scratch_left { scratch.new
        ≡ (answered count word.now image.old device.now letter.now volts.now
        file.now memory.old scratch.old).scratch }
    ensures out_used { Used result.used out.new }
    ensures memory_used { Used result.filled memory.new }
{
    if call_wrong(count, word, letter) {
        return as_said(put_usage(out), 2, 0, false);
    }
    let part = part_of(device);
    let b = common::nth(word, 0);
    let l = common::nth(letter, 0);
    if is_change(b) {
        let ran = change_made(b, part, image, memory, scratch, file, l);
        return change_said(out, ran);
    }
    question(out, b, part, image, l, volts, memory)
}
