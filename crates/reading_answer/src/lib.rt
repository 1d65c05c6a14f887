// The line that a reading prints. The public function takes any input.
#![tactic(auto)]

ghost use Rattle.std.specs.Prelude.{◌≡◌, length};
ghost use Rattle.text.specs.Writing.{laid_at, behind, Used, told_on};
ghost use Rattle.file_codec.specs.File.{limit, in_room, left_in, reader_of};
ghost use Rattle.reading.specs.Readings.{answer_as};
ghost use Rattle.reading_answer.specs.Lines.{read_words, refused_line, degrees, reading_line, answer_line, usage, call_wrong, answered};

use reading::{Reading, ReadingAnswer};
use text::Told;

// What a refusal means, from a place on; the place behind it.
pub fn put_words(out: &mut [u8], at: usize, n: u8) -> usize
    ensures result { result ≡ behind out.old at (read_words n) }
    ensures out_left { out.new ≡ laid_at out.old at (read_words n) }
{
    if n == 30 {
        return text::put_text(out, at, b"the file's length is wrong\n");
    }
    if n == 37 {
        return text::put_text(out, at, b"there is no room for the payload\n");
    }
    if n == 40 {
        return text::put_text(
            out,
            at,
            b"the payload is no whole number of knots, or too few\n",
        );
    }
    if n == 41 {
        return text::put_text(out, at, b"the microvolts are out of range or do not rise\n");
    }
    refusal_words::put_file_words(out, at, n)
}

// A refusal in the front of out; the place behind it.
fn put_refusal(out: &mut [u8], n: u8) -> usize
    ensures result { result ≡ behind out.old 0 (refused_line n) }
    ensures out_left { out.new ≡ laid_at out.old 0 (refused_line n) }
{
    let a = refusal_words::put_refused(out, 0, n);
    let b = text::put_text(out, a, b": ");
    put_words(out, b, n)
}

// A temperature and a newline, from a place on; the place behind it.
fn put_degrees(out: &mut [u8], at: usize, t: f64) -> usize
    ensures result { result ≡ behind out.old at (degrees t) }
    ensures out_left { out.new ≡ laid_at out.old at (degrees t) }
{
    let a = reading_print::put_temperature(out, at, t);
    text::put_text(out, a, b"\n")
}

// A reading in the front of out; the place behind it.
pub fn put_reading(out: &mut [u8], r: Reading) -> usize
    ensures result { result ≡ behind out.old 0 (reading_line r) }
    ensures out_left { out.new ≡ laid_at out.old 0 (reading_line r) }
{
    match r {
        Reading::Temperature(t) => put_degrees(out, 0, t),
        Reading::Below(t) => {
            let a = text::put_text(out, 0, b"below the table, which begins at ");
            put_degrees(out, a, t)
        }
        Reading::Above(t) => {
            let a = text::put_text(out, 0, b"above the table, which ends at ");
            put_degrees(out, a, t)
        }
    }
}

// An answer in the front of out; the place behind it.
fn put_answer(out: &mut [u8], answer: ReadingAnswer) -> usize
    ensures result { result ≡ behind out.old 0 (answer_line answer) }
    ensures out_left { out.new ≡ laid_at out.old 0 (answer_line answer) }
{
    match answer {
        ReadingAnswer::Read(r) => put_reading(out, r),
        ReadingAnswer::Refused(n) => put_refusal(out, n),
    }
}

// How the program is called, in the front of out; the place behind it.
fn put_usage(out: &mut [u8]) -> usize
    ensures result { result ≡ behind out.old 0 usage }
    ensures out_left { out.new ≡ laid_at out.old 0 usage }
{
    text::put_text(out, 0, b"usage: desk read FILE LETTER MICROVOLTS\n")
}

// A wrong call.
fn call_wrong(count: usize, letter: &[u8]) -> bool
    ensures { result ≡ call_wrong count letter.now }
{
    let n = letter.len();
    (count != 5) | (n != 1)
}

// The reading at so many microvolts from a file, in the front of out; the place behind it. The payload goes into room.
fn put_read(out: &mut [u8], file: &[u8], letter: u8, room: &mut [u8], x: i32) -> usize
    ensures result { result
        ≡ behind out.old 0
        (answer_line (answer_as x (in_room (length room.old) (reader_of limit file.now letter)))) }
    ensures out_left { out.new
        ≡ laid_at out.old 0
        (answer_line (answer_as x (in_room (length room.old) (reader_of limit file.now letter)))) }
    ensures room_left { room.new
        ≡ left_in room.old (in_room (length room.old) (reader_of limit file.now letter)) }
{
    let answer = reading::reading_from_file(file, letter, room, x);
    put_answer(out, answer)
}

// The answer to a call of so many words, the program's own and `read` among them: a file, a letter and microvolts. The line goes into
// the front of
// out, the payload into room.
pub fn answer(
    count: usize,
    file: &[u8],
    letter: &[u8],
    volts: &[u8],
    room: &mut [u8],
    out: &mut [u8],
) -> Told
    ensures result { result
        ≡ told_on (answered count file.now letter.now volts.now room.old).stream
        out.old (answered count file.now letter.now volts.now room.old).line }
    ensures out_left { out.new
        ≡ laid_at out.old 0
        (answered count file.now letter.now volts.now room.old).line }
    ensures room_left { room.new
        ≡ (answered count file.now letter.now volts.now room.old).room }
    ensures out_used { Used result.used out.new }
{
    if call_wrong(count, letter) {
        let used = put_usage(out);
        return Told {
            used: used,
            stream: 2,
        };
    }
    match reading_text::read_number(volts) {
        Some(x) => {
            let used = put_read(out, file, common::nth(letter, 0), room, x);
            Told {
                used: used,
                stream: 1,
            }
        }
        None => {
            let used = put_usage(out);
            Told {
                used: used,
                stream: 2,
            }
        }
    }
}
