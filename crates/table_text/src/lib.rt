// The table of a load file as text, or the line that says why there is none. The public function takes any input.
#![tactic(auto)]

ghost use Rattle.std.specs.Prelude.{◌≡◌, length};
ghost use Rattle.text.specs.Writing.{laid_at, behind, Used, told_on};
ghost use Rattle.file_codec.specs.File.{limit, in_room, left_in, reader_of};
ghost use Rattle.table_text.specs.Printed.{table_text};
ghost use Rattle.table_text.specs.Shown.{refused_said, table_said, file_said, usage, shown_of};

use text::Told;

// All knots of a payload, a line each, in the front of out; the place behind them.
fn put_knots(out: &mut [u8], payload: &[u8]) -> usize
    ensures result { result ≡ behind out.old 0 (table_text payload.now) }
    ensures out_left { out.new ≡ laid_at out.old 0 (table_text payload.now) }
{
    let n = payload.len() / 6;
    let mut at = 0;
    for i in 0..n {
        let volts = reading_table::volts(payload, i);
        let tenths = reading_table::tenths(payload, i);
        at = reading_print::put_knot(out, at, volts, tenths);
    }
    at
}

// A refusal in the front of out; the place behind it.
fn put_refusal(out: &mut [u8], n: u8) -> usize
    ensures result { result ≡ behind out.old 0 (refused_said n).line }
    ensures out_left { out.new ≡ laid_at out.old 0 (refused_said n).line }
{
    let a = refusal_words::put_refused(out, 0, n);
    text::put_text(out, a, b"\n")
}

// A payload judged as a table, then its lines.
fn put_table(payload: &[u8], out: &mut [u8]) -> Told
    ensures result { result
        ≡ told_on (table_said payload.now).stream out.old (table_said payload.now).line }
    ensures out_left { out.new ≡ laid_at out.old 0 (table_said payload.now).line }
{
    let n = reading_table::judge_table(payload);
    if n == 0 {
        let used = put_knots(out, payload);
        return Told {
            used: used,
            stream: 1,
        };
    }
    let used = put_refusal(out, n);
    Told {
        used: used,
        stream: 2,
    }
}

// The table of a file for a letter.
fn put_file(file: &[u8], letter: u8, room: &mut [u8], out: &mut [u8]) -> Told
    ensures result { result
        ≡ told_on (file_said (in_room (length room.old) (reader_of limit file.now letter))).stream out.old
        (file_said (in_room (length room.old) (reader_of limit file.now letter))).line }
    ensures out_left { out.new
        ≡ laid_at out.old 0 (file_said (in_room (length room.old) (reader_of limit file.now letter))).line }
    ensures room_left { room.new
        ≡ left_in room.old (in_room (length room.old) (reader_of limit file.now letter)) }
{
    match file_codec::read(file, letter, room) {
        Ok(size) => put_table(&room[0..size], out),
        Err(refusal) => Told {
            used: put_refusal(out, refusal.number()),
            stream: 2,
        },
    }
}

// How the program is called, in the front of out; the place behind it.
fn put_usage(out: &mut [u8]) -> usize
    ensures result { result ≡ behind out.old 0 usage }
    ensures out_left { out.new ≡ laid_at out.old 0 usage }
{
    text::put_text(out, 0, b"usage: desk print FILE LETTER\n")
}

// The table of a file for a letter, in the front of out, or the line that says why there is none. The payload goes into room.
pub fn show(file: &[u8], letter: &[u8], room: &mut [u8], out: &mut [u8]) -> Told
    ensures result { result
        ≡ told_on (shown_of file.now letter.now room.old).said.stream out.old
        (shown_of file.now letter.now room.old).said.line }
    ensures out_left { out.new
        ≡ laid_at out.old 0 (shown_of file.now letter.now room.old).said.line }
    ensures room_left { room.new ≡ (shown_of file.now letter.now room.old).room }
    ensures out_used { Used result.used out.new }
{
    if letter.len() == 1 {
        return put_file(file, common::nth(letter, 0), room, out);
    }
    let used = put_usage(out);
    Told {
        used: used,
        stream: 2,
    }
}
