// The load file of a table in text, or the line that says why there is none. The public function takes any input.
#![tactic(auto)]

ghost use Rattle.std.specs.Prelude.{◌≡◌, ◌<◌, ◌≤◌, length};
ghost use Rattle.text.specs.Writing.{laid_at, behind, Used, told_on};
ghost use Rattle.file_codec.specs.File.{limit, in_room, writer_of};
ghost use Rattle.reading_text.specs.Tables.{table_scanned};
ghost use Rattle.table_file.specs.Files.{longest, refused_line, fault_line, table_line, wrong_line, file_said, table_said, scanned_said};
ghost use Rattle.table_file.specs.Files.{long_line, usage, made_of};

use text::Told;

// The bytes of the longest text that is read, and a room that shows a longer one.
const LONGEST: usize = 327679;

// A room that shows a text that is longer than the longest.
pub const ROOM: usize = LONGEST + 1;

// A refusal in the front of out.
fn put_refusal(out: &mut [u8], n: u8) -> usize
    ensures result { result ≡ behind out.old 0 (refused_line n) }
    ensures out_left { out.new ≡ laid_at out.old 0 (refused_line n) }
{
    let a = refusal_words::put_refused(out, 0, n);
    text::put_text(out, a, b"\n")
}

// 41 with the line of the knot at fault.
fn put_fault(out: &mut [u8], payload: &[u8]) -> usize
    requires { length payload.now ≤ 1966080 }
    ensures result { result ≡ behind out.old 0 (fault_line payload.now) }
    ensures out_left { out.new ≡ laid_at out.old 0 (fault_line payload.now) }
{
    let i = reading_table::first_fault(payload);
    let a = text::put_text(out, 0, b"refused 41 in line ");
    let b = text::put_decimal(out, a, (i + 1) as u32);
    text::put_text(out, b, b"\n")
}

// A refusal of a table.
fn put_table_line(out: &mut [u8], n: u8, payload: &[u8]) -> usize
    requires { length payload.now ≤ 1966080 }
    ensures result { result ≡ behind out.old 0 (table_line n payload.now) }
    ensures out_left { out.new ≡ laid_at out.old 0 (table_line n payload.now) }
{
    if n == 41 {
        return put_fault(out, payload);
    }
    put_refusal(out, n)
}

// A line that is no knot.
fn put_wrong_line(out: &mut [u8], n: usize) -> usize
    requires { n ≤ 327680 }
    ensures result { result ≡ behind out.old 0 (wrong_line n) }
    ensures out_left { out.new ≡ laid_at out.old 0 (wrong_line n) }
{
    let a = text::put_text(out, 0, b"no knot, or one too many, in line ");
    let b = text::put_decimal(out, a, n as u32);
    text::put_text(out, b, b"\n")
}

// The file of a payload, or the refusal of its writer.
fn put_file(letter: u8, payload: &[u8], out: &mut [u8]) -> Told
    ensures result { result
        ≡ told_on (file_said (in_room (length out.old) (writer_of limit letter payload.now))).stream out.old
        (file_said (in_room (length out.old) (writer_of limit letter payload.now))).line }
    ensures out_left { out.new
        ≡ laid_at out.old 0
        (file_said (in_room (length out.old) (writer_of limit letter payload.now))).line }
{
    match file_writer::write(letter, payload, out) {
        Ok(size) => Told {
            used: size,
            stream: 1,
        },
        Err(refusal) => Told {
            used: put_refusal(out, refusal.number()),
            stream: 2,
        },
    }
}

// A payload judged as a table, then its file.
fn put_table(letter: u8, payload: &[u8], out: &mut [u8]) -> Told
    requires { length payload.now ≤ 1966080 }
    ensures result { result
        ≡ told_on (table_said letter (length out.old) payload.now).stream out.old
        (table_said letter (length out.old) payload.now).line }
    ensures out_left { out.new
        ≡ laid_at out.old 0 (table_said letter (length out.old) payload.now).line }
{
    let n = reading_table::judge_table(payload);
    if n == 0 {
        return put_file(letter, payload, out);
    }
    let used = put_table_line(out, n, payload);
    Told {
        used: used,
        stream: 2,
    }
}

// What a text says of a table, then the file of it.
fn put_read(letter: u8, text: &[u8], payload: &mut [u8], out: &mut [u8]) -> Told
    requires { length text.now ≤ longest }
    ensures result { result
        ≡ told_on (scanned_said letter (length out.old) (table_scanned text.now payload.old)).stream
        out.old
        (scanned_said letter (length out.old) (table_scanned text.now payload.old)).line }
    ensures out_left { out.new
        ≡ laid_at out.old 0
        (scanned_said letter (length out.old) (table_scanned text.now payload.old)).line }
    ensures payload_left { payload.new ≡ (table_scanned text.now payload.old).payload }
{
    match reading_text::read_table(text, payload) {
        Ok(n) => {
            let size = common::least(6 * n, payload.len());
            put_table(letter, &payload[0..size], out)
        }
        Err(e) => {
            let used = put_wrong_line(out, e.line);
            Told {
                used: used,
                stream: 2,
            }
        }
    }
}

// The text was too long.
fn put_long(out: &mut [u8]) -> usize
    ensures result { result ≡ behind out.old 0 long_line }
    ensures out_left { out.new ≡ laid_at out.old 0 long_line }
{
    text::put_text(out, 0, b"the text is longer than 327679 bytes\n")
}

// How the program is called.
fn put_usage(out: &mut [u8]) -> usize
    ensures result { result ≡ behind out.old 0 usage }
    ensures out_left { out.new ≡ laid_at out.old 0 usage }
{
    text::put_text(out, 0, b"usage: desk write LETTER < TEXT > FILE\n")
}

// The file of a text under a letter, in the front of out, or a line that says why there is none. The knots go into payload.
pub fn make(text: &[u8], letter: &[u8], payload: &mut [u8], out: &mut [u8]) -> Told
    ensures result { result
        ≡ told_on (made_of text.now letter.now payload.old (length out.old)).said.stream
        out.old
        (made_of text.now letter.now payload.old (length out.old)).said.line }
    ensures out_left { out.new
        ≡ laid_at out.old 0
        (made_of text.now letter.now payload.old (length out.old)).said.line }
    ensures payload_left { payload.new
        ≡ (made_of text.now letter.now payload.old (length out.old)).payload }
    ensures out_used { Used result.used out.new }
{
    if letter.len() == 1 {
        if LONGEST < text.len() {
            let used = put_long(out);
            return Told {
                used: used,
                stream: 2,
            };
        }
        return put_read(common::nth(letter, 0), text, payload, out);
    }
    let used = put_usage(out);
    Told {
        used: used,
        stream: 2,
    }
}
