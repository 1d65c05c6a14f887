// A probe's voltage becomes a temperature: by a payload, and straight from a file. Each public function takes any input.
#![tactic(auto)]

ghost use Rattle.std.specs.Prelude.{◌≡◌, ◌+◌, ◌-◌, ◌/◌, ◌≤◌, ◌<◌, length};
ghost use Rattle.std.specs.Int.Signed.{lt_z};
ghost use Rattle.std.specs.Float.Ieee.{of_int};
ghost use Rattle.std.specs.Float.{binary64};
ghost use Rattle.file_codec.specs.File.{limit, reader_of, in_room, left_in};
ghost use Rattle.reading_table.specs.Table.{volts_of};
ghost use Rattle.reading.specs.Readings.{heat_of, pair_at, reading_of, reading_number, reading_answer, table_answer, answer_as};
ghost use Rattle.reading.specs.Readings.{answer_told};
ghost use Rattle.reading.specs.Readings.{told_at, told_as};

use reading_pair::Pair;

// A temperature in tenths of a degree; or the voltage is below or above the table, with the end knot's temperature.
#[derive(Clone, Copy)]
pub enum Reading {
    Temperature(f64),
    Below(f64),
    Above(f64),
}

// A reading, or the refusal.
#[derive(Clone, Copy)]
pub enum ReadingAnswer {
    Read(Reading),
    Refused(u8),
}

// The voltage as f64.
fn wide(x: i32) -> f64
    ensures { result ≡ of_int binary64 x }
{
    x as f64
}

// Knot i's temperature.
fn heat(s: &[u8], i: usize) -> f64
    ensures { result ≡ heat_of s.now i }
{
    let t = reading_table::tenths(s, i);
    t as f64
}

// x is less than knot i's microvolts, and more.
fn under(s: &[u8], i: usize, x: i32) -> bool
    ensures { result ≡ lt_z x (volts_of s.now i) }
{
    let v = reading_table::volts(s, i);
    x < v
}

fn over(s: &[u8], i: usize, x: i32) -> bool
    ensures { result ≡ lt_z (volts_of s.now i) x }
{
    let v = reading_table::volts(s, i);
    v < x
}

// Knots i and i + 1.
fn pair_at(s: &[u8], i: usize) -> Pair
    requires { i + 1 < length s.now / 6 }
    ensures { result ≡ pair_at s.now i }
{
    let x0 = reading_table::volts(s, i);
    let t0 = reading_table::tenths(s, i);
    let x1 = reading_table::volts(s, i + 1);
    let t1 = reading_table::tenths(s, i + 1);
    reading_pair::pair_of(x0, t0, x1, t1)
}

// The reading at x by a payload that need not have been judged: 40 by its length, and 41 where a knot that the reading is made of
// is out of range or does not rise.
pub fn reading_at(payload: &[u8], x: i32) -> ReadingAnswer
    ensures result { result ≡ reading_answer payload.now x }
    ensures told { answer_told result ≡ told_at (reading_number payload.now x) payload.now x }
{
    if reading_table::shape_wrong(payload) {
        return ReadingAnswer::Refused(40);
    }
    let last = payload.len() / 6 - 1;
    if !reading_table::rises_to(payload, 0, last) {
        return ReadingAnswer::Refused(41);
    }
    if under(payload, 0, x) {
        return ReadingAnswer::Read(Reading::Below(heat(payload, 0)));
    }
    if over(payload, last, x) {
        return ReadingAnswer::Read(Reading::Above(heat(payload, last)));
    }
    let i = reading_table::seek(payload, x);
    if !reading_table::rises_to(payload, i, i + 1) {
        return ReadingAnswer::Refused(41);
    }
    let p = pair_at(payload, i);
    ReadingAnswer::Read(Reading::Temperature(reading_pair::interpolate(p, wide(x))))
}

// The reading at x by a payload of two knots or more that was judged: nothing is tested again.
fn judged_at(payload: &[u8], x: i32) -> Reading
    requires { 2 ≤ length payload.now / 6 }
    ensures { result ≡ reading_of payload.now x }
{
    let last = payload.len() / 6 - 1;
    if under(payload, 0, x) {
        return Reading::Below(heat(payload, 0));
    }
    if over(payload, last, x) {
        return Reading::Above(heat(payload, last));
    }
    let i = reading_table::seek(payload, x);
    let p = pair_at(payload, i);
    Reading::Temperature(reading_pair::interpolate(p, wide(x)))
}

// A payload is judged as a whole, then read.
fn judged_reading(payload: &[u8], x: i32) -> ReadingAnswer
    ensures { result ≡ table_answer payload.now x }
{
    let n = reading_table::judge_table(payload);
    if n != 0 {
        return ReadingAnswer::Refused(n);
    }
    ReadingAnswer::Read(judged_at(payload, x))
}

// The reading at x straight from a file: the reader for the letter asked, into the front of room, then the table.
pub fn reading_from_file(file: &[u8], letter: u8, room: &mut [u8], x: i32) -> ReadingAnswer
    ensures result { result ≡ answer_as x (in_room (length room.old) (reader_of limit file.now letter)) }
    ensures told { answer_told result ≡ told_as x (in_room (length room.old) (reader_of limit file.now letter)) }
    ensures room_left { room.new
        ≡ left_in room.old (in_room (length room.old) (reader_of limit file.now letter)) }
{
    match file_codec::read(file, letter, room) {
        Ok(size) => judged_reading(&room[0..size], x),
        Err(refusal) => ReadingAnswer::Refused(refusal.number()),
    }
}
