// What is said of a store: what it holds, as a map of its places and a row for each file; a refusal by its number and words; how a change
// ended. Each public function takes any input.
#![tactic(auto)]

ghost use Rattle.std.specs.Prelude.{◌≡◌, ◌<◌, ◌≤◌, length};
ghost use Rattle.std.specs.Float.{binary64};
ghost use Rattle.std.specs.Float.Ieee.{of_int};
ghost use Rattle.text.specs.Writing.{laid_at, behind, Used};
ghost use Rattle.file_codec.specs.File.{limit, in_room, reader_of};
ghost use Rattle.reading_table.specs.Table.{tenths_of};
ghost use Rattle.reading_print.specs.Texts.{temperature_text};
ghost use Rattle.store_answer.specs.Words.{store_words, refused_line, change_line};
ghost use Rattle.store_answer.specs.Listing.{pace_by, pace_on, map_piece, knots_text, payload_text, file_text, head_text};
ghost use Rattle.store_answer.specs.Listing.{row_text, row_by, row_piece, piece_of, pieces_of, list_text, list_of};

use store_survey::Spot;

// Where a walk over the places stands: so many more belong to what was met last, and its letter on the map.
#[derive(Clone, Copy)]
struct Pace {
    skip: usize,
    mark: u8,
}

// What a refusal means, from a place on; the place behind it.
#[tactic(auto, unfolding(crate::specs::Words::store_words))]
fn put_words(out: &mut [u8], at: usize, n: u8) -> usize
    ensures result { result ≡ behind out.old at (store_words n) }
    ensures out_left { out.new ≡ laid_at out.old at (store_words n) }
{
    match n {
        1 => text::put_text(
            out,
            at,
            b"the device is none of 1 to 4: only these have a store\n",
        ),
        2 => text::put_text(out, at, b"the image is not as long as the part\n"),
        42 => text::put_text(out, at, b"the store has no file of that letter\n"),
        43 => text::put_text(
            out,
            at,
            b"the file and those that stay do not fit into the main block\n",
        ),
        44 => text::put_text(out, at, b"the main block is no proper store\n"),
        _ => reading_answer::put_words(out, at, n),
    }
}

// A refusal in the front of out; the place behind it.
fn put_refusal(out: &mut [u8], n: u8) -> usize
    ensures result { result ≡ behind out.old 0 (refused_line n) }
    ensures out_left { out.new ≡ laid_at out.old 0 (refused_line n) }
{
    let a = refusal_words::put_refused(out, 0, n);
    let b = text::put_text(out, a, b": ");
    put_words(out, b, n)
}

// How a change ended, in the front of out; the place behind it.
#[tactic(auto, unfolding(crate::specs::Words::change_line))]
fn put_change(out: &mut [u8], end: u8, erases: u32) -> usize
    ensures result { result ≡ behind out.old 0 (change_line end erases) }
    ensures out_left { out.new ≡ laid_at out.old 0 (change_line end erases) }
{
    match (end, erases) {
        (0, 0) => text::put_text(out, 0, b"done, nothing was erased\n"),
        (0, _) => text::put_text(
            out,
            0,
            b"done, the files slid down: the block was erased and loaded anew\n",
        ),
        _ => put_refusal(out, end),
    }
}

// A refusal, in the front of out; a room of 96 bytes holds every line.
#[tactic(auto, using(text::proofs::Laying::front_used))]
pub fn say_refusal(n: u8, out: &mut [u8]) -> usize
    ensures result { result ≡ behind out.old 0 (refused_line n) }
    ensures out_left { out.new ≡ laid_at out.old 0 (refused_line n) }
    ensures out_used { Used result out.new }
{
    put_refusal(out, n)
}

// How a change ended, by its number and the erases that it began, in the front of out; a room of 96 bytes holds every line.
#[tactic(auto, using(text::proofs::Laying::front_used))]
pub fn say_change(end: u8, erases: u32, out: &mut [u8]) -> usize
    ensures result { result ≡ behind out.old 0 (change_line end erases) }
    ensures out_left { out.new ≡ laid_at out.old 0 (change_line end erases) }
    ensures out_used { Used result out.new }
{
    put_change(out, end, erases)
}

// The walk where something begins.
fn pace_by(spot: Spot) -> Pace
    ensures { result ≡ pace_by spot }
{
    let (skip, mark) = match spot {
        Spot::Blank => (0, b'.'),
        Spot::Dead => (0, b'x'),
        Spot::File(m, k) => (usize::from(k).saturating_sub(1), m),
        Spot::Junk => (0, b'?'),
    };
    Pace { skip, mark }
}

// The walk at a place.
#[tactic(auto, unfolding(crate::specs::Listing::pace_on))]
fn pace_on(main: &[u8], p: usize, w: Pace) -> Pace
    ensures { result ≡ pace_on main.now p w }
{
    if 0 < w.skip {
        return Pace {
            skip: w.skip - 1,
            ..w
        };
    }
    pace_by(store_survey::spot_at(main, p))
}

// The map's letter of a place, from a place of out on; the place behind it.
#[tactic(auto, unfolding(crate::specs::Listing::map_piece))]
fn put_mark(out: &mut [u8], at: usize, p: usize, mark: u8) -> usize
    requires { p < 72057594037927936 }
    ensures result { result ≡ behind out.old at (map_piece p mark) }
    ensures out_left { out.new ≡ laid_at out.old at (map_piece p mark) }
{
    if (p + 1) % 28 == 0 {
        return text::put_text(out, at, &[mark, b'\n']);
    }
    text::put_text(out, at, &[mark])
}

// A knot's temperature, from a place on; the place behind it.
fn put_tenths(out: &mut [u8], at: usize, payload: &[u8], i: usize) -> usize
    ensures result { result ≡ behind out.old at (temperature_text (of_int binary64 (tenths_of payload.now i))) }
    ensures out_left { out.new
        ≡ laid_at out.old at (temperature_text (of_int binary64 (tenths_of payload.now i))) }
{
    let t = reading_table::tenths(payload, i);
    let degrees = t as f64;
    reading_print::put_temperature(out, at, degrees)
}

// The knots of a table: how many, the first and the last temperature.
fn put_knots(out: &mut [u8], at: usize, payload: &[u8]) -> usize
    requires { length payload.now < 1000000 }
    ensures result { result ≡ behind out.old at (knots_text payload.now) }
    ensures out_left { out.new ≡ laid_at out.old at (knots_text payload.now) }
{
    let n = payload.len() / 6;
    let a = text::put_decimal(out, at, n as u32);
    let b = text::put_text(out, a, b" knots, ");
    let c = put_tenths(out, b, payload, 0);
    let d = text::put_text(out, c, b" to ");
    let e = put_tenths(out, d, payload, n.saturating_sub(1));
    text::put_text(out, e, b"\n")
}

// What a payload holds, from a place on; the place behind it.
#[tactic(auto, unfolding(crate::specs::Listing::payload_text))]
fn put_payload(out: &mut [u8], at: usize, payload: &[u8]) -> usize
    requires { length payload.now < 1000000 }
    ensures result { result ≡ behind out.old at (payload_text payload.now) }
    ensures out_left { out.new ≡ laid_at out.old at (payload_text payload.now) }
{
    let n = reading_table::judge_table(payload);
    if n == 0 {
        return put_knots(out, at, payload);
    }
    text::put_text(out, at, b"no table\n")
}

// What the reader makes of a file, from a place on; the place behind it. The payload goes through room.
fn put_file(out: &mut [u8], at: usize, file: &[u8], letter: u8, room: &mut [u8]) -> usize
    requires { length room.old ≡ 113120 }
    ensures result { result ≡ behind out.old at (file_text (in_room 113120 (reader_of limit file.now letter))) }
    ensures out_left { out.new
        ≡ laid_at out.old at (file_text (in_room 113120 (reader_of limit file.now letter))) }
{
    match file_codec::read(file, letter, room) {
        Ok(size) => put_payload(out, at, &room[0..size]),
        Err(_) => text::put_text(out, at, b"no table\n"),
    }
}

// A file's letter, its first place and its places, from a place of out on; the place behind them.
fn put_head(out: &mut [u8], at: usize, letter: u8, p: usize, n: u8) -> usize
    requires { p < 4294967296 }
    ensures result { result ≡ behind out.old at (head_text letter p n) }
    ensures out_left { out.new ≡ laid_at out.old at (head_text letter p n) }
{
    let one = [letter];
    let a = text::put_text(out, at, &one);
    let b = text::put_text(out, a, b": from place ");
    let c = text::put_decimal(out, b, p as u32);
    let d = text::put_text(out, c, b" on, places ");
    let e = text::put_decimal(out, d, n as u32);
    text::put_text(out, e, b", ")
}

// The row of a file, from a place of out on; the place behind it.
fn put_stood(
    out: &mut [u8],
    at: usize,
    main: &[u8],
    letter: u8,
    p: usize,
    n: u8,
    room: &mut [u8],
) -> usize
    requires { (p < 4294967296) × (length room.old ≡ 113120) }
    ensures result { result ≡ behind out.old at (row_text main.now p letter n) }
    ensures out_left { out.new ≡ laid_at out.old at (row_text main.now p letter n) }
{
    let a = put_head(out, at, letter, p, n);
    let from = 512 * p;
    let to = from + 512 * usize::from(n);
    if to <= main.len() {
        return put_file(out, a, &main[from..to], letter, room);
    }
    text::put_text(out, a, b"cut off\n")
}

// The row of what begins at a place, from a place of out on; the place behind it.
fn put_row(out: &mut [u8], at: usize, main: &[u8], p: usize, spot: Spot, room: &mut [u8]) -> usize
    requires { (p < 4294967296) × (length room.old ≡ 113120) }
    ensures result { result ≡ behind out.old at (row_by main.now p spot) }
    ensures out_left { out.new ≡ laid_at out.old at (row_by main.now p spot) }
{
    match spot {
        Spot::File(m, k) => put_stood(out, at, main, m, p, k, room),
        _ => text::put_text(out, at, b""),
    }
}

// The row at a place of the walk.
#[tactic(auto, unfolding(crate::specs::Listing::row_piece))]
fn put_rowed(out: &mut [u8], at: usize, main: &[u8], p: usize, w: Pace, room: &mut [u8]) -> usize
    requires { (p < 4294967296) × (length room.old ≡ 113120) }
    ensures result { result ≡ behind out.old at (row_piece main.now p w) }
    ensures out_left { out.new ≡ laid_at out.old at (row_piece main.now p w) }
{
    if 0 < w.skip {
        return text::put_text(out, at, b"");
    }
    put_row(out, at, main, p, store_survey::spot_at(main, p), room)
}

// The map's letter at a place of the walk.
fn put_mapped(out: &mut [u8], at: usize, main: &[u8], p: usize, w: Pace) -> usize
    requires { p < 4294967296 }
    ensures result { result ≡ behind out.old at (map_piece p (pace_on main.now p w).mark) }
    ensures out_left { out.new ≡ laid_at out.old at (map_piece p (pace_on main.now p w).mark) }
{
    put_mark(out, at, p, pace_on(main, p, w).mark)
}

// What is told at a place: of the rows, or of the map.
#[tactic(auto, unfolding(crate::specs::Listing::piece_of))]
fn put_piece(
    out: &mut [u8],
    at: usize,
    rows: bool,
    main: &[u8],
    p: usize,
    w: Pace,
    room: &mut [u8],
) -> usize
    requires { (p < 4294967296) × (length room.old ≡ 113120) }
    ensures result { result ≡ behind out.old at (piece_of rows main.now p w) }
    ensures out_left { out.new ≡ laid_at out.old at (piece_of rows main.now p w) }
{
    if rows {
        return put_rowed(out, at, main, p, w, room);
    }
    put_mapped(out, at, main, p, w)
}

// The same of all places of a block, from a place of out on; the place behind it.
fn put_pieces(out: &mut [u8], at: usize, rows: bool, main: &[u8], room: &mut [u8]) -> usize
    requires { (at ≤ length out.old) × (length main.now < 1000000) × (length room.old ≡ 113120) }
    ensures result { result ≡ behind out.old at (pieces_of rows main.now) }
    ensures out_left { out.new ≡ laid_at out.old at (pieces_of rows main.now) }
{
    let mut w = Pace { skip: 0, mark: 0 };
    let mut a = at;
    for p in 0..main.len() / 512 {
        a = put_piece(out, a, rows, main, p, w, room);
        w = pace_on(main, p, w);
    }
    a
}

// The map, then the rows, in the front of out; the place behind them.
fn put_list(out: &mut [u8], main: &[u8], room: &mut [u8]) -> usize
    requires { (length main.now < 1000000) × (length room.old ≡ 113120) }
    ensures result { result ≡ behind out.old 0 (list_text main.now) }
    ensures out_left { out.new ≡ laid_at out.old 0 (list_text main.now) }
{
    let a = put_pieces(out, 0, false, main, room);
    put_pieces(out, a, true, main, room)
}

// What a block holds, as a store, in the front of out: a map of its places, and a row for each file. A room of 1,200 bytes holds every
// store's list. The payloads go through a room of its own, made here and lent to all below: where the compiler lays them into one
// function, none of them may return before the room is made.
#[tactic(auto, using(text::proofs::Laying::front_used))]
pub fn list(main: &[u8], out: &mut [u8]) -> usize
    ensures result { result ≡ behind out.old 0 (list_of main.now) }
    ensures out_left { out.new ≡ laid_at out.old 0 (list_of main.now) }
    ensures out_used { Used result out.new }
{
    let mut room = [0u8; 113120];
    let n = main.len().min(524288);
    put_list(out, &main[..n], &mut room)
}
