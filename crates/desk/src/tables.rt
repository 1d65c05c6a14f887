// Tables of thermocouples as text and as load files, and readings by them.
use reading_answer::answer;
use std::rt::{Env, Files};

// A block more than the longest file, so that one that is too long is seen, and one that is longer still is cut there and refused all the
// same; and room for the lines of as many knots as it can hold.
const ROOM: usize = file_codec::FILE + 512;

const LINES: usize = file_codec::PAYLOAD / 6 * 14;

// A reading. Arguments: a load file, the menu letter, a probe's microvolts. The temperature is written in degrees with one decimal, or one
// line that says below or above with the end knot's temperature, or the refusal with its number and words. A wrong call is wrong with any
// file, so it is seen before one is opened: it has the usage on standard error, and a file that cannot be opened the reason; neither a `.`.
pub(crate) fn read<R: Env + Files + Print>(rt: &R, err: &impl Print) {
    let mut name = streams::buffer();
    let mut letter = [0u8; 2];
    let mut volts = [0u8; 16];
    let mut file = [0u8; ROOM];
    let mut room = [0u8; file_codec::PAYLOAD];
    let mut out = [0u8; 96];
    let count = streams::arg_count(rt);
    let a = streams::arg(rt, 2, &mut name);
    let l = streams::arg(rt, 3, &mut letter);
    let v = streams::arg(rt, 4, &mut volts);
    let none = answer(count, b"", &letter[..l], &volts[..v], &mut room, &mut out);
    let u = none.used;
    let stream = none.stream;
    if stream == 2 {
        streams::write_all(err, &out[..u]);
        return;
    }
    let n = match streams::read_file(rt, &name[..a], &mut file) {
        Ok(n) => n,
        Err(error) => return streams::fail(err, &name[..a], error),
    };
    let r = answer(
        count,
        &file[..n],
        &letter[..l],
        &volts[..v],
        &mut room,
        &mut out,
    );
    let m = r.used;
    let ok = streams::write_all(rt, &out[..m]);
    if ok {
        streams::write_all(err, b".");
    }
}

// A load file of a table. Standard input: a line for each knot, its microvolts, a space, its tenths of a degree. Argument: the letter. The
// load file is written; where there is none, standard error says why.
pub(crate) fn write(rt: &(impl Env + Input + Print), err: &impl Print) {
    let mut text = [0u8; table_file::ROOM];
    let mut letter = [0u8; 2];
    let mut payload = [0u8; file_codec::PAYLOAD];
    let mut out = [0u8; file_codec::FILE];
    let l = streams::arg(rt, 2, &mut letter);
    let n = streams::read_input(rt, &mut text);
    let r = table_file::make(&text[..n], &letter[..l], &mut payload, &mut out);
    let m = r.used;
    let stream = r.stream;
    if stream == 2 {
        streams::write_all(err, &out[..m]);
        streams::write_all(err, b".");
        return;
    }
    let ok = streams::write_all(rt, &out[..m]);
    if ok {
        streams::write_all(err, b".");
    }
}

// The table of a load file. Arguments: the file, its letter. A line for each knot is written, its microvolts, a space, its tenths of a
// degree; where there is none, standard error has the refusal.
pub(crate) fn print<R: Env + Files + Print>(rt: &R, err: &impl Print) {
    let mut name = streams::buffer();
    let mut letter = [0u8; 2];
    let mut file = [0u8; ROOM];
    let mut payload = [0u8; file_codec::PAYLOAD];
    let mut out = [0u8; LINES];
    let a = streams::arg(rt, 2, &mut name);
    let l = streams::arg(rt, 3, &mut letter);
    let n = match streams::read_file(rt, &name[..a], &mut file) {
        Ok(n) => n,
        Err(error) => {
            streams::fail(err, &name[..a], error);
            streams::write_all(err, b".");
            return;
        }
    };
    let r = table_text::show(&file[..n], &letter[..l], &mut payload, &mut out);
    let m = r.used;
    let stream = r.stream;
    if stream == 2 {
        streams::write_all(err, &out[..m]);
        streams::write_all(err, b".");
        return;
    }
    let ok = streams::write_all(rt, &out[..m]);
    if ok {
        streams::write_all(err, b".");
    }
}
