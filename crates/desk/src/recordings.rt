// Recordings of a programmer on bench T: made of a trace, and checked.
use std::rt::{Env, Files};

// As many bytes as 9,999 lines have: a text that fills them is too long, whatever follows. And a byte more than the part has, so that an
// image that is too long is seen.
const TEXT: usize = 31 * 9999;

const IMAGE: usize = 16384 + 1;

// The trace of standard input is made, and its recording is written, a line for each line of the trace. Lines past 9999 do not matter.
// Standard error has a note, where there is no recording or where the check of recordings does not accept it.
pub(crate) fn record(rt: &(impl Input + Print), err: &impl Print) {
    let mut text = [0u8; 199980];
    let mut array = [255u8; 16384];
    let residue = [255u8; 16384];
    let mut out = [0u8; 309938];
    let mut note = [0u8; 128];
    let n = streams::read_input(rt, &mut text);
    let r = recording_replay::record_trace(&text[..n], &mut array, &residue, &mut out);
    let k = recording_replay::note(r, &mut note);
    let m = r.used;
    if streams::write_all(rt, &out[..m]) {
        if streams::write_all(err, &note[..k]) {
            streams::write_all(err, b".");
        }
    }
}

// The recording of standard input is checked. Arguments: the part's bytes before it, and the bytes that are promised after it, each a dump.
// One line is written: that the recording is accepted, or the first thing that is wrong.
pub(crate) fn recording<R: Env + Files + Input + Print>(rt: &R, err: &impl Print) {
    let mut name = streams::buffer();
    let mut array = [0u8; IMAGE];
    let mut promised = [0u8; IMAGE];
    let mut text = [0u8; TEXT];
    let mut out = [0u8; 128];
    if streams::arg_count(rt) != 4 {
        streams::write_all(err, b"usage: desk recording BEFORE PROMISED\n");
        return;
    }
    let a = streams::arg(rt, 2, &mut name);
    let n = match streams::read_file(rt, &name[..a], &mut array) {
        Ok(n) => n,
        Err(error) => return streams::fail(err, &name[..a], error),
    };
    let b = streams::arg(rt, 3, &mut name);
    let m = match streams::read_file(rt, &name[..b], &mut promised) {
        Ok(m) => m,
        Err(error) => return streams::fail(err, &name[..b], error),
    };
    let k = streams::read_input(rt, &mut text);
    let u = recording_told::tell(&text[..k], &promised[..m], &mut array[..n], &mut out);
    if streams::write_all(rt, &out[..u]) {
        streams::write_all(err, b".");
    }
}
