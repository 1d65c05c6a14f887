// Traces and scripts on bench T, each from standard input. The answers go to standard output.

use engines::{Rules, Table};

// A trace is replayed, and the answers are written. Lines past 9999 do not matter.
pub(crate) fn trace(rt: &(impl Input + Print), err: &impl Print) {
    let mut text = [0u8; 199980];
    let mut array = [255u8; 16384];
    let residue = [255u8; 16384];
    let mut out = [0u8; 79991];
    let n = streams::read_input(rt, &mut text);
    let r = trace_replay::replay::<Rules>(&text[..n], &mut array, &residue, &mut out);
    let m = r.used;
    if streams::write_all(rt, &out[..m]) {
        streams::write_all(err, b".");
    }
}

// The same by the table.
pub(crate) fn table(rt: &(impl Input + Print), err: &impl Print) {
    let mut text = [0u8; 199980];
    let mut array = [255u8; 16384];
    let residue = [255u8; 16384];
    let mut out = [0u8; 79991];
    let n = streams::read_input(rt, &mut text);
    let r = trace_replay::replay::<Table>(&text[..n], &mut array, &residue, &mut out);
    let m = r.used;
    if streams::write_all(rt, &out[..m]) {
        streams::write_all(err, b".");
    }
}

// A script is judged, then run, and the answers are written. It has 3,000 lines of 20 bytes at most; one byte more is read, and what lies
// past it does not matter.
pub(crate) fn script(rt: &(impl Input + Print), err: &impl Print) {
    let mut text = [0u8; 60001];
    let mut array = [255u8; 16384];
    let residue = [255u8; 16384];
    let mut out = [0u8; 79984];
    let n = streams::read_input(rt, &mut text);
    let r = script_run::run_script(&text[..n], &mut array, &residue, &mut out);
    let m = r.used;
    if streams::write_all(rt, &out[..m]) {
        streams::write_all(err, b".");
    }
}
