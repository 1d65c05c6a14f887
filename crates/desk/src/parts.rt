// Images of parts: a dump verified against a load file, a load into a dump, and the store of a dump.
ghost use Rattle.std.specs.Prelude.{◌≡◌, length};

use std::rt::{Env, Files};

// A byte more than the longest image, and than the longest of a part with a store; and a block more than the longest file: so what is too
// long is seen.
const IMAGE: usize = 524288 + 1;

const STORED: usize = 131072 + 1;

const ROOM: usize = file_codec::FILE + 512;

// As many zeros as the longest image has bytes, and one more.
fn blank() -> [u8; IMAGE]
    ensures { IMAGE ≡ length result }
{
    [0; IMAGE]
}

// A verify. Arguments: an image of a part (a dump of its bytes), the device's number, the flash block, a load file, the menu letter, and
// the mode: 0 byte, 1 word. One line is written: that the block holds the file, at which address it differs, or the refusal with its number
// and words.
pub(crate) fn verify<R: Env + Files + Print>(rt: &R, err: &impl Print) {
    let mut name = streams::buffer();
    let mut image = blank();
    let mut file = [0u8; ROOM];
    let a = streams::arg(rt, 2, &mut name);
    let n = match streams::read_file(rt, &name[..a], &mut image) {
        Ok(n) => n,
        Err(error) => {
            streams::fail(err, &name[..a], error);
            0
        }
    };
    let b = streams::arg(rt, 5, &mut name);
    let m = match streams::read_file(rt, &name[..b], &mut file) {
        Ok(m) => m,
        Err(error) => {
            streams::fail(err, &name[..b], error);
            0
        }
    };
    let mut device = [0u8; 2];
    let mut block = [0u8; 2];
    let mut letter = [0u8; 2];
    let mut mode = [0u8; 2];
    let mut out = [0u8; 96];
    let d = streams::arg(rt, 3, &mut device);
    let k = streams::arg(rt, 4, &mut block);
    let l = streams::arg(rt, 6, &mut letter);
    let w = streams::arg(rt, 7, &mut mode);
    let r = verify_answer::tell(
        streams::arg_count(rt),
        &mut image[..n],
        &device[..d],
        &block[..k],
        &file[..m],
        &letter[..l],
        &mode[..w],
        &mut out,
    );
    let u = r.used;
    let stream = r.stream;
    if stream == 2 {
        streams::write_all(err, &out[..u]);
        streams::write_all(err, b".");
        return;
    }
    let ok = streams::write_all(rt, &out[..u]);
    if ok {
        streams::write_all(err, b".");
    }
}

// A load. Arguments: as those of a verify, and the busy times of a program and an erase, each four hexadecimal digits. The image that
// a good
// load leaves is written. Standard error says what the load took, or why there is none.
pub(crate) fn load<R: Env + Files + Print>(rt: &R, err: &impl Print) {
    let mut name = streams::buffer();
    let mut image = blank();
    let mut file = [0u8; ROOM];
    let a = streams::arg(rt, 2, &mut name);
    let n = match streams::read_file(rt, &name[..a], &mut image) {
        Ok(n) => n,
        Err(error) => return streams::fail(err, &name[..a], error),
    };
    let b = streams::arg(rt, 5, &mut name);
    let m = match streams::read_file(rt, &name[..b], &mut file) {
        Ok(m) => m,
        Err(error) => return streams::fail(err, &name[..b], error),
    };
    let mut device = [0u8; 2];
    let mut block = [0u8; 2];
    let mut letter = [0u8; 2];
    let mut mode = [0u8; 2];
    let mut program = [0u8; 4];
    let mut erase = [0u8; 4];
    let mut wanted = [0u8; 131072];
    let mut scratch = [0u8; 131072];
    let mut out = [0u8; 96];
    let d = streams::arg(rt, 3, &mut device);
    let k = streams::arg(rt, 4, &mut block);
    let l = streams::arg(rt, 6, &mut letter);
    let w = streams::arg(rt, 7, &mut mode);
    let p = streams::arg(rt, 8, &mut program);
    let e = streams::arg(rt, 9, &mut erase);
    let view: &mut [u8] = &mut image[..n];
    let r = load_told::tell(
        streams::arg_count(rt),
        view,
        &device[..d],
        &block[..k],
        &file[..m],
        &letter[..l],
        &mode[..w],
        &program[..p],
        &erase[..e],
        &mut wanted,
        &mut scratch,
        &mut out,
    );
    let u = r.used;
    let loaded = r.loaded;
    let mut ok = true;
    if loaded {
        ok = streams::write_all(rt, view);
    }
    streams::write_all(err, &out[..u]);
    if ok {
        streams::write_all(err, b".");
    }
}

// A store. Arguments: a word (L list, F find, R read, D drop, A add), an image of a part, the device's number, a letter, microvolts, and a
// load file. Written are what is listed or read, a line; the file that is found; the image that a change leaves. Standard error says how a
// change ended, or why there is no file.
pub(crate) fn store<R: Env + Files + Print>(rt: &R, err: &impl Print) {
    let mut name = streams::buffer();
    let mut image = [0u8; STORED];
    let mut file = [0u8; ROOM];
    let a = streams::arg(rt, 3, &mut name);
    let n = match streams::read_file(rt, &name[..a], &mut image) {
        Ok(n) => n,
        Err(error) => return streams::fail(err, &name[..a], error),
    };
    let b = streams::arg(rt, 7, &mut name);
    let m = match streams::read_file(rt, &name[..b], &mut file) {
        Ok(m) => m,
        Err(error) => return streams::fail(err, &name[..b], error),
    };
    let mut word = [0u8; 2];
    let mut device = [0u8; 2];
    let mut letter = [0u8; 2];
    let mut volts = [0u8; 16];
    let mut memory = [0u8; 114688];
    let mut scratch = [0u8; 114688];
    let mut out = [0u8; 1200];
    let w = streams::arg(rt, 2, &mut word);
    let d = streams::arg(rt, 4, &mut device);
    let l = streams::arg(rt, 5, &mut letter);
    let v = streams::arg(rt, 6, &mut volts);
    let r = store_told::answer(
        streams::arg_count(rt),
        &word[..w],
        &mut image[..n],
        &device[..d],
        &letter[..l],
        &volts[..v],
        &file[..m],
        &mut memory,
        &mut scratch,
        &mut out,
    );
    let u = r.used;
    let g = r.filled;
    let stream = r.stream;
    let changed = r.changed;
    let mut ok = streams::write_all(rt, &memory[..g]);
    if changed {
        ok = ok & streams::write_all(rt, &image[..n]);
    }
    if stream == 2 {
        streams::write_all(err, &out[..u]);
    } else {
        ok = ok & streams::write_all(rt, &out[..u]);
    }
    if ok {
        streams::write_all(err, b".");
    }
}
