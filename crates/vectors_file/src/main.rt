// The vectors of the load file: a case a line of standard input, an answer a line of standard output.
// A case is eighteen numbers of six digits; tests/vectors_file.py says what they mean.
#![tactic(auto)]

ghost use Rattle.std.specs.Prelude.{◌<◌};

use file_check::refusal::FileRefusal;

// Number k of a case.
fn field(case: &[u8], k: usize) -> usize
    requires { k < 100 }
{
    vectors_text::size_at(case, 10, 7 * k, 6)
}

// The same as a byte.
fn byte(case: &[u8], k: usize) -> u8
    requires { k < 100 }
{
    vectors_text::byte_at(case, 10, 7 * k, 6)
}

// Block k gets the check that fits it.
// Kept: three programs seal a block; a library of its own for these lines, over file_check, is no plainer.
fn seal(file: &mut [u8], k: usize) {
    if let Some(block) = file.chunks_exact_mut(512).take(224).nth(k) {
        let c = file_check::check(block);
        block[510..].copy_from_slice(&c.to_be_bytes());
    }
}

// The number of a refusal, or a length.
fn tell(rt: &impl Print, mark: &[u8], n: u64) {
    streams::write_all(rt, mark);
    streams::print_decimal(rt, n);
}

// The answer of the writer, of the judgement or of the reader.
fn tell_answer(rt: &impl Print, made: &[u8], refused: &[u8], answer: Result<usize, FileRefusal>) {
    match answer {
        Ok(size) => tell(rt, made, size as u64),
        Err(refusal) => tell(rt, refused, refusal.number() as u64),
    }
}

// The file is written.
fn make(rt: &impl Print, case: &[u8], payload: &[u8], file: &mut [u8]) {
    let size = common::least(field(case, 1), payload.len());
    let room = common::least(field(case, 2), file.len());
    tell_answer(
        rt,
        b"W=",
        b"W!",
        file_writer::write(byte(case, 0), &payload[0..size], &mut file[0..room]),
    );
}

// Two bytes of it are changed, as the numbers from k on say.
fn change_two(case: &[u8], k: usize, file: &mut [u8])
    requires { k < 90 }
{
    text::put(file, field(case, k), byte(case, k + 1));
    text::put(file, field(case, k + 2), byte(case, k + 3));
}

// Two bytes are changed, two blocks sealed, and two bytes changed after that.
fn spoil(case: &[u8], file: &mut [u8]) {
    change_two(case, 3, file);
    seal(file, field(case, 7));
    seal(file, field(case, 8));
    change_two(case, 9, file);
}

// The file is judged and read.
fn take(rt: &impl Print, case: &[u8], file: &[u8], back: &mut [u8]) {
    let size = common::least(field(case, 13), file.len());
    let asked = byte(case, 14);
    let room = common::least(field(case, 15), back.len());
    tell_answer(rt, b" J=", b" J!", file_codec::judge(&file[0..size], asked));
    tell_answer(
        rt,
        b" R=",
        b" R!",
        file_codec::read(&file[0..size], asked, &mut back[0..room]),
    );
}

// One case. The file's buffer holds the byte of number 17 before, the payload's 5AH.
fn on(rt: &impl Print, case: &[u8], payload: &[u8], file: &mut [u8], back: &mut [u8]) {
    common::fill(file, byte(case, 17));
    common::fill(back, 90);
    make(rt, case, payload, file);
    spoil(case, file);
    take(rt, case, file, back);
    tell(rt, b" F ", vectors_text::digest(file));
    tell(rt, b" B ", vectors_text::digest(back));
    streams::write_all(rt, b"\n");
}

// One case. Number 16 says whether the buffers are those of a short file, 5,200 and 4,200 bytes, or of a long one, 115,300 and 113,600.
fn run(rt: &impl Print, case: &[u8], payload: &[u8], file: &mut [u8], back: &mut [u8]) {
    if field(case, 16) == 0 {
        let n = common::least(5200, file.len());
        let m = common::least(4200, back.len());
        return on(rt, case, payload, &mut file[0..n], &mut back[0..m]);
    }
    let n = common::least(115300, file.len());
    let m = common::least(113600, back.len());
    on(rt, case, payload, &mut file[0..n], &mut back[0..m])
}

// All cases of a text.
fn run_all(rt: &impl Print, text: &[u8], payload: &[u8], file: &mut [u8], back: &mut [u8]) {
    for case in text.chunks_exact(126) {
        run(rt, case, payload, file, back);
    }
}

fn main(rt: HostRuntime) {
    let mut text = vectors_text::blank();
    let mut payload = vectors_text::blank();
    let mut file = vectors_text::blank();
    let mut back = vectors_text::blank();
    vectors_text::pattern(&mut payload, 250, 3, 7);
    let n = streams::read_input(&rt, &mut text);
    run_all(&rt, &text[..n], &payload, &mut file, &mut back);
}
