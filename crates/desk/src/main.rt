// The desk: the one program behind ./torfbarke. Its first argument is a word, and the word's own arguments follow it. Each word is one
// function here: it reads arguments and files into arrays, calls a library, and writes. What is decided is decided there. A `.` on standard
// error says that all was written.
#![tactic(auto)]

mod parts;
mod recordings;
mod tables;
mod traces;
mod wears;

fn main(rt: HostRuntime) {
    let err = rt.stderr();
    let mut name = [0u8; 16];
    let n = streams::arg(&rt, 1, &mut name);
    let word: &[u8] = &name[..n];
    match word {
        b"trace" => traces::trace(&rt, &err),
        b"table" => traces::table(&rt, &err),
        b"script" => traces::script(&rt, &err),
        b"record" => recordings::record(&rt, &err),
        b"recording" => recordings::recording(&rt, &err),
        b"read" => tables::read(&rt, &err),
        b"write" => tables::write(&rt, &err),
        b"print" => tables::print(&rt, &err),
        b"verify" => parts::verify(&rt, &err),
        b"load" => parts::load(&rt, &err),
        b"store" => parts::store(&rt, &err),
        b"wear" => wears::wear(&rt, &err),
        _ => {
            streams::write_all(&err, b"usage: desk WORD ARGUMENT..\n");
        }
    }
}
