// How worn parts are, by their traces and recordings.
ghost use Rattle.std.specs.Counts.{IsPrefixLen};

use std::rt::{Env, Files};

// As much of a file as the room has, and whether the file ends there. Nothing and no end, where it cannot be opened.
fn front<R: Files>(rt: &R, name: &[u8], text: &mut [u8]) -> (usize, bool)
    ensures { IsPrefixLen result.0 text.new }
{
    match streams::open_read(rt, name) {
        Ok(mut file) => {
            let m = streams::read_full(&mut file, text);
            (m, streams::has_ended(&mut file))
        }
        Err(_) => (0, false),
    }
}

// Arguments: traces and recordings, each on a fresh bench T; what is said of traces holds of recordings too, a line at fault being a bad
// line. Where every trace is good, the table of the report on their wear is written. Else there is no table, but a line for each trace that
// is not: '?', the argument's number among the files and the number of its first bad line; '!', the argument's number and 0 where it could
// not be read to its end; 'X', the argument's number and the refusal where the report does not take it.
//
// Of each trace as many bytes as the room has, and one read more: a file that ends gives nothing, and one that cannot be opened or read
// gives no end.
pub(crate) fn wear<R: Env + Files + Print>(rt: &R, err: &impl Print) {
    let n = streams::arg_count(rt);
    if n < 3 {
        streams::write_all(err, b"usage: desk wear TRACE..\n");
        return;
    }
    let mut name = streams::buffer();
    let mut text = [0u8; wear_answer::ROOM];
    let mut out = [0u8; 512];
    let mut counting = wear_answer::none();
    let mut told = true;
    for i in 2..n {
        let a = streams::arg(rt, i, &mut name);
        let (m, ended) = front(rt, &name[..a], &mut text);
        let r = wear_answer::one_more(counting, &mut out, i - 1, &text[..m], ended);
        let u = r.used;
        counting = r.counting;
        told &= streams::write_all(rt, &out[..u]);
    }
    let m = wear_answer::finish(counting, &mut out);
    let ok = streams::write_all(rt, &out[..m]);
    if told & ok {
        streams::write_all(err, b".");
    }
}
