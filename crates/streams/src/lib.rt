// Standard input, the two outputs, files and the program's arguments, as bytes in lent slices. Nothing here allocates, and a call that
// fails says so in what it returns.
#![tactic(auto)]

ghost use Rattle.std.specs.Prelude.{◌≡◌, length, take, IsTrue};
ghost use Rattle.std.specs.Counts.{IsPrefixLen};
ghost use Rattle.std.specs.Io.{ReadsAtMost};
ghost use Rattle.std.specs.Io.KnownBytes.{Consumes, IsAtEnd};

use std::env::FillError;
use std::io::{Read, Write};
use std::rt::{Env, Files};
use std::{fs, io, str};

// The system's numbers of two refusals: a name with a zero in it, and one that is no text.
const INVALID_ARGUMENT: i32 = 22;

const ILLEGAL_BYTES: i32 = 84;

// 4,096 zeros, which hold any path.
pub fn buffer() -> [u8; 4096]
    ensures { 4096 ≡ length result }
{
    [0; 4096]
}

// 65,536 zeros, for a program that reads much.
pub fn large_buffer() -> [u8; 65536]
    ensures { 65536 ≡ length result }
{
    [0; 65536]
}

// Reads until the slice is full, the input ends or a read fails; how many bytes now stand in front.
pub fn read_full<R: Read>(from: &mut R, buf: &mut [u8]) -> usize
    ensures in_bounds { IsPrefixLen result buf.new }
    ensures bytes { Consumes (R.remaining from.old) (R.remaining from.new) (take result buf.new) }
{
    let mut done = 0;
    while done < buf.len() {
        match from.read(&mut buf[done..]) {
            Ok(0) => break,
            Ok(n) => done += n,
            Err(_) => break,
        }
    }
    done
}

// Whether nothing is left: one byte more is asked for. A read that fails is no end.
pub fn has_ended<R: Read>(from: &mut R) -> bool
    ensures { IsTrue result → IsAtEnd (R.remaining from.new) }
{
    let mut one = [0u8; 1];
    matches!(from.read(&mut one), Ok(0))
}

// The same as `read_full` from standard input.
pub fn read_input(rt: &impl Input, buf: &mut [u8]) -> usize
    ensures { IsPrefixLen result buf.new }
{
    read_full(&mut rt.reader(), buf)
}

// Opens a file for reading. A name is text in UTF-8; any other is refused.
pub fn open_read<R: Files>(rt: &R, name: &[u8]) -> io::Result<R::File> {
    if name.contains(&0) {
        return Err(io::Error::from_raw_os_error(INVALID_ARGUMENT));
    }
    match str::from_utf8(name) {
        Ok(path) => fs::open(rt, path),
        Err(_) => Err(io::Error::from_raw_os_error(ILLEGAL_BYTES)),
    }
}

// The same from a file, which is opened for it and closed.
pub fn read_file<R: Files>(rt: &R, name: &[u8], buf: &mut [u8]) -> io::Result<usize>
    ensures { ReadsAtMost result buf.new }
{
    let mut file = open_read(rt, name)?;
    Ok(read_full(&mut file, buf))
}

// Writes all of the slice, or stops where a write fails; whether all was written.
pub fn write_all(to: &impl Print, buf: &[u8]) -> bool {
    to.write_all(buf).is_ok()
}

// Writes a number in decimal.
pub fn print_decimal(to: &impl Print, n: u64) -> bool {
    to.print(n).is_ok()
}

// Writes a number in hexadecimal, in lower case, with zeros in front up to so many digits: one where none is asked, at most 16.
pub fn print_hex(to: &impl Print, n: u64, width: usize) -> bool {
    let width = width.min(16);
    to.print(format_args!("{n:0width$x}")).is_ok()
}

// How many arguments the program has, its own name among them.
pub fn arg_count(rt: &impl Env) -> usize {
    for i in 0..usize::MAX {
        if let Err(FillError::NotPresent) = rt.arg(i, &mut []) {
            return i;
        }
    }
    usize::MAX
}

// Puts an argument in front of the slice; its length, or 0 where it is missing or too long.
pub fn arg(rt: &impl Env, i: usize, buf: &mut [u8]) -> usize
    ensures { IsPrefixLen result buf.new }
{
    rt.arg(i, buf).unwrap_or(0)
}

// Writes a line: what failed, as the caller names it, a colon, and the system's words.
pub fn fail(to: &impl Print, what: &[u8], error: io::Error) {
    let mut text = [0u8; 128];
    let n = words(error, &mut text);
    write_all(to, what);
    write_all(to, b": ");
    write_all(to, &text[..n]);
    write_all(to, b"\n");
}

// The system's words for an error, in front of the slice; how many bytes they take.
fn words(error: io::Error, out: &mut [u8]) -> usize
    ensures { IsPrefixLen result out.new }
{
    let n = shown(error, out);
    cut(&out[..n])
}

// The same with the number that std writes behind them, in brackets.
fn shown(error: io::Error, out: &mut [u8]) -> usize
    ensures { IsPrefixLen result out.new }
{
    let mut rest: &mut [u8] = &mut out[..];
    let _ = write!(rest, "{error}");
    let left = rest.len();
    out.len().saturating_sub(left)
}

// Where the last bracket and the space in front of it begin, or the length where there is none.
fn cut(text: &[u8]) -> usize
    ensures { IsPrefixLen result text.now }
{
    match text.iter().rposition(|b| *b == b'(') {
        Some(i) => i.saturating_sub(1),
        None => text.len(),
    }
}

#[cfg(test)]
mod tests;
