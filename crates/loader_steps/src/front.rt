// The loader's tests, its start and its step.
ghost use Rattle.std.specs.Prelude.{◌≡◌};
ghost use Rattle.device.specs.Parts.{length_of};
ghost use Rattle.loader_steps.specs.Front.{barred_pins, no_block, setup_number, bad_record, start_number, step_number, record_at};
ghost use Rattle.loader_steps.specs.Front.{end_address, saying_in, response_at, refused_by, start_response, step_response, saying_told};
ghost use Rattle.loader_steps.specs.Front.{start_told, step_told, scratch_left};
ghost use Rattle.units.specs.Units.{units, lent};

use crate::outs::{byte_here, out};
use device::Part;
use loader::stages::{first_stage, stage_is, verifies};
use loader::{Loader, Response, Saying, Stage, Work};
use loader_stores::advance;
use model_levels::{bad_pins, rp_low};
use model_types::Pins;

// Refusal 4 of a loader.
pub fn barred_pins(part: Part, p: Pins) -> bool
    ensures { result ≡ barred_pins part p }
{
    bad_pins(part, p) | rp_low(p)
}

// Refusal 10.
pub fn no_block(part: Part, block: u8) -> bool
    ensures { result ≡ no_block part block }
{
    device::length(part, block) == 0
}

// Refusal 3 of a loader, by the block's length.
fn bad_record(n: usize, l: Loader) -> bool
    requires { n ≡ length_of l.part l.block }
    ensures { result ≡ bad_record l }
{
    (65534 < l.polls) | ((n != 0) & (n <= l.place))
}

// Refusals 4, 10 and 11, by the block's length.
fn setup_by(n: usize, part: Part, p: Pins, block: u8, wanted: usize, scratch: usize) -> u8
    requires { n ≡ length_of part block }
    ensures { result ≡ setup_number part p block wanted scratch }
{
    if barred_pins(part, p) {
        return 4;
    }
    if n == 0 {
        return 10;
    }
    if wanted != n {
        return 11;
    }
    if scratch != n {
        return 11;
    }
    0
}

// Refusals 4, 10 and 11, the first of them that applies, or 0. The lengths are in units.
pub fn setup_number(part: Part, p: Pins, block: u8, wanted: usize, scratch: usize) -> u8
    ensures { result ≡ setup_number part p block wanted scratch }
{
    let n = device::length(part, block);
    setup_by(n, part, p, block, wanted, scratch)
}

fn start_number(part: Part, p: Pins, block: u8, wanted: usize, scratch: usize) -> u8
    ensures { result ≡ start_number part p block wanted scratch }
{
    if device::unknown_part(part) {
        return 1;
    }
    setup_number(part, p, block, wanted, scratch)
}

fn step_number(l: Loader, wanted: usize, scratch: usize) -> u8
    ensures { result ≡ step_number l wanted scratch }
{
    if device::unknown_part(l.part) {
        return 1;
    }
    let n = device::length(l.part, l.block);
    if bad_record(n, l) {
        return 3;
    }
    setup_by(n, l.part, l.pins, l.block, wanted, scratch)
}

// A record at its beginning.
pub fn record_at(part: Part, p: Pins, block: u8, stage: Stage, verify: bool) -> Loader
    ensures { result ≡ record_at part p block stage verify }
{
    Loader {
        part,
        pins: p,
        block,
        stage,
        place: 0,
        polls: 0,
        verify,
        high: false,
    }
}

// The address that an end gives.
pub fn end_address(l: Loader, n: u8) -> u32
    ensures { result ≡ end_address l n }
{
    if n == 25 {
        return byte_here(l);
    }
    0
}

fn saying(stage: Stage, l: Loader, wanted: &[u8]) -> Saying
    ensures { result ≡ saying_in stage l (units l.part.word wanted.now) }
{
    let e = stage_is(stage);
    if e.ended {
        return Saying::Over(e.end, end_address(l, e.end));
    }
    Saying::Out(out(l, wanted))
}

fn response_at(l: Loader, wanted: &[u8]) -> Response
    ensures { result ≡ response_at l (units l.part.word wanted.now) }
{
    Response {
        saying: saying(l.stage, l, wanted),
        loader: l,
    }
}

fn refused_by(n: u8, l: Loader) -> Response
    ensures { result ≡ refused_by n l }
{
    Response {
        saying: Saying::Refused(n),
        loader: l,
    }
}

// The first cycle of a load, with or without the verify after it, or of a verify alone.
pub fn start(work: Work, part: Part, p: Pins, block: u8, wanted: &[u8], scratch: &[u8]) -> Response
    ensures result { result
        ≡ start_response work part p block (lent part.word wanted.now) (lent part.word scratch.now) }
    ensures told { saying_told result.saying
        ≡ start_told work part p block (lent part.word wanted.now) (lent part.word scratch.now) }
{
    let word = part.word;
    let n = start_number(
        part,
        p,
        block,
        units::lent_in(word, wanted.len()),
        units::lent_in(word, scratch.len()),
    );
    let stage = first_stage(work);
    let verify = verifies(work);
    if n == 0 {
        return response_at(record_at(part, p, block, stage, verify), wanted);
    }
    refused_by(n, record_at(part, p, block, Stage::Ended(n), verify))
}

// The data read by the cycle that was out go in, the next cycle or the end comes out.
pub fn step(l: Loader, v: u16, wanted: &[u8], scratch: &mut [u8]) -> Response
    ensures result { result
        ≡ step_response l v (lent l.part.word wanted.now) (lent l.part.word scratch.old) }
    ensures told { saying_told result.saying
        ≡ step_told l v (lent l.part.word wanted.now) (lent l.part.word scratch.old) }
    ensures scratch_left { scratch.new ≡ scratch_left l v wanted.now scratch.old }
{
    let part = l.part;
    let word = part.word;
    let n = step_number(
        l,
        units::lent_in(word, wanted.len()),
        units::lent_in(word, scratch.len()),
    );
    if n == 0 {
        let moved = advance(l, v, wanted, scratch);
        return response_at(moved, wanted);
    }
    refused_by(n, l)
}
