// A loader's start and step on numbers. A stage that only passes on, a poll after which another follows, a read in the midst of a block and
// the end of a program move the numbers on as they stand; every other step goes the typed way, and a refused start too. The test before
// that is sufficient and no more: what fails it is judged by the rules, and by them alone.
#![tactic(auto)]

ghost use Rattle.std.specs.Prelude.{◌≡◌, true, false, List, ℕ, ◌+◌, ◌*◌, ◌%◌, ◌≤◌, ◌<◌, eqb, length, get_or, set, if◌then◌else◌};
ghost use Rattle.device.specs.declared.Part.{Part};
ghost use Rattle.device.specs.Inner.{span_of};
ghost use Rattle.c_cycle.specs.Values.{pins_in};
ghost use Rattle.loader_steps.specs.Front.{barred_pins};
ghost use Rattle.units.specs.Units.{units, bytes_in, carried};
ghost use Rattle.loader_stores.specs.Stores.{store_of, program_stored};
ghost use Rattle.c_records.specs.Records.{loader_in};
ghost use Rattle.c_steps.specs.Steps.{stepped_of, scratch_stepped, started_of};
ghost use Rattle.c_steps.specs.Inner.{gives, GoesOn, GoesTo, moved_on, on_to_at, Takes};
ghost use Rattle.c_steps.specs.Inner.{stage_for, verify_for, command_for, first_record, first_turn};

use c_cycle::BusNumbers;
use c_cycle::states::{flag_out, part_in, pins_in};
use c_records::records::{loader_back, loader_in, loader_out, saying_out};
use c_records::{LoaderNumbers, ResponseNumbers, SayingNumbers};
use device::{Part, Span};
use loader::Work;
use loader_steps::front::{start, step};

// Where a step leads, if that is known here: the record's stage, place and polls, and the cycle that is out by its kind, whether it is
// about the unit at the place, and what it carries, the wanted unit or a command.
#[derive(Clone, Copy)]
struct Next {
    known: bool,
    stage: u8,
    place: usize,
    polls: u32,
    kind: u8,
    here: bool,
    own: bool,
    command: u16,
}

// Not known here.
fn elsewhere() -> Next
    ensures { (result.known ≡ false) × (result.place ≡ 0) }
{
    Next {
        known: false,
        stage: 0,
        place: 0,
        polls: 0,
        kind: 0,
        here: false,
        own: false,
        command: 0,
    }
}

// A command that goes to the block's first address.
fn commands(stage: u8, command: u16) -> Next
    ensures { result ≡ gives stage 0 0 1 false false command }
{
    Next {
        known: true,
        stage: stage,
        place: 0,
        polls: 0,
        kind: 1,
        here: false,
        own: false,
        command: command,
    }
}

// A read, of the unit at the place or of the block's first address.
fn reads(stage: u8, place: usize, polls: u32, here: bool) -> Next
    ensures { result ≡ gives stage place polls 0 here false 0 }
{
    Next {
        known: true,
        stage: stage,
        place: place,
        polls: polls,
        kind: 0,
        here: here,
        own: false,
        command: 0,
    }
}

// The wanted unit, written at the place.
fn sends(stage: u8, place: usize) -> Next
    ensures { result ≡ gives stage place 0 1 true true 0 }
{
    Next {
        known: true,
        stage: stage,
        place: place,
        polls: 0,
        kind: 1,
        here: true,
        own: true,
        command: 0,
    }
}

// The unit at the place, which is to be programmed.
fn asks(place: usize) -> Next
    ensures { result ≡ gives 6 place 0 1 true false 0x40 }
{
    Next {
        known: true,
        stage: 6,
        place: place,
        polls: 0,
        kind: 1,
        here: true,
        own: false,
        command: 0x40,
    }
}

// A poll without SR.7 that is not the last one allowed: another follows.
fn polls_on(n: LoaderNumbers, v: u16) -> bool
    ensures { result ≡ true → (v % 256 < 128) × (n.polls < 65534) }
{
    if 127 < v % 256 {
        return false;
    }
    n.polls < 65534
}

// The poll's stage once more, where another poll follows.
fn polled(n: LoaderNumbers, v: u16, here: bool) -> Next
    ensures led { result.known ≡ true → (result ≡ gives n.stage n.place (n.polls + 1) 0 here false 0) × (v % 256 < 128)
        × (n.polls < 65534) }
    ensures near { result.place ≤ n.place }
{
    if polls_on(n, v) {
        return reads(n.stage, n.place, n.polls + 1, here);
    }
    elsewhere()
}

// Where a stage leads that leaves scratch as it is.
fn next_of(n: LoaderNumbers, v: u16) -> Next
    ensures led { result.known ≡ true → (w : List ℕ) → GoesOn n v w result }
    ensures kept { result.known ≡ true → (w sc : List ℕ) → store_of (loader_in n) v w sc ≡ sc }
    ensures near { result.place ≤ n.place }
{
    let s = n.stage;
    match s {
        0 => commands(1, 0xFF),
        1 => reads(2, 0, 0, true),
        3 => commands(4, 0xD0),
        4 => reads(5, 0, 0, false),
        5 => polled(n, v, false),
        6 => sends(7, n.place),
        7 => reads(8, n.place, 0, true),
        8 => polled(n, v, true),
        9 => reads(10, 0, 0, true),
        _ => elsewhere(),
    }
}

// A read in the midst of a block, of the first reads or of the verify where it is as wanted: the next one. n units are wanted.
fn read_next(l: LoaderNumbers, v: u16, word: bool, n: usize, wanted: &[u8]) -> Next
    requires { (word ≡ (loader_in l).part.word) × (n ≡ length (units word wanted.now)) × (0 < n) }
    ensures led { result.known ≡ true → GoesOn l v (units word wanted.now) result }
    ensures stored { result.known ≡ true → (w sc : List ℕ) → store_of (loader_in l) v w sc ≡ set sc l.place (carried word v) }
    ensures near { result.known ≡ true → result.place < n }
{
    let i = l.place;
    if n - 1 <= i {
        return elsewhere();
    }
    if l.stage == 2 {
        return reads(2, i + 1, 0, true);
    }
    if l.stage != 10 {
        return elsewhere();
    }
    if units::carry(word, v) == units::get_unit(word, wanted, i) {
        return reads(10, i + 1, 0, true);
    }
    elsewhere()
}

// The ready poll of a program that went well, where another unit differs: that unit is next. n units are wanted.
fn ask_next(l: LoaderNumbers, v: u16, word: bool, n: usize, wanted: &[u8], scratch: &[u8]) -> Next
    requires { (word ≡ (loader_in l).part.word) × (n ≡ length (units word wanted.now)) × (0 < n) }
    ensures led { result.known ≡ true → GoesTo l v (units word wanted.now)
        (program_stored l.place 128 (units word wanted.now) (units word scratch.now)) result }
    ensures stored { result.known ≡ true → (w sc : List ℕ) → store_of (loader_in l) v w sc ≡ program_stored l.place 128 w sc }
    ensures near { result.known ≡ true → result.place < n }
{
    let i = l.place;
    if l.stage != 8 {
        return elsewhere();
    }
    if v % 256 != 128 {
        return elsewhere();
    }
    if n - 1 <= i {
        return elsewhere();
    }
    let at = loader_walk::diff_from(word, i + 1, wanted, scratch);
    if at < n {
        return asks(at);
    }
    elsewhere()
}

// Where the cycle goes.
fn address_in(first: usize, here: bool, place: usize) -> u32
    requires { (first ≤ 524288) × (place ≤ 524288) }
    ensures { result ≡ (if here then first + place else first) }
{
    if here {
        return (first + place) as u32;
    }
    first as u32
}

// What it carries.
fn data_in(word: bool, own: bool, place: usize, command: u16, wanted: &[u8]) -> u16
    ensures { result ≡ (if own then get_or (units word wanted.now) place 0 else command) }
{
    if own {
        return units::get_unit(word, wanted, place);
    }
    command
}

// The record moved on.
fn moved_on(n: LoaderNumbers, r: Next) -> LoaderNumbers
    ensures { result ≡ moved_on n r }
{
    let mut m = n;
    m.stage = r.stage;
    m.polls = r.polls;
    m.place = r.place;
    m
}

// The answer of a step that goes on. The levels are the record's: they are read apart from it, so that it is copied as a whole.
fn on_to(
    n: LoaderNumbers,
    rp: u8,
    wp: u8,
    vpp: u32,
    first: usize,
    r: Next,
    word: bool,
    wanted: &[u8],
) -> ResponseNumbers
    requires { (first ≤ 524288) × (r.place ≤ 524288) }
    ensures { result ≡ on_to_at n rp wp vpp first r (units word wanted.now) }
{
    let address = address_in(first, r.here, r.place);
    let carried = data_in(word, r.own, r.place, r.command, wanted);
    ResponseNumbers {
        turn: SayingNumbers {
            turn: 0,
            number: 0,
            address: 0,
            cycle: BusNumbers {
                kind: r.kind,
                rp: rp,
                oe: 0,
                wp: wp,
                data: carried,
                vpp: vpp,
                address: address,
            },
        },
        loader: moved_on(n, r),
    }
}

// A byte as an index.
fn wide(x: u8) -> usize
    ensures { (result ≡ x) × (x < 256) }
{
    x as usize
}

// The bytes of so many units.
fn bytes_of(word: bool, n: usize) -> usize
    requires { n ≤ 524288 }
    ensures { result ≡ bytes_in word n }
{
    if word {
        return 2 * n;
    }
    n
}

// The numbers stand for a record of a load that goes on: a sufficient test.
fn is_record(l: LoaderNumbers) -> bool
    ensures { result ≡ true → (4 * l.word < l.part) × (l.part ≤ 8) × (l.polls ≤ 65534) × (l.end ≡ 0) × (l.high ≡ 0)
        × (l.verify ≤ 1) × (l.stage ≤ 11) }
{
    let last = 4 * wide(l.word);
    if wide(l.part) <= last {
        return false;
    }
    if 8 < l.part {
        return false;
    }
    if 65534 < l.polls {
        return false;
    }
    if l.end != 0 {
        return false;
    }
    if l.high != 0 {
        return false;
    }
    if 1 < l.verify {
        return false;
    }
    l.stage < 12
}

// Levels that no part bars: a sufficient test.
fn has_levels(rp: u8, wp: u8, vpp: u32) -> bool
    ensures { result ≡ true → (part : Part) → barred_pins part (pins_in rp wp vpp) ≡ false }
{
    if rp == 0 {
        return false;
    }
    if 2 < rp {
        return false;
    }
    if 1 < wp {
        return false;
    }
    if 11400 <= vpp {
        return vpp <= 12600;
    }
    if vpp <= 1500 {
        return true;
    }
    if vpp < 4500 {
        return false;
    }
    vpp <= 5500
}

// Nothing refuses the step of a record on so many bytes: a sufficient test.
fn is_taken(l: LoaderNumbers, word: bool, span: Span, wanted: usize, scratch: usize) -> bool
    requires { (word ≡ eqb l.word 1) × (span ≡ span_of (record { number = l.part; word = eqb l.word 1 }) l.block) }
    ensures { result ≡ true → Takes l span wanted scratch }
{
    if is_record(l) {
        if span.length <= l.place {
            return false;
        }
        if has_levels(l.rp, l.wp, l.vpp) {
            let n = bytes_of(word, span.length);
            if wanted != n {
                return false;
            }
            return scratch == n;
        }
        return false;
    }
    false
}

// The typed way.
fn typed(l: LoaderNumbers, value: u16, wanted: &[u8], scratch: &mut [u8]) -> ResponseNumbers
    ensures { (result ≡ stepped_of l value wanted.now scratch.old)
        × (scratch.new ≡ scratch_stepped l value wanted.now scratch.old) }
{
    let g = step(loader_in(l), value, wanted, scratch);
    let saying = g.saying;
    let moved = g.loader;
    ResponseNumbers {
        turn: saying_out(saying),
        loader: loader_back(l, moved),
    }
}

// A loader's step on numbers, by value.
pub fn stepped(l: LoaderNumbers, value: u16, wanted: &[u8], scratch: &mut [u8]) -> ResponseNumbers
    ensures { (result ≡ stepped_of l value wanted.now scratch.old)
        × (scratch.new ≡ scratch_stepped l value wanted.now scratch.old) }
{
    let word = l.word == 1;
    let part = Part {
        number: l.part,
        word: word,
    };
    let span = device::block_span(part, l.block);
    if is_taken(l, word, span, wanted.len(), scratch.len()) {
        let r = next_of(l, value);
        if r.known {
            return on_to(l, l.rp, l.wp, l.vpp, span.first, r, word, wanted);
        }
        let q = read_next(l, value, word, span.length, wanted);
        if q.known {
            units::put_unit(word, scratch, l.place, value);
            return on_to(l, l.rp, l.wp, l.vpp, span.first, q, word, wanted);
        }
        let o = ask_next(l, value, word, span.length, wanted, scratch);
        if o.known {
            loader_stores::store_program(word, l.place, 128, wanted, scratch);
            return on_to(l, l.rp, l.wp, l.vpp, span.first, o, word, wanted);
        }
        return typed(l, value, wanted, scratch);
    }
    typed(l, value, wanted, scratch)
}

// The first stage.
fn stage_for(work: Work) -> u8
    ensures { result ≡ stage_for work }
{
    match work {
        Work::Load(_) => 0,
        Work::Verify => 9,
    }
}

// Whether the verify is part of it.
fn verify_for(work: Work) -> u8
    ensures { result ≡ verify_for work }
{
    match work {
        Work::Load(verify) => flag_out(verify),
        Work::Verify => 1,
    }
}

// The first command.
fn command_for(work: Work) -> u16
    ensures { result ≡ command_for work }
{
    match work {
        Work::Load(_) => 0x50,
        Work::Verify => 0xFF,
    }
}

// The record at its beginning.
fn first_record(
    work: Work,
    part: u8,
    word: u8,
    rp: u8,
    wp: u8,
    vpp: u32,
    block: u8,
) -> LoaderNumbers
    ensures { result ≡ first_record work part word rp wp vpp block }
{
    LoaderNumbers {
        part: part,
        word: word,
        rp: rp,
        wp: wp,
        block: block,
        stage: stage_for(work),
        end: 0,
        verify: verify_for(work),
        high: 0,
        vpp: vpp,
        polls: 0,
        place: 0,
    }
}

// The first cycle, a command to the block's first address.
fn first_turn(work: Work, rp: u8, wp: u8, vpp: u32, first: usize) -> SayingNumbers
    requires { first ≤ 524288 }
    ensures { result ≡ first_turn work rp wp vpp first }
{
    SayingNumbers {
        turn: 0,
        number: 0,
        address: 0,
        cycle: BusNumbers {
            kind: 1,
            rp: rp,
            oe: 0,
            wp: wp,
            data: command_for(work),
            vpp: vpp,
            address: address_in(first, false, 0),
        },
    }
}

// The typed way.
fn typed_start(
    work: Work,
    part: u8,
    word: u8,
    rp: u8,
    wp: u8,
    vpp: u32,
    block: u8,
    wanted: &[u8],
    scratch: &[u8],
) -> ResponseNumbers
    ensures { result ≡ started_of work part word rp wp vpp block wanted.now scratch.now }
{
    let known = part_in(part, word);
    let p = pins_in(rp, wp, vpp);
    let g = start(work, known, p, block, wanted, scratch);
    let saying = g.saying;
    let record = g.loader;
    ResponseNumbers {
        turn: saying_out(saying),
        loader: loader_out(record),
    }
}

// A loader's start on numbers. A mode that is none is told first: the typed way then has two callers, and is laid into neither.
pub fn started(
    work: Work,
    part: u8,
    word: u8,
    rp: u8,
    wp: u8,
    vpp: u32,
    block: u8,
    wanted: &[u8],
    scratch: &[u8],
) -> ResponseNumbers
    ensures { result ≡ started_of work part word rp wp vpp block wanted.now scratch.now }
{
    if 1 < word {
        let a = typed_start(work, part, word, rp, wp, vpp, block, wanted, scratch);
        return a;
    }
    let mode = word == 1;
    let known = Part {
        number: part,
        word: mode,
    };
    let span = device::block_span(known, block);
    let l = first_record(work, part, word, rp, wp, vpp, block);
    if is_taken(l, mode, span, wanted.len(), scratch.len()) {
        return ResponseNumbers {
            turn: first_turn(work, rp, wp, vpp, span.first),
            loader: l,
        };
    }
    let a = typed_start(work, part, word, rp, wp, vpp, block, wanted, scratch);
    a
}
