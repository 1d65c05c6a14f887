// A load of one block, a verify of one block, and both one after the other, against the model, stage by stage: each stage does to the block
// and to scratch what its cycles do, and adds the cycles that it stands for. The promise is that of `loader_run`, where loader and model
// are stepped against each other cycle by cycle.
#![tactic(auto)]

ghost use Rattle.std.specs.Prelude.{◌≡◌, true, false, ◌≤◌, ◌+◌, length};
ghost use Rattle.common.specs.Lists.{overlaid, overwritten};
ghost use Rattle.device.specs.Parts.{start_of};
ghost use Rattle.units.specs.Units.{units, torn};
ghost use Rattle.units.specs.Address.{byte_of};
ghost use Rattle.loader_blocks.specs.Blocks.{work_done};
ghost use Rattle.loader_run.specs.Runs.{lent_number, lent_run};
ghost use Rattle.loader_run_claims.specs.Ends.{shut, erased_from};
ghost use Rattle.loader_verify_claims.specs.Verified.{units_read, verify_ran};
ghost use Rattle.loader_quick.specs.Quick.{Placed, held_units, stuck_by, fault_end, fault_bits, looked_at, tried_of, mode_by, finished_of};
ghost use Rattle.loader_quick.specs.Quick.{units_of, load_array, load_scratch, verdict_of, refused_ran, Timed};
ghost use Rattle.loader_quick.specs.Quick.{must_rise, made_of, load_made, stages_made, stages_array, stages_scratch, is_placed};
ghost use Rattle.loader_quick.specs.Quick.{tested_left};

use device::Part;
use loader::Work;
use loader_blocks::{Done, Found};
use loader_run::{Job, Ran};
use model_levels::{unlocked, vpp_low};
use model_states::at_rest;
use model_types::counts::wear_out;
use model_types::{Mode, Pins, State};

// What a job came to: what is returned, and whether a bit of its block had to rise.
#[derive(Clone, Copy)]
pub struct Made {
    pub ran: Ran,
    pub rises: bool,
}

// What an operation costs that takes so many cycles: its two writes, and the polls.
fn cost_of(time: u16) -> u32
    ensures { (result ≡ 2 + time) × (result ≤ 65537) }
{
    2 + time as u32
}

// The boot block, and nothing unlocks it.
fn is_shut(part: Part, p: Pins, block: u8) -> bool
    ensures { result ≡ shut part p block }
{
    (block == 0) & !unlocked(part, p, 0)
}

// No operation can start.
pub fn is_stuck(part: Part, p: Pins, block: u8) -> bool
    ensures { result ≡ stuck_by part p block }
{
    vpp_low(part, p) | is_shut(part, p, block)
}

// How the first operation ends that cannot start, an erase or a program.
fn fault_end(part: Part, p: Pins, erase: bool) -> u8
    ensures { result ≡ fault_end part p erase }
{
    if vpp_low(part, p) {
        return 21;
    }
    if erase {
        return 23;
    }
    24
}

// .. and the status that it leaves.
fn fault_bits(part: Part, p: Pins, erase: bool) -> u8
    ensures { result ≡ fault_bits part p erase }
{
    if vpp_low(part, p) {
        if erase {
            return 0xA8;
        }
        return 0x98;
    }
    if erase {
        return 0xA0;
    }
    0x90
}

// Where a block's bytes begin.
pub fn first_byte(part: Part, block: u8) -> usize
    ensures { result ≡ byte_of part.word (start_of part block) }
{
    let word = part.word;
    let a = device::start(part, block);
    units::byte_at(word, a as u32, false)
}

// A load of n units whose operations cannot start: with nothing to do it ends well, else by the first one.
fn tried(part: Part, s: State, p: Pins, n: usize, f: Found) -> Ran
    requires { n ≤ 1048576 }
    ensures { result ≡ tried_of part s p n f }
{
    let differs = f.differs;
    let rises = f.rises;
    if differs {
        return Ran {
            count: n as u64 + 5,
            end: fault_end(part, p, rises),
            address: 0,
            state: at_rest(s, Mode::Status, fault_bits(part, p, rises)),
        };
    }
    Ran {
        count: n as u64 + 2,
        end: 0,
        address: 0,
        state: at_rest(s, Mode::Array, 0x80),
    }
}

// .. the block read and looked at.
fn stuck_load(
    part: Part,
    s: State,
    p: Pins,
    block: u8,
    array: &[u8],
    wanted: &[u8],
    scratch: &mut [u8],
) -> Made
    requires { Placed part block (length array.now) (length wanted.now) (length scratch.old) }
    ensures result { result
        ≡ made_of
        (tried_of part s p (length (units part.word wanted.now))
        (looked_at (units part.word wanted.now) (held_units part block array.now wanted.now)))
        (must_rise part block array.now wanted.now) }
    ensures scratch_left { units part.word scratch.new
        ≡ held_units part block array.now wanted.now }
{
    let word = part.word;
    let a = first_byte(part, block);
    let e = a + wanted.len();
    let f = loader_blocks::look_at_block(word, &array[a..e], wanted, scratch);
    let ran = tried(part, s, p, units::units_in(word, wanted.len()), f);
    Made {
        ran: ran,
        rises: f.rises,
    }
}

// The mode that a good load leaves: read array after the first reads, read status after an operation.
fn mode_by(cost: u64) -> Mode
    ensures { result ≡ mode_by cost }
{
    if cost == 0 {
        return Mode::Array;
    }
    Mode::Status
}

// One erase more of a block, where there was one.
fn erased_from(erased: bool, block: u8, s: State) -> State
    ensures { result ≡ erased_from erased block s }
{
    let mode = s.mode;
    let phase = s.phase;
    let wear = s.wear;
    if erased {
        let worn = wear_out(wear, block);
        return State {
            mode: mode,
            status: s.status,
            phase: phase,
            left: s.left,
            address: s.address,
            wear: worn,
        };
    }
    s
}

// A good load of n units.
fn finished(s: State, block: u8, n: usize, w: Done) -> Ran
    requires { (n ≤ 1048576) × (w.cycles ≤ 1152921504606846976) }
    ensures { result ≡ finished_of s block n w }
{
    let erased = w.erased;
    let cost = w.cycles;
    let mode = mode_by(cost);
    let worn = erased_from(erased, block, s);
    let state = at_rest(worn, mode, 0x80);
    Ran {
        count: n as u64 + 2 + cost,
        end: 0,
        address: 0,
        state: state,
    }
}

// .. made in the block.
fn worked(
    part: Part,
    once: u32,
    each: u32,
    s: State,
    block: u8,
    array: &mut [u8],
    wanted: &[u8],
    scratch: &mut [u8],
) -> Made
    requires { Placed part block (length array.old) (length wanted.now) (length scratch.old) × (once ≤ 65537) × (each ≤ 65537) }
    ensures result { result
        ≡ made_of
        (finished_of s block (length (units part.word wanted.now))
        (work_done part.word once each (units part.word wanted.now)
        (held_units part block array.old wanted.now)))
        (must_rise part block array.old wanted.now) }
    ensures array_left { units part.word array.new
        ≡ overlaid (units part.word array.old) (start_of part block) (units part.word wanted.now) }
    ensures scratch_left { units part.word scratch.new ≡ units part.word wanted.now }
{
    let word = part.word;
    let a = first_byte(part, block);
    let e = a + wanted.len();
    let w = loader_blocks::load_block(word, once, each, &mut array[a..e], wanted, scratch);
    let ran = finished(s, block, units::units_in(word, wanted.len()), w);
    Made {
        ran: ran,
        rises: w.erased,
    }
}

// A load: 50H, FFH and the first reads, then the operations.
fn loaded(j: Job, array: &mut [u8], wanted: &[u8], scratch: &mut [u8]) -> Made
    requires { Placed j.device.part j.block (length array.old) (length wanted.now) (length scratch.old) }
    ensures result { result ≡ load_made false j array.old wanted.now }
    ensures array_left { units_of j array.new ≡ load_array j array.old wanted.now }
    ensures scratch_left { units_of j scratch.new ≡ load_scratch j array.old wanted.now }
    ensures timed { Timed j.device }
{
    let d = j.device;
    let s = j.state;
    let p = j.pins;
    let once = cost_of(d.erase);
    let each = cost_of(d.program);
    let part = d.part;
    if is_stuck(part, p, j.block) {
        return stuck_load(part, s, p, j.block, array, wanted, scratch);
    }
    worked(part, once, each, s, j.block, array, wanted, scratch)
}

// How a verify ends that found the first difference at place m of n, in a block at a, with the two units there.
fn verdict(word: bool, s: State, a: usize, n: usize, m: usize, held: u16, wanted: u16) -> Ran
    requires { (a ≤ 1048576) × (n ≤ 1048576) }
    ensures { result ≡ verdict_of word s a n m held wanted }
{
    let state = at_rest(s, Mode::Array, s.status);
    if m < n {
        let same = units::low(held) == units::low(wanted);
        let at = units::byte_at(word, (a + m) as u32, same);
        return Ran {
            count: m as u64 + 2,
            end: 25,
            address: at as u32,
            state: state,
        };
    }
    Ran {
        count: n as u64 + 1,
        end: 0,
        address: 0,
        state: state,
    }
}

// A verify: FFH, then the reads.
fn verified(part: Part, s: State, block: u8, array: &[u8], wanted: &[u8], scratch: &mut [u8]) -> Ran
    requires { Placed part block (length array.now) (length wanted.now) (length scratch.old) }
    ensures result { result
        ≡ verify_ran part s (start_of part block) (units part.word wanted.now)
        (held_units part block array.now wanted.now) }
    ensures scratch_left { units part.word scratch.new
        ≡ overwritten
        (units_read (units part.word wanted.now) (held_units part block array.now wanted.now))
        (held_units part block array.now wanted.now) (units part.word scratch.old) }
{
    let word = part.word;
    let a = first_byte(part, block);
    let e = a + wanted.len();
    let m = loader_blocks::verify_block(word, &array[a..e], wanted, scratch);
    let held = units::get_unit(word, &array[a..e], m);
    let unit = units::get_unit(word, wanted, m);
    let n = units::units_in(word, wanted.len());
    verdict(word, s, device::start(part, block), n, m, held, unit)
}

// A load, and where it is asked the verify after it, if the load ended well.
fn load_by(verify: bool, j: Job, array: &mut [u8], wanted: &[u8], scratch: &mut [u8]) -> Made
    requires { Placed j.device.part j.block (length array.old) (length wanted.now) (length scratch.old) }
    ensures result { result ≡ load_made verify j array.old wanted.now }
    ensures array_left { units_of j array.new ≡ load_array j array.old wanted.now }
    ensures scratch_left { units_of j scratch.new ≡ load_scratch j array.old wanted.now }
    ensures timed { Timed j.device }
{
    let d = j.device;
    let part = d.part;
    let m = loaded(j, array, wanted, scratch);
    let l = m.ran;
    let end = l.end;
    if end != 0 {
        return m;
    }
    if !verify {
        return m;
    }
    let t = l.state;
    let v = verified(part, t, j.block, array, wanted, scratch);
    let u = v.state;
    let ran = Ran {
        count: l.count + v.count,
        end: v.end,
        address: v.address,
        state: u,
    };
    Made {
        ran: ran,
        rises: m.rises,
    }
}

// The tests of a run, on so many lent bytes.
fn lent_number(j: Job, array: usize, wanted: usize, scratch: usize) -> u8
    ensures { result ≡ lent_number j array wanted scratch }
{
    let d = j.device;
    let part = d.part;
    let word = part.word;
    loader_run::run_number(
        j,
        units::lent_in(word, array),
        units::lent_in(word, wanted),
        units::lent_in(word, scratch),
    )
}

fn refused(n: u8, s: State) -> Ran
    ensures { result ≡ refused_ran n s }
{
    Ran {
        count: 0,
        end: n,
        address: 0,
        state: s,
    }
}

// A job that nothing refuses, by what is to be done.
fn done(j: Job, array: &mut [u8], wanted: &[u8], scratch: &mut [u8]) -> Ran
    requires { lent_number j (length array.old) (length wanted.now) (length scratch.old) ≡ 0 }
    ensures result { result ≡ (lent_run j array.old wanted.now scratch.old).ran }
    ensures array_left { array.new ≡ (lent_run j array.old wanted.now scratch.old).bytes }
    ensures scratch_left { scratch.new
        ≡ (lent_run j array.old wanted.now scratch.old).scratch }
{
    let d = j.device;
    let s = j.state;
    let part = d.part;
    let work = j.work;
    match work {
        Work::Load(verify) => {
            let m = load_by(verify, j, array, wanted, scratch);
            let r = m.ran;
            r
        }
        Work::Verify => verified(part, s, j.block, array, wanted, scratch),
    }
}

// A job, stage by stage: `loader_run::run` promises the same.
pub fn run_quick(j: Job, array: &mut [u8], wanted: &[u8], scratch: &mut [u8]) -> Ran
    ensures result { result ≡ (lent_run j array.old wanted.now scratch.old).ran }
    ensures array_left { array.new ≡ (lent_run j array.old wanted.now scratch.old).bytes }
    ensures scratch_left { scratch.new
        ≡ (lent_run j array.old wanted.now scratch.old).scratch }
{
    let s = j.state;
    let n = lent_number(j, array.len(), wanted.len(), scratch.len());
    if n == 0 {
        return done(j, array, wanted, scratch);
    }
    refused(n, s)
}

// So many bytes are no whole number of units.
fn is_uneven(word: bool, n: usize) -> bool
    ensures { result ≡ torn word n }
{
    word & (n % 2 == 1)
}

// So many bytes lent lie as a run takes them.
fn are_placed(part: Part, block: u8, array: usize, wanted: usize, scratch: usize) -> bool
    ensures { result ≡ is_placed part block array wanted scratch }
{
    let word = part.word;
    if 1048576 < wanted {
        return false;
    }
    let e = first_byte(part, block) + wanted;
    (scratch == wanted) & (e <= array) & !is_uneven(word, wanted) & !is_uneven(word, array)
}

// A verify as a job's stages: no bit rises.
fn verify_made(
    part: Part,
    s: State,
    block: u8,
    array: &[u8],
    wanted: &[u8],
    scratch: &mut [u8],
) -> Made
    requires { Placed part block (length array.now) (length wanted.now) (length scratch.old) }
    ensures result { result
        ≡ made_of
        (verify_ran part s (start_of part block) (units part.word wanted.now)
        (held_units part block array.now wanted.now)) false }
    ensures scratch_left { units part.word scratch.new
        ≡ overwritten
        (units_read (units part.word wanted.now) (held_units part block array.now wanted.now))
        (held_units part block array.now wanted.now) (units part.word scratch.old) }
{
    let r = verified(part, s, block, array, wanted, scratch);
    Made {
        ran: r,
        rises: false,
    }
}

// The stages of a job, by what is to be done.
fn staged(j: Job, array: &mut [u8], wanted: &[u8], scratch: &mut [u8]) -> Made
    requires { Placed j.device.part j.block (length array.old) (length wanted.now) (length scratch.old) }
    ensures result { result ≡ stages_made j.work j array.old wanted.now }
    ensures array_left { units_of j array.new ≡ stages_array j.work j array.old wanted.now }
    ensures scratch_left { units_of j scratch.new
        ≡ stages_scratch j.work j array.old wanted.now scratch.old }
{
    let d = j.device;
    let s = j.state;
    let part = d.part;
    let work = j.work;
    match work {
        Work::Load(verify) => load_by(verify, j, array, wanted, scratch),
        Work::Verify => verify_made(part, s, j.block, array, wanted, scratch),
    }
}

// The stages of a job whose tests its caller has made. What is lent and does not lie as a run takes it is refused, 11, and left as it is.
pub fn run_tested(j: Job, array: &mut [u8], wanted: &[u8], scratch: &mut [u8]) -> Made
    ensures result { result ≡ (tested_left j array.old wanted.now scratch.old).made }
    ensures array_left { array.new
        ≡ (tested_left j array.old wanted.now scratch.old).bytes }
    ensures scratch_left { scratch.new
        ≡ (tested_left j array.old wanted.now scratch.old).scratch }
{
    let d = j.device;
    let s = j.state;
    let part = d.part;
    if are_placed(part, j.block, array.len(), wanted.len(), scratch.len()) {
        return staged(j, array, wanted, scratch);
    }
    let r = refused(11, s);
    Made {
        ran: r,
        rises: false,
    }
}
