// The bench model: one bus cycle at a time on a lent array. The rules are in `model_rules`; here they are applied to the array's
// units, which `units` finds in the lent bytes.
#![tactic(auto)]

ghost use Rattle.std.specs.Prelude.{◌≡◌, ◌<◌, ◌≤◌, length, get_or, set};
ghost use Rattle.std.specs.Int.Bits.{bit_and, bit_or};
ghost use Rattle.units.specs.Units.{units, spare, lent};
ghost use Rattle.model_states.specs.States.{fresh_state, reset_of};
ghost use Rattle.device.specs.Parts.{size_of, length_of};
ghost use Rattle.model.specs.declared.Seen.TheVariants.{Data, Refused};
ghost use Rattle.model.specs.Arrays.{erased, residual, array_of, seen_of, answer_of, bytes_after, seen_told, reply_told, cycle_told};
ghost use Rattle.model.specs.Inner.{finds_in, done_of, answer_judged, array_judged, passed_told, Within};

use device::{Device, Part};
use model_types::blank::ones;
use model_types::{Cycle, Effect, Reply, State};

// What the host sees of a cycle: no data, a byte or a word, or a refusal by its number.
#[derive(Clone, Copy)]
pub enum Seen {
    NoData,
    Data(u16),
    Refused(u8),
}

// The answer to a cycle beside the state that it leaves.
#[derive(Clone, Copy)]
pub struct Answer {
    pub seen: Seen,
    pub state: State,
}

// An address as an index.
fn index(a: u32) -> usize
    ensures { result ≡ a }
{
    a as usize
}

// A cut program: the residue's first unit says which of the bits to clear may stay.
fn cut_program(word: bool, array: &mut [u8], at: usize, v: u16, residue: &[u8])
    requires { at < length (units word array.old) }
    ensures array_left { units word array.new
        ≡ set (units word array.old) at
        (bit_and (get_or (units word array.old) at 0) (bit_or v (get_or (units word residue.now) 0 0))) }
    ensures array_spare { spare word array.new ≡ spare word array.old }
{
    let r = units::get_unit(word, residue, 0);
    units::program_unit(word, array, at, v | r)
}

// An erase: the whole block is ones.
fn erase(part: Part, k: u8, array: &mut [u8])
    requires { length (units part.word array.old) ≡ size_of part }
    ensures array_left { units part.word array.new ≡ erased part k (units part.word array.old) }
    ensures array_spare { spare part.word array.new ≡ spare part.word array.old }
{
    let word = part.word;
    units::erase_units(word, array, device::start(part, k), device::length(part, k))
}

// A cut erase: the block is the residue's first units.
fn cut_erase(part: Part, k: u8, array: &mut [u8], residue: &[u8])
    requires { (length (units part.word array.old) ≡ size_of part) × (length_of part k ≤ length (units part.word residue.now)) }
    ensures array_left { units part.word array.new
        ≡ residual part k (units part.word residue.now) (units part.word array.old) }
    ensures array_spare { spare part.word array.new ≡ spare part.word array.old }
{
    let word = part.word;
    units::leave_units(
        word,
        array,
        device::start(part, k),
        device::length(part, k),
        residue,
    )
}

// The one place where the array is written.
fn apply(effect: Effect, part: Part, array: &mut [u8], residue: &[u8])
    requires { Within effect part (length (units part.word array.old)) (length (units part.word residue.now)) }
    ensures array_left { units part.word array.new
        ≡ array_of effect part (units part.word residue.now) (units part.word array.old) }
    ensures array_spare { spare part.word array.new ≡ spare part.word array.old }
{
    let word = part.word;
    match effect {
        Effect::Nothing => {}
        Effect::Program(at, v) => units::program_unit(word, array, index(at), v),
        Effect::Erase(k) => erase(part, k, array),
        Effect::CutProgram(at, v) => cut_program(word, array, index(at), v, residue),
        Effect::CutErase(k) => cut_erase(part, k, array, residue),
    }
}

// The effect finds its units in an array and a residue of so many.
fn finds(effect: Effect, part: Part, array: usize, residue: usize) -> bool
    ensures { result ≡ finds_in effect part array residue }
{
    match effect {
        Effect::Nothing => true,
        Effect::Program(at, _) => index(at) < array,
        Effect::Erase(_) => array == device::size(part),
        Effect::CutProgram(at, _) => (index(at) < array) & (0 < residue),
        Effect::CutErase(k) => (array == device::size(part)) & (device::length(part, k) <= residue),
    }
}

// The effect done where it finds its units, and left undone elsewhere. Public for a second engine, as `see` is.
pub fn put(effect: Effect, part: Part, array: &mut [u8], residue: &[u8])
    ensures array_left { units part.word array.new
        ≡ done_of effect part (units part.word residue.now) (units part.word array.old) }
    ensures array_spare { spare part.word array.new ≡ spare part.word array.old }
{
    let word = part.word;
    if finds(
        effect,
        part,
        units::units_in(word, array.len()),
        units::units_in(word, residue.len()),
    ) {
        return apply(effect, part, array, residue);
    }
}

// What the host sees of a reply.
pub fn see(reply: Reply, word: bool, array: &[u8]) -> Seen
    ensures result { result ≡ seen_of reply (units word array.now) }
    ensures told { seen_told result ≡ reply_told reply (units word array.now) }
{
    match reply {
        Reply::Quiet => Seen::NoData,
        Reply::Gives(v) => Seen::Data(v),
        Reply::GivesArray(a) => Seen::Data(units::get_unit(word, array, index(a))),
        Reply::Refuses(n) => Seen::Refused(n),
    }
}

// A fresh device: read array, status 80H, nothing in flight.
pub fn fresh() -> State
    ensures { result ≡ fresh_state }
{
    model_states::fresh()
}

// What RP# low makes of a state.
pub fn reset(s: State) -> State
    ensures { result ≡ reset_of s }
{
    model_states::reset(s)
}

// A unit of the array, and the state as it was.
fn show(s: State, address: u32, word: bool, array: &[u8]) -> Answer
    ensures { result ≡ record { seen = Data (get_or (units word array.now) address 0); state = s } }
{
    let v = units::get_unit(word, array, index(address));
    Answer {
        seen: Seen::Data(v),
        state: s,
    }
}

// Only for callers that know refusals 1 to 6 not to apply: they are not tested again, and what they would refuse is answered
// as the rules forbid. An effect that does not find its units is left undone.
pub fn after_judging(d: Device, s: State, c: Cycle, array: &mut [u8], residue: &[u8]) -> Answer
    ensures result { result
        ≡ answer_judged d s c (units d.part.word array.old) (units d.part.word residue.now) }
    ensures told { seen_told result.seen
        ≡ passed_told d s c (units d.part.word array.old) (units d.part.word residue.now) }
    ensures array_left { units d.part.word array.new
        ≡ array_judged d s c (units d.part.word array.old) (units d.part.word residue.now) }
    ensures array_spare { spare d.part.word array.new ≡ spare d.part.word array.old }
{
    let part = d.part;
    let word = part.word;
    if model_rules::asks_array(s, c) {
        return show(s, c.address, word, array);
    }
    let x = model_rules::decide_judged(d, s, c);
    let effect = x.effect;
    let reply = x.reply;
    let state = x.state;
    put(effect, part, array, residue);
    let seen = see(reply, word, array);
    Answer {
        seen: seen,
        state: state,
    }
}

fn refused(n: u8, s: State) -> Answer
    ensures { result ≡ record { seen = Refused n; state = s } }
{
    Answer {
        seen: Seen::Refused(n),
        state: s,
    }
}

// One bus cycle.
pub fn cycle(d: Device, s: State, c: Cycle, array: &mut [u8], residue: &[u8]) -> Answer
    ensures result { result
        ≡ answer_of d s c (lent d.part.word array.old) (units d.part.word residue.now) }
    ensures told { seen_told result.seen
        ≡ cycle_told d s c (lent d.part.word array.old) (units d.part.word residue.now) }
    ensures array_left { array.new ≡ bytes_after d s c array.old residue.now }
{
    let part = d.part;
    let word = part.word;
    let n = model_judge::judge(
        d,
        s,
        c,
        units::lent_in(word, array.len()),
        units::units_in(word, residue.len()),
    );
    if n != 0 {
        return refused(n, s);
    }
    after_judging(d, s, c, array, residue)
}
