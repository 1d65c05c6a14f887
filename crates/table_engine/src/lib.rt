// The second engine: one bus cycle at a time on a lent array, a write's action read off the table of `command_table`. Judging by
// refusals 1 to 6, settling, reads, the start of an operation and the array's units are the first engine's; its tests of commands are not
// used. Made for reading.
#![tactic(auto)]

ghost use Rattle.std.specs.Prelude.{◌≡◌};
ghost use Rattle.units.specs.Units.{units, spare, lent};
ghost use Rattle.model_rules.specs.Inner.{decide_kind, decide_judged};
ghost use Rattle.model.specs.declared.Seen.TheVariants.{Refused};
ghost use Rattle.model.specs.Arrays.{seen_told};
ghost use Rattle.model.specs.Inner.{answer_judged, array_judged};
ghost use Rattle.table_engine.specs.Engine.{table_answer, table_told, table_bytes};

use device::Device;
use model::{Answer, Seen};
use model_types::{Cycle, Decision, Kind, Reply, Settled, State};

// Step 4: the read or write itself. The table is asked for the state that settling leaves.
fn respond(kind: Kind, d: Device, s: State, c: Cycle, t: Settled) -> Decision
    ensures { result ≡ decide_kind kind d s c t }
{
    let after = t.state;
    match kind {
        Kind::Read => {
            let m = after.mode;
            let part = d.part;
            model_rules::read(m, part, s, c, t)
        }
        Kind::Write => {
            let ph = after.phase;
            let part = d.part;
            model_rules::write(command_table::action(part, ph, c), d, s, c, t)
        }
        Kind::Idle => model_rules::settled_by(Reply::Quiet, t),
    }
}

// A cycle that refusals 1 to 6 do not stop. With RP# low it ends after step 1.
fn decide_judged(d: Device, s: State, c: Cycle) -> Decision
    ensures { result ≡ decide_judged d s c }
{
    let part = d.part;
    let p = c.pins;
    let kind = c.kind;
    let t = model_operation::settle(part, s, p);
    if model_levels::rp_low(p) {
        return model_rules::settled_by(Reply::Quiet, t);
    }
    respond(kind, d, s, c, t)
}

// The same on the lent array.
fn after_judging(d: Device, s: State, c: Cycle, array: &mut [u8], residue: &[u8]) -> Answer
    ensures result { result
        ≡ answer_judged d s c (units d.part.word array.old) (units d.part.word residue.now) }
    ensures array_left { units d.part.word array.new
        ≡ array_judged d s c (units d.part.word array.old) (units d.part.word residue.now) }
    ensures array_spare { spare d.part.word array.new ≡ spare d.part.word array.old }
{
    let part = d.part;
    let word = part.word;
    let x = decide_judged(d, s, c);
    let effect = x.effect;
    let reply = x.reply;
    let state = x.state;
    model::put(effect, part, array, residue);
    let seen = model::see(reply, word, array);
    Answer {
        seen: seen,
        state: state,
    }
}

fn refused(n: u8, s: State) -> Answer
    ensures { result ≡ record { seen = Refused n; state = s } }
{
    Answer {
        seen: Seen::Refused(n),
        state: s,
    }
}

// One bus cycle, by the table.
pub fn cycle(d: Device, s: State, c: Cycle, array: &mut [u8], residue: &[u8]) -> Answer
    ensures result { result
        ≡ table_answer d s c (lent d.part.word array.old) (units d.part.word residue.now) }
    ensures told { seen_told result.seen
        ≡ table_told d s c (lent d.part.word array.old) (units d.part.word residue.now) }
    ensures array_left { array.new ≡ table_bytes d s c array.old residue.now }
{
    let part = d.part;
    let word = part.word;
    let n = model_judge::judge(
        d,
        s,
        c,
        units::lent_in(word, array.len()),
        units::units_in(word, residue.len()),
    );
    if n != 0 {
        return refused(n, s);
    }
    after_judging(d, s, c, array, residue)
}
