// A read's data taken: what they do to scratch, and the record after them, which reads the new scratch.
#![tactic(auto)]

ghost use Rattle.std.specs.Prelude.{◌≡◌, set};
ghost use Rattle.units.specs.Units.{units, spare, carried};
ghost use Rattle.loader_moves.specs.Moves.{after_read, erase_polled, program_polled, verify_more, next_of};
ghost use Rattle.loader_stores.specs.Stores.{erased_well, erase_stored, programmed_well, program_stored, store_of};

use device::Part;
use loader::statuses::{erase_end, is_ready, program_end};
use loader::{Loader, Stage};
use loader_moves::{erase_polled, moved, program_polled, read_more, verify_more};

fn erased_well(b: u8) -> bool
    ensures { result ≡ erased_well b }
{
    is_ready(b) & (erase_end(b) == 0)
}

// An erase that ended well fills scratch with ones.
pub fn store_erase(part: Part, b: u8, scratch: &mut [u8])
    ensures scratch_left { units part.word scratch.new
        ≡ erase_stored part b (units part.word scratch.old) }
    ensures scratch_spare { spare part.word scratch.new ≡ spare part.word scratch.old }
{
    let word = part.word;
    if erased_well(b) {
        let n = units::units_in(word, scratch.len());
        units::erase_units(word, scratch, 0, n)
    }
}

fn programmed_well(b: u8) -> bool
    ensures { result ≡ programmed_well b }
{
    is_ready(b) & (program_end(b) == 0)
}

// A program that ended well puts its unit into scratch.
pub fn store_program(word: bool, place: usize, b: u8, wanted: &[u8], scratch: &mut [u8])
    ensures scratch_left { units word scratch.new
        ≡ program_stored place b (units word wanted.now) (units word scratch.old) }
    ensures scratch_spare { spare word scratch.new ≡ spare word scratch.old }
{
    if programmed_well(b) {
        let v = units::get_unit(word, wanted, place);
        units::put_unit(word, scratch, place, v)
    }
}

// A unit of the first reads.
fn take_read(l: Loader, v: u16, wanted: &[u8], scratch: &mut [u8]) -> Loader
    ensures result { result
        ≡ after_read l (units l.part.word wanted.now)
        (set (units l.part.word scratch.old) l.place (carried l.part.word v)) }
    ensures scratch_left { units l.part.word scratch.new
        ≡ set (units l.part.word scratch.old) l.place (carried l.part.word v) }
    ensures scratch_spare { spare l.part.word scratch.new ≡ spare l.part.word scratch.old }
{
    let part = l.part;
    let word = part.word;
    units::put_unit(word, scratch, l.place, v);
    read_more(l, wanted, scratch)
}

// A poll of the erase.
fn take_erase(l: Loader, b: u8, wanted: &[u8], scratch: &mut [u8]) -> Loader
    ensures result { result
        ≡ erase_polled l b (units l.part.word wanted.now)
        (erase_stored l.part b (units l.part.word scratch.old)) }
    ensures scratch_left { units l.part.word scratch.new
        ≡ erase_stored l.part b (units l.part.word scratch.old) }
    ensures scratch_spare { spare l.part.word scratch.new ≡ spare l.part.word scratch.old }
{
    let part = l.part;
    store_erase(part, b, scratch);
    erase_polled(l, b, wanted, scratch)
}

// A poll of a program.
fn take_program(l: Loader, b: u8, wanted: &[u8], scratch: &mut [u8]) -> Loader
    ensures result { result
        ≡ program_polled l b (units l.part.word wanted.now)
        (program_stored l.place b (units l.part.word wanted.now) (units l.part.word scratch.old)) }
    ensures scratch_left { units l.part.word scratch.new
        ≡ program_stored l.place b (units l.part.word wanted.now) (units l.part.word scratch.old) }
    ensures scratch_spare { spare l.part.word scratch.new ≡ spare l.part.word scratch.old }
{
    let part = l.part;
    let word = part.word;
    store_program(word, l.place, b, wanted, scratch);
    program_polled(l, b, wanted, scratch)
}

// A unit of the verify.
fn take_verify(l: Loader, v: u16, wanted: &[u8], scratch: &mut [u8]) -> Loader
    ensures result { result ≡ verify_more l v (units l.part.word wanted.now) }
    ensures scratch_left { units l.part.word scratch.new
        ≡ set (units l.part.word scratch.old) l.place (carried l.part.word v) }
    ensures scratch_spare { spare l.part.word scratch.new ≡ spare l.part.word scratch.old }
{
    let part = l.part;
    let word = part.word;
    units::put_unit(word, scratch, l.place, v);
    verify_more(l, v, wanted)
}

// A read's data taken: the one place that says where each stage goes.
pub fn advance(l: Loader, v: u16, wanted: &[u8], scratch: &mut [u8]) -> Loader
    ensures result { result
        ≡ next_of l v (units l.part.word wanted.now)
        (store_of l v (units l.part.word wanted.now) (units l.part.word scratch.old)) }
    ensures scratch_left { units l.part.word scratch.new
        ≡ store_of l v (units l.part.word wanted.now) (units l.part.word scratch.old) }
    ensures scratch_spare { spare l.part.word scratch.new ≡ spare l.part.word scratch.old }
{
    let stage = l.stage;
    match stage {
        Stage::Clearing => moved(l, Stage::Opening, 0, 0),
        Stage::Opening => moved(l, Stage::Reading, 0, 0),
        Stage::Reading => take_read(l, v, wanted, scratch),
        Stage::EraseAsking => moved(l, Stage::EraseConfirming, 0, 0),
        Stage::EraseConfirming => moved(l, Stage::EraseWaiting, 0, 0),
        Stage::EraseWaiting => take_erase(l, units::low(v), wanted, scratch),
        Stage::ProgramAsking => moved(l, Stage::ProgramSending, l.place, 0),
        Stage::ProgramSending => moved(l, Stage::ProgramWaiting, l.place, 0),
        Stage::ProgramWaiting => take_program(l, units::low(v), wanted, scratch),
        Stage::Closing => moved(l, Stage::Verifying, 0, 0),
        Stage::Verifying => take_verify(l, v, wanted, scratch),
        Stage::Ended(_) => l,
    }
}
