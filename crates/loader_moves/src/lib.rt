// The loader's moves: the record after a read's data.
#![tactic(auto)]

ghost use Rattle.std.specs.Prelude.{◌≡◌};
ghost use Rattle.units.specs.Units.{units};
ghost use Rattle.loader_moves.specs.Moves.{moved_to, ended_by, ended_apart, loaded_stage, onward, after_reads, after_read};
ghost use Rattle.loader_moves.specs.Moves.{poll_more, erase_polled, program_polled, verify_more};
ghost use Rattle.loader_moves.specs.Inner.{past};

use loader::statuses::{erase_end, is_ready, program_end};
use loader::{Loader, Stage};
use loader_walk::{diff_from, rises_in, units_of};

// The record at another stage, place and count of polls.
pub fn moved(l: Loader, stage: Stage, place: usize, polls: u32) -> Loader
    ensures { result ≡ moved_to l stage place polls }
{
    Loader {
        stage,
        place,
        polls,
        high: false,
        ..l
    }
}

// The end by a number, at the record's place.
pub fn ended_by(l: Loader, n: u8) -> Loader
    ensures { result ≡ ended_by l n }
{
    moved(l, Stage::Ended(n), l.place, 0)
}

// What follows the last program: the verify, or the end of a load alone.
fn loaded_stage(verify: bool) -> Stage
    ensures { result ≡ loaded_stage verify }
{
    if verify {
        return Stage::Closing;
    }
    Stage::Ended(0)
}

// On to the first differing unit from `from` on, or to what follows the last program.
#[tactic(auto, unfolding(crate::specs::Moves::onward))]
fn onward(l: Loader, from: usize, wanted: &[u8], scratch: &[u8]) -> Loader
    ensures { result ≡ onward l from (units l.part.word wanted.now) (units l.part.word scratch.now) }
{
    let word = l.part.word;
    let i = diff_from(word, from, wanted, scratch);
    if i < units_of(word, wanted) {
        return moved(l, Stage::ProgramAsking, i, 0);
    }
    let stage = loaded_stage(l.verify);
    moved(l, stage, 0, 0)
}

#[tactic(auto, unfolding(crate::specs::Moves::after_reads))]
fn after_reads(l: Loader, wanted: &[u8], scratch: &[u8]) -> Loader
    ensures { result ≡ after_reads l (units l.part.word wanted.now) (units l.part.word scratch.now) }
{
    if rises_in(l.part.word, wanted, scratch) {
        return moved(l, Stage::EraseAsking, 0, 0);
    }
    onward(l, 0, wanted, scratch)
}

// A unit of the first reads is in.
#[tactic(auto, unfolding(crate::specs::Moves::after_read))]
pub fn read_more(l: Loader, wanted: &[u8], scratch: &[u8]) -> Loader
    ensures { result ≡ after_read l (units l.part.word wanted.now) (units l.part.word scratch.now) }
{
    let end = units_of(l.part.word, wanted).saturating_sub(1);
    if l.place < end {
        return moved(l, Stage::Reading, l.place + 1, 0);
    }
    after_reads(l, wanted, scratch)
}

#[tactic(auto, unfolding(crate::specs::Moves::poll_more))]
fn poll_more(l: Loader, stage: Stage) -> Loader
    ensures { result ≡ poll_more l stage }
{
    if 65534 <= l.polls {
        return ended_by(l, 20);
    }
    moved(l, stage, l.place, l.polls + 1)
}

// A poll of the erase is in.
#[tactic(auto, unfolding(crate::specs::Moves::erase_polled))]
pub fn erase_polled(l: Loader, b: u8, wanted: &[u8], scratch: &[u8]) -> Loader
    ensures { result ≡ erase_polled l b (units l.part.word wanted.now) (units l.part.word scratch.now) }
{
    if is_ready(b) {
        let n = erase_end(b);
        if n == 0 {
            return onward(l, 0, wanted, scratch);
        }
        return ended_by(l, n);
    }
    poll_more(l, Stage::EraseWaiting)
}

#[tactic(auto, unfolding(crate::specs::Inner::past))]
fn past(p: usize, n: usize) -> usize
    ensures { result ≡ past p n }
{
    if p < n {
        return p + 1;
    }
    p
}

// A poll of a program is in.
#[tactic(auto, unfolding(crate::specs::Moves::program_polled))]
pub fn program_polled(l: Loader, b: u8, wanted: &[u8], scratch: &[u8]) -> Loader
    ensures { result ≡ program_polled l b (units l.part.word wanted.now) (units l.part.word scratch.now) }
{
    if is_ready(b) {
        let n = program_end(b);
        if n == 0 {
            let from = past(l.place, units_of(l.part.word, wanted));
            return onward(l, from, wanted, scratch);
        }
        return ended_by(l, n);
    }
    poll_more(l, Stage::ProgramWaiting)
}

// The end by 25. Where only the high bytes of a word differ, the record says so.
fn ended_apart(l: Loader, v: u16, wanted: u16) -> Loader
    ensures { result ≡ ended_apart l v wanted }
{
    Loader {
        stage: Stage::Ended(25),
        polls: 0,
        high: l.part.word & (v % 256 == wanted % 256),
        ..l
    }
}

// A unit of the verify is in.
#[tactic(auto, unfolding(crate::specs::Moves::verify_more))]
pub fn verify_more(l: Loader, v: u16, wanted: &[u8]) -> Loader
    ensures { result ≡ verify_more l v (units l.part.word wanted.now) }
{
    let word = l.part.word;
    let end = units_of(word, wanted).saturating_sub(1);
    let want = units::get_unit(word, wanted, l.place);
    if units::carry(word, v) == want {
        if l.place < end {
            return moved(l, Stage::Verifying, l.place + 1, 0);
        }
        return ended_by(l, 0);
    }
    ended_apart(l, v, want)
}
