// The new contents of the block that holds the store, made in lent memory of the block's length. Each public function takes any input;
// a refusal leaves memory as it was.
#![tactic(auto)]

ghost use Rattle.std.specs.Prelude.{◌≡◌, true, not, [], ◌∷◌, ◌+◌, ◌*◌, ◌-◌, ◌/◌, ◌≤◌, length, take, eqb, ltb};
ghost use Rattle.common.specs.Lists.{overlaid};
ghost use Rattle.common.specs.Numbers.{row, given};
ghost use Rattle.file_codec.specs.File.{limit};
ghost use Rattle.store_places.specs.Store.{Proper, items_in, drop_of, add_of};
ghost use Rattle.store_survey.specs.Survey.{reader_number, survey_of};
ghost use Rattle.store_contents.specs.Contents.{drop_in_number, add_in_number, memory_by};
ghost use Rattle.store_contents.specs.Inner.{zeroed_from, live_bytes, span_of, goes_of, stay_of, behind_of};

use store_survey::Survey;

// 00H over the first byte of k places, the first of them at byte `from`.
fn zero_places(m: &mut [u8], from: usize, k: usize)
    requires { from + 512 * k ≤ length m.old }
    ensures { m.new ≡ zeroed_from k from m.old }
{
    for i in 0..k {
        m[from + 512 * i] = 0;
    }
}

// The bytes of an item that begins so: a file has as many places as it says.
#[tactic(auto, unfolding(crate::specs::Inner::span_of))]
fn span(first: u8, count: u8) -> usize
    ensures { result ≡ span_of first count }
{
    match first {
        0 | 255 => 512,
        _ => 512 * usize::from(count),
    }
}

// Whether an item that begins so is left behind in a slide: a dead place, a blank one, the file under the letter.
#[tactic(auto, unfolding(crate::specs::Inner::goes_of))]
fn goes(first: u8, letter: u8) -> bool
    ensures { result ≡ goes_of first letter }
{
    (first == 0) | (first == 255) | (first == letter)
}

// An item's bytes go to byte `to` of memory, where it stays; the byte behind them is given back.
#[tactic(auto, using(crate::proofs::Overlays::left_behind, crate::proofs::Overlays::kept_there), unfolding(crate::specs::Inner::stay_of))]
fn keep(item: &[u8], letter: u8, memory: &mut [u8], to: usize) -> usize
    requires { to + length item.now ≤ length memory.old }
    ensures result { result ≡ to + length (stay_of letter item.now) }
    ensures memory_left { memory.new ≡ overlaid memory.old to (stay_of letter item.now) }
{
    if goes(common::nth(item, 0), letter) {
        return to;
    }
    let end = to + item.len();
    common::copy(&mut memory[to..end], item);
    end
}

// The files but that of the letter, in their order, into the front of memory; the byte behind them is given back. The block was
// judged proper before, so an item is told by its first byte and its count alone.
fn slide(main: &[u8], letter: u8, memory: &mut [u8]) -> usize
    requires { (Proper (reader_number limit) (length main.now / 512) main.now) × (length memory.old ≡ length main.now) }
    ensures result { result ≡ length (live_bytes letter (items_in (reader_number limit) main.now)) }
    ensures memory_live { take result memory.new ≡ live_bytes letter (items_in (reader_number limit) main.now) }
{
    let n = main.len();
    let mut from = 0;
    let mut to = 0;
    while from < n {
        let first = common::nth(main, from);
        let count = common::nth(main, from + 2);
        let end = from + span(first, count);
        to = keep(&main[from..end], letter, memory, to);
        from = end;
    }
    to
}

// A file at byte `at` of memory, and FFH behind it to the end.
#[tactic(auto, using(crate::proofs::Overlays::put_laid, crate::proofs::Overlays::behind))]
fn put_behind(memory: &mut [u8], at: usize, file: &[u8])
    requires { at + length file.now ≤ length memory.old }
    ensures { memory.new ≡ behind_of memory.old at file.now }
{
    let end = at + file.len();
    common::copy(&mut memory[at..end], file);
    common::fill(&mut memory[end..], 255)
}

// The block with 00H over the first byte of k places, the first of them at byte `from`, into memory of its length.
#[tactic(auto, using(common::proofs::Lists::copied_whole))]
fn drop_there(main: &[u8], from: usize, k: usize, memory: &mut [u8])
    requires { (length memory.old ≡ length main.now) × (from + 512 * k ≤ length main.now) }
    ensures { memory.new ≡ zeroed_from k from main.now }
{
    common::copy(memory, main);
    zero_places(memory, from, k)
}

// The same where the number is 0, else nothing.
#[tactic(auto, using(crate::proofs::Numbers::memory_new, crate::proofs::Numbers::memory_was))]
fn drop_by(number: u8, main: &[u8], from: usize, k: usize, memory: &mut [u8])
    requires { number ≡ 0 → (length memory.old ≡ length main.now) × (from + 512 * k ≤ length main.now) }
    ensures { memory.new ≡ memory_by number (zeroed_from k from main.now) memory.old }
{
    if number != 0 {
        return;
    }
    drop_there(main, from, k, memory)
}

// The number of a drop: 11 by memory's length, else that of a find.
fn drop_number(size: usize, room: usize, found: u8) -> u8
    ensures { result ≡ given (row 11 (not (eqb room size)) ∷ row found true ∷ []) }
{
    if room != size {
        return 11;
    }
    found
}

// The block without the file under a letter, into memory: 11, 44, 42, or 0 and done.
pub fn drop_into(main: &[u8], letter: u8, memory: &mut [u8]) -> u8
    ensures result { result ≡ drop_in_number main.now letter (length memory.old) }
    ensures memory_left { memory.new
        ≡ memory_by (drop_in_number main.now letter (length memory.old))
        (drop_of (reader_number limit) letter main.now) memory.old }
{
    let s = store_find::seek(main, letter);
    let n = drop_number(main.len(), memory.len(), s.number);
    drop_by(n, main, s.from, s.size / 512, memory);
    n
}

// The reader's number of a file for the letter asked.
fn file_number(file: &[u8], asked: u8) -> u8
    ensures { result ≡ reader_number limit asked file.now }
{
    match file_codec::judge(file, asked) {
        Ok(_) => 0,
        Err(refusal) => refusal.number(),
    }
}

// 43: the live blocks without the replaced ones, and the new ones, exceed the places.
fn no_room(places: usize, live: usize, replaced: usize, new: usize) -> bool
    requires { (replaced ≤ live) × (live ≤ places) × (places ≤ 36028797018963967) × (new ≤ 36028797018963967) }
    ensures { result ≡ ltb places (live - replaced + new) }
{
    places < live - replaced + new
}

// 44, then 43, by the survey for a file of so many blocks.
fn room_number(size: usize, s: Survey, new: usize) -> u8
    requires { (s.good ≡ true → (s.blocks ≤ s.live) × (s.live ≤ size / 512)) × (new ≤ 36028797018963967) }
    ensures { result ≡ given (row 44 (not s.good) ∷ row 43 (ltb (size / 512) (s.live - s.blocks + new)) ∷ []) }
{
    if !s.good {
        return 44;
    }
    let places = size / 512;
    if no_room(places, s.live, s.blocks, new) {
        return 43;
    }
    0
}

// The number of an add, by the survey for the file's blocks.
fn add_number(main: &[u8], file: &[u8], letter: u8, s: Survey, room: usize) -> u8
    requires { s ≡ survey_of letter (length file.now / 512) main.now }
    ensures { result ≡ add_in_number main.now file.now letter room }
{
    let size = main.len();
    if room != size {
        return 11;
    }
    let n = file_number(file, letter);
    if n != 0 {
        return n;
    }
    if size % 512 != 0 {
        return 44;
    }
    room_number(size, s, file.len() / 512)
}

// The file laid over a run of blank places that begins at byte `at`, the old one dropped.
#[tactic(auto, using(crate::proofs::Overlays::put_laid))]
fn lay(main: &[u8], from: usize, k: usize, at: usize, file: &[u8], memory: &mut [u8])
    requires { (length memory.old ≡ length main.now) × (from + 512 * k ≤ length main.now)
        × (at + length file.now ≤ length main.now) }
    ensures { memory.new ≡ overlaid (zeroed_from k from main.now) at file.now }
{
    drop_there(main, from, k, memory);
    let end = at + file.len();
    common::copy(&mut memory[at..end], file)
}

// The block with the file in it, into memory, where the number is 0: into the run that the survey found, or by a slide.
fn put_new(number: u8, main: &[u8], file: &[u8], letter: u8, s: Survey, memory: &mut [u8])
    requires { (s ≡ survey_of letter (length file.now / 512) main.now)
        × (number ≡ 0 → add_in_number main.now file.now letter (length memory.old) ≡ 0) }
    ensures { memory.new
        ≡ memory_by number (add_of (reader_number limit) letter file.now main.now) memory.old }
{
    if number != 0 {
        return;
    }
    if s.fits {
        lay(main, 512 * s.place, s.blocks, 512 * s.start, file, memory);
        return;
    }
    let at = slide(main, letter, memory);
    put_behind(memory, at, file)
}

// The block with a file added under its letter, into memory: 11, the reader's number, 44, 43, or 0 and done.
pub fn add_into(main: &[u8], file: &[u8], letter: u8, memory: &mut [u8]) -> u8
    ensures result { result ≡ add_in_number main.now file.now letter (length memory.old) }
    ensures memory_left { memory.new
        ≡ memory_by (add_in_number main.now file.now letter (length memory.old))
        (add_of (reader_number limit) letter file.now main.now) memory.old }
{
    let s = store_survey::survey_of(main, letter, file.len() / 512);
    let n = add_number(main, file, letter, s, memory.len());
    put_new(n, main, file, letter, s, memory);
    n
}
