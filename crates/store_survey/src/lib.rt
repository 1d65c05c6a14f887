// The walk over the places of a block: a proper store or not, the file under a letter, live blocks, the first long enough run of blank
// places.
#![tactic(auto)]

ghost use Rattle.std.specs.Prelude.{◌≡◌, not, ◌*◌, ◌-◌, ◌<◌, ◌≤◌, length, get_or, replicate, set, eqb};
ghost use Rattle.store_survey.specs.Survey.{spot_in, survey_of};
ghost use Rattle.store_survey.specs.Inner.{sound_of, spot_of, more_by, twice_of, seen_by, dead_by, junk_by, blank_by, file_by, note_of};

// What begins at a place: a blank place, a dead one, a file with its letter and its count of blocks, or none of these.
#[derive(Clone, Copy)]
pub enum Spot {
    Blank,
    Dead,
    File(u8, u8),
    Junk,
}

// What a walk has met: live blocks; the first place and the blocks of the asked letter's file; the blank places just behind; where the
// first long enough run begins; whether all is proper, and whether there is such a run.
#[derive(Clone, Copy)]
pub struct Survey {
    pub live: usize,
    pub place: usize,
    pub blocks: usize,
    pub run: usize,
    pub start: usize,
    pub good: bool,
    pub fits: bool,
}

// Whether the reader takes the bytes for the letter.
fn sound(file: &[u8], letter: u8) -> bool
    ensures { result ≡ sound_of letter file.now }
{
    file_codec::judge(file, letter).is_ok()
}

// What begins with the first 512 of b: a dead place by its first byte alone, before anything else of it is read.
#[tactic(auto, unfolding(crate::specs::Inner::spot_of))]
fn spot_of(b: &[u8]) -> Spot
    requires { 512 ≤ length b.now }
    ensures { result ≡ spot_of b.now }
{
    let first = common::nth(b, 0);
    if first == 0 {
        return Spot::Dead;
    }
    if file_check::all_ff(&b[0..512]) {
        return Spot::Blank;
    }
    let k = common::nth(b, 2);
    let size = 512 * usize::from(k);
    if b.len() < size {
        return Spot::Junk;
    }
    if sound(&b[0..size], first) {
        return Spot::File(first, k);
    }
    Spot::Junk
}

// What begins at a place of a block; past its last whole place nothing does.
#[tactic(auto, using(crate::proofs::Spots::spot_here, crate::proofs::Spots::spot_past))]
pub fn spot_at(main: &[u8], place: usize) -> Spot
    ensures { result ≡ spot_in main.now place }
{
    if place < main.len() / 512 {
        return spot_of(&main[512 * place..]);
    }
    Spot::Junk
}

// The places that a spot takes beyond its first.
fn more(spot: Spot) -> usize
    ensures { (result ≡ more_by spot) × (result < 256) }
{
    match spot {
        Spot::File(_, k) => usize::from(k).saturating_sub(1),
        _ => 0,
    }
}

// Whether the spot's letter was met before.
fn twice(seen: &[u8; 256], spot: Spot) -> bool
    ensures { result ≡ twice_of seen.now spot }
{
    match spot {
        Spot::File(m, _) => seen[usize::from(m)] != 0,
        _ => false,
    }
}

// The spot's letter is met.
fn mark(seen: &mut [u8; 256], spot: Spot)
    ensures { seen.new ≡ seen_by seen.old spot }
{
    if let Spot::File(m, _) = spot {
        seen[usize::from(m)] = 1;
    }
}

// Past a blank place: the first run that reaches n is kept.
#[tactic(auto, unfolding(crate::specs::Inner::blank_by))]
fn blank_at(s: Survey, p: usize, n: usize) -> Survey
    requires { (s.run ≤ p) × (p < 72057594037927936) }
    ensures { result ≡ blank_by s p n }
{
    let run = s.run + 1;
    if s.fits | (run != n) {
        return Survey { run, ..s };
    }
    Survey {
        run,
        start: p - s.run,
        fits: true,
        ..s
    }
}

// Past a file: the first under the letter asked for is kept.
#[tactic(auto, unfolding(crate::specs::Inner::file_by))]
fn file_at(s: Survey, p: usize, m: u8, k: u8, again: bool, letter: u8) -> Survey
    requires { s.live < 72057594037927936 }
    ensures { result ≡ file_by s p m k again letter }
{
    let blocks = usize::from(k);
    let met = Survey {
        live: s.live + blocks,
        run: 0,
        good: s.good & !again,
        ..s
    };
    if (m == letter) & (s.blocks == 0) {
        return Survey {
            place: p,
            blocks,
            ..met
        };
    }
    met
}

// The survey one spot on.
fn note(s: Survey, spot: Spot, p: usize, again: bool, letter: u8, n: usize) -> Survey
    requires { (s.live ≤ p) × (s.run ≤ p) × (p < 72057594037927936) }
    ensures { result ≡ note_of s spot p again letter n }
{
    match spot {
        Spot::Blank => blank_at(s, p, n),
        Spot::Dead => Survey { run: 0, ..s },
        Spot::File(m, k) => file_at(s, p, m, k, again, letter),
        Spot::Junk => Survey {
            run: 0,
            good: false,
            ..s
        },
    }
}

// The walk over all places, from the lowest on, no letter met before it.
fn walk_places(main: &[u8], letter: u8, n: usize, seen: &mut [u8; 256]) -> Survey
    requires { seen.old ≡ replicate 256 0 }
    ensures { result ≡ survey_of letter n main.now }
{
    let total = main.len() / 512;
    let mut s = Survey {
        live: 0,
        place: 0,
        blocks: 0,
        run: 0,
        start: 0,
        good: true,
        fits: false,
    };
    let mut p = 0;
    while p < total {
        let spot = spot_at(main, p);
        let again = twice(seen, spot);
        s = note(s, spot, p, again, letter, n);
        mark(seen, spot);
        p = p + 1 + more(spot);
    }
    s
}

// What stands in a block, for a letter and a file of so many blocks.
pub fn survey_of(main: &[u8], letter: u8, blocks: usize) -> Survey
    ensures { result ≡ survey_of letter blocks main.now }
{
    let mut seen = [0u8; 256];
    walk_places(main, letter, blocks, &mut seen)
}
