// What the cycles of a load and of a verify do to a block and to scratch, stage by stage, on lent bytes of either width. `held` is the
// block inside the array. Each stage is one walk, and gives the cycles of its operations: an operation's polls are counted, not made.
#![tactic(auto)]

ghost use Rattle.std.specs.Prelude.{◌≡◌, true, false, ◌+◌, ◌<◌, ◌≤◌, length, eqb, if◌then◌else◌};
ghost use Rattle.std.specs.Int.Bits.{bit_and, bit_xor};
ghost use Rattle.common.specs.Lists.{overwritten};
ghost use Rattle.units.specs.Units.{units, spare, pairs, torn};
ghost use Rattle.loader_walk.specs.Walks.{rises_in, diff_from};
ghost use Rattle.loader_blocks.specs.Blocks.{alike, costs, Falling, Workable, work_done, read_to, block_done, block_left, room_left};
ghost use Rattle.loader_blocks.specs.Blocks.{block_found, block_read, block_met, block_seen, block_rises};

use units::WordAddress;

// The operations of a load: the cycles that they take, and whether an erase is among them.
#[derive(Clone, Copy)]
pub struct Done {
    pub cycles: u64,
    pub erased: bool,
}

// A block looked at: some unit differs from what is wanted; some bit must rise.
#[derive(Clone, Copy)]
pub struct Found {
    pub differs: bool,
    pub rises: bool,
}

// So many bytes are no whole number of units.
fn is_uneven(word: bool, n: usize) -> bool
    ensures { result ≡ torn word n }
{
    word & (n % 2 == 1)
}

fn are_alike(word: bool, held: usize, wanted: usize, scratch: usize) -> bool
    ensures { result ≡ alike word held wanted scratch }
{
    (held == wanted) & (scratch == wanted) & (wanted <= 16777216) & !is_uneven(word, wanted)
}

// The bits that must rise in a byte.
fn risen(held: u8, wanted: u8) -> u8
    ensures { result ≡ bit_xor (bit_and held wanted) wanted }
{
    (held & wanted) ^ wanted
}

// Some bit of the block must rise: the same in bytes and in words. This walk has no stop, so that the compiler takes many bytes at once.
fn rises(wanted: &[u8], scratch: &[u8]) -> bool
    requires { length scratch.now ≡ length wanted.now }
    ensures { result ≡ rises_in wanted.now scratch.now }
{
    let bits = wanted
        .iter()
        .zip(scratch)
        .fold(0, |bits, (w, s)| bits | risen(*s, *w));
    bits != 0
}

// One where two units differ.
fn unlike(a: u16, b: u16) -> u32
    ensures { (result ≡ (if eqb a b then 0 else 1)) × (result ≤ 1) }
{
    if a == b {
        return 0;
    }
    1
}

// How many bytes of a piece differ. No walk from here on has a stop, so that the compiler takes many bytes at once; here sixteen, each
// with its own count of eight bits.
fn unlike_piece(wanted: &[u8], scratch: &[u8]) -> u8
    requires { (length scratch.now ≡ length wanted.now) × (length wanted.now ≤ 192) }
    ensures { result ≡ costs (length wanted.now) 1 0 wanted.now scratch.now }
{
    wanted
        .iter()
        .zip(scratch)
        .map(|(w, s)| u8::from(s != w))
        .sum()
}

// Where the piece that begins at i ends: after 192 bytes, or with the last.
fn piece_end(i: usize, n: usize) -> usize
    requires { (i < n) × (n ≤ 16777216) }
    ensures { (i < result) × (result ≤ n) × (result ≤ i + 192) }
{
    if n - i < 192 {
        return n;
    }
    i + 192
}

// How many bytes differ, piece by piece.
// Kept: with chunks(192) of both a load of 512 bytes takes 1,039 instructions, not 959, and one of 4,096 takes 6,952, not 6,457.
fn unlike_bytes(wanted: &[u8], scratch: &[u8]) -> u32
    requires { (length scratch.now ≡ length wanted.now) × (length wanted.now ≤ 16777216) }
    ensures { result ≡ costs (length wanted.now) 1 0 wanted.now scratch.now }
{
    let n = wanted.len();
    let mut count: u32 = 0;
    let mut i = 0;
    while i < n {
        let e = piece_end(i, n);
        let c = unlike_piece(&wanted[i..e], &scratch[i..e]);
        count += c as u32;
        i = e;
    }
    count
}

// How many words differ. Scratch is lent as a part as long as what is wanted, so that the compiler knows the two to be as long.
fn unlike_words(wanted: &[u8], scratch: &[u8]) -> u32
    requires { (length scratch.now ≡ length wanted.now) × (length wanted.now ≤ 16777216) }
    ensures { result ≡ costs (length (pairs wanted.now)) 1 0 (pairs wanted.now) (pairs scratch.now) }
{
    let m = wanted.len();
    let s = &scratch[..m];
    (0..units::units_in(true, m))
        .map(|i| {
            unlike(
                units::get_word(s, WordAddress { word: i }),
                units::get_word(wanted, WordAddress { word: i }),
            )
        })
        .sum()
}

// How many units differ.
// Kept: one walk over units of either width takes 5,691 instructions for 512 bytes, not 304, and 2,876 for 256 words, not 655.
fn unlike_units(word: bool, wanted: &[u8], scratch: &[u8]) -> u32
    requires { (length scratch.now ≡ length wanted.now) × (length wanted.now ≤ 16777216) }
    ensures { result
        ≡ costs (length (units word wanted.now)) 1 0 (units word wanted.now) (units word scratch.now) }
{
    if word {
        return unlike_words(wanted, scratch);
    }
    unlike_bytes(wanted, scratch)
}

// What programs leave: each byte keeps only the ones that the wanted byte has too. Where no bit must rise, these are the wanted bytes.
fn keep_bits(held: &mut [u8], wanted: &[u8])
    requires { Falling held.old wanted.now }
    ensures { held.new ≡ wanted.now }
{
    for (i, h) in held.iter_mut().enumerate() {
        *h &= wanted[i];
    }
}

// The programs: each unit that differs, for `each` cycles; scratch takes what is wanted.
fn program_all(word: bool, each: u64, held: &mut [u8], wanted: &[u8], scratch: &mut [u8]) -> u64
    requires { Falling held.old wanted.now × (length scratch.old ≡ length wanted.now) × (length wanted.now ≤ 16777216)
        × (each ≤ 4294967295) }
    ensures result { result
        ≡ costs (length (units word wanted.now)) each 0 (units word wanted.now)
        (units word scratch.old) }
    ensures held_left { held.new ≡ wanted.now }
    ensures scratch_left { scratch.new ≡ wanted.now }
{
    let n = unlike_units(word, wanted, scratch);
    keep_bits(held, wanted);
    common::copy(scratch, wanted);
    n as u64 * each
}

// The operations of a load, once the block is read into scratch: the erase if some bit must rise, then the programs. `once` is what the
// erase costs, `each` what a program costs.
fn work(
    word: bool,
    once: u64,
    each: u64,
    held: &mut [u8],
    wanted: &[u8],
    scratch: &mut [u8],
) -> Done
    requires { Workable word held.old wanted.now scratch.old × (once ≤ 4294967295) × (each ≤ 4294967295) }
    ensures result { result ≡ work_done word once each (units word wanted.now) (units word scratch.old) }
    ensures held_left { units word held.new ≡ units word wanted.now }
    ensures scratch_left { units word scratch.new ≡ units word wanted.now }
{
    if rises(wanted, scratch) {
        units::fill_units(word, held);
        units::fill_units(word, scratch);
        let c = program_all(word, each, held, wanted, scratch);
        return Done {
            cycles: once + c,
            erased: true,
        };
    }
    let c = program_all(word, each, held, wanted, scratch);
    Done {
        cycles: c,
        erased: false,
    }
}

// A load in a block: the first reads, then its operations. Nothing where the three are not alike.
pub fn load_block(
    word: bool,
    once: u32,
    each: u32,
    held: &mut [u8],
    wanted: &[u8],
    scratch: &mut [u8],
) -> Done
    ensures result { result ≡ block_done word once each held.old wanted.now scratch.old }
    ensures held_left { units word held.new
        ≡ block_left word held.old wanted.now scratch.old }
    ensures held_spare { spare word held.new ≡ spare word held.old }
    ensures scratch_left { units word scratch.new
        ≡ room_left word held.old wanted.now scratch.old }
    ensures scratch_spare { spare word scratch.new ≡ spare word scratch.old }
{
    if are_alike(word, held.len(), wanted.len(), scratch.len()) {
        common::copy(scratch, held);
        return work(word, once as u64, each as u64, held, wanted, scratch);
    }
    Done {
        cycles: 0,
        erased: false,
    }
}

// The first unit that differs, or their number. The width is told apart here, and what is held is lent as a part as long as what is
// wanted, so that the compiler knows both in each walk.
fn first_unlike(word: bool, held: &[u8], wanted: &[u8]) -> usize
    requires { length held.now ≡ length wanted.now }
    ensures { result ≡ diff_from 0 (units word wanted.now) (units word held.now) }
{
    let h = &held[..wanted.len()];
    if word {
        return loader_walk::diff_from(true, 0, wanted, h);
    }
    loader_walk::diff_from(false, 0, wanted, h)
}

// The reads of a verify up to the first unit that differs. It stays apart, so that a verify of what is held as wanted is short.
#[inline(never)]
fn verify_to_first(word: bool, held: &[u8], wanted: &[u8], scratch: &mut [u8]) -> usize
    requires { (length held.now ≡ length wanted.now) × (length scratch.old ≡ length wanted.now)
        × (length wanted.now ≤ 16777216) }
    ensures result { result ≡ diff_from 0 (units word wanted.now) (units word held.now) }
    ensures scratch_left { units word scratch.new
        ≡ overwritten (read_to (units word wanted.now) (units word held.now)) (units word held.now)
        (units word scratch.old) }
{
    let n = units::units_in(word, wanted.len());
    let i = first_unlike(word, held, wanted);
    units::leave_units(word, scratch, 0, common::least(i + 1, n), held);
    i
}

// The reads of a verify, of either width: where nothing differs, all at once.
#[inline(always)]
fn verify_all(word: bool, held: &[u8], wanted: &[u8], scratch: &mut [u8]) -> usize
    requires { (length held.now ≡ length wanted.now) × (length scratch.old ≡ length wanted.now)
        × (length wanted.now ≤ 16777216) }
    ensures result { result ≡ diff_from 0 (units word wanted.now) (units word held.now) }
    ensures scratch_left { units word scratch.new
        ≡ overwritten (read_to (units word wanted.now) (units word held.now)) (units word held.now)
        (units word scratch.old) }
{
    if held == wanted {
        common::copy(scratch, held);
        return units::units_in(word, wanted.len());
    }
    verify_to_first(word, held, wanted, scratch)
}

// A verify of a block: the place of the first unit that differs, or the number of units. Nothing where the three are not alike.
pub fn verify_block(word: bool, held: &[u8], wanted: &[u8], scratch: &mut [u8]) -> usize
    ensures result { result ≡ block_met word held.now wanted.now scratch.old }
    ensures scratch_left { units word scratch.new
        ≡ block_seen word held.now wanted.now scratch.old }
    ensures scratch_spare { spare word scratch.new ≡ spare word scratch.old }
{
    if are_alike(word, held.len(), wanted.len(), scratch.len()) {
        return verify_all(word, held, wanted, scratch);
    }
    0
}

// A block read into scratch and looked at, for a load that can begin no operation. Nothing where the three are not alike.
pub fn look_at_block(word: bool, held: &[u8], wanted: &[u8], scratch: &mut [u8]) -> Found
    ensures result { result ≡ block_found word held.now wanted.now scratch.old }
    ensures scratch_left { scratch.new ≡ block_read word held.now wanted.now scratch.old }
{
    if are_alike(word, held.len(), wanted.len(), scratch.len()) {
        let m = verify_all(word, held, wanted, scratch);
        common::copy(scratch, held);
        let n = units::units_in(word, wanted.len());
        return Found {
            differs: m < n,
            rises: rises(wanted, scratch),
        };
    }
    Found {
        differs: false,
        rises: false,
    }
}

// Whether a bit of a block must rise, asked without scratch. No where the two are not alike.
pub fn must_rise(word: bool, held: &[u8], wanted: &[u8]) -> bool
    ensures { result ≡ block_rises word held.now wanted.now }
{
    if are_alike(word, held.len(), wanted.len(), wanted.len()) {
        return rises(wanted, held);
    }
    false
}
