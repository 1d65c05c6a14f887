// What is wrong with one block of a load file. Each public function takes any input.
#![tactic(auto)]

ghost use Rattle.std.specs.Prelude.{◌≡◌, ◌<◌, length};
ghost use Rattle.file_block.specs.Block.{within, is_letter, used_of, letter_wrong, place_wrong, used_wrong, padding_wrong, unsound_number};
ghost use Rattle.file_check.specs.Refusal.{found_number};

use file_check::refusal::FileRefusal;

// Whether x is one of the eight letters.
pub fn is_letter(x: u8) -> bool
    ensures { result ≡ is_letter x }
{
    b"BEJKNRST".contains(&x)
}

// The payload bytes that a block says it uses.
pub fn used(block: &[u8]) -> usize
    ensures { (result ≡ used_of block.now) × (result < 65536) }
{
    file_check::joined(common::nth(block, 3), common::nth(block, 4))
}

// 32: the letter is none of the eight, or not the first block's.
fn letter_wrong(block: &[u8], first: u8) -> bool
    ensures { result ≡ letter_wrong first block.now }
{
    let x = common::nth(block, 0);
    let known = is_letter(x);
    let same = x == first;
    !known | !same
}

// 33: the number is not the block's place, or the count is not the file's.
fn place_wrong(block: &[u8], i: usize, n: usize) -> bool
    ensures { result ≡ place_wrong i n block.now }
{
    let place = common::wide(common::nth(block, 1)) == i;
    let count = common::wide(common::nth(block, 2)) == n;
    !place | !count
}

// 34, the used count: the last block uses 1 to 505, every other 505.
fn used_wrong(block: &[u8], i: usize, n: usize) -> bool
    requires { i < 256 }
    ensures { result ≡ used_wrong i n block.now }
{
    let u = used(block);
    if i + 1 == n {
        let none = u == 0;
        let over = 505 < u;
        return none | over;
    }
    let full = u == 505;
    !full
}

// 34, the padding: some byte from the used ones up to byte 509 is not FFH.
fn padding_wrong(block: &[u8]) -> bool
    requires { length block.now ≡ 512 }
    ensures { result ≡ padding_wrong block.now }
{
    let u = used(block);
    if 505 < u {
        return false;
    }
    let from = 5 + u;
    let clean = file_check::all_ff(&block[from..510]);
    !clean
}

// The first refusal of a slice as block i of n: 30 where it is not 512 bytes long, then 38 or else 31, then 32, 33, 34; or nothing.
pub fn judge_block(block: &[u8], first: u8, i: usize, n: usize) -> Result<(), FileRefusal>
    ensures { found_number result ≡ unsound_number first i n block.now }
{
    if block.len() != 512 {
        return Err(FileRefusal::Length);
    }
    file_check::judge_check(block)?;
    if letter_wrong(block, first) {
        return Err(FileRefusal::Letter);
    }
    if place_wrong(block, i, n) {
        return Err(FileRefusal::Place);
    }
    if used_wrong(block, i, n) {
        return Err(FileRefusal::Padding);
    }
    if padding_wrong(block) {
        return Err(FileRefusal::Padding);
    }
    Ok(())
}
