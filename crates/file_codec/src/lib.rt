// The load file: its definitions, the reader and its judgement alone. Each public function takes any input.
#![tactic(auto)]

ghost use Rattle.std.specs.Prelude.{◌≡◌, [], ◌+◌, ◌-◌, ◌*◌, ◌<◌, ◌≤◌, length, get_or, take, drop};
ghost use Rattle.common.specs.Numbers.{given};
ghost use Rattle.file_block.specs.Block.{used_of};
ghost use Rattle.file_codec.specs.File.{limit, length_wrong, blocks_rows, places_of};
ghost use Rattle.file_codec.specs.File.{reader_of, in_room, left_in, answered_as, answered_told, told_by};
ghost use Rattle.file_check.specs.Refusal.{found_number};

use file_check::refusal::FileRefusal;

// The most blocks that a file has; with them the bytes of the longest file, and of the longest payload.
pub const LIMIT: usize = 224;

// The bytes of the longest file.
pub const FILE: usize = 512 * LIMIT;

// The bytes of the longest payload.
pub const PAYLOAD: usize = 505 * LIMIT;

// The first refusal of n blocks, block by block: 38 or else 31, then 32, 33, 34; or nothing.
// Kept: a range and no `chunks(512).enumerate()`: its goal `loop-i-preserved` was not proved in the time there was.
fn judge_blocks(file: &[u8], n: usize) -> Result<(), FileRefusal>
    requires { length file.now ≡ 512 * n }
    ensures { found_number result ≡ given (blocks_rows n (get_or file.now 0 0) 0 n file.now []) }
{
    let first = common::nth(file, 0);
    for i in 0..n {
        let from = 512 * i;
        let to = from + 512;
        file_block::judge_block(&file[from..to], first, i, n)?;
    }
    Ok(())
}

// 30: the file is empty, too long, or no whole number of blocks.
fn length_wrong(size: usize) -> bool
    ensures { result ≡ length_wrong limit size }
{
    let none = size == 0;
    let over = 512 * LIMIT < size;
    let whole = size % 512 == 0;
    none | over | !whole
}

// Seven times a count, by a shift.
fn seven(n: usize) -> usize
    requires { n < 1152921504606846976 }
    ensures { result ≡ 7 * n }
{
    (n << 3) - n
}

// The payload bytes of n sound blocks: 505 of each but the last, which says its own.
fn payload_size(file: &[u8], n: usize) -> usize
    requires { (0 < n) × (length file.now ≡ 512 * n) }
    ensures { result ≡ 505 * (n - 1) + used_of (take 512 (drop (512 * (n - 1)) file.now)) }
{
    let whole = n - 1;
    let to = file.len();
    let from = to - 512;
    from - seven(whole) + file_block::used(&file[from..to])
}

// The judgement of a file for the letter asked: 30, then block by block 38 or else 31, then 32, 33, 34; then 35, in one walk. A sound file
// tells the bytes of its payload.
pub fn judge(file: &[u8], asked: u8) -> Result<usize, FileRefusal>
    ensures result { result ≡ answered_as (reader_of limit file.now asked) }
    ensures told { answered_told result ≡ told_by (reader_of limit file.now asked) }
{
    let size = file.len();
    if length_wrong(size) {
        return Err(FileRefusal::Length);
    }
    let n = size / 512;
    judge_blocks(file, n)?;
    let first = common::nth(file, 0);
    if first != asked {
        return Err(FileRefusal::OtherLetter);
    }
    Ok(payload_size(file, n))
}

// Out becomes the payload places of n blocks, one behind the other, as far as out goes.
fn unpack(out: &mut [u8], file: &[u8], n: usize)
    requires { (length file.now ≡ 512 * n) × (length out.old ≤ 505 * n) × (505 * n < length out.old + 505) }
    ensures { out.new ≡ take (length out.old) (places_of n file.now) }
{
    let size = out.len();
    let mut to = 0;
    for i in 0..n {
        let end = common::least(to + 505, size);
        let from = 512 * i + 5;
        let stop = from + 505;
        common::copy(&mut out[to..end], &file[from..stop]);
        to = end;
    }
}

// The reader: the judgement, then 37, then the payload into the front of out. It tells the bytes given back.
pub fn read(file: &[u8], asked: u8, out: &mut [u8]) -> Result<usize, FileRefusal>
    ensures result { result ≡ answered_as (in_room (length out.old) (reader_of limit file.now asked)) }
    ensures told { answered_told result ≡ told_by (in_room (length out.old) (reader_of limit file.now asked)) }
    ensures out_left { out.new
        ≡ left_in out.old (in_room (length out.old) (reader_of limit file.now asked)) }
{
    let size = judge(file, asked)?;
    if out.len() < size {
        return Err(FileRefusal::Room);
    }
    let n = file.len() / 512;
    unpack(&mut out[0..size], file, n);
    Ok(size)
}
