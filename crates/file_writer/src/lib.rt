// The load file: the writer. It takes any input.
#![tactic(auto)]

ghost use Rattle.std.specs.Prelude.{◌≡◌, ◌++◌, ◌+◌, ◌*◌, ◌<◌, ◌≤◌, length, take, drop};
ghost use Rattle.file_codec.specs.Layout.{head_of, sealed, block_written};
ghost use Rattle.file_codec.specs.File.{limit, count_of, blocks_of, payload_wrong, writer_of};
ghost use Rattle.file_codec.specs.File.{in_room, left_in, answered_as, answered_told, told_by};

use file_check::refusal::FileRefusal;
use file_codec::LIMIT;

// The first five bytes of a block.
fn put_head(out: &mut [u8], letter: u8, i: u8, n: u8, u: usize)
    requires { (5 ≤ length out.old) × (u ≤ 505) }
    ensures { out.new ≡ head_of letter i n u ++ drop 5 out.old }
{
    out[0] = letter;
    out[1] = i;
    out[2] = n;
    out[3] = (u / 256) as u8;
    out[4] = (u % 256) as u8;
}

// The check over the first 510 bytes goes behind them.
fn put_check(out: &mut [u8])
    requires { 512 ≤ length out.old }
    ensures { out.new ≡ sealed (take 510 out.old) ++ drop 512 out.old }
{
    let c = file_check::check(out);
    out[510] = (c / 256) as u8;
    out[511] = (c % 256) as u8;
}

// The front of out becomes block i of n with its part of the payload; what lies behind the block stays.
fn put_block(out: &mut [u8], letter: u8, i: u8, n: u8, chunk: &[u8])
    requires { (512 ≤ length out.old) × (length chunk.now ≤ 505) }
    ensures { out.new ≡ block_written letter i n chunk.now ++ drop 512 out.old }
{
    let u = chunk.len();
    let end = 5 + u;
    put_head(out, letter, i, n, u);
    common::copy(&mut out[5..end], chunk);
    common::fill(&mut out[end..510], 255);
    put_check(out);
}

// The front of out becomes the n blocks of a payload; what lies behind them stays.
fn pack(out: &mut [u8], letter: u8, payload: &[u8], n: usize)
    requires { (512 * n ≤ length out.old) × (length payload.now ≤ 505 * n) × (505 * n < length payload.now + 505) × (n < 256) }
    ensures { out.new ≡ blocks_of n letter 0 n payload.now ++ drop (512 * n) out.old }
{
    let mut from = 0;
    for i in 0..n {
        let to = 512 * i;
        let stop = common::least(from + 505, payload.len());
        put_block(
            &mut out[to..],
            letter,
            i as u8,
            n as u8,
            &payload[from..stop],
        );
        from = stop;
    }
}

// 36: the payload is empty or takes too many blocks.
fn payload_wrong(size: usize) -> bool
    ensures { result ≡ payload_wrong limit size }
{
    let none = size == 0;
    let over = 505 * LIMIT < size;
    none | over
}

// Blocks counted, and the bytes that are left to count.
#[derive(Clone, Copy)]
struct Count {
    blocks: usize,
    left: usize,
}

// So many blocks more, where so many bytes are left.
fn counted(c: Count, blocks: usize, unit: usize) -> Count
    requires { (unit ≡ 505 * blocks) × (c.left < unit + unit) × (505 * c.blocks + c.left ≤ 505 * limit + 504) }
    ensures { (505 * result.blocks + result.left ≡ 505 * c.blocks + c.left) × (result.left < unit) }
{
    if unit <= c.left {
        return Count {
            blocks: c.blocks + blocks,
            left: c.left - unit,
        };
    }
    c
}

// The blocks that a payload of so many bytes takes, without a division: one for each 512 bytes, and what 512 is more than 505 is left.
fn blocks_for(size: usize) -> usize
    requires { size ≤ 505 * limit }
    ensures { result ≡ count_of size }
{
    let all = size + 504;
    let sure = all >> 9;
    let left = all % 512 + (sure << 3) - sure;
    let first = Count {
        blocks: sure,
        left: left,
    };
    let fours = counted(first, 4, 2020);
    let twos = counted(fours, 2, 1010);
    let ones = counted(twos, 1, 505);
    ones.blocks
}

// The writer: 32, 36, 37, then the file into the front of out. It tells the bytes written.
pub fn write(letter: u8, payload: &[u8], out: &mut [u8]) -> Result<usize, FileRefusal>
    ensures result { result ≡ answered_as (in_room (length out.old) (writer_of limit letter payload.now)) }
    ensures told { answered_told result ≡ told_by (in_room (length out.old) (writer_of limit letter payload.now)) }
    ensures out_left { out.new
        ≡ left_in out.old (in_room (length out.old) (writer_of limit letter payload.now)) }
{
    if !file_block::is_letter(letter) {
        return Err(FileRefusal::Letter);
    }
    let size = payload.len();
    if payload_wrong(size) {
        return Err(FileRefusal::Payload);
    }
    let n = blocks_for(size);
    let whole = 512 * n;
    if out.len() < whole {
        return Err(FileRefusal::Room);
    }
    pack(out, letter, payload, n);
    Ok(whole)
}
