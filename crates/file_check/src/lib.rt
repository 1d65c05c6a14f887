// The check that seals a block, a block that is blank, and numbers of two bytes. Each function takes any input.
#![tactic(auto)]

ghost use Rattle.std.specs.Prelude.{◌≡◌, ◌+◌, ◌-◌, ◌*◌, ◌/◌, ◌%◌, ◌<◌, ◌≤◌, length, get_or, take};
ghost use Rattle.file_check.specs.Check.{check_of, all_are, is_blank, check_number, pair};
ghost use Rattle.file_check.specs.Inner.{Small, From, next_of, over_of};
ghost use Rattle.file_check.specs.Refusal.{found_number};

use refusal::FileRefusal;

pub mod refusal;

// The sums over bytes that stand four apart, four columns from the last byte on: what each column adds up to, and all that it added
// up to, byte after byte, added up.
#[derive(Clone, Copy)]
struct Columns {
    s0: u32,
    s1: u32,
    s2: u32,
    s3: u32,
    t0: u32,
    t1: u32,
    t2: u32,
    t3: u32,
}

// The high and the low half of a number as 15 and 1: 65,536 leaves 15 over 65,521.
fn folded(x: u32) -> u32
    ensures { result ≡ x % 65536 + 15 * (x / 65536) }
{
    let high = x >> 16;
    let low = x % 65536;
    low + (high << 4) - high
}

// A sum below twice 65,521, brought below 65,521 by one subtraction.
fn lowered(x: u32) -> u32
    requires { x < 131042 }
    ensures { result ≡ x % 65521 }
{
    if 65521 <= x {
        return x - 65521;
    }
    x
}

// What a number leaves over 65,521, without a division.
fn left_over(x: u32) -> u16
    ensures { result ≡ x % 65521 }
{
    lowered(folded(folded(x))) as u16
}

// A byte of the block as a number to add.
fn byte_at(block: &[u8], place: usize) -> u32
    requires { place < length block.now }
    ensures { (result ≡ get_or block.now place 0) × (result < 256) }
{
    block[place] as u32
}

// One byte more in each column.
fn next(s: Columns, a: u32, b: u32, c: u32, d: u32) -> Columns
    requires { Small s × (a < 256) × (b < 256) × (c < 256) × (d < 256) }
    ensures { result ≡ next_of s a b c d }
{
    let e = s.s0 + a;
    let f = s.s1 + b;
    let g = s.s2 + c;
    let h = s.s3 + d;
    Columns {
        s0: e,
        s1: f,
        s2: g,
        s3: h,
        t0: s.t0 + e,
        t1: s.t1 + f,
        t2: s.t2 + g,
        t3: s.t3 + h,
    }
}

// Four bytes more in front, one for each column.
fn four(s: Columns, bytes: &[u8], at: usize) -> Columns
    requires { (at + 4 ≤ length bytes.now) × (length bytes.now ≤ 510) × From s (at + 4) bytes.now }
    ensures { From result at bytes.now }
{
    let a = byte_at(bytes, at);
    let b = byte_at(bytes, at + 1);
    let c = byte_at(bytes, at + 2);
    let d = byte_at(bytes, at + 3);
    next(s, a, b, c, d)
}

// The columns of all bytes but the first few, fewer than sixteen: from the last byte to the first, sixteen a round.
fn by_columns(bytes: &[u8]) -> Columns
    requires { length bytes.now ≤ 510 }
    ensures { From result (length bytes.now % 16) bytes.now }
{
    let mut s = Columns {
        s0: 0,
        s1: 0,
        s2: 0,
        s3: 0,
        t0: 0,
        t1: 0,
        t2: 0,
        t3: 0,
    };
    let few = bytes.len() % 16;
    for round in (0..bytes.len() / 16).rev() {
        let place = few + 16 * round;
        s = four(s, bytes, place + 12);
        s = four(s, bytes, place + 8);
        s = four(s, bytes, place + 4);
        s = four(s, bytes, place);
    }
    s
}

// The bytes of all columns added up.
fn plain(s: Columns) -> u32
    requires { Small s }
    ensures { result ≡ s.s0 + s.s1 + s.s2 + s.s3 }
{
    s.s0 + s.s1 + s.s2 + s.s3
}

// The same, each as often as it counts, and the 1 of the check: nothing is multiplied.
fn weighed(s: Columns) -> u32
    requires { Small s × (over_of s ≤ 4 * (s.t0 + s.t1 + s.t2 + s.t3)) }
    ensures { result ≡ 1 + 4 * (s.t0 + s.t1 + s.t2 + s.t3) - over_of s }
{
    let each = s.t0 + s.t1 + s.t2 + s.t3;
    let over = s.s0 + s.s0 + s.s0 + s.s1 + s.s1 + s.s2;
    1 + (each << 2) - over
}

// The check over at most 510 bytes by running sums. From the last byte to the first, `sum` is the bytes met so far added up, and
// `total` is 1 and all these sums: so byte i counts i + 1 times. The columns do it for all but the first few bytes.
fn check_all(bytes: &[u8]) -> u16
    requires { length bytes.now ≤ 510 }
    ensures { result ≡ check_of bytes.now }
{
    let s = by_columns(bytes);
    let mut sum = plain(s);
    let mut total = weighed(s);
    for place in (0..bytes.len() % 16).rev() {
        sum += byte_at(bytes, place);
        total += sum;
    }
    left_over(total)
}

// The check over the first 510 bytes, or over all where there are fewer.
pub fn check(block: &[u8]) -> u16
    ensures { result ≡ check_of (take 510 block.now) }
{
    let n = common::least(block.len(), 510);
    check_all(&block[0..n])
}

// Two bytes as one number, the high byte first.
pub fn joined(high: u8, low: u8) -> usize
    ensures { (result ≡ pair high low) × (result < 65536) }
{
    common::wide(high) * 256 + common::wide(low)
}

// Whether every byte is FFH. The walk has no stop, so that the compiler takes many bytes at once.
pub fn all_ff(s: &[u8]) -> bool
    ensures { result ≡ all_are 255 s.now }
{
    s.iter().fold(255, |bits, b| bits & *b) == 255
}

// Whether a block is blank, as an erase leaves it.
fn is_blank(block: &[u8]) -> bool
    ensures { result ≡ is_blank block.now }
{
    if block.len() != 512 {
        return false;
    }
    all_ff(&block[0..512])
}

// What the check alone says of a block: 38 where it is blank, else 31, or nothing. A blank block's check is wrong: only where it is wrong
// is the block looked over.
pub fn judge_check(block: &[u8]) -> Result<(), FileRefusal>
    ensures { found_number result ≡ check_number block.now }
{
    let stored = joined(common::nth(block, 510), common::nth(block, 511));
    let right = check(block) as usize;
    if right == stored {
        return Ok(());
    }
    if is_blank(block) {
        return Err(FileRefusal::Blank);
    }
    Err(FileRefusal::Damaged)
}
