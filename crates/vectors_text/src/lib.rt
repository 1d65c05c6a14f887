// What the vector programs share about text and bytes: numbers read off a row, patterns and digests. Each
// function takes any input.
#![tactic(auto)]

ghost use Rattle.std.specs.Prelude.{◌≡◌, ℕ, ◌+◌, ◌*◌, ◌<◌, ◌≤◌, ◌%◌, eqb, fold, length, max, min, position, replicate, set, take};
ghost use Rattle.vectors_text.specs.Text.{digit_read, number_read, field_of, next_row, group_at, letters_of};
ghost use Rattle.vectors_text.specs.Patterns.{digest_of, pattern_of, sown, stretched};

// The four letters of a group of rows.
#[derive(Clone, Copy)]
pub struct Group {
    pub a: u8,
    pub b: u8,
    pub c: u8,
    pub d: u8,
}

// The group before a row names one: four spaces.
pub const UNNAMED: Group = Group {
    a: b' ',
    b: b' ',
    c: b' ',
    d: b' ',
};

// The letters of a group in their order; a row may have any bytes in their places.
pub fn letters(g: Group) -> [u8; 4]
    ensures { result ≡ letters_of g }
{
    [g.a, g.b, g.c, g.d]
}

// The group that a row names.
pub fn group_at(row: &[u8]) -> Group
    ensures { result ≡ group_at row.now }
{
    let a = common::nth(row, 2);
    let b = common::nth(row, 3);
    let c = common::nth(row, 4);
    let d = common::nth(row, 5);
    Group {
        a: a,
        b: b,
        c: c,
        d: d,
    }
}

// What a digit is worth, 0 for any other letter.
fn worth(x: u8) -> u32
    ensures { (result ≡ digit_read x) × (result < 16) }
{
    if text::is_hex(x) {
        return u32::from(text::hex_digit(x));
    }
    0
}

// The number that a whole slice spells: sums and products wrap, which is the same as one remainder for each digit.
fn number(s: &[u8], base: u8) -> u32
    ensures { result ≡ fold (λ v x. ((base * v) % 4294967296 + digit_read x) % 4294967296) 0 s.now }
{
    s.iter().fold(0u32, |v, x| {
        u32::from(base).wrapping_mul(v).wrapping_add(worth(*x))
    })
}

// The number that so many letters from a place on spell, modulo 2 to the 32.
pub fn word_at(s: &[u8], base: u8, at: usize, n: usize) -> u32
    ensures { result ≡ number_read base (field_of s.now at n) }
{
    let from = common::least(at, s.len());
    let count = common::least(n, s.len() - from);
    let to = from + count;
    number(&s[from..to], base)
}

// The same as a byte, as 16 bits, as a length.
pub fn byte_at(s: &[u8], base: u8, at: usize, n: usize) -> u8
    ensures { result ≡ number_read base (field_of s.now at n) % 256 }
{
    (word_at(s, base, at, n) % 256) as u8
}

// The same as 16 bits.
pub fn half_at(s: &[u8], base: u8, at: usize, n: usize) -> u16
    ensures { result ≡ number_read base (field_of s.now at n) % 65536 }
{
    (word_at(s, base, at, n) % 65536) as u16
}

// The same as a length.
pub fn size_at(s: &[u8], base: u8, at: usize, n: usize) -> usize
    ensures { result ≡ number_read base (field_of s.now at n) }
{
    word_at(s, base, at, n) as usize
}

// The place of the first newline.
fn newline(s: &[u8]) -> Option<usize>
    ensures { result ≡ position (λ b. eqb b 10) s.now }
{
    s.iter().position(|b| *b == b'\n')
}

// Where the next row begins: behind the newline, or at the end of the text.
pub fn next_row(text: &[u8], at: usize) -> usize
    ensures { (result ≡ next_row text.now at) × (min (at + 1) (length text.now) ≤ result)
        × (result ≤ max at (length text.now)) }
{
    let from = at.min(text.len());
    match newline(&text[from..]) {
        Some(k) => at + k + 1,
        None => at.max(text.len()),
    }
}

// A number that any one changed byte changes.
pub fn digest(s: &[u8]) -> u64
    ensures { result ≡ digest_of s.now }
{
    let mut h = 0;
    for b in s {
        h = (31 * h + u64::from(*b)) % 65521;
    }
    h
}

// Fills with a pattern: numbers from 0 to top, each a step from the one before; a step of 0 makes all bytes alike.
pub fn pattern(s: &mut [u8], top: u16, first: usize, step: usize)
    ensures { s.new ≡ pattern_of top first step (length s.old) }
{
    let m = top as usize + 1;
    let d = step % m;
    let mut v = first % m;
    for b in s.iter_mut() {
        *b = (v % 256) as u8;
        v = (v + d) % m;
    }
}

// Fills as much of the front as is asked for with the pattern of a row: from a place on the first number and, behind a space, the step.
pub fn sow(s: &mut [u8], asked: usize, row: &[u8], at: u8)
    ensures { s.new ≡ sown s.old asked row.now at }
{
    let from = usize::from(at);
    let first = size_at(row, 10, from, 3);
    let step = size_at(row, 10, from + 4, 3);
    let n = asked.min(s.len());
    pattern(&mut s[..n], 256, first, step);
}

// Puts the byte of a row: its place in eight hex digits, and its value.
pub fn put_byte(s: &mut [u8], row: &[u8])
    ensures { s.new ≡ set s.old (number_read 16 (field_of row.now 2 8)) (number_read 16 (field_of row.now 11 2) % 256) }
{
    text::put(s, size_at(row, 16, 2, 8), byte_at(row, 16, 11, 2));
}

// So many bytes from a place of a row on are the same: the place in eight hex digits, how many in six digits, and the byte.
pub fn put_stretch(s: &mut [u8], row: &[u8])
    ensures { s.new ≡ stretched s.old (number_read 16 (field_of row.now 2 8)) (number_read 10 (field_of row.now 11 6))
        (number_read 16 (field_of row.now 18 2) % 256) }
{
    let at = size_at(row, 16, 2, 8).min(s.len());
    let n = size_at(row, 10, 11, 6).min(s.len() - at);
    s[at..at + n].fill(byte_at(row, 16, 18, 2));
}

// The digest of as much of the front as is asked for.
pub fn digest_front(s: &[u8], asked: usize) -> u64
    ensures { result ≡ digest_of (take asked s.now) }
{
    digest(&s[..asked.min(s.len())])
}

// As many zeros as the largest block has bytes, and one more.
pub fn blank() -> [u8; 131073]
    ensures { (result ≡ replicate {A = ℕ} 131073 0) × (131073 ≡ length result) }
{
    [0; 131073]
}
