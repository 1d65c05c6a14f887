// Units of lent bytes: what one bus cycle carries, a byte, or in word mode a word, low byte first. The leaves here are the only code
// that knows where a unit's bytes lie.
#![tactic(auto)]

ghost use Rattle.std.specs.Prelude.{◌≡◌, ◌+◌, ◌*◌, ◌/◌, ◌%◌, ◌≤◌, ◌<◌, length, get_or, take, replicate, set, leb, if◌then◌else◌};
ghost use Rattle.std.specs.Int.Bits.{bit_and};
ghost use Rattle.common.specs.Lists.{overlaid};
ghost use Rattle.units.specs.Units.{pairs, unpaired, units, spare, units_in, bytes_in, torn, lent_in, carried, top, erased_in, left_in};
ghost use Rattle.units.specs.Address.{first_byte, byte_of, byte_at};

// Two kinds of address: neither stands for the other.
#[derive(Clone, Copy)]
pub struct WordAddress {
    pub word: usize,
}

// The address of a byte.
#[derive(Clone, Copy)]
pub struct ByteAddress {
    pub byte: usize,
}

// The byte at A-1 zero of a word: the one conversion.
fn first_byte(w: WordAddress) -> ByteAddress
    requires { 2 * w.word < 18446744073709551616 }
    ensures { result.byte ≡ (first_byte w).byte }
{
    ByteAddress { byte: 2 * w.word }
}

// The byte address at which a unit begins: in byte mode the unit's own.
fn byte_of(word: bool, at: usize) -> usize
    requires { bytes_in word at < 18446744073709551616 }
    ensures { result ≡ byte_of word at }
{
    if word {
        let a = first_byte(WordAddress { word: at });
        return a.byte;
    }
    at
}

// One more for the high byte of a word.
fn next_byte(byte: usize, high: bool) -> usize
    requires { byte < 18446744073709551615 }
    ensures { result ≡ byte + (if high then 1 else 0) }
{
    if high {
        return byte + 1;
    }
    byte
}

// The byte address of a unit of a part: in word mode that of the low byte, or of the high one.
pub fn byte_at(word: bool, at: u32, high: bool) -> usize
    ensures { result ≡ byte_at word at high }
{
    if word {
        let a = first_byte(WordAddress { word: at as usize });
        return next_byte(a.byte, high);
    }
    at as usize
}

// A byte as 16 bits.
pub fn wide(x: u8) -> u16
    ensures { (result ≡ x) × (x < 256) }
{
    x as u16
}

// The low eight bits.
pub fn low(v: u16) -> u8
    ensures { result ≡ v % 256 }
{
    (v % 256) as u8
}

// The high eight bits.
pub fn high(v: u16) -> u8
    ensures { result ≡ v / 256 }
{
    (v / 256) as u8
}

// What a unit has of 16 bits on the bus.
pub fn carry(word: bool, v: u16) -> u16
    ensures { result ≡ carried word v }
{
    if word {
        return v;
    }
    v % 256
}

// The units of so many bytes.
pub fn units_in(word: bool, n: usize) -> usize
    ensures { result ≡ units_in word n }
{
    if word {
        return n / 2;
    }
    n
}

fn is_torn(word: bool, n: usize) -> bool
    ensures { result ≡ torn word n }
{
    word & (n % 2 == 1)
}

// The units of so many bytes, none where they are no whole number.
pub fn lent_in(word: bool, n: usize) -> usize
    ensures { result ≡ lent_in word n }
{
    if is_torn(word, n) {
        return 0;
    }
    units_in(word, n)
}

// The bytes of so many units.
fn bytes_in(word: bool, n: usize) -> usize
    requires { bytes_in word n < 18446744073709551616 }
    ensures { result ≡ bytes_in word n }
{
    if word {
        return 2 * n;
    }
    n
}

// A word, low byte first; 0 past the end.
pub fn get_word(s: &[u8], w: WordAddress) -> u16
    ensures { result ≡ get_or (pairs s.now) w.word 0 }
{
    if w.word < s.len() / 2 {
        let a = first_byte(w);
        let i = a.byte;
        let lo = wide(s[i]);
        let hi = wide(s[i + 1]);
        return hi * 256 + lo;
    }
    0
}

// A unit; 0 past the end.
pub fn get_unit(word: bool, s: &[u8], at: usize) -> u16
    ensures { (result ≡ get_or (units word s.now) at 0) × (result ≤ top word) }
{
    if word {
        return get_word(s, WordAddress { word: at });
    }
    wide(common::nth(s, at))
}

fn put_byte(s: &mut [u8], at: usize, b: u8)
    ensures { s.new ≡ set s.old at b }
{
    if at < s.len() {
        s[at] = b;
        return;
    }
}

// A word written, low byte first; nothing past the end.
pub fn put_word(s: &mut [u8], w: WordAddress, v: u16)
    ensures s_left { pairs s.new ≡ set (pairs s.old) w.word v }
    ensures s_spare { unpaired s.new ≡ unpaired s.old }
{
    let lo = low(v);
    let hi = high(v);
    if w.word < s.len() / 2 {
        let a = first_byte(w);
        let i = a.byte;
        s[i] = lo;
        s[i + 1] = hi;
        return;
    }
}

// A unit written; nothing past the end.
pub fn put_unit(word: bool, s: &mut [u8], at: usize, v: u16)
    ensures s_left { units word s.new ≡ set (units word s.old) at (carried word v) }
    ensures s_spare { spare word s.new ≡ spare word s.old }
{
    if word {
        return put_word(s, WordAddress { word: at }, v);
    }
    put_byte(s, at, low(v));
}

fn program_byte(s: &mut [u8], at: usize, b: u8)
    requires { at < length s.old }
    ensures { s.new ≡ set s.old at (bit_and (get_or s.old at 0) b) }
{
    s[at] = s[at] & b;
}

// Old AND data on both bytes of a word.
fn program_word(s: &mut [u8], w: WordAddress, v: u16)
    requires { w.word < length (pairs s.old) }
    ensures s_left { pairs s.new
        ≡ set (pairs s.old) w.word (bit_and (get_or (pairs s.old) w.word 0) v) }
    ensures s_spare { unpaired s.new ≡ unpaired s.old }
{
    let a = first_byte(w);
    let i = a.byte;
    program_byte(s, i, low(v));
    program_byte(s, i + 1, high(v));
}

fn program_there(word: bool, s: &mut [u8], at: usize, v: u16)
    requires { at < length (units word s.old) }
    ensures s_left { units word s.new
        ≡ set (units word s.old) at (bit_and (get_or (units word s.old) at 0) v) }
    ensures s_spare { spare word s.new ≡ spare word s.old }
{
    if word {
        return program_word(s, WordAddress { word: at }, v);
    }
    program_byte(s, at, low(v));
}

// Old AND data on a unit; nothing past the end.
pub fn program_unit(word: bool, s: &mut [u8], at: usize, v: u16)
    ensures s_left { units word s.new
        ≡ set (units word s.old) at (bit_and (get_or (units word s.old) at 0) v) }
    ensures s_spare { spare word s.new ≡ spare word s.old }
{
    if at < units_in(word, s.len()) {
        return program_there(word, s, at, v);
    }
}

// n units from unit a on lie among k.
fn lies_in(a: usize, n: usize, k: usize) -> bool
    ensures { result ≡ leb (a + n) k }
{
    if k < a {
        return false;
    }
    n <= k - a
}

fn erase_part(s: &mut [u8], a: usize, n: usize)
    requires { a + n ≤ length s.old }
    ensures { s.new ≡ overlaid s.old a (replicate n 255) }
{
    let e = a + n;
    common::fill(&mut s[a..e], 0xFF)
}

fn erase_there(word: bool, s: &mut [u8], a: usize, n: usize)
    requires { a + n ≤ length (units word s.old) }
    ensures s_left { units word s.new ≡ overlaid (units word s.old) a (replicate n (top word)) }
    ensures s_spare { spare word s.new ≡ spare word s.old }
{
    erase_part(s, byte_of(word, a), bytes_in(word, n));
}

// All ones in n units from unit a on, where they are there.
pub fn erase_units(word: bool, s: &mut [u8], a: usize, n: usize)
    ensures s_left { units word s.new ≡ erased_in word a n (units word s.old) }
    ensures s_spare { spare word s.new ≡ spare word s.old }
{
    if lies_in(a, n, units_in(word, s.len())) {
        return erase_there(word, s, a, n);
    }
}

// All ones in every unit.
pub fn fill_units(word: bool, s: &mut [u8])
    ensures s_left { units word s.new ≡ replicate (length (units word s.old)) (top word) }
    ensures s_filled { s.new ≡ replicate (length s.old) 255 }
{
    common::fill(s, 0xFF)
}

fn leave_part(s: &mut [u8], a: usize, n: usize, residue: &[u8])
    requires { (a + n ≤ length s.old) × (n ≤ length residue.now) }
    ensures { s.new ≡ overlaid s.old a (take n residue.now) }
{
    let e = a + n;
    common::copy(&mut s[a..e], &residue[0..n])
}

fn leave_there(word: bool, s: &mut [u8], a: usize, n: usize, residue: &[u8])
    requires { (a + n ≤ length (units word s.old)) × (n ≤ length (units word residue.now)) }
    ensures s_left { units word s.new
        ≡ overlaid (units word s.old) a (take n (units word residue.now)) }
    ensures s_spare { spare word s.new ≡ spare word s.old }
{
    leave_part(s, byte_of(word, a), bytes_in(word, n), residue);
}

// The residue's first n units in the n units from unit a on, where both are there.
pub fn leave_units(word: bool, s: &mut [u8], a: usize, n: usize, residue: &[u8])
    ensures s_left { units word s.new ≡ left_in a n (units word residue.now) (units word s.old) }
    ensures s_spare { spare word s.new ≡ spare word s.old }
{
    if lies_in(a, n, units_in(word, s.len())) & (n <= units_in(word, residue.len())) {
        return leave_there(word, s, a, n, residue);
    }
}
