// The parts we load: size, blocks and identifier, each derived from one short description of a part.
#![tactic(auto)]

ghost use Rattle.std.specs.Prelude.{◌≡◌, ◌-◌, ◌≤◌, length};
ghost use Rattle.device.specs.Blocks.{units_of_all};
ghost use Rattle.device.specs.Parts.{four_blocks, more_blocks, row_of, in_words, shape_of, is_large, size_in, length_in, offset_in};
ghost use Rattle.device.specs.Parts.{holder_in};
ghost use Rattle.device.specs.Parts.{mirrored, start_in, block_in, unknown_part, unknown_device, size_of, length_of, start_of, block_of};
ghost use Rattle.device.specs.Parts.{code_of};
ghost use Rattle.device.specs.Inner.{span_in, span_of};

// What a loader knows of the flash: its number, 1 to 8, and whether it is in word mode. A unit is what one cycle carries: a byte,
// or in word mode a word. Addresses and lengths of a part are in units.
#[derive(Clone, Copy)]
pub struct Part {
    pub number: u8,
    pub word: bool,
}

// A part with its busy times: the cycles that a program and an erase take (P and E), and those that a suspend takes (S).
#[derive(Clone, Copy)]
pub struct Device {
    pub part: Part,
    pub program: u16,
    pub erase: u16,
    pub suspend: u8,
}

// A part's description: seven block lengths outward from the boot block (0 where there is none), whether the boot block is at the top,
// and the identifier code.
#[derive(Clone, Copy)]
pub struct Shape {
    pub lengths: [u32; 7],
    pub top: bool,
    pub code: u16,
}

// Where a block lies: its first address and its units; no units where there is no such block.
#[derive(Clone, Copy)]
pub struct Span {
    pub first: usize,
    pub length: usize,
}

// A length as an index.
fn wide(x: u32) -> usize
    ensures { result ≡ x }
{
    x as usize
}

// A difference that stops at zero.
fn less(a: usize, b: usize) -> usize
    ensures { result ≡ a - b }
{
    if a < b {
        return 0;
    }
    a - b
}

fn four(boot: u32, parameter: u32, main: u32, top: bool, code: u16) -> Shape
    ensures { result ≡ four_blocks boot parameter main top code }
{
    Shape {
        lengths: [boot, parameter, parameter, main, 0, 0, 0],
        top,
        code,
    }
}

// Boot, two parameter blocks, a main block of 98,304 bytes and one of 131,072, and two further ones.
fn more(further: u32, top: bool, code: u16) -> Shape
    ensures { result ≡ more_blocks further top code }
{
    Shape {
        lengths: [16384, 8192, 8192, 98304, 131072, further, further],
        top,
        code,
    }
}

// The table of parts, lengths in bytes; any other number is taken for 8.
#[tactic(auto, unfolding(crate::specs::Parts::row_of))]
fn row(n: u8) -> Shape
    ensures { result ≡ row_of n }
{
    match n {
        1 => four(8192, 4096, 114688, true, 0x94),
        2 => four(8192, 4096, 114688, false, 0x95),
        3 => four(1024, 512, 14336, true, 0x94),
        4 => four(1024, 512, 14336, false, 0x95),
        5 => more(0, true, 0x2274),
        6 => more(0, false, 0x2275),
        7 => more(131072, true, 0x4470),
        _ => more(131072, false, 0x4471),
    }
}

// The same in words.
fn in_words(s: Shape) -> Shape
    ensures { result ≡ in_words s }
{
    let mut words = s;
    for l in words.lengths.iter_mut() {
        *l /= 2;
    }
    words
}

// A part in its units.
#[tactic(auto, unfolding(crate::specs::Parts::shape_of))]
fn describe(p: Part) -> Shape
    ensures { result ≡ shape_of p }
{
    if p.word {
        return in_words(row(p.number));
    }
    row(p.number)
}

// The units of blocks that lie side by side.
fn units_of_all(lengths: &[u32]) -> usize
    requires { length lengths.now ≤ 7 }
    ensures { result ≡ units_of_all lengths.now }
{
    let mut units = 0;
    for l in lengths {
        units += wide(*l);
    }
    units
}

#[tactic(auto, unfolding(crate::specs::Parts::size_in))]
fn sum(s: Shape) -> usize
    ensures { result ≡ size_in s }
{
    units_of_all(&s.lengths)
}

// The same of a row of the table, without reading it.
#[tactic(auto, unfolding(crate::specs::Parts::row_of, crate::specs::Parts::size_in))]
fn bytes(n: u8) -> usize
    ensures { result ≡ size_in (row_of n) }
{
    match n {
        1 | 2 => 131072,
        3 | 4 => 16384,
        5 | 6 => 262144,
        _ => 524288,
    }
}

#[tactic(auto, unfolding(crate::specs::Parts::length_in))]
fn length_at(s: Shape, k: u8) -> usize
    ensures { result ≡ length_in s k }
{
    match s.lengths.get(k as usize) {
        Some(l) => wide(*l),
        None => 0,
    }
}

// What lies before block k, counted from the boot end.
fn offset_at(s: Shape, k: u8) -> usize
    ensures { result ≡ offset_in s k }
{
    let to = common::least(k as usize, 7);
    units_of_all(&s.lengths[..to])
}

// What lies behind block k, counted from the boot end.
fn behind_at(s: Shape, k: u8) -> usize
    ensures { result ≡ size_in s - offset_in s k - length_in s k }
{
    let from = common::least(k as usize + 1, 7);
    units_of_all(&s.lengths[from..])
}

// The block that holds a place counted from the boot end.
#[tactic(auto, unfolding(crate::specs::Parts::holder_in))]
fn holder_at(s: Shape, place: usize) -> u8
    ensures { result ≡ holder_in s place }
{
    let mut rest = place;
    for (k, l) in s.lengths.iter().enumerate() {
        let length = wide(*l);
        if rest < length {
            return k as u8;
        }
        rest -= length;
    }
    7
}

// A place from the boot end as an address, or an address as such a place.
#[tactic(auto, unfolding(crate::specs::Parts::mirrored))]
fn mirror(top: bool, n: usize, a: usize) -> usize
    ensures { result ≡ mirrored top n a }
{
    if top {
        return less(less(n, 1), a);
    }
    a
}

// The first address of block k in a description.
#[tactic(auto, unfolding(crate::specs::Parts::start_in))]
fn start_at(s: Shape, k: u8) -> usize
    ensures { result ≡ start_in s k }
{
    if s.top {
        return behind_at(s, k);
    }
    offset_at(s, k)
}

// Where block k lies in a description.
fn span_at(s: Shape, k: u8) -> Span
    ensures { result ≡ span_in s k }
{
    Span {
        first: start_at(s, k),
        length: length_at(s, k),
    }
}

// The block that holds an address in a description.
#[tactic(auto, unfolding(crate::specs::Parts::block_in))]
fn block_at(s: Shape, address: u32) -> u8
    ensures { result ≡ block_in s address }
{
    let top = s.top;
    holder_at(s, mirror(top, sum(s), wide(address)))
}

// Devices 5 to 8.
#[tactic(auto, unfolding(crate::specs::Parts::is_large))]
pub fn is_large(p: Part) -> bool
    ensures { result ≡ is_large p }
{
    5 <= p.number
}

// Refusal 1 of a part alone.
#[tactic(auto, unfolding(crate::specs::Parts::unknown_part))]
pub fn unknown_part(p: Part) -> bool
    ensures { result ≡ unknown_part p }
{
    (p.number == 0) | (8 < p.number) | (p.word & !is_large(p))
}

// Refusal 1 of a device.
#[tactic(auto, unfolding(crate::specs::Parts::unknown_device))]
pub fn unknown_device(d: Device) -> bool
    ensures { result ≡ unknown_device d }
{
    unknown_part(d.part) | (d.program == 0) | (d.erase == 0) | (d.suspend == 0) | (100 < d.suspend)
}

// The units of the array.
#[tactic(auto, using(crate::proofs::Rows::halved), unfolding(crate::specs::Parts::size_of, crate::specs::Parts::shape_of))]
pub fn size(p: Part) -> usize
    ensures { result ≡ size_of p }
{
    let n = bytes(p.number);
    if p.word {
        return n / 2;
    }
    n
}

// The units of block k, 0 where there is none.
#[tactic(auto, unfolding(crate::specs::Parts::length_of))]
pub fn length(p: Part, k: u8) -> usize
    ensures { result ≡ length_of p k }
{
    length_at(describe(p), k)
}

// The first address of block k.
#[tactic(auto, unfolding(crate::specs::Parts::start_of))]
pub fn start(p: Part, k: u8) -> usize
    ensures { result ≡ start_of p k }
{
    start_at(describe(p), k)
}

// Where block k lies, by one description.
#[tactic(auto, unfolding(crate::specs::Parts::start_of, crate::specs::Parts::length_of))]
pub fn block_span(p: Part, k: u8) -> Span
    ensures { result ≡ span_of p k }
{
    span_at(describe(p), k)
}

// The block that holds an address.
#[tactic(auto, unfolding(crate::specs::Parts::block_of))]
pub fn block_of(p: Part, address: u32) -> u8
    ensures { result ≡ block_of p address }
{
    block_at(describe(p), address)
}

// The part's own identifier code: in byte mode its low byte.
#[tactic(auto, unfolding(crate::specs::Parts::code_of))]
pub fn code(p: Part) -> u16
    ensures { result ≡ code_of p }
{
    let s = describe(p);
    if p.word {
        return s.code;
    }
    s.code % 256
}
