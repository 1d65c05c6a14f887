// Where a flash block of a part lies, in bytes, from a table by the part's number and the block: two lookups for the compiler, where a
// part's description takes additions. It is proved to be what the descriptions give.
#![tactic(auto)]

ghost use Rattle.std.specs.Prelude.{◌≡◌};
ghost use Rattle.c_blocks.specs.Table.{four_at, five_at, seven_at, block_at};

use device::Span;

// A block of a part that has four: their first addresses, and the lengths of boot, parameter and main blocks.
fn four_at(
    k: u8,
    a: usize,
    b: usize,
    c: usize,
    d: usize,
    boot: usize,
    parameter: usize,
    main: usize,
) -> Span
    ensures { result ≡ four_at k a b c d boot parameter main }
{
    match k {
        0 => Span {
            first: a,
            length: boot,
        },
        1 => Span {
            first: b,
            length: parameter,
        },
        2 => Span {
            first: c,
            length: parameter,
        },
        3 => Span {
            first: d,
            length: main,
        },
        _ => Span {
            first: 0,
            length: 0,
        },
    }
}

// A block of a 28F200BR.
fn five_at(k: u8, a: usize, b: usize, c: usize, d: usize, e: usize) -> Span
    ensures { result ≡ five_at k a b c d e }
{
    match k {
        0 => Span {
            first: a,
            length: 16384,
        },
        1 => Span {
            first: b,
            length: 8192,
        },
        2 => Span {
            first: c,
            length: 8192,
        },
        3 => Span {
            first: d,
            length: 98304,
        },
        4 => Span {
            first: e,
            length: 131072,
        },
        _ => Span {
            first: 0,
            length: 0,
        },
    }
}

// A block of a 28F400BR.
fn seven_at(k: u8, a: usize, b: usize, c: usize, d: usize, e: usize, f: usize, g: usize) -> Span
    ensures { result ≡ seven_at k a b c d e f g }
{
    match k {
        0 => Span {
            first: a,
            length: 16384,
        },
        1 => Span {
            first: b,
            length: 8192,
        },
        2 => Span {
            first: c,
            length: 8192,
        },
        3 => Span {
            first: d,
            length: 98304,
        },
        4 => Span {
            first: e,
            length: 131072,
        },
        5 => Span {
            first: f,
            length: 131072,
        },
        6 => Span {
            first: g,
            length: 131072,
        },
        _ => Span {
            first: 0,
            length: 0,
        },
    }
}

// The first byte address and the bytes of a block; both 0 where there is none.
pub fn block_at(part: u8, k: u8) -> Span
    ensures { result ≡ block_at part k }
{
    match part {
        1 => four_at(k, 122880, 118784, 114688, 0, 8192, 4096, 114688),
        2 => four_at(k, 0, 8192, 12288, 16384, 8192, 4096, 114688),
        3 => four_at(k, 15360, 14848, 14336, 0, 1024, 512, 14336),
        4 => four_at(k, 0, 1024, 1536, 2048, 1024, 512, 14336),
        5 => five_at(k, 245760, 237568, 229376, 131072, 0),
        6 => five_at(k, 0, 16384, 24576, 32768, 131072),
        7 => seven_at(k, 507904, 499712, 491520, 393216, 262144, 131072, 0),
        8 => seven_at(k, 0, 16384, 24576, 32768, 131072, 262144, 393216),
        _ => Span {
            first: 0,
            length: 0,
        },
    }
}
