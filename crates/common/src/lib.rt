// Leaf functions on slices of bytes, shared by every crate above. Each public one takes any input.
#![tactic(auto)]

ghost use Rattle.std.specs.Prelude.{◌≡◌, length, get_or, replicate};
ghost use Prim.Native.Nat.{◌<◌};
ghost use Rattle.common.specs.Lists.{copied};

// A byte as an index, known to be below 256.
pub fn wide(x: u8) -> usize
    ensures { (result ≡ x) × (x < 256) }
{
    usize::from(x)
}

// The byte at a place, 0 past the end.
pub fn nth(s: &[u8], at: usize) -> u8
    ensures { result ≡ get_or s.now at 0 }
{
    s.get(at).copied().unwrap_or(0)
}

// Every byte becomes b.
pub fn fill(s: &mut [u8], b: u8)
    ensures { s.new ≡ replicate (length s.old) b }
{
    s.fill(b);
}

// The smaller of two lengths.
pub fn least(a: usize, b: usize) -> usize
    ensures { result ≡ Prim.Native.Nat.min a b }
{
    a.min(b)
}

// Exactly 512 bytes, a length that the compiler knows.
// Kept: an index, since `copy_from_slice` takes 830 instructions for a copy of 4,096 bytes, and this 658.
fn piece(dst: &mut [u8], src: &[u8])
    requires { (length dst.old ≡ 512) × (length src.now ≡ 512) }
    ensures { dst.new ≡ src.now }
{
    for i in 0..512 {
        dst[i] = src[i];
    }
}

// The first bytes of dst become those of src, as many as both have: by pieces of 512, then the rest.
pub fn copy(dst: &mut [u8], src: &[u8])
    ensures { dst.new ≡ copied dst.old src.now }
{
    let n = least(dst.len(), src.len());
    for k in 0..n / 512 {
        let at = 512 * k;
        piece(&mut dst[at..at + 512], &src[at..at + 512]);
    }
    // Kept: an index, since `copy_from_slice` calls `memmove`, a name more that C's host has to bring.
    for i in n - n % 512..n {
        dst[i] = src[i];
    }
}
