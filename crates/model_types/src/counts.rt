// Counts of erases begun, one for each block.
ghost use Rattle.std.specs.Prelude.{◌≡◌};
ghost use Rattle.model_types.specs.Counts.{unworn, raised, raised_at, worn};

use crate::Wear;

// A count stops here.
pub const STOP: u32 = 0xFFFF_FFFF;

// The counts of a fresh device.
pub fn unworn() -> Wear
    ensures { result ≡ unworn }
{
    Wear {
        block0: 0,
        block1: 0,
        block2: 0,
        block3: 0,
        block4: 0,
        block5: 0,
        block6: 0,
    }
}

// One more, up to the stop.
pub fn raise(n: u32) -> u32
    ensures { result ≡ raised n }
{
    if STOP <= n {
        return n;
    }
    n + 1
}

// The count n of block j after an erase of block k.
fn raise_at(j: u8, k: u8, n: u32) -> u32
    ensures { result ≡ raised_at j k n }
{
    if k == j {
        return raise(n);
    }
    n
}

// The counts after one more erase of block k.
pub fn wear_out(w: Wear, k: u8) -> Wear
    ensures { result ≡ worn w k }
{
    Wear {
        block0: raise_at(0, k, w.block0),
        block1: raise_at(1, k, w.block1),
        block2: raise_at(2, k, w.block2),
        block3: raise_at(3, k, w.block3),
        block4: raise_at(4, k, w.block4),
        block5: raise_at(5, k, w.block5),
        block6: raise_at(6, k, w.block6),
    }
}
