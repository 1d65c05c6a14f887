// Counts of erases begun, as plain numbers. All numbers are counts.
ghost use Rattle.std.specs.Prelude.{◌≡◌};
ghost use Rattle.c_cycle.specs.Values.{wear_in, wear_out};

use crate::WearNumbers;
use model_types::Wear;

// Numbers as counts.
pub fn wear_in(n: WearNumbers) -> Wear
    ensures { result ≡ wear_in n }
{
    Wear {
        block0: n.block0,
        block1: n.block1,
        block2: n.block2,
        block3: n.block3,
        block4: n.block4,
        block5: n.block5,
        block6: n.block6,
    }
}

// Counts as numbers.
pub fn wear_out(w: Wear) -> WearNumbers
    ensures { result ≡ wear_out w }
{
    WearNumbers {
        block0: w.block0,
        block1: w.block1,
        block2: w.block2,
        block3: w.block3,
        block4: w.block4,
        block5: w.block5,
        block6: w.block6,
    }
}
