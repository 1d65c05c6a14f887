// An erased cell.
ghost use Rattle.std.specs.Prelude.{◌≡◌};
ghost use Rattle.model_types.specs.Cells.{ones};

use device::Part;

// All ones of a cell of this part.
pub fn ones(part: Part) -> u16
    ensures { result ≡ ones part }
{
    let word = part.word;
    if word {
        return 0xFFFF;
    }
    0xFF
}
