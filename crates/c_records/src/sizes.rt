// What writer and reader answer, as plain numbers.
ghost use Rattle.std.specs.Prelude.{◌≡◌};
ghost use Rattle.c_records.specs.Records.{sized_out};

use crate::SizedNumbers;
use file_check::refusal::FileRefusal;

// What writer or reader answered, as numbers.
pub fn sized_out(answer: Result<usize, FileRefusal>) -> SizedNumbers
    ensures { result ≡ sized_out answer }
{
    match answer {
        Ok(size) => SizedNumbers {
            number: 0,
            length: size,
        },
        Err(refusal) => SizedNumbers {
            number: refusal.number(),
            length: 0,
        },
    }
}
