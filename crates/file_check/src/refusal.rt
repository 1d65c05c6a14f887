// Why a load file is refused: what is wrong with its length, with one of its blocks, with its letter, its payload or the room for it.

ghost use Rattle.std.specs.Prelude.{◌≡◌};

// The nine refusals of a load file, in the order of their numbers, 30 to 38.
#[derive(Clone, Copy, PartialEq, Eq, Debug)]
pub enum FileRefusal {
    Length,
    Damaged,
    Letter,
    Place,
    Padding,
    OtherLetter,
    Payload,
    Room,
    Blank,
}

impl FileRefusal {
    ghost use Rattle.file_check.specs.Refusal.{number_of};

    // The number that operators and C know it by.
    pub fn number(self) -> u8
        ensures { result ≡ number_of self }
    {
        match self {
            FileRefusal::Length => 30,
            FileRefusal::Damaged => 31,
            FileRefusal::Letter => 32,
            FileRefusal::Place => 33,
            FileRefusal::Padding => 34,
            FileRefusal::OtherLetter => 35,
            FileRefusal::Payload => 36,
            FileRefusal::Room => 37,
            FileRefusal::Blank => 38,
        }
    }
}
