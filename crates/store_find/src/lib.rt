// A file found in the block that holds the store, and a reading straight from it. Each public function takes any input.
#![tactic(auto)]

ghost use Rattle.std.specs.Prelude.{◌≡◌, not, [], ◌∷◌, ◌%◌, length, eqb};
ghost use Rattle.common.specs.Numbers.{row, given};
ghost use Rattle.file_codec.specs.File.{in_room, left_in};
ghost use Rattle.reading.specs.Readings.{answer_as, answer_told, told_as};
ghost use Rattle.store_find.specs.Finds.{stands_of, found_in, found_as, read_by};

use reading::ReadingAnswer;
use store_survey::Survey;

// Where the file under a letter stands: 0, its first byte and its length; or the refusal, 0 and 0.
#[derive(Clone, Copy)]
pub struct Stands {
    pub number: u8,
    pub from: usize,
    pub size: usize,
}

// What a find gives back: 0 and the file's length, or the refusal and 0.
#[derive(Clone, Copy)]
pub struct Found {
    pub number: u8,
    pub length: usize,
}

// 44, then 42, of a block of so many bytes by its survey.
fn find_number(size: usize, s: Survey) -> u8
    ensures { result ≡ given (row 44 (not (eqb (size % 512) 0)) ∷ row 44 (not s.good) ∷ row 42 (eqb s.blocks 0) ∷ []) }
{
    match (size % 512, s.good, s.blocks) {
        (0, true, 0) => 42,
        (0, true, _) => 0,
        _ => 44,
    }
}

// Where the file under a letter stands.
pub fn seek(main: &[u8], letter: u8) -> Stands
    ensures { result ≡ stands_of main.now letter }
{
    let s = store_survey::survey_of(main, letter, 0);
    let n = find_number(main.len(), s);
    if n != 0 {
        return Stands {
            number: n,
            from: 0,
            size: 0,
        };
    }
    Stands {
        number: 0,
        from: 512 * s.place,
        size: 512 * s.blocks,
    }
}

// The file under a letter into the front of room: 44, 42, 37, or 0 and its length.
pub fn find_in(main: &[u8], letter: u8, room: &mut [u8]) -> Found
    ensures result { result ≡ found_as (in_room (length room.old) (found_in main.now letter)) }
    ensures room_left { room.new
        ≡ left_in room.old (in_room (length room.old) (found_in main.now letter)) }
{
    let s = seek(main, letter);
    if s.number != 0 {
        return Found {
            number: s.number,
            length: 0,
        };
    }
    let from = s.from;
    let size = s.size;
    if room.len() < size {
        return Found {
            number: 37,
            length: 0,
        };
    }
    let to = from + size;
    common::copy(room, &main[from..to]);
    Found {
        number: 0,
        length: size,
    }
}

// The reading at x by the file under a letter, where it stands; room takes its payload.
pub fn read_in(main: &[u8], letter: u8, room: &mut [u8], x: i32) -> ReadingAnswer
    ensures result { result ≡ answer_as x (in_room (length room.old) (read_by letter (found_in main.now letter))) }
    ensures told { answer_told result
        ≡ told_as x (in_room (length room.old) (read_by letter (found_in main.now letter))) }
    ensures room_left { room.new
        ≡ left_in room.old (in_room (length room.old) (read_by letter (found_in main.now letter))) }
{
    let s = seek(main, letter);
    if s.number != 0 {
        return ReadingAnswer::Refused(s.number);
    }
    let from = s.from;
    let to = from + s.size;
    reading::reading_from_file(&main[from..to], letter, room, x)
}
