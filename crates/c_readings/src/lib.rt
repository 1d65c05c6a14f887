// What a reading answers, as a struct of numbers for a C program.
#![tactic(auto)]

ghost use Rattle.std.specs.Prelude.{◌≡◌, pos};
ghost use Rattle.std.specs.Float.Ieee.{of_int};
ghost use Rattle.std.specs.Float.{binary64};
ghost use Rattle.c_readings.specs.Readings.{reading_as, reading_out, answer_numbers};

use reading::{Reading, ReadingAnswer};

// What it is (0 a temperature, 1 below the table, 2 above it, 3 refused), the number of the refusal, and tenths of a degree.
#[repr(C)]
#[derive(Clone, Copy)]
pub struct ReadingNumbers {
    pub answer: u8,
    pub number: u8,
    pub tenths: f64,
}

fn reading_as(answer: u8, number: u8, tenths: f64) -> ReadingNumbers
    ensures { result ≡ reading_as answer number tenths }
{
    ReadingNumbers {
        answer: answer,
        number: number,
        tenths: tenths,
    }
}

fn zero() -> f64
    ensures { result ≡ of_int binary64 (pos 0) }
{
    let none: i32 = 0;
    none as f64
}

fn reading_out(reading: Reading) -> ReadingNumbers
    ensures { result ≡ reading_out reading }
{
    match reading {
        Reading::Temperature(t) => reading_as(0, 0, t),
        Reading::Below(t) => reading_as(1, 0, t),
        Reading::Above(t) => reading_as(2, 0, t),
    }
}

// A reading as numbers, or a refusal with its number.
pub fn answer_numbers(answer: ReadingAnswer) -> ReadingNumbers
    ensures { result ≡ answer_numbers answer }
{
    match answer {
        ReadingAnswer::Read(reading) => reading_out(reading),
        ReadingAnswer::Refused(n) => reading_as(3, n, zero()),
    }
}
