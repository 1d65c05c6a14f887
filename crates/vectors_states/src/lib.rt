// What the vector programs share about a device: its state, its counts of erases and its description read off a row, modes and
// phases as letters.
// Each function takes any input.
#![tactic(auto)]

ghost use Rattle.std.specs.Prelude.{◌≡◌, ℕ, length, replicate, Some};
ghost use Rattle.vectors_states.specs.Letters.{mode_by, phase_by, mode_letter, phase_letter, wear_at, state_at, word_by, device_at};
ghost use Rattle.vectors_states.specs.Letters.{same_wear, same_state};
ghost use Rattle.vectors_states.specs.Cycles.{kind_letter, kind_by, cycle_at, levels_at};
ghost use Rattle.vectors_states.specs.Shown.{wear_text, shape_text, data_text, cycle_text};

use device::{Device, Part};
use model_types::{Cycle, Kind, Mode, Phase, Pins, State, Wear};
use std::fmt;

// The device before a row tells one.
pub const NO_DEVICE: Device = Device {
    part: Part {
        number: 0,
        word: false,
    },
    program: 0,
    erase: 0,
    suspend: 0,
};

// The levels before a row sets them.
pub const NO_PINS: Pins = Pins {
    rp: 0,
    wp: 0,
    vpp: 0,
};

// The erases begun, which show block by block, a space in front of each.
#[derive(Clone, Copy)]
pub struct Erases(pub Wear);

impl fmt::Display for Erases {
    ghost output = { λ e. Some (wear_text e.0) };

    fn fmt<W: fmt::Write>(&self, f: &mut fmt::Formatter<W>) -> fmt::Result {
        let w = self.0;
        write!(f, " {} {} {} {}", w.block0, w.block1, w.block2, w.block3)?;
        write!(f, " {} {} {}", w.block4, w.block5, w.block6)
    }
}

// A state, which shows its status and the letters of mode and phase.
#[derive(Clone, Copy)]
pub struct Shape(pub State);

impl fmt::Display for Shape {
    ghost output = { λ s. Some (shape_text s.0) };

    fn fmt<W: fmt::Write>(&self, f: &mut fmt::Formatter<W>) -> fmt::Result {
        let s = self.0;
        let mode = char::from(mode_letter(s.mode));
        let phase = char::from(phase_letter(s.phase));
        write!(f, "{:02X} {mode} {phase}", s.status)
    }
}

// A phase, which shows its data or its count, where it has one.
#[derive(Clone, Copy)]
pub struct PhaseData(pub Phase);

impl fmt::Display for PhaseData {
    ghost output = { λ p. Some (data_text p.0) };

    fn fmt<W: fmt::Write>(&self, f: &mut fmt::Formatter<W>) -> fmt::Result {
        match self.0 {
            Phase::Programming(value) => write!(f, "{value:04X}"),
            Phase::Suspending(left) => write!(f, "{left:04X}"),
            _ => write!(f, "----"),
        }
    }
}

// The mode that a letter stands for; any other letter for the identifier.
#[tactic(auto, unfolding(crate::specs::Letters::mode_by))]
pub fn mode_by(letter: u8) -> Mode
    ensures { result ≡ mode_by letter }
{
    match letter {
        b'A' => Mode::Array,
        b'S' => Mode::Status,
        _ => Mode::Identifier,
    }
}

// The phase that a letter stands for, with what a program programs or, in the low eight bits, the cycles that a suspend has to go;
// any other letter for a suspended erase.
#[tactic(auto, unfolding(crate::specs::Letters::phase_by))]
pub fn phase_by(letter: u8, value: u16) -> Phase
    ensures { result ≡ phase_by letter value }
{
    match letter {
        b'F' => Phase::Free,
        b'C' => Phase::EraseAwaited,
        b'D' => Phase::DataAwaited,
        b'P' => Phase::Programming(value),
        b'E' => Phase::Erasing,
        b'U' => Phase::Suspending(units::low(value)),
        _ => Phase::Suspended,
    }
}

// The letter of a mode.
pub fn mode_letter(mode: Mode) -> u8
    ensures { result ≡ mode_letter mode }
{
    match mode {
        Mode::Array => b'A',
        Mode::Status => b'S',
        Mode::Identifier => b'I',
    }
}

// The letter of a phase.
pub fn phase_letter(phase: Phase) -> u8
    ensures { result ≡ phase_letter phase }
{
    match phase {
        Phase::Free => b'F',
        Phase::EraseAwaited => b'C',
        Phase::DataAwaited => b'D',
        Phase::Programming(_) => b'P',
        Phase::Erasing => b'E',
        Phase::Suspending(_) => b'U',
        Phase::Suspended => b'S',
    }
}

// A cycle that is out, which shows its kind, RP#, WP#, VPP, address and data.
#[derive(Clone, Copy)]
pub struct Outgoing(pub Cycle);

impl fmt::Display for Outgoing {
    ghost output = { λ c. Some (cycle_text c.0) };

    fn fmt<W: fmt::Write>(&self, f: &mut fmt::Formatter<W>) -> fmt::Result {
        let c = self.0;
        let kind = char::from(kind_letter(c.kind));
        write!(f, "{kind} {:03} {:03} ", c.pins.rp, c.pins.wp)?;
        write!(f, "{:010} {:08X} {:04X}", c.pins.vpp, c.address, c.data)
    }
}

// The letter of a kind of cycle.
pub fn kind_letter(kind: Kind) -> u8
    ensures { result ≡ kind_letter kind }
{
    match kind {
        Kind::Read => b'R',
        Kind::Write => b'W',
        Kind::Idle => b'I',
    }
}

// The kind of cycle that a letter stands for; any other letter for an idle one.
pub fn kind_by(letter: u8) -> Kind
    ensures { result ≡ kind_by letter }
{
    match letter {
        b'R' => Kind::Read,
        b'W' => Kind::Write,
        _ => Kind::Idle,
    }
}

// The bus cycle of a row, its kind by a letter: RP#, OE#, WP#, VPP, address, data.
pub fn cycle_at(row: &[u8], letter: u8) -> Cycle
    ensures { result ≡ cycle_at row.now letter }
{
    Cycle {
        kind: kind_by(letter),
        pins: Pins {
            rp: vectors_text::byte_at(row, 10, 2, 3),
            wp: vectors_text::byte_at(row, 10, 10, 3),
            vpp: vectors_text::word_at(row, 10, 14, 10),
        },
        oe: vectors_text::byte_at(row, 10, 6, 3),
        address: vectors_text::word_at(row, 16, 25, 8),
        data: vectors_text::half_at(row, 16, 34, 4),
    }
}

// The levels of a row: RP#, WP#, VPP.
pub fn levels_at(row: &[u8]) -> Pins
    ensures { result ≡ levels_at row.now }
{
    Pins {
        rp: vectors_text::byte_at(row, 10, 2, 3),
        wp: vectors_text::byte_at(row, 10, 6, 3),
        vpp: vectors_text::word_at(row, 10, 10, 10),
    }
}

// The counts of erases begun that stand in a row from a place on: seven numbers of ten digits, each with a space behind it.
pub fn wear_at(row: &[u8], at: u16) -> Wear
    ensures { result ≡ wear_at row.now at }
{
    let from = at as usize;
    Wear {
        block0: vectors_text::word_at(row, 10, from, 10),
        block1: vectors_text::word_at(row, 10, from + 11, 10),
        block2: vectors_text::word_at(row, 10, from + 22, 10),
        block3: vectors_text::word_at(row, 10, from + 33, 10),
        block4: vectors_text::word_at(row, 10, from + 44, 10),
        block5: vectors_text::word_at(row, 10, from + 55, 10),
        block6: vectors_text::word_at(row, 10, from + 66, 10),
    }
}

// The state of a row: status, mode, phase with its data, cycles left, address; with these counts.
pub fn state_at(row: &[u8], wear: Wear) -> State
    ensures { result ≡ state_at row.now wear }
{
    let status = vectors_text::byte_at(row, 16, 2, 2);
    let mode = mode_by(common::nth(row, 5));
    let value = vectors_text::half_at(row, 16, 8, 4);
    let phase = phase_by(common::nth(row, 7), value);
    let left = vectors_text::half_at(row, 10, 13, 5);
    let address = vectors_text::word_at(row, 16, 19, 8);
    State {
        mode: mode,
        status: status,
        phase: phase,
        left: left,
        address: address,
        wear: wear,
    }
}

// Word mode by its digit: 1 for words, any other for bytes.
pub fn word_by(digit: u8) -> bool
    ensures { result ≡ word_by digit }
{
    digit == b'1'
}

// The device of a row: its number, whether it is in word mode, P, E and S.
pub fn device_at(row: &[u8]) -> Device
    ensures { result ≡ device_at row.now }
{
    let number = vectors_text::byte_at(row, 10, 2, 3);
    let word = word_by(common::nth(row, 6));
    let program = vectors_text::half_at(row, 10, 8, 5);
    let erase = vectors_text::half_at(row, 10, 14, 5);
    let suspend = vectors_text::byte_at(row, 10, 20, 3);
    Device {
        part: Part {
            number: number,
            word: word,
        },
        program: program,
        erase: erase,
        suspend: suspend,
    }
}

// Two devices' counts are the same.
pub fn same_wear(a: Wear, b: Wear) -> bool
    ensures { result ≡ same_wear a b }
{
    (a.block0 == b.block0)
        & (a.block1 == b.block1)
        & (a.block2 == b.block2)
        & (a.block3 == b.block3)
        & (a.block4 == b.block4)
        & (a.block5 == b.block5)
        & (a.block6 == b.block6)
}

// Two states are the same, modes and phases by their letters.
// Kept: `==` would tell phases by their data too, which the promise does not.
pub fn same_state(a: State, b: State) -> bool
    ensures { result ≡ same_state a b }
{
    let m = a.mode;
    let n = b.mode;
    let p = a.phase;
    let q = b.phase;
    let v = a.wear;
    let w = b.wear;
    (mode_letter(m) == mode_letter(n))
        & (phase_letter(p) == phase_letter(q))
        & (a.status == b.status)
        & (a.left == b.left)
        & (a.address == b.address)
        & same_wear(v, w)
}

// As many zeros as the largest part has bytes, and one more.
pub fn vast() -> [u8; 524289]
    ensures { (result ≡ replicate {A = ℕ} 524289 0) × (524289 ≡ length result) }
{
    [0; 524289]
}
