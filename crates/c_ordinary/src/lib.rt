// A fair bus cycle of a device at rest, from numbers to numbers. The test of a fair cycle is sufficient and no more: what fails it is
// judged by the rules, and by them alone. The caller makes the choice itself (`tb_cycle`): the answer is then made where it goes.
#![tactic(auto)]

ghost use Rattle.std.specs.Prelude.{◌≡◌, ◌<◌, ◌%◌, leb};
ghost use Rattle.c_ordinary.specs.Ordinary.{bytes_for, units_for, level_in, fair_level_in, timed_in, ordinary_in, fair_in, key_of};
ghost use Rattle.c_ordinary.specs.Ordinary.{resting_in};
ghost use Rattle.c_ordinary.specs.Ordinary.{rested_as, sets_as, unset_as, commanded_of, seldom_of, commanded_by};

use c_cycle::{AnswerNumbers, BusNumbers, DeviceNumbers, StateNumbers};

// What a command sets, and whether it is one of those that are known here.
#[derive(Clone, Copy)]
pub struct Commanded {
    pub known: bool,
    pub mode: u8,
    pub status: u8,
    pub phase: u8,
}

// The bytes of a part's array; none where there is no such part.
fn bytes_of(number: u8) -> usize
    ensures { result ≡ bytes_for number }
{
    match number {
        1 => 131072,
        2 => 131072,
        3 => 16384,
        4 => 16384,
        5 => 262144,
        6 => 262144,
        7 => 524288,
        8 => 524288,
        _ => 0,
    }
}

// The units of a known part's array, where so many bytes are lent; none otherwise.
pub fn units_of(number: u8, word: u8, len: usize) -> usize
    ensures { result ≡ units_for number word len }
{
    if bytes_of(number) != len {
        return 0;
    }
    if word == 0 {
        return len;
    }
    if word != 1 {
        return 0;
    }
    if number < 5 {
        return 0;
    }
    len / 2
}

// Levels that are good on every part, with RP# up and OE# low.
pub fn is_level(rp: u8, oe: u8, wp: u8, vpp: u32) -> bool
    ensures { result ≡ level_in rp oe wp vpp }
{
    if oe != 0 {
        return false;
    }
    if 1 < wp {
        return false;
    }
    if rp == 0 {
        return false;
    }
    if 2 < rp {
        return false;
    }
    if 11400 <= vpp {
        return vpp <= 12600;
    }
    if 4500 <= vpp {
        return vpp <= 5500;
    }
    vpp <= 1500
}

// Levels that are good on every part, with OE# low; RP# may be low.
pub fn is_fair_level(rp: u8, oe: u8, wp: u8, vpp: u32) -> bool
    ensures { result ≡ fair_level_in rp oe wp vpp }
{
    if oe != 0 {
        return false;
    }
    if 1 < wp {
        return false;
    }
    if 2 < rp {
        return false;
    }
    if 11400 <= vpp {
        return vpp <= 12600;
    }
    if 4500 <= vpp {
        return vpp <= 5500;
    }
    vpp <= 1500
}

// The times of a program, an erase and a suspend are times that there are.
pub fn is_timed(n: DeviceNumbers) -> bool
    ensures { result ≡ timed_in n }
{
    if n.program == 0 {
        return false;
    }
    if n.erase == 0 {
        return false;
    }
    if n.suspend == 0 {
        return false;
    }
    n.suspend <= 100
}

// Refusals 1, 2, 4 and 5 do not apply, RP# is up and OE# low.
pub fn is_ordinary(n: DeviceNumbers, b: BusNumbers, len: usize) -> bool
    ensures { result ≡ ordinary_in n b len }
{
    if !is_timed(n) {
        return false;
    }
    if is_level(b.rp, b.oe, b.wp, b.vpp) {
        return (b.address as usize) < units_of(n.number, n.word, len);
    }
    false
}

// Refusals 1, 2, 4 and 5 do not apply, and OE# is low.
pub fn is_fair(n: DeviceNumbers, b: BusNumbers, len: usize) -> bool
    ensures { result ≡ fair_in n b len }
{
    if !is_timed(n) {
        return false;
    }
    if is_fair_level(b.rp, b.oe, b.wp, b.vpp) {
        return (b.address as usize) < units_of(n.number, n.word, len);
    }
    false
}

// The first four numbers of a state as one, which is one load. Its remainder by 2,048 has the mode and SR.2 to SR.0; its quotient by 16,384
// has SR.7 and SR.6 (0 to 3), four times the phase, and 1,024 times the suspend.
pub fn key_of(n: StateNumbers) -> u32
    ensures { (result ≡ key_of n) × (n.mode < 256) × (n.status < 256) × (n.phase < 256) }
{
    (n.mode as u32)
        + 256 * (n.status as u32)
        + 65536 * (n.phase as u32)
        + 16777216 * (n.suspend as u32)
}

// A proper state with nothing awaited, running or suspended.
pub fn is_resting(n: StateNumbers) -> bool
    ensures { result ≡ resting_in n }
{
    if (n.left as u64) + 65536 * (n.data as u64) + 4294967296 * (n.address as u64) != 0 {
        return false;
    }
    let key = key_of(n);
    if 2 < n.mode {
        return false;
    }
    (key / 256 % 8 == 0) & (key / 16384 == 2)
}

// What is seen, and the state at rest or with a second write awaited.
pub fn rested(
    n: StateNumbers,
    seen: u8,
    value: u16,
    mode: u8,
    status: u8,
    phase: u8,
) -> AnswerNumbers
    ensures { result ≡ rested_as n seen value mode status phase }
{
    let w = n.wear;
    AnswerNumbers {
        seen: seen,
        value: value,
        state: StateNumbers {
            mode: mode,
            status: status,
            phase: phase,
            suspend: 0,
            left: 0,
            data: 0,
            address: 0,
            wear: w,
        },
    }
}

// A command that is known here, by what it sets.
fn sets(mode: u8, status: u8, phase: u8) -> Commanded
    ensures { result ≡ sets_as mode status phase }
{
    Commanded {
        known: true,
        mode: mode,
        status: status,
        phase: phase,
    }
}

// A command that is not known here.
fn unset() -> Commanded
    ensures { result ≡ unset_as }
{
    Commanded {
        known: false,
        mode: 0,
        status: 0,
        phase: 0,
    }
}

// What an ordinary write at rest sets, where its byte only turns mode, status or phase. An idle cycle sets what stands.
pub fn command_of(kind: u8, byte: u16, mode: u8, status: u8) -> Commanded
    ensures { result ≡ commanded_of kind byte mode status }
{
    if kind == 2 {
        return sets(mode, status, 0);
    }
    if kind != 1 {
        return unset();
    }
    if byte == 0xFF {
        return sets(0, status, 0);
    }
    if byte == 0x90 {
        return sets(2, status, 0);
    }
    if byte == 0x70 {
        return sets(1, status, 0);
    }
    if byte == 0x50 {
        return sets(mode, status & 0xC7, 0);
    }
    if byte == 0x20 {
        return sets(1, status, 1);
    }
    if byte == 0x40 {
        return sets(1, status, 2);
    }
    unset()
}

// What the commands set that are seldom written at rest: B0H, and 10H on the parts that know it.
fn seldom_command(large: bool, byte: u16, status: u8) -> Commanded
    ensures { result ≡ seldom_of large byte status }
{
    if byte == 0xB0 {
        return sets(0, status, 0);
    }
    if large & (byte == 0x10) {
        return sets(1, status, 2);
    }
    unset()
}

// What a write at rest sets, where its byte is a command. An idle cycle sets what stands.
pub fn command_by(number: u8, kind: u8, data: u16, mode: u8, sr: u8) -> Commanded
    ensures { result ≡ commanded_by (leb 5 number) kind («data» % 256) mode sr }
{
    let byte = data % 256;
    if kind == 2 {
        return sets(mode, sr, 0);
    }
    if kind != 1 {
        return unset();
    }
    if byte == 0xFF {
        return sets(0, sr, 0);
    }
    if byte == 0x90 {
        return sets(2, sr, 0);
    }
    if byte == 0x70 {
        return sets(1, sr, 0);
    }
    if byte == 0x50 {
        return sets(mode, sr & 0xC7, 0);
    }
    if byte == 0x20 {
        return sets(1, sr, 1);
    }
    if byte == 0x40 {
        return sets(1, sr, 2);
    }
    seldom_command(5 <= number, byte, sr)
}
