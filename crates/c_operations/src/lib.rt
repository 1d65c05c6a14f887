// A bus cycle while an operation is awaited, running or suspended, or is cut, from numbers to numbers. What a sufficient test knows is
// answered from the numbers; every other cycle goes the typed way, and is judged there alone. Mode, status, phase and suspend are asked as
// one number (`key_of`): 4 times a phase and 2 is that phase with SR.7 set, and 3 with SR.6 too.
#![tactic(auto)]

ghost use Rattle.std.specs.Prelude.{◌≡◌, true, false, not, List, ℕ, ◌≤◌, ◌<◌, length, eqb};
ghost use Rattle.units.specs.Units.{units, spare};
ghost use Rattle.device.specs.Parts.{size_of, block_of};
ghost use Rattle.model.specs.Inner.{done_of};
ghost use Rattle.c_cycle.specs.Values.{device_in};
ghost use Rattle.c_cycle.specs.Answers.{cycled, array_cycled};
ghost use Rattle.c_operations.specs.Operations.{Running, Suspending, Suspended, Awaiting, Starting, Barred, Supplied};
ghost use Rattle.c_operations.specs.Operations.{end_in, up_in, Cutting, coded_as};
ghost use Rattle.c_ordinary.specs.Ordinary.{Fair};
ghost use Rattle.c_answers.specs.Answers.{ended_as};

use c_answers::{cut, ended, given, polled, refused, typed, worn, written};
use c_cycle::states::{part_in, pins_in};
use c_cycle::{AnswerNumbers, BusNumbers, DeviceNumbers, StateNumbers};
use c_ordinary::{command_by, is_fair_level, is_resting, is_timed, key_of, units_of};
use model_levels::unlocked;
use model_rules::{code_place, identifier};

// An operation is running, in a proper state, where its address is inside the array: phase 3, a program, or 4, an erase.
fn is_running(d: DeviceNumbers, n: StateNumbers) -> bool
    ensures { result ≡ true → n.address < size_of (device_in d).part → Running d n }
{
    let key = key_of(n);
    if n.left == 0 {
        return false;
    }
    if key % 2048 != 1 {
        return false;
    }
    if key / 16384 == 12 {
        return n.left <= d.program;
    }
    (key / 16384 == 16) & (n.data == 0) & (n.left <= d.erase)
}

// A suspend is under way, in a proper state, where its address is inside the array: phase 6.
fn is_suspending(d: DeviceNumbers, n: StateNumbers) -> bool
    ensures { result ≡ true → n.address < size_of (device_in d).part → Suspending d n }
{
    let key = key_of(n);
    if n.suspend == 0 {
        return false;
    }
    if d.suspend < n.suspend {
        return false;
    }
    if n.left == 0 {
        return false;
    }
    if key % 2048 != 1 {
        return false;
    }
    (key / 16384 % 1024 == 24) & (n.data == 0) & (n.left <= d.erase)
}

// An erase is suspended, in a proper state, where its address is inside the array: phase 5, SR.7 and SR.6 set.
fn is_suspended(d: DeviceNumbers, n: StateNumbers) -> bool
    ensures { result ≡ true → n.address < size_of (device_in d).part → Suspended d n }
{
    let key = key_of(n);
    if n.left == 0 {
        return false;
    }
    if 1 < key % 2048 {
        return false;
    }
    (key / 16384 == 23) & (n.data == 0) & (n.left <= d.erase)
}

// A second write is awaited, in a proper state.
fn is_awaiting(n: StateNumbers, phase: u8) -> bool
    requires { phase < 3 }
    ensures { result ≡ true → Awaiting n phase }
{
    if (n.left as u64) + 65536 * (n.data as u64) + 4294967296 * (n.address as u64) != 0 {
        return false;
    }
    let key = key_of(n);
    (key % 2048 == 1) & (key / 16384 == 4 * (phase as u32) + 2)
}

// An end: the array, and what is seen.
fn end_cycle(d: DeviceNumbers, n: StateNumbers, kind: u8, array: &mut [u8]) -> AnswerNumbers
    requires { (Running d n) × (length (units (device_in d).part.word array.old) ≡ size_of (device_in d).part) }
    ensures result { result ≡ ended_as n kind }
    ensures array_left { (rs : List ℕ) → units (device_in d).part.word array.new
        ≡ done_of (end_in (device_in d).part n) (device_in d).part rs (units (device_in d).part.word array.old) }
    ensures array_spare { spare (device_in d).part.word array.new
        ≡ spare (device_in d).part.word array.old }
{
    if n.phase == 3 {
        units::program_unit(d.word == 1, array, n.address as usize, n.data);
        return ended(n, kind);
    }
    let part = part_in(d.number, d.word);
    let span = device::block_span(part, device::block_of(part, n.address));
    units::erase_units(d.word == 1, array, span.first, span.length);
    ended(n, kind)
}

// Another block than that of the erase.
fn is_elsewhere(d: DeviceNumbers, n: StateNumbers, address: u32) -> bool
    ensures { result ≡ not (eqb (block_of (device_in d).part address) (block_of (device_in d).part n.address)) }
{
    let part = part_in(d.number, d.word);
    device::block_of(part, address) != device::block_of(part, n.address)
}

// An identifier read: the code, or refusal 9.
fn code_read(d: DeviceNumbers, n: StateNumbers, address: u32) -> AnswerNumbers
    ensures { result ≡ coded_as (device_in d).part n address }
{
    let part = part_in(d.number, d.word);
    if 1 < code_place(part, address) {
        return refused(n, 9);
    }
    given(n, identifier(part, address))
}

// A read while an erase is suspended, and an identifier read at rest.
fn held_read(
    d: DeviceNumbers,
    n: StateNumbers,
    b: BusNumbers,
    array: &mut [u8],
    residue: &[u8],
) -> AnswerNumbers
    requires { (Supplied d b (length array.old)) × (n.address < size_of (device_in d).part) × (b.kind ≡ 0) }
    ensures result { result ≡ cycled d n b array.old residue.now }
    ensures array_left { array.new ≡ array_cycled d n b array.old residue.now }
{
    if is_suspended(d, n) {
        if n.mode == 1 {
            return given(n, units::wide(n.status));
        }
        if is_elsewhere(d, n, b.address) {
            return given(n, units::get_unit(d.word == 1, array, b.address as usize));
        }
        return refused(n, 8);
    }
    if is_resting(n) {
        if n.mode == 2 {
            return code_read(d, n, b.address);
        }
    }
    let a = typed(d, n, b, array, residue);
    a
}

// A read or an idle cycle.
fn poll_cycle(
    d: DeviceNumbers,
    n: StateNumbers,
    b: BusNumbers,
    array: &mut [u8],
    residue: &[u8],
) -> AnswerNumbers
    requires { (Supplied d b (length array.old)) × (n.address < size_of (device_in d).part) × (eqb b.kind 1 ≡ false) }
    ensures result { result ≡ cycled d n b array.old residue.now }
    ensures array_left { array.new ≡ array_cycled d n b array.old residue.now }
{
    if is_running(d, n) {
        if n.left == 1 {
            return end_cycle(d, n, b.kind, array);
        }
        return polled(n, b.kind, n.status, n.phase, n.suspend, n.left - 1);
    }
    if is_suspending(d, n) {
        if n.suspend == 1 {
            return polled(n, b.kind, n.status | 0xC0, 5, 0, n.left);
        }
        return polled(n, b.kind, n.status, 6, n.suspend - 1, n.left);
    }
    if b.kind == 0 {
        return held_read(d, n, b, array, residue);
    }
    let a = typed(d, n, b, array, residue);
    a
}

// A write while an erase is suspended, and one of no command at rest.
fn suspended_write(
    d: DeviceNumbers,
    n: StateNumbers,
    b: BusNumbers,
    array: &mut [u8],
    residue: &[u8],
) -> AnswerNumbers
    requires { (Supplied d b (length array.old)) × (n.address < size_of (device_in d).part) × (b.kind ≡ 1) }
    ensures result { result ≡ cycled d n b array.old residue.now }
    ensures array_left { array.new ≡ array_cycled d n b array.old residue.now }
{
    if is_suspended(d, n) {
        let byte = b.data % 256;
        if byte == 0xFF {
            return written(n, 0, n.status, 5, 0, n.left, 0, n.address);
        }
        if byte == 0x70 {
            return written(n, 1, n.status, 5, 0, n.left, 0, n.address);
        }
        if byte == 0xD0 {
            return written(n, 1, n.status & 0x3F, 4, 0, n.left, 0, n.address);
        }
    }
    if is_resting(n) {
        let set = command_by(d.number, 1, b.data, n.mode, n.status);
        if !set.known {
            return refused(n, 7);
        }
    }
    let a = typed(d, n, b, array, residue);
    a
}

// B0H while an erase is busy.
fn suspend_write(
    d: DeviceNumbers,
    n: StateNumbers,
    b: BusNumbers,
    array: &mut [u8],
    residue: &[u8],
) -> AnswerNumbers
    requires { (Supplied d b (length array.old)) × (n.address < size_of (device_in d).part) × (b.kind ≡ 1) × (n.phase ≡ 4) }
    ensures result { result ≡ cycled d n b array.old residue.now }
    ensures array_left { array.new ≡ array_cycled d n b array.old residue.now }
{
    if b.data % 256 == 0xB0 {
        if n.left != 1 {
            if is_running(d, n) {
                return written(n, 1, n.status, 6, d.suspend, n.left - 1, 0, n.address);
            }
        }
    }
    let a = typed(d, n, b, array, residue);
    a
}

// The block at which a second write starts its operation; 254 where the address is locked, 255 where SR.3 is set or none is awaited.
fn starting_block(d: DeviceNumbers, n: StateNumbers, b: BusNumbers, phase: u8) -> u8
    requires { (phase < 3) × (b.kind ≡ 1) }
    ensures starts { result < 254 → (Starting d n b phase) × (result ≡ block_of (device_in d).part b.address) }
    ensures barred { result ≡ 254 → Barred d n b phase }
{
    if is_awaiting(n, phase) {
        if n.status / 8 % 2 == 0 {
            let part = part_in(d.number, d.word);
            let k = device::block_of(part, b.address);
            if k != 0 {
                return k;
            }
            if unlocked(part, pins_in(b.rp, b.wp, b.vpp), b.oe) {
                return 0;
            }
            return 254;
        }
    }
    255
}

// The second write of a program that starts.
fn data_write(
    d: DeviceNumbers,
    n: StateNumbers,
    b: BusNumbers,
    array: &mut [u8],
    residue: &[u8],
) -> AnswerNumbers
    requires { (Supplied d b (length array.old)) × (n.address < size_of (device_in d).part) × (b.kind ≡ 1) }
    ensures result { result ≡ cycled d n b array.old residue.now }
    ensures array_left { array.new ≡ array_cycled d n b array.old residue.now }
{
    let k = starting_block(d, n, b, 2);
    if k == 254 {
        return written(n, 1, n.status | 0x10, 0, 0, 0, 0, 0);
    }
    if k < 254 {
        let unit = units::carry(d.word == 1, b.data);
        return written(n, 1, n.status & 0x7F, 3, 0, d.program, unit, b.address);
    }
    let a = typed(d, n, b, array, residue);
    a
}

// D0H that starts an erase.
fn confirm_write(
    d: DeviceNumbers,
    n: StateNumbers,
    b: BusNumbers,
    array: &mut [u8],
    residue: &[u8],
) -> AnswerNumbers
    requires { (Supplied d b (length array.old)) × (n.address < size_of (device_in d).part) × (b.kind ≡ 1) }
    ensures result { result ≡ cycled d n b array.old residue.now }
    ensures array_left { array.new ≡ array_cycled d n b array.old residue.now }
{
    if b.data % 256 == 0xD0 {
        let k = starting_block(d, n, b, 1);
        if k == 254 {
            return written(n, 1, n.status | 0x20, 0, 0, 0, 0, 0);
        }
        if k < 254 {
            return worn(n, d.erase, b.address, k);
        }
    }
    let a = typed(d, n, b, array, residue);
    a
}

// A write, by the phase.
fn write_cycle(
    d: DeviceNumbers,
    n: StateNumbers,
    b: BusNumbers,
    array: &mut [u8],
    residue: &[u8],
) -> AnswerNumbers
    requires { (Supplied d b (length array.old)) × (n.address < size_of (device_in d).part) × (b.kind ≡ 1) }
    ensures result { result ≡ cycled d n b array.old residue.now }
    ensures array_left { array.new ≡ array_cycled d n b array.old residue.now }
{
    if n.phase == 1 {
        return confirm_write(d, n, b, array, residue);
    }
    if n.phase == 2 {
        return data_write(d, n, b, array, residue);
    }
    if n.phase == 4 {
        return suspend_write(d, n, b, array, residue);
    }
    suspended_write(d, n, b, array, residue)
}

// The units of the array where the cycle is fair; none otherwise.
fn fair_units(d: DeviceNumbers, b: BusNumbers, len: usize) -> usize
    ensures { 0 < result → (Fair d b len) × (result ≡ size_of (device_in d).part) }
{
    if !is_timed(d) {
        return 0;
    }
    if is_fair_level(b.rp, b.oe, b.wp, b.vpp) {
        let units = units_of(d.number, d.word, len);
        if (b.address as usize) < units {
            if b.kind < 3 {
                return units;
            }
        }
    }
    0
}

// An operation goes on, where the levels are good: RP# is up, and VPP not low.
fn is_up(number: u8, rp: u8, vpp: u32) -> bool
    ensures { result ≡ up_in number rp vpp }
{
    if rp == 0 {
        return false;
    }
    if 11400 <= vpp {
        return true;
    }
    (4500 <= vpp) & (5 <= number)
}

// A cut of a program: the residue's first unit says which bits stay.
fn program_cut(
    d: DeviceNumbers,
    n: StateNumbers,
    b: BusNumbers,
    array: &mut [u8],
    residue: &[u8],
) -> AnswerNumbers
    requires { (Fair d b (length array.old)) × (Running d n) × (Cutting d b) × (n.phase ≡ 3) }
    ensures result { result ≡ cycled d n b array.old residue.now }
    ensures array_left { array.new ≡ array_cycled d n b array.old residue.now }
{
    if 1 <= units::units_in(d.word == 1, residue.len()) {
        let r = units::get_unit(d.word == 1, residue, 0);
        units::program_unit(d.word == 1, array, n.address as usize, n.data | r);
        return cut(n, b, 0x98);
    }
    let a = typed(d, n, b, array, residue);
    a
}

// A cut of an erase: the block is the residue's first units.
fn erase_cut(
    d: DeviceNumbers,
    n: StateNumbers,
    b: BusNumbers,
    array: &mut [u8],
    residue: &[u8],
) -> AnswerNumbers
    requires { (Fair d b (length array.old)) × (Running d n) × (Cutting d b) × (n.phase ≡ 4) }
    ensures result { result ≡ cycled d n b array.old residue.now }
    ensures array_left { array.new ≡ array_cycled d n b array.old residue.now }
{
    let part = part_in(d.number, d.word);
    let span = device::block_span(part, device::block_of(part, n.address));
    if span.length <= units::units_in(d.word == 1, residue.len()) {
        units::leave_units(d.word == 1, array, span.first, span.length, residue);
        return cut(n, b, 0xA8);
    }
    let a = typed(d, n, b, array, residue);
    a
}

// A cycle with RP# or VPP low that cuts what is running.
fn cut_cycle(
    d: DeviceNumbers,
    n: StateNumbers,
    b: BusNumbers,
    array: &mut [u8],
    residue: &[u8],
) -> AnswerNumbers
    requires { (Fair d b (length array.old)) × (n.address < size_of (device_in d).part)
        × (up_in d.number b.rp b.vpp ≡ false) }
    ensures result { result ≡ cycled d n b array.old residue.now }
    ensures array_left { array.new ≡ array_cycled d n b array.old residue.now }
{
    if (b.kind != 1) | (b.rp == 0) {
        if is_running(d, n) {
            if n.phase == 3 {
                return program_cut(d, n, b, array, residue);
            }
            return erase_cut(d, n, b, array, residue);
        }
    }
    let a = typed(d, n, b, array, residue);
    a
}

// Every cycle but a fair one at rest.
pub fn other_cycle(
    device: DeviceNumbers,
    state: StateNumbers,
    bus: BusNumbers,
    array: &mut [u8],
    residue: &[u8],
) -> AnswerNumbers
    ensures result { result ≡ cycled device state bus array.old residue.now }
    ensures array_left { array.new ≡ array_cycled device state bus array.old residue.now }
{
    if (state.address as usize) < fair_units(device, bus, array.len()) {
        if is_up(device.number, bus.rp, bus.vpp) {
            if bus.kind == 1 {
                return write_cycle(device, state, bus, array, residue);
            }
            return poll_cycle(device, state, bus, array, residue);
        }
        return cut_cycle(device, state, bus, array, residue);
    }
    let a = typed(device, state, bus, array, residue);
    a
}
