// A recording checked for a C program, in an archive of its own: a lent list of structs of numbers is walked once, each copied out. What a
// sufficient test knows, and is not at fault, is answered from the numbers; every other one is read as a record and handed to the step of
// recordings, and is judged there alone. include/torfbarke.h declares the same structs and the function.
#![tactic(auto)]

pub mod records;

ghost use Rattle.std.specs.Prelude.{◌≡◌, true, false, List, ℕ, ◌+◌, ◌*◌, ◌/◌, ◌%◌, ◌≤◌, ◌<◌, length};
ghost use Rattle.recording.specs.Recordings.{recorded_of, bytes_recorded};
ghost use Rattle.recording_walk.specs.Inner.{place_after, went_by, went_on, bytes_on, walk_from, end_of};
ghost use Rattle.c_cycle.specs.Values.{device_in, state_in};
ghost use Rattle.c_ordinary.specs.Ordinary.{units_for};
ghost use Rattle.c_recording.specs.Records.{record_in, checked_out, checked_returned, array_checked};
ghost use Rattle.c_recording.specs.Known.{rest_of, state_of, walk_in, Sized, moved_as, good, Passes, stepped_to};
ghost use Rattle.c_recording.specs.Known.{Usual, Calm, Awaits, Polls, Holds, Erases};

use c_cycle::states::{device_in, part_in, state_in, state_out};
use c_cycle::{BusNumbers, DeviceNumbers, StateNumbers, WearNumbers};
use c_ordinary::{command_by, is_fair_level, is_timed, key_of, units_of};
use recording_walk::Walk;

// A record: the cycle, whether data were seen, these data, and the busy count.
#[repr(C)]
#[derive(Clone, Copy)]
pub struct RecordNumbers {
    pub bus: BusNumbers,
    pub seen: u8,
    pub value: u16,
    pub busy: u32,
}

// What the check of a recording answers.
#[repr(C)]
#[derive(Clone, Copy)]
pub struct CheckedNumbers {
    pub refusal: u8,
    pub accepted: u8,
    pub at: usize,
    pub state: StateNumbers,
}

// A walk as numbers: its device and the units of the array, or none; of the state the first four numbers as one (`key_of`), the next three
// as one (`rest_of`), and the counts of erases; the refusal or 0, whether the walk has stopped, and the records that passed.
#[derive(Clone, Copy)]
pub struct Going {
    pub device: DeviceNumbers,
    pub units: usize,
    pub key: u32,
    pub rest: u64,
    pub wear: WearNumbers,
    pub number: u8,
    pub stopped: bool,
    pub at: usize,
}

// What a record that is known here leaves, in the two numbers of a state.
#[derive(Clone, Copy)]
pub struct Moved {
    pub known: bool,
    pub key: u32,
    pub rest: u64,
}

// Whether a record is at fault, and the state that it leaves.
#[derive(Clone, Copy)]
pub struct Stepped {
    pub fault: bool,
    pub key: u32,
    pub rest: u64,
    pub wear: WearNumbers,
}

// The largest place.
const MOST: usize = 0xFFFF_FFFF_FFFF_FFFF;

// Cycles to go, data and address as one number.
fn rest_of(n: StateNumbers) -> u64
    ensures { (result ≡ rest_of n) × (n.left < 65536) × (n.data < 65536) }
{
    (n.left as u64) + 65536 * (n.data as u64) + 4294967296 * (n.address as u64)
}

// A state by its two numbers and its counts.
fn state_of(key: u32, rest: u64, wear: WearNumbers) -> StateNumbers
    ensures { result ≡ state_of key rest wear }
{
    StateNumbers {
        mode: (key % 256) as u8,
        status: (key / 256 % 256) as u8,
        phase: (key / 65536 % 256) as u8,
        suspend: (key / 16777216) as u8,
        left: (rest % 65536) as u16,
        data: (rest / 65536 % 65536) as u16,
        address: (rest / 4294967296) as u32,
        wear: wear,
    }
}

// The first number of a state without a suspend.
fn joined(mode: u8, status: u8, phase: u8) -> u32
    ensures { (result ≡ mode + 256 * status + 65536 * phase) × (mode < 256) × (status < 256) × (phase < 256) }
{
    (mode as u32) + 256 * (status as u32) + 65536 * (phase as u32)
}

fn leaves(key: u32, rest: u64) -> Moved
    ensures { result ≡ moved_as key rest }
{
    Moved {
        known: true,
        key: key,
        rest: rest,
    }
}

// A record that is not known here.
fn unknown() -> Moved
    ensures { result.known ≡ false }
{
    Moved {
        known: false,
        key: 0,
        rest: 0,
    }
}

// A read at rest: of the array, or of the status.
fn rest_read(array: &[u8], d: DeviceNumbers, key: u32, r: RecordNumbers) -> Moved
    requires { r.bus.kind ≡ 0 }
    ensures { result.known ≡ true → Usual d r array.now → Calm key
        → Passes d r array.now key 0 result.key result.rest array.now }
{
    if r.seen != 1 {
        return unknown();
    }
    if key % 256 == 0 {
        if units::get_unit(d.word == 1, array, r.bus.address as usize) == r.value {
            return leaves(key, 0);
        }
        return unknown();
    }
    if key % 256 == 1 {
        if key / 256 % 256 == (r.value as u32) {
            return leaves(key, 0);
        }
    }
    unknown()
}

// A write or an idle cycle at rest.
fn rest_write(d: DeviceNumbers, key: u32, r: RecordNumbers) -> Moved
    ensures { result.known ≡ true → (xs : List ℕ) → Usual d r xs → Calm key → Passes d r xs key 0 result.key result.rest xs }
{
    if r.seen != 0 {
        return unknown();
    }
    let set = command_by(
        d.number,
        r.bus.kind,
        r.bus.data,
        (key % 256) as u8,
        (key / 256 % 256) as u8,
    );
    if set.known {
        return leaves(joined(set.mode, set.status, set.phase), 0);
    }
    unknown()
}

// An operation goes on at this VPP, where the levels are good.
fn is_high(number: u8, vpp: u32) -> bool
    ensures { result ≡ true → (11400 ≤ vpp → ⊥) → (4500 ≤ vpp) × (5 ≤ number) }
{
    if 11400 <= vpp {
        return true;
    }
    (4500 <= vpp) & (5 <= number)
}

// The data of a program that starts outside the boot block.
fn data_write(d: DeviceNumbers, key: u32, r: RecordNumbers) -> Moved
    requires { Awaits key }
    ensures { result.known ≡ true → (xs : List ℕ) → Usual d r xs → Passes d r xs key 0 result.key result.rest xs }
{
    if r.bus.kind != 1 {
        return unknown();
    }
    if r.seen != 0 {
        return unknown();
    }
    if r.busy == 0 {
        return unknown();
    }
    if 65535 < r.busy {
        return unknown();
    }
    if key / 2048 % 2 != 0 {
        return unknown();
    }
    let part = part_in(d.number, d.word);
    if device::block_of(part, r.bus.address) == 0 {
        return unknown();
    }
    if is_high(d.number, r.bus.vpp) {
        let unit = units::carry(d.word == 1, r.bus.data);
        let left = r.busy as u64;
        return leaves(
            key + 32768,
            left + 65536 * (unit as u64) + 4294967296 * (r.bus.address as u64),
        );
    }
    unknown()
}

// A record with nothing running.
fn at_rest(array: &[u8], d: DeviceNumbers, key: u32, r: RecordNumbers) -> Moved
    ensures { result.known ≡ true → Usual d r array.now
        → Passes d r array.now key 0 result.key result.rest array.now }
{
    if 2 < key % 2048 {
        return unknown();
    }
    if key / 16384 == 2 {
        if r.bus.kind == 0 {
            return rest_read(array, d, key, r);
        }
        return rest_write(d, key, r);
    }
    if key % 2048 != 1 {
        return unknown();
    }
    if key / 16384 == 10 {
        return data_write(d, key, r);
    }
    unknown()
}

// A poll that ends a program.
fn last_poll(array: &mut [u8], d: DeviceNumbers, key: u32, rest: u64, r: RecordNumbers) -> Moved
    requires { (Polls d r key) × (rest % 65536 ≡ 1) }
    ensures told { result.known ≡ true → Usual d r array.old
        → rest / 4294967296 < units_for d.number d.word (length array.old)
        → Passes d r array.old key rest result.key result.rest array.new }
    ensures array_left { result.known ≡ false → array.new ≡ array.old }
{
    if key / 256 % 256 + 128 == (r.value as u32) {
        units::program_unit(
            d.word == 1,
            array,
            (rest / 4294967296) as usize,
            (rest / 65536 % 65536) as u16,
        );
        return leaves(key - 163840, 0);
    }
    unknown()
}

// A poll of a program that goes on.
fn more_poll(d: DeviceNumbers, key: u32, rest: u64, r: RecordNumbers) -> Moved
    requires { (Polls d r key) × (rest % 65536 ≡ 1 → ⊥) }
    ensures { result.known ≡ true → (xs : List ℕ) → Usual d r xs → rest / 4294967296 < units_for d.number d.word (length xs)
        → Passes d r xs key rest result.key result.rest xs }
{
    if rest % 65536 == 0 {
        return unknown();
    }
    if key / 256 % 256 == (r.value as u32) {
        return leaves(key, rest - 1);
    }
    unknown()
}

// A record with a program running.
fn running(
    array: &mut [u8],
    d: DeviceNumbers,
    units: usize,
    key: u32,
    rest: u64,
    r: RecordNumbers,
) -> Moved
    ensures told { result.known ≡ true → Usual d r array.old → Sized d units (length array.old)
        → Passes d r array.old key rest result.key result.rest array.new }
    ensures array_left { result.known ≡ false → array.new ≡ array.old }
{
    if r.bus.kind != 0 {
        return unknown();
    }
    if r.seen != 1 {
        return unknown();
    }
    if key % 2048 != 1 {
        return unknown();
    }
    if key / 16384 != 12 {
        return unknown();
    }
    if units <= (rest / 4294967296) as usize {
        return unknown();
    }
    if is_high(d.number, r.bus.vpp) {
        if rest % 65536 == 1 {
            return last_poll(array, d, key, rest, r);
        }
        return more_poll(d, key, rest, r);
    }
    unknown()
}

// A read of another block while an erase is suspended, in read array.
fn held_read(array: &[u8], d: DeviceNumbers, key: u32, rest: u64, r: RecordNumbers) -> Moved
    requires { (Holds d r key rest) × (r.bus.kind ≡ 0) }
    ensures { result.known ≡ true → Usual d r array.now
        → rest / 4294967296 < units_for d.number d.word (length array.now)
        → Passes d r array.now key rest result.key result.rest array.now }
{
    if r.seen != 1 {
        return unknown();
    }
    if key % 256 == 1 {
        return unknown();
    }
    let part = part_in(d.number, d.word);
    if device::block_of(part, r.bus.address) == device::block_of(part, (rest / 4294967296) as u32) {
        return unknown();
    }
    if units::get_unit(d.word == 1, array, r.bus.address as usize) == r.value {
        return leaves(key, rest);
    }
    unknown()
}

// FFH or D0H while an erase is suspended.
fn held_write(d: DeviceNumbers, key: u32, rest: u64, r: RecordNumbers) -> Moved
    requires { (Holds d r key rest) × (r.bus.kind ≡ 1) }
    ensures { result.known ≡ true → (xs : List ℕ) → Usual d r xs → rest / 4294967296 < units_for d.number d.word (length xs)
        → Passes d r xs key rest result.key result.rest xs }
{
    if r.seen != 0 {
        return unknown();
    }
    if r.bus.data % 256 == 0xFF {
        return leaves(key / 256 * 256, rest);
    }
    if r.bus.data % 256 == 0xD0 {
        return leaves(key / 256 * 256 - 114687, rest);
    }
    unknown()
}

// A record with an erase suspended.
fn held(
    array: &[u8],
    d: DeviceNumbers,
    units: usize,
    key: u32,
    rest: u64,
    r: RecordNumbers,
) -> Moved
    requires { key / 16384 ≡ 23 }
    ensures { result.known ≡ true → Usual d r array.now → Sized d units (length array.now)
        → Passes d r array.now key rest result.key result.rest array.now }
{
    if 1 < key % 2048 {
        return unknown();
    }
    if rest % 65536 == 0 {
        return unknown();
    }
    if rest / 65536 % 65536 != 0 {
        return unknown();
    }
    if units <= (rest / 4294967296) as usize {
        return unknown();
    }
    if is_high(d.number, r.bus.vpp) {
        if r.bus.kind == 0 {
            return held_read(array, d, key, rest, r);
        }
        if r.bus.kind == 1 {
            return held_write(d, key, rest, r);
        }
    }
    unknown()
}

// A poll of an erase that goes on.
fn erase_poll(d: DeviceNumbers, key: u32, rest: u64, r: RecordNumbers) -> Moved
    requires { (Erases d r key rest) × (r.bus.kind ≡ 0) }
    ensures { result.known ≡ true → (xs : List ℕ) → Usual d r xs → rest / 4294967296 < units_for d.number d.word (length xs)
        → Passes d r xs key rest result.key result.rest xs }
{
    if r.seen != 1 {
        return unknown();
    }
    if key / 256 % 256 == (r.value as u32) {
        return leaves(key, rest - 1);
    }
    unknown()
}

// B0H while an erase goes on.
fn suspend_write(d: DeviceNumbers, key: u32, rest: u64, r: RecordNumbers) -> Moved
    requires { (Erases d r key rest) × (r.bus.kind ≡ 1) }
    ensures { result.known ≡ true → (xs : List ℕ) → Usual d r xs → rest / 4294967296 < units_for d.number d.word (length xs)
        → Passes d r xs key rest result.key result.rest xs }
{
    if r.seen != 0 {
        return unknown();
    }
    if r.bus.data % 256 == 0xB0 {
        return leaves(key + 131072 + 16777216 * (d.suspend as u32), rest - 1);
    }
    unknown()
}

// A record with an erase running that has more than this cycle to go.
fn erasing(d: DeviceNumbers, units: usize, key: u32, rest: u64, r: RecordNumbers) -> Moved
    requires { key / 16384 ≡ 16 }
    ensures { result.known ≡ true → (xs : List ℕ) → Usual d r xs → Sized d units (length xs)
        → Passes d r xs key rest result.key result.rest xs }
{
    if key % 2048 != 1 {
        return unknown();
    }
    if rest % 65536 < 2 {
        return unknown();
    }
    if rest / 65536 % 65536 != 0 {
        return unknown();
    }
    if units <= (rest / 4294967296) as usize {
        return unknown();
    }
    if is_high(d.number, r.bus.vpp) {
        if r.bus.kind == 0 {
            return erase_poll(d, key, rest, r);
        }
        if r.bus.kind == 1 {
            return suspend_write(d, key, rest, r);
        }
    }
    unknown()
}

// A record that is known here, where it is not at fault.
fn quick(
    array: &mut [u8],
    d: DeviceNumbers,
    units: usize,
    key: u32,
    rest: u64,
    r: RecordNumbers,
) -> Moved
    ensures told { result.known ≡ true → Sized d units (length array.old)
        → Passes d r array.old key rest result.key result.rest array.new }
    ensures array_left { result.known ≡ false → array.new ≡ array.old }
{
    if units <= r.bus.address as usize {
        return unknown();
    }
    if r.bus.rp == 0 {
        return unknown();
    }
    if is_fair_level(r.bus.rp, r.bus.oe, r.bus.wp, r.bus.vpp) {
        if rest == 0 {
            return at_rest(array, d, key, r);
        }
        if key / 16384 == 23 {
            return held(array, d, units, key, rest, r);
        }
        if key / 16384 == 16 {
            return erasing(d, units, key, rest, r);
        }
        return running(array, d, units, key, rest, r);
    }
    unknown()
}

// One record by the step of recordings.
fn judged(array: &mut [u8], d: DeviceNumbers, n: StateNumbers, r: RecordNumbers) -> Stepped
    ensures result { stepped_to result ≡ recorded_of (device_in d) (state_in n) (record_in r) array.old }
    ensures array_left { array.new ≡ bytes_recorded (device_in d) (state_in n) (record_in r) array.old }
{
    let x = recording::step_record(device_in(d), state_in(n), records::record_in(r), array);
    let s = x.state;
    let t = state_out(s);
    let w = t.wear;
    Stepped {
        fault: x.fault,
        key: key_of(t),
        rest: rest_of(t),
        wear: w,
    }
}

// The place after a record that passed.
fn following(at: usize) -> usize
    ensures { result ≡ place_after false at }
{
    if at < MOST {
        return at + 1;
    }
    at
}

// The place after a record: a fault stays where it is.
fn place_after(fault: bool, at: usize) -> usize
    ensures { result ≡ place_after fault at }
{
    if fault {
        return at;
    }
    following(at)
}

// The walk after a record that is known here.
fn passed(w: Going, x: Moved) -> Going
    ensures { (walk_in result ≡ went_by (walk_in w) (good x.key x.rest w.wear))
        × (result.device ≡ w.device) × (result.units ≡ w.units) }
{
    let d = w.device;
    let v = w.wear;
    Going {
        device: d,
        units: w.units,
        key: x.key,
        rest: x.rest,
        wear: v,
        number: w.number,
        stopped: false,
        at: following(w.at),
    }
}

// The walk after a record by the step of recordings.
fn went_by(w: Going, x: Stepped) -> Going
    ensures { (walk_in result ≡ went_by (walk_in w) (stepped_to x)) × (result.device ≡ w.device) × (result.units ≡ w.units) }
{
    let d = w.device;
    let v = x.wear;
    let fault = x.fault;
    Going {
        device: d,
        units: w.units,
        key: x.key,
        rest: x.rest,
        wear: v,
        number: w.number,
        stopped: fault,
        at: place_after(fault, w.at),
    }
}

// The units of the array that the device has, where it is one.
fn units_for(d: DeviceNumbers, n: usize) -> usize
    ensures { Sized d result n }
{
    if is_timed(d) {
        return units_of(d.number, d.word, n);
    }
    0
}

// The walk at its start, on an array of n bytes.
fn begun(device: DeviceNumbers, state: StateNumbers, n: usize) -> Going
    ensures { (walk_in result ≡ walk_from (device_in device) (state_in state) n) × (Sized result.device result.units n) }
{
    let d = device_in(device);
    let s = state_in(state);
    let w = recording_walk::begin(d, s, n);
    let v = state.wear;
    Going {
        device: device,
        units: units_for(device, n),
        key: key_of(state),
        rest: rest_of(state),
        wear: v,
        number: w.number,
        stopped: w.stopped,
        at: w.at,
    }
}

// One record more. The step has two callers, so that the compiler lays it into neither.
fn gone_on(array: &mut [u8], w: Going, n: RecordNumbers) -> Going
    ensures { Sized w.device w.units (length array.old)
        → (walk_in result ≡ went_on (walk_in w) (record_in n) array.old)
        × (array.new ≡ bytes_on (walk_in w) (record_in n) array.old)
        × (Sized result.device result.units (length array.old)) }
{
    let stopped = w.stopped;
    if stopped {
        return w;
    }
    let d = w.device;
    let x = quick(array, d, w.units, w.key, w.rest, n);
    if x.known {
        return passed(w, x);
    }
    let v = w.wear;
    if n.bus.kind == 0 {
        let y = judged(array, d, state_of(w.key, w.rest, v), n);
        return went_by(w, y);
    }
    let y = judged(array, d, state_of(w.key, w.rest, v), n);
    went_by(w, y)
}

// What a walk that has come to the end of the list answers, for the state that came in.
fn ended(promised: &[u8], array: &mut [u8], w: Going, state: StateNumbers) -> CheckedNumbers
    ensures { (result ≡ checked_out state (end_of (walk_in w) promised.now array.old))
        × (array.new ≡ array.old) }
{
    let v = w.wear;
    let d = device_in(w.device);
    let s = state_in(state_of(w.key, w.rest, v));
    let walk = Walk {
        device: d,
        state: s,
        number: w.number,
        stopped: w.stopped,
        at: w.at,
    };
    let checked = recording_walk::end(promised, array, walk);
    records::checked_out(state, checked)
}

// A recording: a list of records walked to its end.
#[unsafe(no_mangle)]
pub extern "C" fn tb_recording(
    device: DeviceNumbers,
    state: StateNumbers,
    list: &[RecordNumbers],
    promised: &[u8],
    array: &mut [u8],
) -> CheckedNumbers
    ensures { (result ≡ checked_returned device state list.now promised.now array.old)
        × (array.new ≡ array_checked device state list.now array.old) }
{
    let mut w = begun(device, state, array.len());
    for r in list {
        w = gone_on(array, w, *r);
    }
    ended(promised, array, w, state)
}
