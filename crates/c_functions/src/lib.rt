// What a C program gets of the library: numbers, slices and structs of numbers at the border, the typed functions behind
// it. include/torfbarke.h declares the same structs and functions.
#![tactic(auto)]

ghost use Rattle.std.specs.Prelude.{◌≡◌, take};
ghost use Rattle.model_states.specs.States.{fresh_state};
ghost use Rattle.file_check.specs.Check.{check_of};
ghost use Rattle.c_cycle.specs.Values.{state_out};
ghost use Rattle.reading_table.specs.Table.{table_number};
ghost use Rattle.c_functions.specs.Geometry.{size_returned, block_returned};
ghost use Rattle.c_cycle.specs.Answers.{cycled, array_cycled};
ghost use Rattle.c_functions.specs.Calls.{started, load_started, verify_started, run_of};
ghost use Rattle.c_steps.specs.Steps.{stepped_of, scratch_stepped};
ghost use Rattle.c_functions.specs.Calls.{array_run, scratch_run, load_run_of, array_load_run, scratch_load_run, verify_run_of};
ghost use Rattle.c_functions.specs.Calls.{array_verify_run};
ghost use Rattle.c_functions.specs.Calls.{scratch_verify_run, load_of, array_load, wanted_load, scratch_load, verify_file_of};
ghost use Rattle.c_functions.specs.Calls.{array_verify_file, wanted_verify_file, scratch_verify_file, written_of, file_left, file_read};
ghost use Rattle.c_functions.specs.Calls.{payload_left, reading_returned, reading_read, wear_added, wear_reported};

use c_cycle::{AnswerNumbers, BusNumbers, DeviceNumbers, StateNumbers, WearNumbers};
use c_ordinary::{command_by, is_fair, is_resting, rested};
use c_readings::ReadingNumbers;
use c_records::{
    BlockNumbers, LoaderNumbers, RanNumbers, ResponseNumbers, SayingNumbers, SizedNumbers,
};
use c_wear::{ReportNumbers, ReportedNumbers};
use device::Part;
use loader::Work;

// A fresh device.
#[unsafe(no_mangle)]
pub extern "C" fn tb_fresh() -> StateNumbers
    ensures { result ≡ state_out fresh_state }
{
    c_cycle::states::state_out(model::fresh())
}

// The bytes of a part's array, the same in either mode; 0 for a number that is no part's.
#[unsafe(no_mangle)]
pub extern "C" fn tb_size(part: u8) -> usize
    ensures { result ≡ size_returned part }
{
    let known = Part {
        number: part,
        word: false,
    };
    if device::unknown_part(known) {
        return 0;
    }
    device::size(known)
}

// The first byte address and the bytes of a flash block, the same in either mode; both 0 where there is none.
#[unsafe(no_mangle)]
pub extern "C" fn tb_block(part: u8, block: u8) -> BlockNumbers
    ensures { result ≡ block_returned part block }
{
    let span = c_blocks::block_at(part, block);
    BlockNumbers {
        first: span.first,
        length: span.length,
    }
}

// One bus cycle.
#[unsafe(no_mangle)]
pub extern "C" fn tb_cycle(
    device: DeviceNumbers,
    state: StateNumbers,
    bus: BusNumbers,
    array: &mut [u8],
    residue: &[u8],
) -> AnswerNumbers
    ensures result { result ≡ cycled device state bus array.old residue.now }
    ensures array_left { array.new ≡ array_cycled device state bus array.old residue.now }
{
    if is_resting(state) {
        if is_fair(device, bus, array.len()) {
            if bus.rp == 0 {
                if bus.kind < 3 {
                    return rested(state, 0, 0, 0, 0x80, 0);
                }
            } else {
                if bus.kind == 0 {
                    if state.mode == 0 {
                        let unit = units::get_unit(device.word == 1, array, bus.address as usize);
                        return rested(state, 1, unit, state.mode, state.status, 0);
                    }
                    if state.mode == 1 {
                        return rested(state, 1, units::wide(state.status), 1, state.status, 0);
                    }
                }
                let set = command_by(device.number, bus.kind, bus.data, state.mode, state.status);
                if set.known {
                    return rested(state, 0, 0, set.mode, set.status, set.phase);
                }
            }
        }
        let b = bus;
        let a = c_operations::other_cycle(device, state, b, array, residue);
        return a;
    }
    let b = bus;
    let a = c_operations::other_cycle(device, state, b, array, residue);
    a
}

// The first cycle of a load with the verify after it.
#[unsafe(no_mangle)]
pub extern "C" fn tb_start(
    part: u8,
    word: u8,
    rp: u8,
    wp: u8,
    vpp: u32,
    block: u8,
    wanted: &[u8],
    scratch: &[u8],
) -> ResponseNumbers
    ensures { result ≡ started part word rp wp vpp block wanted.now scratch.now }
{
    c_steps::started(
        Work::Load(true),
        part,
        word,
        rp,
        wp,
        vpp,
        block,
        wanted,
        scratch,
    )
}

// The first cycle of a load alone.
#[unsafe(no_mangle)]
pub extern "C" fn tb_load_start(
    part: u8,
    word: u8,
    rp: u8,
    wp: u8,
    vpp: u32,
    block: u8,
    wanted: &[u8],
    scratch: &[u8],
) -> ResponseNumbers
    ensures { result ≡ load_started part word rp wp vpp block wanted.now scratch.now }
{
    c_steps::started(
        Work::Load(false),
        part,
        word,
        rp,
        wp,
        vpp,
        block,
        wanted,
        scratch,
    )
}

// The first cycle of a verify alone.
#[unsafe(no_mangle)]
pub extern "C" fn tb_verify_start(
    part: u8,
    word: u8,
    rp: u8,
    wp: u8,
    vpp: u32,
    block: u8,
    wanted: &[u8],
    scratch: &[u8],
) -> ResponseNumbers
    ensures { result ≡ verify_started part word rp wp vpp block wanted.now scratch.now }
{
    c_steps::started(
        Work::Verify,
        part,
        word,
        rp,
        wp,
        vpp,
        block,
        wanted,
        scratch,
    )
}

// A loader's step on numbers, by value.
pub fn stepped(l: LoaderNumbers, value: u16, wanted: &[u8], scratch: &mut [u8]) -> ResponseNumbers
    ensures { (result ≡ stepped_of l value wanted.now scratch.old)
        × (scratch.new ≡ scratch_stepped l value wanted.now scratch.old) }
{
    c_steps::stepped(l, value, wanted, scratch)
}

// The same where the host keeps the record: it is taken out, moved on by value, and stored back.
#[unsafe(no_mangle)]
pub extern "C" fn tb_step(
    loader: &mut LoaderNumbers,
    value: u16,
    wanted: &[u8],
    scratch: &mut [u8],
) -> SayingNumbers
    ensures { (loader.new ≡ (stepped_of loader.old value wanted.now scratch.old).loader)
        × (result ≡ (stepped_of loader.old value wanted.now scratch.old).turn)
        × (scratch.new ≡ scratch_stepped loader.old value wanted.now scratch.old) }
{
    let g = stepped(*loader, value, wanted, scratch);
    *loader = g.loader;
    g.turn
}

// A load of one block and the verify after it, against the model.
#[unsafe(no_mangle)]
pub extern "C" fn tb_run(
    device: DeviceNumbers,
    state: StateNumbers,
    rp: u8,
    wp: u8,
    vpp: u32,
    block: u8,
    array: &mut [u8],
    wanted: &[u8],
    scratch: &mut [u8],
) -> RanNumbers
    ensures result { result ≡ run_of device state rp wp vpp block array.old wanted.now scratch.old }
    ensures array_left { array.new
        ≡ array_run device state rp wp vpp block array.old wanted.now scratch.old }
    ensures scratch_left { scratch.new
        ≡ scratch_run device state rp wp vpp block array.old wanted.now scratch.old }
{
    let j = c_records::runs::job_in(Work::Load(true), device, state, rp, wp, vpp, block);
    let r = loader_quick::run_quick(j, array, wanted, scratch);
    c_records::runs::ran_out(state, r)
}

// A load of one block alone, against the model.
#[unsafe(no_mangle)]
pub extern "C" fn tb_load_run(
    device: DeviceNumbers,
    state: StateNumbers,
    rp: u8,
    wp: u8,
    vpp: u32,
    block: u8,
    array: &mut [u8],
    wanted: &[u8],
    scratch: &mut [u8],
) -> RanNumbers
    ensures result { result ≡ load_run_of device state rp wp vpp block array.old wanted.now scratch.old }
    ensures array_left { array.new
        ≡ array_load_run device state rp wp vpp block array.old wanted.now scratch.old }
    ensures scratch_left { scratch.new
        ≡ scratch_load_run device state rp wp vpp block array.old wanted.now scratch.old }
{
    let j = c_records::runs::job_in(Work::Load(false), device, state, rp, wp, vpp, block);
    let r = loader_quick::run_quick(j, array, wanted, scratch);
    c_records::runs::ran_out(state, r)
}

// A verify of one block alone, against the model.
#[unsafe(no_mangle)]
pub extern "C" fn tb_verify_run(
    device: DeviceNumbers,
    state: StateNumbers,
    rp: u8,
    wp: u8,
    vpp: u32,
    block: u8,
    array: &mut [u8],
    wanted: &[u8],
    scratch: &mut [u8],
) -> RanNumbers
    ensures result { result
        ≡ verify_run_of device state rp wp vpp block array.old wanted.now scratch.old }
    ensures array_left { array.new
        ≡ array_verify_run device state rp wp vpp block array.old wanted.now scratch.old }
    ensures scratch_left { scratch.new
        ≡ scratch_verify_run device state rp wp vpp block array.old wanted.now scratch.old }
{
    let j = c_records::runs::job_in(Work::Verify, device, state, rp, wp, vpp, block);
    let r = loader_quick::run_quick(j, array, wanted, scratch);
    c_records::runs::ran_out(state, r)
}

// A load of one block from a file and the verify after it, against the model.
#[unsafe(no_mangle)]
pub extern "C" fn tb_load(
    device: DeviceNumbers,
    state: StateNumbers,
    rp: u8,
    wp: u8,
    vpp: u32,
    block: u8,
    letter: u8,
    file: &[u8],
    array: &mut [u8],
    wanted: &mut [u8],
    scratch: &mut [u8],
) -> RanNumbers
    ensures result { result
        ≡ load_of device state rp wp vpp block file.now letter array.old wanted.old
        scratch.old }
    ensures array_left { array.new
        ≡ array_load device state rp wp vpp block file.now letter array.old wanted.old
        scratch.old }
    ensures wanted_left { wanted.new
        ≡ wanted_load device state rp wp vpp block file.now letter array.old wanted.old
        scratch.old }
    ensures scratch_left { scratch.new
        ≡ scratch_load device state rp wp vpp block file.now letter array.old wanted.old
        scratch.old }
{
    let j = c_records::runs::job_in(Work::Load(true), device, state, rp, wp, vpp, block);
    let r = loader_from_file::load(j, array, wanted, scratch, file, letter);
    c_records::runs::ran_out(state, r)
}

// A verify of one block against a file, against the model.
#[unsafe(no_mangle)]
pub extern "C" fn tb_verify_file(
    device: DeviceNumbers,
    state: StateNumbers,
    rp: u8,
    wp: u8,
    vpp: u32,
    block: u8,
    letter: u8,
    file: &[u8],
    array: &mut [u8],
    wanted: &mut [u8],
    scratch: &mut [u8],
) -> RanNumbers
    ensures result { result
        ≡ verify_file_of device state rp wp vpp block file.now letter array.old wanted.old
        scratch.old }
    ensures array_left { array.new
        ≡ array_verify_file device state rp wp vpp block file.now letter array.old wanted.old
        scratch.old }
    ensures wanted_left { wanted.new
        ≡ wanted_verify_file device state rp wp vpp block file.now letter array.old wanted.old
        scratch.old }
    ensures scratch_left { scratch.new
        ≡ scratch_verify_file device state rp wp vpp block file.now letter array.old wanted.old
        scratch.old }
{
    let j = c_records::runs::job_in(Work::Verify, device, state, rp, wp, vpp, block);
    let ran = loader_from_file::load(j, array, wanted, scratch, file, letter);
    c_records::runs::ran_out(state, ran)
}

// The writer of a load file.
#[unsafe(no_mangle)]
pub extern "C" fn tb_file_write(letter: u8, payload: &[u8], file: &mut [u8]) -> SizedNumbers
    ensures result { result ≡ written_of letter payload.now file.old }
    ensures file_left { file.new ≡ file_left letter payload.now file.old }
{
    let answer = file_writer::write(letter, payload, file);
    c_records::sizes::sized_out(answer)
}

// The reader of a load file, for the letter asked.
#[unsafe(no_mangle)]
pub extern "C" fn tb_file_read(letter: u8, file: &[u8], payload: &mut [u8]) -> SizedNumbers
    ensures result { result ≡ file_read file.now letter payload.old }
    ensures payload_left { payload.new ≡ payload_left file.now letter payload.old }
{
    let answer = file_codec::read(file, letter, payload);
    c_records::sizes::sized_out(answer)
}

// The check over the first 510 bytes, or over all where there are fewer.
#[unsafe(no_mangle)]
pub extern "C" fn tb_block_check(block: &[u8]) -> u16
    ensures { result ≡ check_of (take 510 block.now) }
{
    file_check::check(block)
}

// A payload judged as a table of knots: 0, 40 or 41.
#[unsafe(no_mangle)]
pub extern "C" fn tb_table_judge(payload: &[u8]) -> u8
    ensures { result ≡ table_number payload.now }
{
    reading_table::judge_table(payload)
}

// The reading at a voltage by a payload, judged or not; or 40 or 41.
#[unsafe(no_mangle)]
pub extern "C" fn tb_table_reading(payload: &[u8], microvolts: i32) -> ReadingNumbers
    ensures { result ≡ reading_returned payload.now microvolts }
{
    let answer = reading::reading_at(payload, microvolts);
    c_readings::answer_numbers(answer)
}

// The reading at a voltage straight from a file, for the letter asked; the payload goes into the front of room.
#[unsafe(no_mangle)]
pub extern "C" fn tb_file_reading(
    letter: u8,
    file: &[u8],
    room: &mut [u8],
    microvolts: i32,
) -> ReadingNumbers
    ensures result { result ≡ reading_read file.now letter room.old microvolts }
    ensures room_left { room.new ≡ payload_left file.now letter room.old }
{
    let answer = reading::reading_from_file(file, letter, room, microvolts);
    c_readings::answer_numbers(answer)
}

// A report on wear, with one trace more.
#[unsafe(no_mangle)]
pub extern "C" fn tb_wear_add(
    part: u8,
    report: ReportNumbers,
    from: u8,
    wear: WearNumbers,
) -> ReportedNumbers
    ensures { result ≡ wear_added part report from wear }
{
    let before = c_wear::report_in(report);
    let counts = c_cycle::counts::wear_in(wear);
    let after = wear::add_to(part, before, from, counts);
    c_wear::reported_out(after)
}

// The report on the wear of many traces: the number of each trace's device, and seven counts for each.
#[unsafe(no_mangle)]
pub extern "C" fn tb_wear_report(part: u8, parts: &[u8], counts: &[u32]) -> ReportedNumbers
    ensures { result ≡ wear_reported part parts.now counts.now }
{
    let reported = wear::report_on(part, parts, counts);
    c_wear::reported_out(reported)
}
