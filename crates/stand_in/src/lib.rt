// The calls of a C program that holds a chip as bytes of its own. The archive of this crate has the calls
// marked here and no others, so those of bus_log, compare and log_text stand here once more. The calls on bit
// timing need no chip.
#![tactic(auto)]

mod loads;

ghost use Rattle.std.specs.Prelude.{◌≡◌, true, false, length, pos, neg_ℤ};
ghost use Rattle.records.specs.Records.{refusal_number, refusal_in};
ghost use Rattle.registers.specs.Registers.{holds, reads, int_is_low};
ghost use Rattle.mcp2515.specs.ChipImage.{chip_of};
ghost use Rattle.bus_log.specs.Run.{call_result, run_result, run_answers};
ghost use Rattle.bus_log.specs.From.{RunningFrom};
ghost use Rattle.compare.specs.Compare.{compare_result, compare_entries};
ghost use Rattle.bit_timing.specs.Timing.{setting_by, is_sound, faults_of, difference_of};
ghost use Rattle.log_text.specs.Stretch.{stretch_refusal};
ghost use Rattle.log_text.specs.Text.{TextHeld};
ghost use Rattle.stand_in.specs.StandIn.{
  power_result,
  power_bytes,
  PowerOnHeld,
  record_refusal,
  StepHeld,
  held_answer,
  zero_or_one,
};
ghost use Rattle.stand_in.specs.LoadCalls.{LoadCall, records_result, records_after};
ghost use Rattle.stand_in.specs.TimingCalls.{
  setting_size,
  setting_refusal,
  setting_after,
  PlanCall,
};

use bit_timing::Setting;
use bus_log::RECORD_SIZE;
use image::SIZE;
use records::Refusal;

// CNF1, CNF2, CNF3.
const SETTING_SIZE: usize = 3;

// What a refused call returns to C.
fn refused(refusal: Refusal) -> i64
    ensures { result ≡ neg_ℤ (pos (refusal_number refusal)) }
{
    bus_log::minus(refusal.number())
}

// A chip as power-on leaves it: returns the bytes used, or changes nothing and returns minus 19.
#[unsafe(no_mangle)]
pub extern "C" fn mcp2515_power_on(chip: &mut [u8]) -> i64
    ensures result { result ≡ power_result chip.old }
    ensures bytes { (chip.new ≡ power_bytes chip.old) × PowerOnHeld }
{
    let Some(first) = chip.first_chunk_mut::<SIZE>() else {
        return refused(Refusal::Short);
    };
    *first = image::power_on();
    SIZE as i64
}

// Whether a record of size bytes, with room for so many answer bytes, is taken.
fn check_record(size: usize, room: usize, wanted: bool) -> Result<(), Refusal>
    ensures { refusal_in result ≡ record_refusal wanted size room }
{
    if size != RECORD_SIZE {
        Err(Refusal::Length)
    } else if room < bus_log::answer_size(wanted) {
        Err(Refusal::Room)
    } else {
        Ok(())
    }
}

// One record, as a log of its own; with its set where that is wanted, which is an argument as it is of `run_from`.
fn step<'a>(chip: &'a mut [u8], record: &'a [u8], answer: &'a mut [u8], wanted: bool) -> i64
    ensures { StepHeld wanted chip.old «record».now answer.old chip.new answer.new result }
{
    let Some(image) = image::as_mut_chip(chip) else {
        return refused(Refusal::Chip);
    };
    if let Err(refusal) = check_record(record.len(), answer.len(), wanted) {
        return refused(refusal);
    }
    bus_log::run_from(image, record, answer, wanted);
    bus_log::answer_size(wanted) as i64
}

// One record: stores its refusal and answer and returns 2, or changes nothing and returns minus the
// refusal of the call.
#[unsafe(no_mangle)]
pub extern "C" fn mcp2515_step<'a>(
    chip: &'a mut [u8],
    record: &'a [u8],
    answer: &'a mut [u8],
) -> i64
    ensures { StepHeld false chip.old «record».now answer.old chip.new answer.new result }
{
    step(chip, record, answer, false)
}

// The same with the record's set, the filters that match its frame: stores three bytes and returns 3.
#[unsafe(no_mangle)]
pub extern "C" fn mcp2515_step_set<'a>(
    chip: &'a mut [u8],
    record: &'a [u8],
    answer: &'a mut [u8],
) -> i64
    ensures { StepHeld true chip.old «record».now answer.old chip.new answer.new result }
{
    step(chip, record, answer, true)
}

// A log from the chip that is lent, which is left as the log leaves it: stores refusal and answer of each
// record and returns the number of records, or changes nothing and returns minus the refusal.
#[unsafe(no_mangle)]
pub extern "C" fn mcp2515_run_from<'a>(
    chip: &'a mut [u8],
    log: &'a [u8],
    answers: &'a mut [u8],
) -> i64
    ensures { RunningFrom false chip.old log.now answers.old chip.new answers.new result }
{
    bus_log::run_from(chip, log, answers, false)
}

// A log from power-on, with no chip to hold.
#[unsafe(no_mangle)]
pub extern "C" fn mcp2515_run_log(log: &[u8], answers: &mut [u8]) -> i64
    ensures result { result ≡ run_result (length log.now) (length answers.old) }
    ensures buffer { answers.new ≡ run_answers log.now answers.old }
{
    bus_log::mcp2515_run_log(log, answers)
}

// Two logs, each from power-on by a chip of its own: stores an entry for each record in which they differ and
// returns the number of entries, or changes nothing and returns minus the refusal.
#[unsafe(no_mangle)]
pub extern "C" fn mcp2515_compare_logs<'a>(
    first: &'a [u8],
    second: &'a [u8],
    entries: &'a mut [u8],
) -> i64
    ensures result { result ≡ compare_result first.now second.now (length entries.old) }
    ensures buffer { entries.new ≡ compare_entries first.now second.now entries.old }
{
    compare::mcp2515_compare_logs(first, second, entries)
}

// The text of a part of a log, after number records and from the chip that is lent, which is left as the
// part leaves it: returns the bytes of text, or changes nothing and returns minus the refusal.
#[unsafe(no_mangle)]
pub extern "C" fn mcp2515_render<'a>(
    chip: &'a mut [u8],
    number: u32,
    part: &'a [u8],
    text: &'a mut [u8],
) -> i64
    ensures { TextHeld chip.old number part.now text.old chip.new text.new result }
{
    log_text::render_held(chip, number, part, text)
}

// The refusal that ends a replay in such a part, or 0.
#[unsafe(no_mangle)]
pub extern "C" fn mcp2515_part_refusal(number: u32, size: usize) -> i64
    ensures { result ≡ pos (stretch_refusal number size) }
{
    match log_text::end_refusal(number, size) {
        Ok(()) => 0,
        Err(refusal) => i64::from(refusal.number()),
    }
}

// What an address holds.
#[tactic(auto, using(crate::proofs::Calls::held_value, crate::proofs::Calls::no_value))]
#[unsafe(no_mangle)]
pub extern "C" fn mcp2515_hold(chip: &[u8], address: u8) -> i64
    ensures { result ≡ held_answer chip.now (holds (chip_of chip.now).core address) }
{
    let Some(image) = image::as_chip(chip) else {
        return refused(Refusal::Chip);
    };
    i64::from(image::addresses::hold(image, address))
}

// What a READ of an address replies.
#[tactic(auto, using(crate::proofs::Calls::held_value, crate::proofs::Calls::no_value))]
#[unsafe(no_mangle)]
pub extern "C" fn mcp2515_read(chip: &[u8], address: u8) -> i64
    ensures { result ≡ held_answer chip.now (reads (chip_of chip.now).core address) }
{
    let Some(image) = image::as_chip(chip) else {
        return refused(Refusal::Chip);
    };
    i64::from(image::addresses::read(image, address))
}

// Whether the INT line is low: 1 or 0.
#[tactic(auto, using(crate::proofs::Calls::held_test, crate::proofs::Calls::no_value))]
#[unsafe(no_mangle)]
pub extern "C" fn mcp2515_int_is_low(chip: &[u8]) -> i64
    ensures { result ≡ held_answer chip.now (zero_or_one (int_is_low (chip_of chip.now).core.control)) }
{
    let Some(image) = image::as_chip(chip) else {
        return refused(Refusal::Chip);
    };
    i64::from(registers::int_is_low(image::control::control_of(image)))
}

// The rules of bit timing that three bytes break, a bit for each.
#[unsafe(no_mangle)]
pub extern "C" fn mcp2515_timing_faults(cnf1: u8, cnf2: u8, cnf3: u8) -> i64
    ensures { result ≡ pos (faults_of (setting_by cnf1 cnf2 cnf3)) }
{
    i64::from(bit_timing::faults(Setting { cnf1, cnf2, cnf3 }))
}

// Whether three bytes keep all of them: 1 or 0.
#[unsafe(no_mangle)]
pub extern "C" fn mcp2515_check_timing(cnf1: u8, cnf2: u8, cnf3: u8) -> i64
    ensures { result ≡ pos (zero_or_one (is_sound (setting_by cnf1 cnf2 cnf3))) }
{
    i64::from(bit_timing::check(Setting { cnf1, cnf2, cnf3 }))
}

// Oscillator less what the bit rate would need, with its sign.
#[unsafe(no_mangle)]
pub extern "C" fn mcp2515_timing_difference(
    oscillator: u32,
    rate: u32,
    cnf1: u8,
    cnf2: u8,
    cnf3: u8,
) -> i64
    ensures { result ≡ difference_of oscillator rate (setting_by cnf1 cnf2 cnf3) }
{
    bit_timing::difference(oscillator, rate, Setting { cnf1, cnf2, cnf3 })
}

// Stores the three bytes of a setting and returns 3, or changes nothing and returns minus 19.
fn put_setting(room: &mut [u8], setting: Setting) -> i64
    ensures result { result ≡ call_result (setting_refusal (length room.old)) setting_size }
    ensures bytes { room.new ≡ setting_after setting room.old }
{
    let Some(first) = room.first_chunk_mut::<SETTING_SIZE>() else {
        return refused(Refusal::Short);
    };
    *first = [setting.cnf1, setting.cnf2, setting.cnf3];
    SETTING_SIZE as i64
}

// The best setting for an oscillator and a bit rate: stores its three bytes and returns 3, or changes nothing
// and returns 0 where there is none, or minus the refusal.
#[unsafe(no_mangle)]
pub extern "C" fn mcp2515_plan_timing(oscillator: u32, rate: u32, cnf: &mut [u8]) -> i64
    ensures { PlanCall oscillator rate cnf.old cnf.new result }
{
    match bit_timing::plan(oscillator, rate) {
        Err(refusal) => refused(refusal),
        Ok(None) if cnf.len() < SETTING_SIZE => refused(Refusal::Short),
        Ok(None) => 0,
        Ok(Some(plan)) => put_setting(cnf, plan.setting),
    }
}

// Loads a profile, with the bus events that come between the loader's commands: returns 1 for in and 0 for
// waiting, or changes nothing and returns minus the refusal.
#[unsafe(no_mangle)]
pub extern "C" fn mcp2515_load_profile<'a>(
    chip: &'a mut [u8],
    profile: &'a [u8],
    events: &'a [u8],
) -> i64
    ensures { LoadCall chip.old profile.now events.now chip.new result }
{
    let Some(image) = image::as_mut_chip(chip) else {
        return refused(Refusal::Chip);
    };
    match loads::sized(profile, events) {
        Ok(profile) => loads::load_profile(image, profile, events),
        Err(refusal) => refused(refusal),
    }
}

// The records of that load: stores them and returns how many, or changes nothing and returns minus the refusal.
#[unsafe(no_mangle)]
pub extern "C" fn mcp2515_load_records<'a>(
    chip: &'a [u8],
    profile: &'a [u8],
    events: &'a [u8],
    records: &'a mut [u8],
) -> i64
    ensures result { result ≡ records_result chip.now profile.now events.now (length records.old) }
    ensures buffer { records.new ≡ records_after chip.now profile.now events.now records.old }
{
    let Some(image) = image::as_chip(chip) else {
        return refused(Refusal::Chip);
    };
    match loads::sized(profile, events) {
        Ok(profile) => loads::load_records(image, profile, events, records),
        Err(refusal) => refused(refusal),
    }
}
