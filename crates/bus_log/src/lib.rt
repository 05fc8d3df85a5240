// A recorded bus log, run through the chip from power-on or from a chip that a C program holds.
#![tactic(auto)]

ghost use Rattle.std.specs.Prelude.{◌≡◌, ◌+◌, ◌≤◌, min, length, pos, neg_ℤ};
ghost use Rattle.std.proofs.lemmas.List.Edits.{sets};
ghost use Rattle.records.specs.Records.{refusal_in};
ghost use Rattle.image.specs.Image.{RefusedKept};
ghost use Rattle.mcp2515.specs.Step.{outcome, next_chip};
ghost use Rattle.mcp2515.specs.ChipImage.{chip_of, Moved};
ghost use Rattle.bus_log.specs.Log.{
  records_in,
  log_refusal,
  steps_in,
  last_chip,
  RefusedStay,
  answer_bytes,
  answers_of,
};
ghost use Rattle.bus_log.specs.Run.{
  answer_size,
  answer_room,
  run_refusal,
  run_result,
  run_answers,
};
ghost use Rattle.bus_log.specs.Held.{held_refusal};
ghost use Rattle.bus_log.specs.From.{RecordRun, RunningFrom};

use image::{Image, SIZE};
use records::{Outcome, Refusal};

pub const RECORD_SIZE: usize = 16;

// The most records that a log may have.
pub const MAX_RECORDS: usize = 65535;

// Refusal and answer of a record, and the same with its set, the filters that match its frame.
pub const ANSWER_SIZE: usize = 2;

pub const ANSWER_SET_SIZE: usize = 3;

// The bytes of an answer. That the sets are wanted is an argument and no const parameter, since `run_from` promises both to its callers.
pub fn answer_size(wanted: bool) -> usize
    ensures { result ≡ answer_size wanted }
{
    if wanted { ANSWER_SET_SIZE } else { ANSWER_SIZE }
}

// Stores refusal and answer of a record at a place, and where it is wanted its set. By place: the library lends no parts of a `&mut` slice,
// of a size known when it runs, of which it is proved that what is written comes back.
#[tactic(auto, using(crate::proofs::Answers::size_least))]
fn put_answer(answers: &mut [u8], at: usize, told: Outcome, wanted: bool)
    requires { at + answer_size wanted ≤ length answers.old }
    ensures { answers.new ≡ sets answers.old at (answer_bytes wanted told) }
{
    answers[at] = told.refusal;
    answers[at + 1] = told.answer;
    if wanted {
        answers[at + 2] = told.matched;
    }
}

// Runs the records of a log over an image and stores refusal and answer of each, and its set where the sets are wanted.
fn run_records<'a>(image: &'a mut Image, log: &'a [u8], answers: &'a mut [u8], wanted: bool)
    requires { answer_room wanted (records_in (length log.now)) ≤ length answers.old }
    ensures answers_after { answers.new ≡ sets answers.old 0 (answers_of wanted (steps_in (chip_of image.old) log.now)) }
    ensures moved { Moved image.old image.new (last_chip (chip_of image.old) (steps_in (chip_of image.old) log.now)) }
    ensures refused_stay { RefusedStay (steps_in (chip_of image.old) log.now) image.old image.new }
{
    let size = answer_size(wanted);
    let (records, _) = log.as_chunks::<RECORD_SIZE>();
    let mut at = 0;
    for record in records {
        let told = mcp2515::steps::step_in_place(image, records::fields_of(record), wanted);
        put_answer(answers, at, Outcome::from(told), wanted);
        at += size;
    }
}

// One record where the chip lies, by the loop of the run and so told by three bytes: the step is then compiled into one place, where the
// run is fastest.

pub fn run_one<'a>(image: &'a mut Image, record: &'a [u8; RECORD_SIZE]) -> Outcome
    ensures told { result ≡ outcome (chip_of image.old) «record».now }
    ensures moved { Moved image.old image.new (next_chip (chip_of image.old) «record».now) }
    ensures refused_kept { RefusedKept result.refusal image.old image.new }
{
    let mut told = [0; ANSWER_SET_SIZE];
    run_records(image, record, &mut told, true);
    let [refusal, answer, matched] = told;
    Outcome {
        refusal,
        answer,
        matched,
    }
}

// The same for bytes of any length, which a caller may lend.
pub fn run_record<'a>(image: &'a mut [u8], record: &'a [u8]) -> Outcome
    ensures { RecordRun image.old «record».now result image.new }
{
    let Some(image) = image.as_mut_array::<SIZE>() else {
        return records::refused(Refusal::Field.number());
    };
    let Some(record) = record.as_array::<RECORD_SIZE>() else {
        return records::refused(Refusal::Field.number());
    };
    run_one(image, record)
}

// The smaller of two sizes.
pub fn least(a: usize, b: usize) -> usize
    ensures { result ≡ min a b }
{
    a.min(b)
}

// Why a log of size bytes is refused, whatever the room.
#[tactic(auto, unfolding(crate::specs::Log::log_refusal))]
pub fn log_refusal(size: usize) -> Result<(), Refusal>
    ensures { refusal_in result ≡ log_refusal size }
{
    if size % RECORD_SIZE > 0 {
        return Err(Refusal::Length);
    }
    if size / RECORD_SIZE > MAX_RECORDS {
        return Err(Refusal::Count);
    }
    Ok(())
}

// The same with room for so many answer bytes.
#[tactic(auto, using(crate::proofs::Refusals::log_first, crate::proofs::Answers::room_most), unfolding(crate::specs::Run::run_refusal))]
fn run_refusal(size: usize, room: usize, wanted: bool) -> Result<(), Refusal>
    ensures { refusal_in result ≡ run_refusal wanted size room }
{
    log_refusal(size)?;
    if answer_size(wanted) * (size / RECORD_SIZE) > room {
        return Err(Refusal::Room);
    }
    Ok(())
}

// The refusal of a call that is lent a chip: bytes that are no chip come first, then what else it refuses. By number, since a caller may
// ask with any.
#[tactic(auto, unfolding(crate::specs::Held::held_refusal))]
pub fn held_refusal(chip: &[u8], refusal: u8) -> u8
    ensures { result ≡ held_refusal chip.now refusal }
{
    if image::is_chip(chip) {
        refusal
    } else {
        Refusal::Chip.number()
    }
}

// What a refused call returns to C. By number, since a caller may ask with any.
pub fn minus(refusal: u8) -> i64
    ensures { result ≡ neg_ℤ (pos refusal) }
{
    -i64::from(refusal)
}

// Runs a log from the chip that is lent and leaves the chip after it there: stores refusal and answer of
// each record, and its set where the sets are wanted, and returns the number of records, or changes nothing
// and returns minus the refusal.
pub fn run_from<'a>(chip: &'a mut [u8], log: &'a [u8], answers: &'a mut [u8], wanted: bool) -> i64
    ensures { RunningFrom wanted chip.old log.now answers.old chip.new answers.new result }
{
    let Some(image) = image::as_mut_chip(chip) else {
        return minus(Refusal::Chip.number());
    };
    if let Err(refusal) = run_refusal(log.len(), answers.len(), wanted) {
        return minus(refusal.number());
    }
    run_records(image, log, answers, wanted);
    (log.len() / RECORD_SIZE) as i64
}

// The same from power-on, with no chip to hold.
#[unsafe(no_mangle)]
pub extern "C" fn mcp2515_run_log(log: &[u8], answers: &mut [u8]) -> i64
    ensures result { result ≡ run_result (length log.now) (length answers.old) }
    ensures buffer { answers.new ≡ run_answers log.now answers.old }
{
    let mut image = image::power_on();
    run_from(&mut image, log, answers, false)
}
