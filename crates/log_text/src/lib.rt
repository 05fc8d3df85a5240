// The text of a replay: a line for each record of the log, rendered a stretch at a time.
#![tactic(auto)]

ghost use Rattle.std.specs.Prelude.{◌≡◌, [], ◌∷◌, ◌+◌, ◌*◌, ◌≤◌, ◌<◌, ◌^◌, length};
ghost use Rattle.records.specs.Records.{refusal_in};
ghost use Rattle.mcp2515.specs.ChipImage.{chip_of, Moved};
ghost use Rattle.bus_log.specs.Log.{record_size, steps_of, last_chip, RefusedStay};
ghost use Rattle.log_text.specs.Decimal.{decimal_of};
ghost use Rattle.log_text.specs.Line.{field_of, line_with, record_line};
ghost use Rattle.log_text.specs.Stretch.{
  line_room,
  records_left,
  stretch_steps,
  stretch_refusal,
  stretch_room,
  short_room,
  replay_of,
  Rendering,
};
ghost use Rattle.log_text.specs.Storing.{Stored, Lined, Written};
ghost use Rattle.log_text.specs.Text.{TextHeld};

use bus_log::{MAX_RECORDS, RECORD_SIZE};
use image::Image;
use mcp2515::Chip;
use records::{Kind, Outcome, Refusal};

// The most bytes of a line.
const LINE_ROOM: usize = 23;

// What a stretch leaves: 0 where the run goes on, else the refusal that ended it, or 7 for an output
// that is too short; the bytes of text; the records run so far and the chip that they left. The refusal
// is a number, since rendered_of, which the promises name, says it of numbers.
#[derive(Clone, Copy)]
pub struct Rendered {
    pub refusal: u8,
    pub len: usize,
    pub number: u32,
    pub chip: Chip,
}

// Each put function stores its text at a place of out and returns the place after it. A struct of both
// would be no plainer: each clause would have to name what it lends.
fn put_byte(out: &mut [u8], at: usize, b: u8) -> usize
    requires { at < length out.old }
    ensures { Stored out.old at (b ∷ []) out.new result }
{
    out[at] = b;
    at + 1
}

fn put_decimal(out: &mut [u8], at: usize, n: u64) -> usize
    requires { at + length (decimal_of n) ≤ length out.old }
    ensures { Stored out.old at (decimal_of n) out.new result }
{
    if n < 10 {
        return put_byte(out, at, b'0' + n as u8);
    }
    let last = put_decimal(out, at, n / 10);
    put_byte(out, last, b'0' + (n % 10) as u8)
}

// A number of one digit, as most refusals and answers are, takes no call: by put_decimal alone a text takes
// 2 to 5 % longer.
#[tactic(auto, using(crate::proofs::Decimals::decimal_small, crate::proofs::Decimals::small_length))]
fn put_number(out: &mut [u8], at: usize, n: u64) -> usize
    requires { at + length (decimal_of n) ≤ length out.old }
    ensures { Stored out.old at (decimal_of n) out.new result }
{
    if n < 10 {
        return put_byte(out, at, b'0' + n as u8);
    }
    put_decimal(out, at, n)
}

fn put_field(out: &mut [u8], at: usize, n: u64, end: u8) -> usize
    requires { at + length (decimal_of n) < length out.old }
    ensures { Stored out.old at (field_of n end) out.new result }
{
    let last = put_number(out, at, n);
    put_byte(out, last, end)
}

// The line of a record, with its set as a fourth number where it has one.
fn put_line(
    out: &mut [u8],
    at: usize,
    number: u64,
    refusal: u8,
    answer: u8,
    set: Option<u8>,
) -> usize
    requires { (at + line_room ≤ length out.old) × (number ≤ 2 ^ 32) }
    ensures line { Stored out.old at (line_with number refusal answer set) out.new result }
    ensures most { result ≤ at + line_room }
{
    let second = put_field(out, at, number, b' ');
    let third = put_field(out, second, refusal as u64, b' ');
    let Some(set) = set else {
        return put_field(out, third, answer as u64, b'\n');
    };
    let fourth = put_field(out, third, answer as u64, b' ');
    put_field(out, fourth, set as u64, b'\n')
}

// The line of a record, by its kind: a frame has its set.
#[tactic(auto, unfolding(crate::specs::Line::record_line))]
fn put_told(out: &mut [u8], at: usize, kind: u8, number: u64, told: Outcome) -> usize
    requires { (at + line_room ≤ length out.old) × (number ≤ 2 ^ 32) }
    ensures line { Stored out.old at (record_line kind number told) out.new result }
    ensures most { result ≤ at + line_room }
{
    let set = (kind == Kind::FrameHeard as u8).then_some(told.matched);
    put_line(out, at, number, told.refusal, told.answer, set)
}

// The lines of count records, after number others and over the chip that they left, which lies in image.
// Returns the bytes of text.
fn put_records<'a>(
    image: &'a mut Image,
    number: u32,
    part: &'a [u8],
    count: usize,
    out: &'a mut [u8],
) -> usize
    requires { (count * record_size ≤ length part.now) × (count * line_room ≤ length out.old) × (number + count < 2 ^ 32) }
    ensures lined { Lined (chip_of image.old) number count part.now out.old out.new result }
    ensures moved { Moved image.old image.new (last_chip (chip_of image.old) (steps_of count (chip_of image.old) part.now)) }
    ensures refused_stay { RefusedStay (steps_of count (chip_of image.old) part.now) image.old image.new }
{
    let (records, _) = part.as_chunks::<RECORD_SIZE>();
    let mut len = 0;
    let mut last = number as u64;
    for record in &records[..count] {
        let told = bus_log::run_one(image, record);
        last += 1;
        len = put_told(out, len, record[0], last, told);
    }
    len
}

// How many records may still be run after number of them.
fn records_left(number: u32) -> usize
    ensures { result ≡ records_left number }
{
    MAX_RECORDS.saturating_sub(number as usize)
}

// Why the run ends in a stretch of size bytes, if it does. Past the limit only a whole record is one too
// many; a short one is short.
#[tactic(auto, unfolding(crate::specs::Stretch::stretch_refusal))]
pub fn end_refusal(number: u32, size: usize) -> Result<(), Refusal>
    ensures { refusal_in result ≡ stretch_refusal number size }
{
    if records_left(number) < size / RECORD_SIZE {
        return Err(Refusal::Count);
    }
    if size % RECORD_SIZE > 0 {
        return Err(Refusal::Length);
    }
    Ok(())
}

// A line for each whole record and one more is the room that a stretch asks, whatever its text needs.
fn room_refusal(part: &[u8], room: usize) -> Result<(), Refusal>
    ensures { refusal_in result ≡ short_room (length part.now) room }
{
    if room < (part.len() / RECORD_SIZE + 1) * LINE_ROOM {
        return Err(Refusal::Room);
    }
    Ok(())
}

// The text of a stretch of the log, after number records and over the chip that they left, which lies in
// image. Returns the bytes of text.
fn put_stretch<'a>(image: &'a mut Image, number: u32, part: &'a [u8], out: &'a mut [u8]) -> usize
    requires { stretch_room (length part.now) ≤ length out.old }
    ensures written { Written (chip_of image.old) number part.now out.old out.new result }
    ensures moved { Moved image.old image.new (replay_of (chip_of image.old) number part.now).chip }
    ensures refused_stay { RefusedStay (stretch_steps (chip_of image.old) number part.now) image.old image.new }
{
    let size = part.len();
    let count = bus_log::least(size / RECORD_SIZE, records_left(number));
    let len = put_records(image, number, part, count, out);
    match end_refusal(number, size) {
        Ok(()) => len,
        Err(refusal) => put_line(
            out,
            len,
            number as u64 + count as u64 + 1,
            refusal.number(),
            0,
            None,
        ),
    }
}

// The text of a stretch over a chip by value.
pub fn render_stretch(chip: Chip, number: u32, part: &[u8], out: &mut [u8]) -> Rendered
    ensures { Rendering chip number part.now out.old out.new result }
{
    if let Err(refusal) = room_refusal(part, out.len()) {
        return Rendered {
            refusal: refusal.number(),
            len: 0,
            number,
            chip,
        };
    }
    let mut image = mcp2515::pack(chip);
    let len = put_stretch(&mut image, number, part, out);
    let size = part.len();
    let count = bus_log::least(size / RECORD_SIZE, records_left(number));
    let refusal = match end_refusal(number, size) {
        Ok(()) => 0,
        Err(refusal) => refusal.number(),
    };
    Rendered {
        refusal,
        len,
        number: number + count as u32,
        chip: mcp2515::unpack(image),
    }
}

// The text of a stretch over a chip that a C program holds, left there as the stretch leaves it: returns
// the bytes of text, or changes nothing and returns minus the refusal.
pub fn render_held<'a>(chip: &'a mut [u8], number: u32, part: &'a [u8], text: &'a mut [u8]) -> i64
    ensures { TextHeld chip.old number part.now text.old chip.new text.new result }
{
    let Some(image) = image::as_mut_chip(chip) else {
        return bus_log::minus(Refusal::Chip.number());
    };
    if let Err(refusal) = room_refusal(part, text.len()) {
        return bus_log::minus(refusal.number());
    }
    put_stretch(image, number, part, text) as i64
}
