// The step, in place and by value.
ghost use Rattle.std.specs.Prelude.{◌≡◌, cond, Option};
ghost use Rattle.records.specs.Records.{
  accepted,
  refused_field,
  refusal_in,
  outcome_of,
  kind_by,
  sound_as,
  record_of,
};
ghost use Rattle.registers.specs.Registers.{holds, reads, int_is_low};
ghost use Rattle.image.specs.Image.{RefusedKept};
ghost use Rattle.spi.specs.Instructions.{speaker_by};
ghost use Rattle.spi.specs.Open.{select_of};
ghost use Rattle.mcp2515.specs.Step.{power_on, line_refusal, step_of, outcome, next_chip};
ghost use Rattle.mcp2515.specs.ChipImage.{wanted_outcome, chip_of, Moved, SpiStep, told};
ghost use Rattle.mcp2515.specs.Promise.{Stepping};

use crate::packing::{pack, unpack};
use crate::{Chip, Stepped};
use image::{Image, SELECT, SPEAKER};
use records::{Answer, Fields, Kind, Outcome, Refusal};
use spi::Stage;

#[tactic(auto, using(crate::proofs::Images::power_on_chip))]
pub fn power_on() -> Chip
    ensures { result ≡ power_on }
{
    unpack(image::power_on())
}

// What an address holds.
pub fn hold(chip: Chip, address: u8) -> u8
    ensures { result ≡ holds chip.core address }
{
    image::addresses::hold(&pack(chip), address)
}

// What a READ of an address replies.
pub fn read(chip: Chip, address: u8) -> u8
    ensures { result ≡ reads chip.core address }
{
    image::addresses::read(&pack(chip), address)
}

// The INT line.
pub fn int_is_low(chip: Chip) -> bool
    ensures { result ≡ int_is_low chip.core.control }
{
    registers::int_is_low(chip.core.control)
}

fn accept(byte: u8) -> Result<Answer, Refusal>
    ensures { outcome_of result ≡ told byte }
{
    Ok(Answer { byte, matched: 0 })
}

fn check_fields(kind: Kind, fields: Fields) -> Result<(), Refusal>
    ensures { refusal_in result ≡ cond (sound_as kind (record_of fields)) accepted refused_field }
{
    if records::is_sound_as(kind, fields) {
        Ok(())
    } else {
        Err(Refusal::Field)
    }
}

// Whoever exchanges or raises the select has lowered it.
fn check_line(image: &Image, speaker: u8) -> Result<(), Refusal>
    ensures { refusal_in result ≡ line_refusal (select_of image.now) (speaker_by speaker) }
{
    if image[SELECT] == Stage::Raised.number() {
        return Err(Refusal::Select);
    }
    if !spi::is_same(image[SPEAKER], speaker) {
        return Err(Refusal::Speaker);
    }
    Ok(())
}

fn step_low(image: &mut Image, fields: Fields) -> Result<Answer, Refusal>
    requires { kind_by fields.kind ≡ Option.Some Kind.SelectLow }
    ensures { SpiStep image.old image.new (record_of fields) result }
{
    check_fields(Kind::SelectLow, fields)?;
    if image[SELECT] == Stage::Raised.number() {
        spi::exchanges::open(image, fields.code);
        return accept(0);
    }
    Err(Refusal::Select)
}

fn step_exchange(image: &mut Image, fields: Fields) -> Result<Answer, Refusal>
    requires { kind_by fields.kind ≡ Option.Some Kind.Exchange }
    ensures { SpiStep image.old image.new (record_of fields) result }
{
    check_fields(Kind::Exchange, fields)?;
    check_line(image, fields.code)?;
    accept(spi::exchanges::exchange(image, fields.field))
}

fn step_high(image: &mut Image, fields: Fields) -> Result<Answer, Refusal>
    requires { kind_by fields.kind ≡ Option.Some Kind.SelectHigh }
    ensures { SpiStep image.old image.new (record_of fields) result }
{
    check_fields(Kind::SelectHigh, fields)?;
    check_line(image, fields.code)?;
    spi::exchanges::close(image);
    accept(0)
}

// One record, where the chip lies: an event never looks at the SPI side. The set is worked out where it is asked for.
// By tests in this order, and by number: a jump by all nine kinds at this place makes a log up to a tenth slower.
pub fn step_in_place(image: &mut Image, fields: Fields, wanted: bool) -> Result<Answer, Refusal>
    ensures answered { outcome_of result ≡ wanted_outcome wanted (outcome (chip_of image.old) (record_of fields)) }
    ensures moved { Moved image.old image.new (next_chip (chip_of image.old) (record_of fields)) }
    ensures refused_kept { RefusedKept (refusal_in result) image.old image.new }
{
    if fields.kind < Kind::FrameHeard as u8 {
        if fields.kind == Kind::Exchange as u8 {
            return step_exchange(image, fields);
        }
        if fields.kind == Kind::SelectLow as u8 {
            return step_low(image, fields);
        }
        return step_high(image, fields);
    }
    controller::events::event(image, fields, wanted)
}

#[tactic(auto, using(crate::proofs::Images::stepped_back))]
fn advance(chip: Chip, record: [u8; 16]) -> Stepped
    ensures { result ≡ step_of chip «record» }
{
    let mut image = pack(chip);
    let told = Outcome::from(step_in_place(&mut image, records::fields_of(&record), true));
    Stepped {
        chip: unpack(image),
        refusal: told.refusal,
        answer: told.answer,
        matched: told.matched,
    }
}

// One record, by value. What it promises beside its result is in specs/Promise.antt.
pub fn step(chip: Chip, record: [u8; 16]) -> Stepped
    ensures { Stepping chip «record» result }
{
    advance(chip, record)
}
