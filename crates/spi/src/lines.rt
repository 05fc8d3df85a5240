// The select line by value, taken out of an image and put into it.
ghost use Rattle.std.specs.Prelude.{◌≡◌};
ghost use Rattle.image.specs.Image.{core_of};
ghost use Rattle.spi.specs.Instructions.{speaker_by};
ghost use Rattle.spi.specs.Stages.{stage_number};
ghost use Rattle.spi.specs.Open.{instruction_by, select_of, speaker_of, Turned};

use crate::exchanges::{turn, turn_to};
use crate::{Instruction, Select, Speaker, Stage};
use image::{ADDRESS, Image, MASK, SELECT, SPEAKER};
use registers::RxBuffer;

// The open instruction; a select that is high has none to do.
#[tactic(auto, unfolding(crate::specs::Open::instruction_by))]
fn instruction_by(stage: Stage, address: u8, mask: u8) -> Instruction
    ensures { result ≡ instruction_by (stage_number stage) address mask }
{
    match stage {
        Stage::First => Instruction::First,
        Stage::ReadAddress => Instruction::ReadAddress,
        Stage::Reading => Instruction::Reading(address),
        Stage::WriteAddress => Instruction::WriteAddress,
        Stage::Writing => Instruction::Writing(address),
        Stage::ModifyAddress => Instruction::ModifyAddress,
        Stage::ModifyMask => Instruction::ModifyMask(address),
        Stage::ModifyData => Instruction::ModifyData(address, mask),
        Stage::ReadingRxb0 => Instruction::ReadingBuffer(RxBuffer::Rxb0, address),
        Stage::ReadingRxb1 => Instruction::ReadingBuffer(RxBuffer::Rxb1, address),
        Stage::StatusReply => Instruction::StatusReply,
        Stage::RxStatusReply => Instruction::RxStatusReply,
        Stage::Raised | Stage::Done => Instruction::Done,
    }
}

pub fn select_of(image: &Image) -> Select
    ensures { result ≡ select_of image.now }
{
    if image[SELECT] == Stage::Raised.number() {
        return Select::Raised;
    }
    let speaker = Speaker::from(image[SPEAKER]);
    let stage = Stage::from(image[SELECT]);
    Select::Lowered(speaker, instruction_by(stage, image[ADDRESS], image[MASK]))
}

fn put_data(image: &mut Image, address: u8, mask: u8)
    ensures { Turned image.old image.new (core_of image.old) (Select.Lowered (speaker_of image.old) (Instruction.ModifyData address mask)) }
{
    image[SELECT] = Stage::ModifyData.number();
    image[ADDRESS] = address;
    image[MASK] = mask;
}

#[tactic(auto, unfolding(crate::specs::Open::instruction_by))]
fn put_open(image: &mut Image, instruction: Instruction)
    ensures { Turned image.old image.new (core_of image.old) (Select.Lowered (speaker_of image.old) instruction) }
{
    match instruction {
        Instruction::First => turn(image, Stage::First),
        Instruction::ReadAddress => turn(image, Stage::ReadAddress),
        Instruction::Reading(address) => turn_to(image, Stage::Reading, address),
        Instruction::WriteAddress => turn(image, Stage::WriteAddress),
        Instruction::Writing(address) => turn_to(image, Stage::Writing, address),
        Instruction::ModifyAddress => turn(image, Stage::ModifyAddress),
        Instruction::ModifyMask(address) => turn_to(image, Stage::ModifyMask, address),
        Instruction::ModifyData(address, mask) => put_data(image, address, mask),
        Instruction::ReadingBuffer(buffer, address) => turn_to(image, Stage::from(buffer), address),
        Instruction::StatusReply => turn(image, Stage::StatusReply),
        Instruction::RxStatusReply => turn(image, Stage::RxStatusReply),
        Instruction::Done => turn(image, Stage::Done),
    }
}

pub fn put_select(image: &mut Image, select: Select)
    ensures { Turned image.old image.new (core_of image.old) select }
{
    match select {
        Select::Raised => {
            image[SELECT] = Stage::Raised.number();
        }
        Select::Lowered(speaker, instruction) => {
            image[SPEAKER] = speaker.number();
            put_open(image, instruction);
        }
    }
}
