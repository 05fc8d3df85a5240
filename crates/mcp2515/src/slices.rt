// The step over bytes of any length, which a caller may lend: what is no image stays as it is and is refused as a field.
ghost use Rattle.records.specs.Records.{record_of};
ghost use Rattle.image.specs.Image.{Answered, RefusedKept};
ghost use Rattle.controller.specs.Events.{not_an_image};
ghost use Rattle.mcp2515.specs.Step.{outcome, next_chip};
ghost use Rattle.mcp2515.specs.ChipImage.{wanted_outcome, chip_of, Advanced};

use crate::steps;
use image::SIZE;
use records::{Fields, Outcome, Refusal};

pub fn step_in_place(image: &mut [u8], fields: Fields, wanted: bool) -> Outcome
    ensures answered { Answered image.old result (wanted_outcome wanted (outcome (chip_of image.old) (record_of fields))) not_an_image }
    ensures advanced { Advanced image.old image.new (next_chip (chip_of image.old) (record_of fields)) }
    ensures refused_kept { RefusedKept result.refusal image.old image.new }
{
    let Some(image) = image.as_mut_array::<SIZE>() else {
        return records::refused(Refusal::Field.number());
    };
    Outcome::from(steps::step_in_place(image, fields, wanted))
}
