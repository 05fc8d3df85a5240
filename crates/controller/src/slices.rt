// The same for bytes of any length, which a caller may lend: an event for what is no image is refused and changes nothing.
ghost use Rattle.records.specs.Records.{record_of, refusal_in, outcome_of};
ghost use Rattle.image.specs.Image.{core_of, Acted, Answered, RefusedKept};
ghost use Rattle.controller.specs.Events.{event_of, outcome_told, not_an_image};

use crate::events;
use image::SIZE;
use records::{Answer, Fields, Refusal};

pub fn event(image: &mut [u8], fields: Fields, wanted: bool) -> Result<Answer, Refusal>
    ensures answered { Answered image.old (outcome_of result) (outcome_told wanted (event_of (core_of image.old) (record_of fields))) not_an_image }
    ensures acted { Acted image.old image.new (event_of (core_of image.old) (record_of fields)).core }
    ensures refused_kept { RefusedKept (refusal_in result) image.old image.new }
{
    let Some(image) = image.as_mut_array::<SIZE>() else {
        return Err(Refusal::Field);
    };
    events::event(image, fields, wanted)
}
