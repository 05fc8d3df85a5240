// The same for bytes of any length, which a caller may lend: what is no image hears nothing and stays as it is.
ghost use Rattle.image.specs.Image.{core_of, Acted, Answered};
ghost use Rattle.receiving.specs.Receiving.{reception_number, received_of};
ghost use Rattle.receiving.specs.AnswerSets.{answer_set_in, answer_set_to, plain_answer};

use crate::{Reception, verdicts};
use image::SIZE;
use records::{Answer, Frame};

// The receive rules whole, as verdicts::receive has them.
pub fn receive(image: &mut [u8], frame: Frame, wanted: bool) -> Answer
    ensures answered { Answered image.old (answer_set_in result) (answer_set_to wanted (received_of (core_of image.old) frame)) (plain_answer (reception_number Reception.NotListening)) }
    ensures acted { Acted image.old image.new (received_of (core_of image.old) frame).core }
{
    let Some(image) = image.as_mut_array::<SIZE>() else {
        return verdicts::unheard(Reception::NotListening);
    };
    verdicts::receive(image, frame, wanted)
}
