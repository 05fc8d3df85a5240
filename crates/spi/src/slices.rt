// The same for bytes of any length, which a caller may lend: in what is no image the select is high, and it stays as it is.
ghost use Rattle.image.specs.Image.{Answered};
ghost use Rattle.spi.specs.Open.{select_of, Exchanged, Opened, Closed, Selected};

use crate::{Select, exchanges, lines};
use image::SIZE;

pub fn exchange(image: &mut [u8], byte: u8) -> u8
    ensures { Exchanged image.old image.new byte result }
{
    let Some(image) = image.as_mut_array::<SIZE>() else {
        return 0;
    };
    exchanges::exchange(image, byte)
}

pub fn open(image: &mut [u8], speaker: u8)
    ensures { Opened image.old image.new speaker }
{
    let Some(image) = image.as_mut_array::<SIZE>() else {
        return;
    };
    exchanges::open(image, speaker);
}

pub fn close(image: &mut [u8])
    ensures { Closed image.old image.new }
{
    let Some(image) = image.as_mut_array::<SIZE>() else {
        return;
    };
    exchanges::close(image);
}

pub fn select_of(image: &[u8]) -> Select
    ensures { Answered image.now result (select_of image.now) Select.Raised }
{
    let Some(image) = image.as_array::<SIZE>() else {
        return Select::Raised;
    };
    lines::select_of(image)
}

pub fn put_select(image: &mut [u8], select: Select)
    ensures { Selected image.old image.new select }
{
    let Some(image) = image.as_mut_array::<SIZE>() else {
        return;
    };
    lines::put_select(image, select);
}
