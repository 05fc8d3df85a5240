// The same for bytes of any length, which a caller may lend: what is no image stays as it is.
ghost use Rattle.registers.specs.State.{rts_bit, with_control};
ghost use Rattle.image.specs.Image.{control_of, core_of, Acted};
ghost use Rattle.stores.specs.Store.{requested_to_send, stored, modified};

use crate::bytes;
use image::SIZE;
use registers::TxBuffer;

pub fn store(image: &mut [u8], address: u8, value: u8)
    ensures { Acted image.old image.new (stored (core_of image.old) address value) }
{
    let Some(image) = image.as_mut_array::<SIZE>() else {
        return;
    };
    bytes::store(image, address, value);
}

pub fn modify(image: &mut [u8], address: u8, mask: u8, value: u8)
    ensures { Acted image.old image.new (modified (core_of image.old) address mask value) }
{
    let Some(image) = image.as_mut_array::<SIZE>() else {
        return;
    };
    bytes::modify(image, address, mask, value);
}

pub fn request_one(image: &mut [u8], buffer: TxBuffer)
    ensures { Acted image.old image.new (with_control (core_of image.old) (requested_to_send (control_of image.old) (rts_bit buffer))) }
{
    let Some(image) = image.as_mut_array::<SIZE>() else {
        return;
    };
    bytes::request_one(image, buffer);
}

pub fn request_to_send(image: &mut [u8], buffers: u8)
    ensures { Acted image.old image.new (with_control (core_of image.old) (requested_to_send (control_of image.old) buffers)) }
{
    let Some(image) = image.as_mut_array::<SIZE>() else {
        return;
    };
    bytes::request_to_send(image, buffers);
}
