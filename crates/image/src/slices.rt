// The same for bytes of any length, which a caller may lend: what is no image answers as at power-on and stays as it is.
ghost use Rattle.registers.specs.State.{with_control, with_level, with_pins};
ghost use Rattle.registers.specs.Registers.{all_high, first_control, holds, reads, reset_core};
ghost use Rattle.registers.specs.Modes.{settled};
ghost use Rattle.image.specs.Image.{control_of, pins_of, core_of, Acted, Answered};

use crate::{SIZE, addresses, control};
use registers::{Control, Pins, TxBuffer};

// What an address holds, or 0.
pub fn hold(image: &[u8], address: u8) -> u8
    ensures { Answered image.now result (holds (core_of image.now) address) 0 }
{
    let Some(image) = image.as_array::<SIZE>() else {
        return 0;
    };
    addresses::hold(image, address)
}

// What a READ of an address replies, or 0.
pub fn read(image: &[u8], address: u8) -> u8
    ensures { Answered image.now result (reads (core_of image.now) address) 0 }
{
    let Some(image) = image.as_array::<SIZE>() else {
        return 0;
    };
    addresses::read(image, address)
}

pub fn control_of(image: &[u8]) -> Control
    ensures { Answered image.now result (control_of image.now) first_control }
{
    let Some(image) = image.as_array::<SIZE>() else {
        return registers::first_control();
    };
    control::control_of(image)
}

pub fn put_control(image: &mut [u8], control: Control)
    ensures { Acted image.old image.new (with_control (core_of image.old) control) }
{
    let Some(image) = image.as_mut_array::<SIZE>() else {
        return;
    };
    control::put_control(image, control);
}

pub fn pins_of(image: &[u8]) -> Pins
    ensures { Answered image.now result (pins_of image.now) all_high }
{
    let Some(image) = image.as_array::<SIZE>() else {
        return Pins {
            tx0rts: true,
            tx1rts: true,
            tx2rts: true,
        };
    };
    control::pins_of(image)
}

pub fn put_level(image: &mut [u8], buffer: TxBuffer, high: bool)
    ensures { Acted image.old image.new (with_pins (core_of image.old) (with_level (pins_of image.old) buffer high)) }
{
    let Some(image) = image.as_mut_array::<SIZE>() else {
        return;
    };
    control::put_level(image, buffer, high);
}

pub fn put_pins(image: &mut [u8], pins: Pins)
    ensures { Acted image.old image.new (with_pins (core_of image.old) pins) }
{
    let Some(image) = image.as_mut_array::<SIZE>() else {
        return;
    };
    control::put_pins(image, pins);
}

pub fn settle(image: &mut [u8])
    ensures { Acted image.old image.new (with_control (core_of image.old) (settled (control_of image.old))) }
{
    let Some(image) = image.as_mut_array::<SIZE>() else {
        return;
    };
    control::settle(image);
}

pub fn settle_if_asked(image: &mut [u8])
    ensures { Acted image.old image.new (with_control (core_of image.old) (settled (control_of image.old))) }
{
    let Some(image) = image.as_mut_array::<SIZE>() else {
        return;
    };
    control::settle_if_asked(image);
}

pub fn reset(image: &mut [u8])
    ensures { Acted image.old image.new (reset_core (core_of image.old)) }
{
    let Some(image) = image.as_mut_array::<SIZE>() else {
        return;
    };
    control::reset(image);
}
