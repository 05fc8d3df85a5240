// The control registers, taken out of the image and put back; power-on, RESET and the last act of a step.
ghost use Rattle.std.specs.Prelude.{◌≡◌, ◌↔◌, ◌++◌, ◌+◌, ◌*◌, ◌/◌, ◌<◌, true, take, drop, IsSome};
ghost use Rattle.std.specs.Borrow.{sem};
ghost use Rattle.registers.specs.State.{with_control, with_level, with_pins};
ghost use Rattle.registers.specs.Registers.{
  region_of,
  first_control,
  is_kept,
  kept_from,
  reset_core,
};
ghost use Rattle.registers.specs.Modes.{settled};
ghost use Rattle.image.specs.Image.{
  mode_of,
  flight_of,
  flight_number,
  request_number,
  control_of,
  pins_of,
  level_byte,
  core_of,
  is_chip,
  power_on_bytes,
  Became,
  LendsChip,
  HoldsChip,
  ReadsChip,
};

use crate::{
    CANCTRL, CANINTE, CANINTF, EFLG, FLIGHT, Image, MODE, NO_FLIGHT, PINS, REC, REQUEST, RXB0CTRL,
    RXB1CTRL, SIZE, TEC, TEC_HIGH, TXB0CTRL, TXB1CTRL, TXB2CTRL, VERSION,
};
use registers::{Control, Counters, Flags, Mode, Pins, RxControl, State, TxBuffer, TxControl};

// The byte of no request.
const NO_REQUEST: u8 = 7;

// The version of this layout.
const THIS_VERSION: u8 = 3;

pub fn mode_of(number: u8) -> Mode
    ensures { result ≡ mode_of number }
{
    Mode::try_from(number).unwrap_or(Mode::Configuration)
}

pub fn flight_of(number: u8) -> Option<TxBuffer>
    ensures { result ≡ flight_of number }
{
    TxBuffer::try_from(number).ok()
}

fn flight_number(flight: Option<TxBuffer>) -> u8
    ensures { result ≡ flight_number flight }
{
    flight.map_or(NO_FLIGHT, |buffer| buffer as u8)
}

fn request_number(request: Option<Mode>) -> u8
    ensures { result ≡ request_number request }
{
    request.map_or(NO_REQUEST, |mode| mode as u8)
}

// The control registers of an image.
#[tactic(auto, unfolding(crate::specs::Image::decoded))]
pub fn control_of(image: &Image) -> Control
    ensures { result ≡ control_of image.now }
{
    Control {
        flags: Flags {
            canctrl: image[CANCTRL],
            caninte: image[CANINTE],
            canintf: image[CANINTF],
            eflg: image[EFLG],
        },
        tx: TxControl {
            txb0: image[TXB0CTRL],
            txb1: image[TXB1CTRL],
            txb2: image[TXB2CTRL],
        },
        rx: RxControl {
            rxb0: image[RXB0CTRL],
            rxb1: image[RXB1CTRL],
        },
        counters: Counters {
            tec: u16::from_le_bytes([image[TEC], image[TEC_HIGH]]),
            rec: image[REC],
        },
        state: State {
            mode: mode_of(image[MODE]),
            flight: flight_of(image[FLIGHT]),
            request: registers::requested_by(image[REQUEST]),
        },
    }
}

pub fn put_control(image: &mut Image, control: Control)
    ensures { Became image.old image.new (with_control (core_of image.old) control) }
{
    let state = control.state;
    let [tec, tec_high] = control.counters.tec.to_le_bytes();
    image[CANCTRL] = control.flags.canctrl;
    image[CANINTE] = control.flags.caninte;
    image[CANINTF] = control.flags.canintf;
    image[EFLG] = control.flags.eflg;
    image[TXB0CTRL] = control.tx.txb0;
    image[TXB1CTRL] = control.tx.txb1;
    image[TXB2CTRL] = control.tx.txb2;
    image[RXB0CTRL] = control.rx.rxb0;
    image[RXB1CTRL] = control.rx.rxb1;
    image[TEC] = tec;
    image[REC] = control.counters.rec;
    image[TEC_HIGH] = tec_high;
    image[MODE] = registers::mode_number(state.mode);
    image[FLIGHT] = flight_number(state.flight);
    image[REQUEST] = request_number(state.request);
}

// The levels of the request pins.
pub fn pins_of(image: &Image) -> Pins
    ensures { result ≡ pins_of image.now }
{
    Pins {
        tx0rts: image[PINS] != 0,
        tx1rts: image[PINS + 1] != 0,
        tx2rts: image[PINS + 2] != 0,
    }
}

fn level_byte(high: bool) -> u8
    ensures { result ≡ level_byte high }
{
    high as u8
}

// The level of a buffer's request pin.
pub fn put_level(image: &mut Image, buffer: TxBuffer, high: bool)
    ensures { Became image.old image.new (with_pins (core_of image.old) (with_level (pins_of image.old) buffer high)) }
{
    let place = PINS + (registers::tx_number(buffer) as usize);
    image[place] = level_byte(high);
}

// The levels of the three.
#[tactic(auto, using(crate::proofs::Laws::pins_in))]
pub fn put_pins(image: &mut Image, pins: Pins)
    ensures { Became image.old image.new (with_pins (core_of image.old) pins) }
{
    put_level(image, TxBuffer::Txb0, pins.tx0rts);
    put_level(image, TxBuffer::Txb1, pins.tx1rts);
    put_level(image, TxBuffer::Txb2, pins.tx2rts);
}

// A mode request is carried out where it can be: the last act of each accepted step.
#[tactic(auto, using(crate::proofs::Laws::no_request))]
pub fn settle(image: &mut Image)
    ensures { Became image.old image.new (with_control (core_of image.old) (settled (control_of image.old))) }
{
    if image[REQUEST] < NO_REQUEST {
        let control = control_of(image);
        put_control(image, registers::settle(control));
    }
}

// The same for a caller that is run often: this test is compiled into the caller, and the act, which is rare, stays apart.
#[tactic(auto, using(crate::proofs::Laws::no_request))]
pub fn settle_if_asked(image: &mut Image)
    ensures { Became image.old image.new (with_control (core_of image.old) (settled (control_of image.old))) }
{
    if image[REQUEST] < NO_REQUEST {
        settle(image);
    }
}

// Whether RESET keeps the byte of an address: one of a filter or of a message.
fn is_kept(at: usize) -> bool
    requires { at < 128 }
    ensures { result ≡ is_kept (region_of at) }
{
    let column = at % 16;
    ((at < 0x20) & (column < 12)) | ((0x2F < at) & (0 < column) & (column < 14))
}

// Of the bytes of 00h to 7Fh those that RESET does not keep are 0.
fn clear(image: &mut Image)
    ensures { image.new ≡ kept_from 0 (take 128 image.old) ++ drop 128 image.old }
{
    for at in 0..CANCTRL {
        image[at] = bits::choose(is_kept(at), image[at], 0);
    }
}

// RESET.
#[tactic(auto, using(crate::proofs::Laws::reset_core_lem))]
pub fn reset(image: &mut Image)
    ensures { Became image.old image.new (reset_core (core_of image.old)) }
{
    clear(image);
    put_control(image, registers::first_control());
}

// Power-on, with the request pins and the select line high.
#[tactic(auto, unfolding(crate::specs::Image::power_on_bytes, crate::specs::Image::encoded))]
pub fn power_on() -> Image
    ensures { result ≡ power_on_bytes }
{
    let mut image = [0u8; SIZE];
    image[CANCTRL] = 135;
    image[MODE] = 4;
    image[FLIGHT] = NO_FLIGHT;
    image[REQUEST] = NO_REQUEST;
    image[PINS] = 1;
    image[PINS + 1] = 1;
    image[PINS + 2] = 1;
    image[VERSION] = THIS_VERSION;
    image
}

// Whether bytes are a chip: any image that bears this version.
#[tactic(auto, unfolding(crate::specs::Image::is_chip))]
pub fn is_chip(bytes: &[u8]) -> bool
    ensures { result ≡ is_chip bytes.now }
{
    if bytes.len() != SIZE {
        return false;
    }
    bytes[VERSION] == THIS_VERSION
}

// The chip in bytes that a caller lends; what is written to it is written to them.
#[tactic(auto, unfolding(crate::specs::Image::is_chip))]
pub fn as_mut_chip(bytes: &mut [u8]) -> Option<&mut Image>
    ensures* writes_back { sem 𝓛 (LendsChip bytes.entry result) }
    ensures is { IsSome result ↔ (is_chip bytes.old ≡ true) }
    ensures value { HoldsChip bytes.old result }
{
    if !is_chip(bytes) {
        return None;
    }
    bytes.as_mut_array::<SIZE>()
}

// The same where it is only read.
#[tactic(auto, unfolding(crate::specs::Image::is_chip))]
pub fn as_chip(bytes: &[u8]) -> Option<&Image>
    ensures is { IsSome result ↔ (is_chip bytes.now ≡ true) }
    ensures value { ReadsChip bytes.now result }
{
    if !is_chip(bytes) {
        return None;
    }
    bytes.as_array::<SIZE>()
}
