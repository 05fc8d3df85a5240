// What an address holds and what it reads.
ghost use Rattle.std.specs.Prelude.{◌≡◌, true, cond, not, ◌&&◌, ◌<◌, min, length};
ghost use Rattle.std.specs.Int.Bits.{bit_and, bit_or};
ghost use Rattle.registers.specs.Errors.{error_flags};
ghost use Rattle.registers.specs.Registers.{
  region_of,
  canstat_of,
  txrtsctrl_of,
  holds_in,
  holds,
  is_profile,
  reads,
};
ghost use Rattle.image.specs.Image.{control_of, core_of, is_derived, place_of};

use crate::control::{control_of, mode_of};
use crate::{Image, MODE, PINS, TXRTSCTRL};
use registers::{B0RTS, B1RTS, B1RTSM, B2RTS, B2RTSM};

// RX1OVR and RX0OVR.
const OVERFLOW: u8 = 192;

// TXRTSCTRL but for the levels of the pins, B2RTS to B0RTS.
const STORED: u8 = 199;

// TEC as it reads.
fn tec(image: &Image) -> u8
    ensures { result ≡ min (control_of image.now).counters.tec 255 }
{
    registers::capped(control_of(image).counters.tec)
}

// EFLG: the overflow bits, and those that follow from the counters.
fn eflg(image: &Image) -> u8
    ensures { result ≡ bit_or (bit_and (control_of image.now).flags.eflg 0xC0) (error_flags (control_of image.now).counters) }
{
    let control = control_of(image);
    (control.flags.eflg & OVERFLOW) | registers::error_flags(control.counters)
}

fn canstat(image: &Image) -> u8
    ensures { result ≡ canstat_of (control_of image.now) }
{
    registers::canstat(control_of(image))
}

// The level of a pin in its bit of TXRTSCTRL, where the pin is not enabled.
fn shown(high: bool, enabled: bool, bit: u8) -> u8
    ensures { result ≡ cond (high && not enabled) bit 0 }
{
    bits::choose(high & !enabled, bit, 0)
}

// TXRTSCTRL: what is stored, and the levels of the pins that it does not enable.
fn txrtsctrl(image: &Image) -> u8
    ensures { result ≡ txrtsctrl_of (core_of image.now) }
{
    let enables = image[TXRTSCTRL];
    let first = shown(image[PINS] != 0, enables % 2 == 1, B0RTS);
    let second = shown(image[PINS + 1] != 0, enables / B1RTSM % 2 == 1, B1RTS);
    let third = shown(image[PINS + 2] != 0, enables / B2RTSM % 2 == 1, B2RTS);
    (enables & STORED) | (first | (second | third))
}

// CANSTAT, EFLG, TEC and TXRTSCTRL are worked out; every other address has a byte of its own.
fn is_derived(at: u8) -> bool
    requires { at < 128 }
    ensures { result ≡ is_derived (region_of at) }
{
    (at % 16 == 14) | (at == 0x2D) | (at == 0x1C) | (at == 0x0D)
}

#[tactic(auto, using(crate::proofs::Places::derived_last), unfolding(registers::specs::Registers::region_of))]
fn derived(image: &Image, at: u8) -> u8
    requires { (at < 128) × (is_derived (region_of at) ≡ true) }
    ensures { result ≡ holds_in (region_of at) (core_of image.now) at }
{
    if at % 16 == 14 {
        return canstat(image);
    }
    if at == 0x2D {
        return eflg(image);
    }
    if at == 0x1C {
        return tec(image);
    }
    txrtsctrl(image)
}

// Where the byte of an address lies. Addresses follow no pattern, so this is done without branches.
#[tactic(auto, using(crate::proofs::Places::place_by_lem), unfolding(crate::specs::Image::place_of))]
pub fn place_of(address: u8) -> u8
    ensures { result ≡ place_of address }
{
    let at = address % 128;
    let control = (at % 16 == 0) & (0x2F < at);
    let flags = (0x2A < at) & (at < 0x2E);
    let counter = (at == 0x1C) | (at == 0x1D);
    let low = bits::choose(counter, at + 109, bits::choose(flags, at + 86, at));
    bits::choose(
        at % 16 == 15,
        128,
        bits::choose(control, at / 16 + 129, low),
    )
}

#[tactic(auto, using(crate::proofs::Places::place_small), unfolding(crate::specs::Image::place_of))]
fn hold_at(image: &Image, at: u8) -> u8
    requires { at < 128 }
    ensures { result ≡ holds_in (region_of at) (core_of image.now) at }
{
    if is_derived(at) {
        return derived(image, at);
    }
    let place = place_of(at) as usize;
    image[place]
}

// What an address holds.
#[tactic(auto, unfolding(registers::specs::Registers::holds))]
pub fn hold(image: &Image, address: u8) -> u8
    ensures { result ≡ holds (core_of image.now) address }
{
    hold_at(image, address % 128)
}

// A byte of a filter or mask.
fn is_profile(at: u8) -> bool
    requires { at < 128 }
    ensures { result ≡ is_profile (region_of at) }
{
    ((at < 0x20) & (at % 16 < 12)) | ((0x1F < at) & (at < 0x28))
}

// What a READ of an address replies: filters and masks 0 outside Configuration.
#[tactic(auto, unfolding(registers::specs::Registers::reads, registers::specs::Registers::holds, crate::specs::Image::decoded))]
pub fn read(image: &Image, address: u8) -> u8
    ensures { result ≡ reads (core_of image.now) address }
{
    let at = address % 128;
    let shown = registers::is_configuration(mode_of(image[MODE]));
    bits::choose(is_profile(at) & !shown, 0, hold_at(image, at))
}
