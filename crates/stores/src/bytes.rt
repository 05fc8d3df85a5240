// A store into the image, BIT MODIFY and RTS.
ghost use Rattle.std.specs.Prelude.{◌≡◌, true, false, ◌||◌, ◌+◌, ◌<◌, eqb, get_or};
ghost use Rattle.bits.specs.Bit.{has_bit};
ghost use Rattle.registers.specs.State.{txreq_bit, tx_number, rts_bit, with_control, with_rx};
ghost use Rattle.registers.specs.Registers.{tx_at, region_of};
ghost use Rattle.image.specs.Image.{control_of, core_of, Became};
ghost use Rattle.stores.specs.Store.{
  tx_control_stored,
  requested_to_send,
  rx_stored,
  stored_in,
  stored,
  takes_mask,
  modified,
};
ghost use Rattle.stores.specs.Merging.{merges_in, takes_write};

use crate::control::{
    canctrl_stored, mask_at, requested_of, requested_to_send, rxb0_stored, rxb1_stored, tx_stored,
};
use image::{FLIGHT, Image, MODE, RXB0CTRL, RXB1CTRL, TXB0CTRL};
use registers::{Region, RxBuffer, TXREQ, TxBuffer};

// Where a write merges into the byte of the address: filters, masks, CNF1-3, TXRTSCTRL and BFPCTRL, CANINTE to EFLG, and messages to send.
// Addresses follow no pattern, so this and what follows is done without branches.
fn merges(at: u8) -> bool
    requires { at < 128 }
    ensures { result ≡ merges_in (region_of at) }
{
    let counter = (at == 0x1C) | (at == 0x1D);
    let control = (at % 16 == 0) & (0x2F < at);
    (at < 0x60) & (at % 16 < 14) & !counter & !control
}

// The number of the transmit buffer at an address.
fn buffer_at(at: u8) -> u8
    ensures { result ≡ tx_number (tx_at at) }
{
    bits::choose(at < 0x40, 0, bits::choose(at < 0x50, 1, 2))
}

fn is_locked(image: &Image, number: u8) -> bool
    requires { number < 3 }
    ensures { result ≡ (has_bit (get_or image.now (132 + number) 0) txreq_bit || eqb (get_or image.now 141 0) number) }
{
    let i = TXB0CTRL + number as usize;
    (image[i] / TXREQ % 2 == 1) | (image[FLIGHT] == number)
}

// Whether the byte takes the write now.
#[tactic(auto, using(crate::proofs::Merged::takes_write_lem, crate::proofs::Merged::buffer_small))]
fn takes(image: &Image, at: u8) -> bool
    requires { (at < 128) × (merges_in (region_of at) ≡ true) }
    ensures { result ≡ takes_write (region_of at) (control_of image.now) }
{
    let configuration = registers::is_configuration(image::mode_of(image[MODE]));
    let always = (at == 0x0C) | (at == 0x2B) | (at == 0x2C) | (at == 0x2D);
    let locked = is_locked(image, buffer_at(at));
    always | ((at < 0x30) & configuration) | ((0x2F < at) & !locked)
}

// The byte of an address, merged where the write is taken.
#[tactic(auto, using(image::proofs::Places::place_small), unfolding(image::specs::Image::place_of))]
fn merge_byte(image: &mut Image, at: u8, value: u8)
    requires { (at < 128) × (merges_in (region_of at) ≡ true) }
    ensures { Became image.old image.new (stored_in (region_of at) (core_of image.old) at value) }
{
    let taken = takes(image, at);
    let mask = mask_at(at);
    let place = image::place_of(at) as usize;
    image[place] = bits::write(taken, mask, image[place], value);
}

// TXBnCTRL.
fn store_tx(image: &mut Image, buffer: TxBuffer, value: u8)
    ensures { Became image.old image.new (with_control (core_of image.old) (tx_control_stored (control_of image.old) buffer value)) }
{
    let control = image::control::control_of(image);
    let place = TXB0CTRL + registers::tx_number(buffer) as usize;
    image[place] = tx_stored(control, image[place], value);
}

// RXBnCTRL.
fn store_rx(image: &mut Image, buffer: RxBuffer, value: u8)
    ensures { Became image.old image.new (with_control (core_of image.old) (with_rx (control_of image.old) (rx_stored (control_of image.old).rx buffer value))) }
{
    match buffer {
        RxBuffer::Rxb0 => image[RXB0CTRL] = rxb0_stored(image[RXB0CTRL], value),
        RxBuffer::Rxb1 => image[RXB1CTRL] = rxb1_stored(image[RXB1CTRL], value),
    }
}

#[tactic(auto, using(image::proofs::Laws::changed_by))]
fn store_canctrl(image: &mut Image, at: u8, value: u8)
    requires { at < 128 }
    ensures { Became image.old image.new (stored_in Region.Canctrl (core_of image.old) at value) }
{
    let control = image::control::control_of(image);
    let new = bits::merge(mask_at(at), control.flags.canctrl, value);
    image::control::put_control(image, canctrl_stored(control, new));
}

// A store at an address whose byte does not merge.
fn store_register(image: &mut Image, region: Region, at: u8, value: u8)
    requires { (at < 128) × (merges_in region ≡ false) }
    ensures { Became image.old image.new (stored_in region (core_of image.old) at value) }
{
    match region {
        Region::Canctrl => store_canctrl(image, at, value),
        Region::TxCtrl(buffer) => store_tx(image, buffer, value),
        Region::RxCtrl(buffer) => store_rx(image, buffer, value),
        Region::Filters
        | Region::Masks
        | Region::Configured
        | Region::Bfpctrl
        | Region::Txrtsctrl
        | Region::Tec
        | Region::Rec
        | Region::Caninte
        | Region::Canintf
        | Region::Eflg
        | Region::Canstat
        | Region::TxMessage(_)
        | Region::RxMessage => {}
    }
}

// A store of one byte at an address.
#[tactic(auto, unfolding(crate::specs::Store::stored))]
pub fn store(image: &mut Image, address: u8, value: u8)
    ensures { Became image.old image.new (stored (core_of image.old) address value) }
{
    let at = address % 128;
    if merges(at) {
        merge_byte(image, at, value);
        return;
    }
    store_register(image, registers::region_of(at), at, value);
}

// Whether BIT MODIFY takes its mask at this address.
#[tactic(auto, unfolding(crate::specs::Store::takes_mask))]
fn takes_mask(at: u8) -> bool
    ensures { result ≡ takes_mask at }
{
    (at == 12)
        | (at == 13)
        | (at % 16 == 15)
        | ((39 < at) & (at < 46))
        | ((47 < at) & (at < 113) & (at % 16 == 0))
}

// BIT MODIFY: merged over what the address holds; at most addresses the mask is FFh.
#[tactic(auto, unfolding(crate::specs::Store::modified))]
pub fn modify(image: &mut Image, address: u8, mask: u8, value: u8)
    ensures { Became image.old image.new (modified (core_of image.old) address mask value) }
{
    let taken = bits::choose(takes_mask(address % 128), mask, 255);
    let held = image::addresses::hold(image, address);
    store(image, address, bits::merge(taken, held, value));
}

// RTS of one buffer alone.
pub fn request_one(image: &mut Image, buffer: TxBuffer)
    ensures { Became image.old image.new (with_control (core_of image.old) (requested_to_send (control_of image.old) (rts_bit buffer))) }
{
    let control = image::control::control_of(image);
    let place = TXB0CTRL + registers::tx_number(buffer) as usize;
    image[place] = requested_of(control, image[place]);
}

// RTS for the buffers of bits 0 to 2.
#[tactic(auto, using(image::proofs::Laws::changed_by))]
pub fn request_to_send(image: &mut Image, buffers: u8)
    ensures { Became image.old image.new (with_control (core_of image.old) (requested_to_send (control_of image.old) buffers)) }
{
    let control = image::control::control_of(image);
    image::control::put_control(image, requested_to_send(control, buffers));
}
