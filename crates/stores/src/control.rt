// Stores to the control registers, by value.
ghost use Rattle.std.specs.Prelude.{◌≡◌, ◌<◌, cond};
ghost use Rattle.bits.specs.Bit.{has_bit, merged};
ghost use Rattle.registers.specs.Registers.{writable_of, receive_bits};
ghost use Rattle.registers.specs.State.{txreq_bit};
ghost use Rattle.stores.specs.Store.{
  raised_from,
  tx_bits,
  tx_stored,
  requested_of,
  requested_to_send,
  aborted_at,
  aborted,
  canctrl_held,
  canctrl_stored,
  copies_bukt,
};

use registers::{
    ABAT, ABTF, BUKT, BUKT1, Control, Flags, MLOA, RxBuffer, TXERR, TXREQ, TxBuffer, TxControl,
};

// TXP, the two bits of TXBnCTRL that rank a message.
const TXP: u8 = 3;

// What a write reaches at each address, by address.
const WRITABLE: [u8; 128] = [
    255, 235, 255, 255, 255, 235, 255, 255, 255, 235, 255, 255, 63, 7, 0, 255, 255, 235, 255, 255,
    255, 235, 255, 255, 255, 235, 255, 255, 0, 0, 0, 255, 255, 227, 255, 255, 255, 227, 255, 255,
    199, 255, 255, 255, 255, 192, 0, 255, 11, 255, 235, 255, 255, 79, 255, 255, 255, 255, 255, 255,
    255, 255, 0, 255, 11, 255, 235, 255, 255, 79, 255, 255, 255, 255, 255, 255, 255, 255, 0, 255,
    11, 255, 235, 255, 255, 79, 255, 255, 255, 255, 255, 255, 255, 255, 0, 255, 100, 0, 0, 0, 0, 0,
    0, 0, 0, 0, 0, 0, 0, 0, 0, 255, 96, 0, 0, 0, 0, 0, 0, 0, 0, 0, 0, 0, 0, 0, 0, 255,
];

pub fn mask_at(at: u8) -> u8
    requires { at < 128 }
    ensures { result ≡ writable_of at }
{
    WRITABLE[at as usize]
}

fn has_txreq(ctrl: u8) -> bool
    ensures { result ≡ has_bit ctrl txreq_bit }
{
    ctrl / TXREQ % 2 == 1
}

// A new TXBnCTRL: where TXREQ rises, the flags of the last attempt go.
fn raised_from(old: u8, new: u8) -> u8
    ensures { result ≡ raised_from old new }
{
    bits::choose(
        !has_txreq(old) & has_txreq(new),
        new & !(ABTF | MLOA | TXERR),
        new,
    )
}

fn tx_bits(control: Control, old: u8) -> u8
    ensures { result ≡ tx_bits control old }
{
    bits::choose(
        registers::aborts_all(control) & !has_txreq(old),
        TXP,
        TXREQ | TXP,
    )
}

#[tactic(auto, unfolding(crate::specs::Store::tx_stored))]
pub fn tx_stored(control: Control, old: u8, value: u8) -> u8
    ensures { result ≡ tx_stored control old value }
{
    raised_from(old, bits::merge(tx_bits(control, old), old, value))
}

#[tactic(auto, unfolding(crate::specs::Store::requested_of))]
pub fn requested_of(control: Control, old: u8) -> u8
    ensures { result ≡ requested_of control old }
{
    bits::choose(
        registers::aborts_all(control),
        old,
        raised_from(old, old | TXREQ),
    )
}

fn requested_if(on: bool, control: Control, old: u8) -> u8
    ensures { result ≡ cond on (requested_of control old) old }
{
    bits::choose(on, requested_of(control, old), old)
}

// RTS for the buffers of bits 0 to 2.
#[tactic(auto, unfolding(crate::specs::Store::requested_to_send))]
pub fn requested_to_send(control: Control, buffers: u8) -> Control
    ensures { result ≡ requested_to_send control buffers }
{
    let tx = control.tx;
    Control {
        tx: TxControl {
            txb0: requested_if(buffers % 2 == 1, control, tx.txb0),
            txb1: requested_if(buffers / 2 % 2 == 1, control, tx.txb1),
            txb2: requested_if(buffers / 4 % 2 == 1, control, tx.txb2),
        },
        ..control
    }
}

fn aborted_at(control: Control, buffer: TxBuffer) -> u8
    ensures { result ≡ aborted_at control buffer }
{
    let ctrl = registers::tx_control(control.tx, buffer);
    bits::choose(
        has_txreq(ctrl) & !registers::in_flight(control.state.flight, buffer),
        (ctrl & !TXREQ) | ABTF,
        ctrl,
    )
}

// ABAT: every TXREQ that is not in flight goes, with its ABTF.
#[tactic(auto, unfolding(crate::specs::Store::aborted))]
fn aborted_all(control: Control) -> Control
    ensures { result ≡ aborted control }
{
    Control {
        tx: TxControl {
            txb0: aborted_at(control, TxBuffer::Txb0),
            txb1: aborted_at(control, TxBuffer::Txb1),
            txb2: aborted_at(control, TxBuffer::Txb2),
        },
        ..control
    }
}

fn canctrl_held(control: Control, value: u8) -> Control
    ensures { result ≡ canctrl_held control value }
{
    let held = Control {
        flags: Flags {
            canctrl: value,
            ..control.flags
        },
        ..control
    };
    registers::with_request(held, registers::request_in(control.state.mode, value / 32))
}

#[tactic(auto, unfolding(crate::specs::Store::canctrl_stored))]
pub fn canctrl_stored(control: Control, value: u8) -> Control
    ensures { result ≡ canctrl_stored control value }
{
    let held = canctrl_held(control, value);
    if value / ABAT % 2 == 1 {
        aborted_all(held)
    } else {
        held
    }
}

fn copy_bukt(ctrl: u8) -> u8
    ensures { result ≡ copies_bukt ctrl }
{
    bits::choose(ctrl / BUKT % 2 == 1, ctrl | BUKT1, ctrl & !BUKT1)
}

// RXB0CTRL after a store.
pub fn rxb0_stored(old: u8, value: u8) -> u8
    ensures { result ≡ copies_bukt (merged (receive_bits RxBuffer.Rxb0) old value) }
{
    copy_bukt(bits::merge(100, old, value))
}

// RXB1CTRL after a store.
pub fn rxb1_stored(old: u8, value: u8) -> u8
    ensures { result ≡ merged (receive_bits RxBuffer.Rxb1) old value }
{
    bits::merge(96, old, value)
}
