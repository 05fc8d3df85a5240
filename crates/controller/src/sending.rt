// The choice at bus idle and the ends of an own frame.
ghost use Rattle.std.specs.Prelude.{◌≡◌, ◌&&◌, ◌+◌, ◌*◌, ◌%◌, ◌≤◌, length, take, drop};
ghost use Rattle.image.specs.Image.{image_size};
ghost use Rattle.bits.specs.Bit.{set_bit};
ghost use Rattle.registers.specs.State.{tx_flag, with_flight, with_canintf};
ghost use Rattle.registers.specs.Modes.{waits};
ghost use Rattle.controller.specs.Sending.{
  rank_of,
  best_by,
  best_of,
  may_send,
  choice_of,
  IsEnd,
  counted,
  after_failure,
  with_ctrl,
  sent_by,
  lost_by,
  failed_by,
  ended_by,
  code_sent,
  identifier_sent,
  frame_at,
  frame_sent,
};

use crate::End;
use image::Image;
use records::Frame;
use registers::{
    ABTF, Control, Counters, EXIDE, MLOA, OSM, RTR, TXERR, TXREQ, TxBuffer, TxControl,
};

fn rank(ctrl: u8) -> u8
    ensures { result ≡ rank_of ctrl }
{
    if ctrl / TXREQ % 2 == 1 {
        1 + ctrl % 4
    } else {
        0
    }
}

// By the ranks; of equal ones the later buffer.
fn best_by(x: u8, y: u8, z: u8) -> TxBuffer
    ensures { result ≡ best_by x y z }
{
    if x.max(y) <= z {
        TxBuffer::Txb2
    } else if x <= y {
        TxBuffer::Txb1
    } else {
        TxBuffer::Txb0
    }
}

#[tactic(auto, unfolding(crate::specs::Sending::best_of))]
fn best_of(tx: TxControl) -> TxBuffer
    ensures { result ≡ best_of tx }
{
    best_by(rank(tx.txb0), rank(tx.txb1), rank(tx.txb2))
}

fn may_send(control: Control) -> bool
    ensures { result ≡ may_send control }
{
    registers::sends_in(control.state.mode) & !registers::is_bus_off(control.counters)
}

fn has_turn(control: Control) -> bool
    ensures { result ≡ may_send control && waits control.tx }
{
    may_send(control) & registers::waits_in(control.tx)
}

// The buffer that is sent at bus idle.
#[tactic(auto, unfolding(crate::specs::Sending::choice_of))]
pub fn choice_of(control: Control) -> Option<TxBuffer>
    ensures { result ≡ choice_of control }
{
    if has_turn(control) {
        Some(best_of(control.tx))
    } else {
        None
    }
}

fn with_flight(control: Control, flight: Option<TxBuffer>) -> Control
    ensures { result ≡ with_flight control flight }
{
    let mut next = control;
    next.state.flight = flight;
    next
}

// How an own frame ends, by its number in the record.
impl From<u8> for End {
    ghost from_gives = { IsEnd };

    fn from(number: u8) -> End {
        match number {
            0 => End::Sent,
            1 => End::LostArbitration,
            _ => End::Failed,
        }
    }
}

// The counters move in Normal alone.
fn count(control: Control, counters: Counters) -> Control
    ensures { result ≡ counted control counters }
{
    if registers::is_normal(control.state.mode) {
        registers::moved(control, counters)
    } else {
        control
    }
}

// TXBnCTRL after a failed attempt.
#[tactic(auto, unfolding(crate::specs::Sending::after_failure))]
fn after_failure(control: Control, ctrl: u8) -> u8
    ensures { result ≡ after_failure control ctrl }
{
    if registers::aborts_all(control) {
        (ctrl & !TXREQ) | ABTF
    } else if control.flags.canctrl / OSM % 2 == 1 {
        ctrl & !TXREQ
    } else {
        ctrl
    }
}

// TXBnCTRL of the buffer that was in flight; nothing is in flight any more.
fn with_ctrl(control: Control, buffer: TxBuffer, value: u8) -> Control
    ensures { result ≡ with_ctrl control buffer value }
{
    let mut next = control;
    next.tx = registers::with_tx_control(control.tx, buffer, value);
    with_flight(next, None)
}

fn with_flag(control: Control, bit: u8) -> Control
    ensures { result ≡ with_canintf control (set_bit control.flags.canintf bit) }
{
    let mut next = control;
    next.flags.canintf = bits::set(control.flags.canintf, bit);
    next
}

pub fn tx_flag(buffer: TxBuffer) -> u8
    ensures { result ≡ tx_flag buffer }
{
    match buffer {
        TxBuffer::Txb0 => 2,
        TxBuffer::Txb1 => 3,
        TxBuffer::Txb2 => 4,
    }
}

#[tactic(auto, unfolding(crate::specs::Sending::sent_by))]
pub fn sent(control: Control, buffer: TxBuffer) -> Control
    ensures { result ≡ sent_by control buffer }
{
    let ctrl = registers::tx_control(control.tx, buffer);
    with_flag(with_ctrl(control, buffer, ctrl & !TXREQ), tx_flag(buffer))
}

#[tactic(auto, unfolding(crate::specs::Sending::lost_by))]
fn lost(control: Control, buffer: TxBuffer) -> Control
    ensures { result ≡ lost_by control buffer }
{
    let ctrl = registers::tx_control(control.tx, buffer);
    with_ctrl(control, buffer, after_failure(control, ctrl | MLOA))
}

#[tactic(auto, unfolding(crate::specs::Sending::failed_by))]
fn failed(control: Control, buffer: TxBuffer) -> Control
    ensures { result ≡ failed_by control buffer }
{
    let ctrl = registers::tx_control(control.tx, buffer);
    with_flag(
        with_ctrl(control, buffer, after_failure(control, ctrl | TXERR)),
        7,
    )
}

pub fn end(end: End, control: Control, buffer: TxBuffer) -> Control
    ensures { result ≡ ended_by end control buffer }
{
    match end {
        End::Sent => count(sent(control, buffer), registers::tec_less(control.counters)),
        End::LostArbitration => lost(control, buffer),
        End::Failed => count(
            failed(control, buffer),
            registers::tec_more(control.counters),
        ),
    }
}

fn code_sent(dlc: u8) -> u8
    ensures { result ≡ code_sent dlc }
{
    dlc % 16
}

fn identifier_sent(extended: bool, sidh: u8, sidl: u8, eid8: u8, eid0: u8) -> u32
    ensures { result ≡ identifier_sent extended sidh sidl eid8 eid0 }
{
    if extended {
        (sidh as u32) * 2097152
            + (sidl / 32) as u32 * 262144
            + (sidl % 4) as u32 * 65536
            + (eid8 as u32) * 256
            + (eid0 as u32)
    } else {
        (sidh as u32) * 8 + (sidl / 32) as u32
    }
}

// The message in the buffer whose bytes start at `at` of the image.
fn frame_at(image: &Image, at: usize) -> Frame
    requires { at ≤ 80 }
    ensures { result ≡ frame_at image.now at }
{
    let sidl = image[at + 2];
    let dlc = image[at + 5];
    let extended = sidl / EXIDE % 2 == 1;
    let mut bytes = [0; 8];
    bytes.copy_from_slice(&image[at + 6..at + 14]);
    Frame {
        extended,
        remote: dlc / RTR % 2 == 1,
        code: code_sent(dlc),
        identifier: identifier_sent(extended, image[at + 1], sidl, image[at + 3], image[at + 4]),
        bytes,
    }
}

// The frame that a buffer sends.
pub fn frame_sent(image: &Image, buffer: TxBuffer) -> Frame
    ensures { result ≡ frame_sent (take 48 (drop 48 image.now)) buffer }
{
    match buffer {
        TxBuffer::Txb0 => frame_at(image, 48),
        TxBuffer::Txb1 => frame_at(image, 64),
        TxBuffer::Txb2 => frame_at(image, 80),
    }
}
