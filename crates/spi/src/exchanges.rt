// The SPI side where it lies: a byte or a select edge changes the open instruction and the core.
ghost use Rattle.std.specs.Prelude.{◌≡◌, ◌-◌, get_or, set};
ghost use Rattle.std.specs.Int.Bits.{bit_and};
ghost use Rattle.registers.specs.Registers.{reads};
ghost use Rattle.stores.specs.Store.{stored, modified};
ghost use Rattle.image.specs.Image.{core_of, Became};
ghost use Rattle.spi.specs.Instructions.{
  speaker_by,
  first_act,
  opened,
  rising,
  command_by,
  exchange_act,
  exchange_next,
  act_by,
  next_by,
  high_act,
  reply_to,
  acted,
};
ghost use Rattle.spi.specs.Stages.{stage_number};
ghost use Rattle.spi.specs.Open.{
  select_by,
  select_of,
  speaker_of,
  open_of,
  Turned,
  performed,
};

use crate::codes::{command_by, goes_on};
use crate::statuses::{rx_status, status};
use crate::{Act, Command, Instruction, Select, Speaker, Stage};
use image::{ADDRESS, CANINTF, Image, MASK, SELECT, SPEAKER};
use registers::{RX0IF, RX1IF};

// The instruction changes, its address and mask stay.
pub(crate) fn turn(image: &mut Image, stage: Stage)
    ensures { Turned image.old image.new (core_of image.old) (select_by (stage_number stage) (get_or image.old 147 0) (get_or image.old 148 0) (get_or image.old 149 0)) }
{
    image[SELECT] = stage.number();
}

pub(crate) fn turn_to(image: &mut Image, stage: Stage, address: u8)
    ensures { Turned image.old image.new (core_of image.old) (select_by (stage_number stage) address (get_or image.old 148 0) (get_or image.old 149 0)) }
{
    image[SELECT] = stage.number();
    image[ADDRESS] = address;
}

fn keep_mask(image: &mut Image, mask: u8)
    ensures { Turned image.old image.new (core_of image.old) (select_by 8 (get_or image.old 147 0) mask (get_or image.old 149 0)) }
{
    image[SELECT] = Stage::ModifyData.number();
    image[MASK] = mask;
}

fn start_over(image: &mut Image)
    ensures { Turned image.old image.new (performed Act.ResetAll (core_of image.old)) (Select.Lowered (speaker_of image.old) Instruction.Done) }
{
    image::control::reset(image);
    turn(image, Stage::Done);
}

fn request(image: &mut Image, buffers: u8)
    ensures { Turned image.old image.new (performed (Act.RequestToSend buffers) (core_of image.old)) (Select.Lowered (speaker_of image.old) Instruction.Done) }
{
    stores::bytes::request_to_send(image, buffers);
    turn(image, Stage::Done);
}

// The first byte of a session, at which RESET and RTS act.
#[tactic(auto, unfolding(crate::specs::Open::instruction_by))]
fn begin(image: &mut Image, command: Command)
    ensures { Turned image.old image.new (performed (first_act command) (core_of image.old)) (Select.Lowered (speaker_of image.old) (opened command)) }
{
    match command {
        Command::Reset => start_over(image),
        Command::Read => turn(image, Stage::ReadAddress),
        Command::Write => turn(image, Stage::WriteAddress),
        Command::BitModify => turn(image, Stage::ModifyAddress),
        Command::ReadRxBuffer(buffer, address) => turn_to(image, Stage::from(buffer), address),
        Command::LoadTxBuffer(_, address) => turn_to(image, Stage::Writing, address),
        Command::Rts(buffers) => request(image, buffers),
        Command::ReadStatus => turn(image, Stage::StatusReply),
        Command::RxStatus => turn(image, Stage::RxStatusReply),
        Command::UnknownCode => turn(image, Stage::Done),
    }
}

fn start(image: &mut Image, code: u8)
    ensures { Turned image.old image.new (performed (first_act (command_by (speaker_of image.old) code)) (core_of image.old)) (Select.Lowered (speaker_of image.old) (opened (command_by (speaker_of image.old) code))) }
{
    let speaker = Speaker::from(image[SPEAKER]);
    begin(image, command_by(speaker, code));
}

fn rise(address: u8) -> u8
    ensures { result ≡ rising address }
{
    (address % 128 + 1) % 128
}

// A reply of READ or READ RX BUFFER.
fn fetch(image: &mut Image) -> u8
    ensures value { result ≡ reads (core_of image.old) (get_or image.old 147 0) }
    ensures turned { Turned image.old image.new (core_of image.old) (select_by (get_or image.old 146 0) (rising (get_or image.old 147 0)) (get_or image.old 148 0) (get_or image.old 149 0)) }
{
    let address = image[ADDRESS];
    let reply = image::addresses::read(image, address);
    image[ADDRESS] = rise(address);
    reply
}

// A byte of WRITE or LOAD TX BUFFER.
fn write(image: &mut Image, byte: u8)
    ensures { Turned image.old image.new (stored (core_of image.old) (get_or image.old 147 0) byte) (select_by (get_or image.old 146 0) (rising (get_or image.old 147 0)) (get_or image.old 148 0) (get_or image.old 149 0)) }
{
    let address = image[ADDRESS];
    stores::bytes::store(image, address, byte);
    image[ADDRESS] = rise(address);
}

// The data byte of BIT MODIFY.
fn change(image: &mut Image, byte: u8)
    ensures { Turned image.old image.new (modified (core_of image.old) (get_or image.old 147 0) (get_or image.old 148 0) byte) (Select.Lowered (speaker_of image.old) Instruction.Done) }
{
    let address = image[ADDRESS];
    let mask = image[MASK];
    stores::bytes::modify(image, address, mask, byte);
    turn(image, Stage::Done);
}

// An exchange of an instruction that goes on, before a mode request is carried out.
fn exchange_open(image: &mut Image, byte: u8) -> u8
    requires { get_or image.old 146 0 ≡ 0 → ⊥ }
    ensures value { result ≡ reply_to (exchange_act (command_by (speaker_of image.old) byte) (open_of image.old) byte) (core_of image.old) }
    ensures turned { Turned image.old image.new (performed (exchange_act (command_by (speaker_of image.old) byte) (open_of image.old) byte) (core_of image.old)) (Select.Lowered (speaker_of image.old) (exchange_next (command_by (speaker_of image.old) byte) (open_of image.old) byte)) }
{
    match Stage::from(image[SELECT]) {
        Stage::First => start(image, byte),
        Stage::ReadAddress => turn_to(image, Stage::Reading, byte % 128),
        Stage::Reading | Stage::ReadingRxb0 | Stage::ReadingRxb1 => return fetch(image),
        Stage::WriteAddress => turn_to(image, Stage::Writing, byte % 128),
        Stage::Writing => write(image, byte),
        Stage::ModifyAddress => turn_to(image, Stage::ModifyMask, byte % 128),
        Stage::ModifyMask => keep_mask(image, byte),
        Stage::ModifyData => change(image, byte),
        Stage::StatusReply => return status(image),
        Stage::RxStatusReply => return rx_status(image),
        Stage::Raised | Stage::Done => {}
    }
    0
}

// An exchange by whoever selected; it does nothing where the open instruction has nothing more for them.
fn exchange_by(image: &mut Image, byte: u8) -> u8
    requires { get_or image.old 146 0 ≡ 0 → ⊥ }
    ensures value { result ≡ reply_to (act_by (speaker_of image.old) (open_of image.old) byte) (core_of image.old) }
    ensures turned { Turned image.old image.new (performed (act_by (speaker_of image.old) (open_of image.old) byte) (core_of image.old)) (Select.Lowered (speaker_of image.old) (next_by (speaker_of image.old) (open_of image.old) byte)) }
{
    let speaker = Speaker::from(image[SPEAKER]);
    let stage = Stage::from(image[SELECT]);
    if goes_on(speaker, stage, image[ADDRESS]) {
        return exchange_open(image, byte);
    }
    0
}

// One exchange over a select that is low; the reply is sampled before the act.
pub fn exchange(image: &mut Image, byte: u8) -> u8
    ensures reply { (get_or image.old 146 0 ≡ 0 → ⊥) → result ≡ reply_to (act_by (speaker_of image.old) (open_of image.old) byte) (core_of image.old) }
    ensures turned { (get_or image.old 146 0 ≡ 0 → ⊥) → Turned image.old image.new (acted (act_by (speaker_of image.old) (open_of image.old) byte) (core_of image.old)) (Select.Lowered (speaker_of image.old) (next_by (speaker_of image.old) (open_of image.old) byte)) }
    ensures raised { select_of image.old ≡ Select.Raised → (result ≡ 0) × (image.new ≡ image.old) }
{
    if image[SELECT] == Stage::Raised.number() {
        return 0;
    }
    let reply = exchange_by(image, byte);
    image::control::settle_if_asked(image);
    reply
}

// Select low by a speaker.
pub fn open(image: &mut Image, speaker: u8)
    ensures { Turned image.old image.new (acted Act.Rest (core_of image.old)) (Select.Lowered (speaker_by speaker) Instruction.First) }
{
    image[SELECT] = Stage::First.number();
    image[SPEAKER] = speaker;
    image::control::settle_if_asked(image);
}

fn clear(image: &mut Image, flag: u8)
    ensures { image.new ≡ set image.old 130 (bit_and (get_or image.old 130 0) (255 - flag)) }
{
    image[CANINTF] = image[CANINTF] & !flag;
}

// After READ RX BUFFER that RXnIF is cleared; the panel reads RXB1 alone.
fn end_reading(image: &mut Image)
    ensures { Became image.old image.new (performed (high_act (speaker_of image.old) (open_of image.old)) (core_of image.old)) }
{
    match Stage::from(image[SELECT]) {
        Stage::ReadingRxb0 => {
            if Speaker::from(image[SPEAKER]) == Speaker::Controller {
                clear(image, RX0IF);
            }
        }
        Stage::ReadingRxb1 => clear(image, RX1IF),
        _ => {}
    }
}

// Select high.
pub fn close(image: &mut Image)
    ensures { Turned image.old image.new (acted (high_act (speaker_of image.old) (open_of image.old)) (core_of image.old)) Select.Raised }
{
    end_reading(image);
    image[SELECT] = Stage::Raised.number();
    image::control::settle_if_asked(image);
}
