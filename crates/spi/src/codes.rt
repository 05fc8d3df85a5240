// The codes, and what the panel may do with them.
ghost use Rattle.std.specs.Prelude.{◌≡◌};
ghost use Rattle.spi.specs.Instructions.{
  buffer_command,
  command_of,
  speaker_by,
  same_speaker,
  permitted,
  in_message,
  panel_goes_on,
  goes_on,
  command_by,
};
ghost use Rattle.spi.specs.Open.{instruction_by};
ghost use Rattle.spi.specs.Stages.{stage_number};

use crate::{Command, Speaker, Stage};
use registers::{RxBuffer, TxBuffer};

// The addresses of the control registers of the panel's buffers.
const TXB2CTRL: u8 = 0x50;

const RXB1CTRL: u8 = 0x70;

// READ RX BUFFER and LOAD TX BUFFER.
#[tactic(auto, unfolding(crate::specs::Instructions::buffer_command))]
fn buffer_command(code: u8) -> Command
    ensures { result ≡ buffer_command code }
{
    match code {
        0x90 => Command::ReadRxBuffer(RxBuffer::Rxb0, 0x61),
        0x92 => Command::ReadRxBuffer(RxBuffer::Rxb0, 0x66),
        0x94 => Command::ReadRxBuffer(RxBuffer::Rxb1, 0x71),
        0x96 => Command::ReadRxBuffer(RxBuffer::Rxb1, 0x76),
        0x40 => Command::LoadTxBuffer(TxBuffer::Txb0, 0x31),
        0x41 => Command::LoadTxBuffer(TxBuffer::Txb0, 0x36),
        0x42 => Command::LoadTxBuffer(TxBuffer::Txb1, 0x41),
        0x43 => Command::LoadTxBuffer(TxBuffer::Txb1, 0x46),
        0x44 => Command::LoadTxBuffer(TxBuffer::Txb2, 0x51),
        0x45 => Command::LoadTxBuffer(TxBuffer::Txb2, 0x56),
        _ => Command::UnknownCode,
    }
}

#[tactic(auto, unfolding(crate::specs::Instructions::command_of))]
fn command_of(code: u8) -> Command
    ensures { result ≡ command_of code }
{
    if code / 8 == 16 {
        return Command::Rts(code % 8);
    }
    match code {
        0xC0 => Command::Reset,
        0x03 => Command::Read,
        0x02 => Command::Write,
        0x05 => Command::BitModify,
        0xA0 => Command::ReadStatus,
        0xB0 => Command::RxStatus,
        _ => buffer_command(code),
    }
}

// Whether two bytes name the same speaker.
pub fn is_same(a: u8, b: u8) -> bool
    ensures { result ≡ same_speaker (speaker_by a) (speaker_by b) }
{
    Speaker::from(a) == Speaker::from(b)
}

// What a command is to the panel.
fn permitted(command: Command) -> Command
    ensures { result ≡ permitted command }
{
    match command {
        Command::Read
        | Command::ReadStatus
        | Command::RxStatus
        | Command::ReadRxBuffer(RxBuffer::Rxb1, _)
        | Command::LoadTxBuffer(TxBuffer::Txb2, _)
        | Command::Rts(4) => command,
        _ => Command::UnknownCode,
    }
}

// From SIDH to data byte 7 of the buffer whose control register stands at `control`.
fn in_message(control: u8, address: u8) -> bool
    ensures { result ≡ in_message control address }
{
    let at = address % 128;
    at > control && at - control < 14
}

// Whether the panel's open instruction has more to do; its mask does not count.
#[tactic(auto, unfolding(crate::specs::Open::instruction_by))]
fn panel_goes_on(stage: Stage, address: u8) -> bool
    ensures { result ≡ panel_goes_on (instruction_by (stage_number stage) address 0) }
{
    match stage {
        Stage::Writing => in_message(TXB2CTRL, address),
        Stage::ReadingRxb1 => in_message(RXB1CTRL, address),
        Stage::WriteAddress | Stage::ReadingRxb0 => false,
        Stage::ModifyAddress | Stage::ModifyMask | Stage::ModifyData => false,
        Stage::First | Stage::ReadAddress | Stage::Reading => true,
        Stage::StatusReply | Stage::RxStatusReply => true,
        Stage::Raised | Stage::Done => true,
    }
}

pub fn goes_on(speaker: Speaker, stage: Stage, address: u8) -> bool
    ensures { result ≡ goes_on speaker (instruction_by (stage_number stage) address 0) }
{
    match speaker {
        Speaker::Controller => true,
        Speaker::Panel => panel_goes_on(stage, address),
    }
}

// What a code is to a speaker.
pub fn command_by(speaker: Speaker, code: u8) -> Command
    ensures { result ≡ command_by speaker code }
{
    match speaker {
        Speaker::Controller => command_of(code),
        Speaker::Panel => permitted(command_of(code)),
    }
}
