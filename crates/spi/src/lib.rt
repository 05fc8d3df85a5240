// The SPI side as an automaton: a byte and the open instruction give the next open instruction and one act on the core.
#![tactic(auto)]

ghost use Rattle.std.specs.Prelude.{◌≡◌};
ghost use Rattle.spi.specs.Instructions.{speaker_by};

mod codes;
pub mod exchanges;
pub mod lines;
mod slices;
mod stages;
mod statuses;

pub use codes::is_same;
pub use slices::{close, exchange, open, put_select, select_of};
pub use stages::Stage;

// Who drives the SPI lines.
#[derive(Clone, Copy, Debug, PartialEq, Eq)]
pub enum Speaker {
    Controller = 0,
    Panel = 1,
}

impl From<u8> for Speaker {
    ghost from_gives = { λ n s. s ≡ speaker_by n };

    // Any other byte is the panel.
    fn from(number: u8) -> Speaker {
        match number {
            0 => Speaker::Controller,
            _ => Speaker::Panel,
        }
    }
}

impl Speaker {
    // The byte that names them.
    pub fn number(self) -> u8
        ensures { speaker_by result ≡ self }
    {
        self as u8
    }
}

// What the next exchange is for.
#[derive(Clone, Copy, Debug, PartialEq, Eq)]
pub enum Instruction {
    First,
    ReadAddress,
    Reading(u8),
    WriteAddress,
    Writing(u8),
    ModifyAddress,
    ModifyMask(u8),
    ModifyData(u8, u8),
    ReadingBuffer(registers::RxBuffer, u8),
    StatusReply,
    RxStatusReply,
    Done,
}

// An instruction by its first byte; the two buffer instructions with their first address. A code that names none is a command too:
// one that does nothing.
#[derive(Clone, Copy, Debug, PartialEq, Eq)]
pub enum Command {
    Reset,
    Read,
    Write,
    BitModify,
    ReadRxBuffer(registers::RxBuffer, u8),
    LoadTxBuffer(registers::TxBuffer, u8),
    Rts(u8),
    ReadStatus,
    RxStatus,
    UnknownCode,
}

// What a record of the SPI side asks of the core. To refuse is an act among the others: each has its reply and its refusal in specs/.
#[derive(Clone, Copy, Debug, PartialEq, Eq)]
pub enum Act {
    Rest,
    ResetAll,
    Fetch(u8),
    Store(u8, u8),
    Modify(u8, u8, u8),
    RequestToSend(u8),
    ClearFlag(registers::RxBuffer),
    FetchStatus,
    FetchRxStatus,
    Refuse(u8),
}

// The select line, and while it is low who selected and the open instruction. No Option: these are the two levels of a line.
#[derive(Clone, Copy, Debug, PartialEq, Eq)]
pub enum Select {
    Raised,
    Lowered(Speaker, Instruction),
}
