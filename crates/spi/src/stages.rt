// Where the select line stands, as a byte of the image names it.
ghost use Rattle.std.specs.Prelude.{◌≡◌};
ghost use Rattle.spi.specs.Open.{reading_number};
ghost use Rattle.spi.specs.Stages.{stage_by, stage_number};

use registers::RxBuffer;

// Raised, or low with this instruction open; the addresses and the mask stand beside it.
#[derive(Clone, Copy, Debug, PartialEq, Eq)]
pub enum Stage {
    Raised = 0,
    First = 1,
    ReadAddress = 2,
    Reading = 3,
    WriteAddress = 4,
    Writing = 5,
    ModifyAddress = 6,
    ModifyMask = 7,
    ModifyData = 8,
    ReadingRxb0 = 9,
    ReadingRxb1 = 10,
    StatusReply = 11,
    RxStatusReply = 12,
    Done = 13,
}

impl From<u8> for Stage {
    ghost from_gives = { λ n s. s ≡ stage_by n };

    #[tactic(auto, unfolding(crate::specs::Stages::stage_by))]
    fn from(number: u8) -> Stage {
        match number {
            0 => Stage::Raised,
            1 => Stage::First,
            2 => Stage::ReadAddress,
            3 => Stage::Reading,
            4 => Stage::WriteAddress,
            5 => Stage::Writing,
            6 => Stage::ModifyAddress,
            7 => Stage::ModifyMask,
            8 => Stage::ModifyData,
            9 => Stage::ReadingRxb0,
            10 => Stage::ReadingRxb1,
            11 => Stage::StatusReply,
            12 => Stage::RxStatusReply,
            _ => Stage::Done,
        }
    }
}

impl From<RxBuffer> for Stage {
    ghost from_gives = { λ b s. stage_number s ≡ reading_number b };

    // READ RX BUFFER by its buffer.
    fn from(buffer: RxBuffer) -> Stage {
        match buffer {
            RxBuffer::Rxb0 => Stage::ReadingRxb0,
            RxBuffer::Rxb1 => Stage::ReadingRxb1,
        }
    }
}

impl Stage {
    // The byte that names it.
    pub fn number(self) -> u8
        ensures { result ≡ stage_number self }
    {
        self as u8
    }
}
