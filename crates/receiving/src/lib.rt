// Receiving: which filter matches a frame, which buffer takes it, what is stored and what is lost.
#![tactic(auto)]

mod filters;
mod frames;
mod slices;
pub mod verdicts;

use registers::RxBuffer;
pub use slices::receive;
pub use verdicts::unheard;

// What the filters are held against: a frame's four bytes as one word, and the bits of it that a mask can make count.
#[derive(Clone, Copy)]
pub struct Key {
    pub word: u32,
    pub reach: u32,
}

// What becomes of a frame that is heard; where it is stored, with the number of the filter that matched.
#[derive(Clone, Copy, Debug, PartialEq, Eq)]
pub enum Verdict {
    Unmatched,
    Stored(RxBuffer, u8),
    RolledOver(u8),
    Lost(RxBuffer),
}

// The match answer: what becomes of the frame, with the hit where it is stored, and the filters that match, bit n for
// filter n.
#[derive(Clone, Copy)]
pub struct MatchAnswer {
    pub verdict: Verdict,
    pub matched: u8,
}

// The answer to a frame.
#[derive(Clone, Copy, Debug, PartialEq, Eq)]
pub enum Reception {
    NoMatch = 0,
    InRxb0 = 1,
    InRxb1 = 2,
    Lost = 3,
    NotListening = 4,
    Woke = 5,
}
