// Events: on the CAN side a frame, bus idle, the end of an own frame, a receive error, recovery, the level of a request pin.
#![tactic(auto)]

pub mod events;
mod sending;
mod slices;

pub use slices::event;

// How an own frame ends.
#[derive(Clone, Copy, Debug, PartialEq, Eq)]
pub enum End {
    Sent,
    LostArbitration,
    Failed,
}
