// A store of one byte, with the rules of its address; BIT MODIFY and RTS.
#![tactic(auto)]

pub mod bytes;
mod control;
mod slices;

pub use slices::{modify, request_one, request_to_send, store};
