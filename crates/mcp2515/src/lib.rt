// The chip as its SPI master and its bus see it: one record in, one step.
#![tactic(auto)]

mod packing;
mod slices;
pub mod steps;

pub use packing::{pack, unpack};
pub use slices::step_in_place;
pub use steps::{hold, int_is_low, power_on, read, step};

#[derive(Clone, Copy)]
pub struct Chip {
    pub core: registers::Core,
    pub select: spi::Select,
}

// A step by value: the refusal (0 for none), the answer, the filters that match the record's frame (bit n for filter n), and the chip
// after it. The chip by value and the refusal by number are what `step` promises; a run of many steps takes `steps::step_in_place`.
#[derive(Clone, Copy)]
pub struct Stepped {
    pub chip: Chip,
    pub refusal: u8,
    pub answer: u8,
    pub matched: u8,
}
