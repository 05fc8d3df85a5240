// The loader of a profile over a chip, with bus events between its commands: by value, and where the chip lies.
#![tactic(auto)]

mod gaps;
mod in_place;
mod runs;

pub use gaps::ENTRY_SIZE;
pub use in_place::{event_in_place, load_in_place, send_in_place};
pub use runs::{load, run, send, verdict_in};

// The entries that are left, and how many bytes of records were put down.
#[derive(Clone, Copy, Debug, PartialEq, Eq)]
pub struct Gap {
    pub left: usize,
    pub sent: usize,
}

// How far a load has come.
#[derive(Clone, Copy, Debug, PartialEq, Eq)]
pub struct Loading {
    pub stage: load_machine::Stage,
    pub gap: Gap,
}

// A chip and the last byte that it replied. This and the two below hold a chip, since send, run and load promise by value.
#[derive(Clone, Copy)]
pub struct Replied {
    pub chip: mcp2515::Chip,
    pub reply: u8,
}

// Where a load has ended, and how many bytes of records it has.
#[derive(Clone, Copy)]
pub struct Finished {
    pub stage: load_machine::Stage,
    pub chip: mcp2515::Chip,
    pub sent: usize,
}

#[derive(Clone, Copy)]
pub struct Loaded {
    pub chip: mcp2515::Chip,
    pub verdict: load_machine::Verdict,
}
