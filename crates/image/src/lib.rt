// The chip as bytes at fixed places. A caller lends them, and the rules change them where they lie.
#![tactic(auto)]

pub mod addresses;
pub mod control;
mod slices;

pub use addresses::place_of;
pub use control::{as_chip, as_mut_chip, flight_of, is_chip, mode_of, power_on};
pub use slices::{
    control_of, hold, pins_of, put_control, put_level, put_pins, read, reset, settle,
    settle_if_asked,
};

pub const SIZE: usize = 152;

// An array and no struct with methods: so the bytes that a C caller lends are a chip where they lie. A copy into a struct and back would
// make a step two fifths dearer.
pub type Image = [u8; SIZE];

// The bytes of 00h to 7Fh lie at their addresses, TXRTSCTRL with its bits 0 to 2. Behind them the control registers.
pub const TXRTSCTRL: usize = 13;

pub const CANCTRL: usize = 128;

pub const CANINTE: usize = 129;

pub const CANINTF: usize = 130;

// RX1OVR and RX0OVR; the other bits follow from the counters.
pub const EFLG: usize = 131;

pub const TXB0CTRL: usize = 132;

pub const TXB1CTRL: usize = 133;

pub const TXB2CTRL: usize = 134;

pub const RXB0CTRL: usize = 135;

pub const RXB1CTRL: usize = 136;

pub const TEC: usize = 137;

pub const REC: usize = 138;

// The upper byte of TEC: 0 but in bus-off.
pub const TEC_HIGH: usize = 139;

pub const MODE: usize = 140;

// The buffer in flight, or NO_FLIGHT.
pub const FLIGHT: usize = 141;

pub const NO_FLIGHT: u8 = 3;

// The mode wanted, or 7.
pub const REQUEST: usize = 142;

// The levels of TX0RTS, TX1RTS and TX2RTS: 0 is low.
pub const PINS: usize = 143;

// The select line: the open instruction, its address, its mask and who selected. Behind them is a spare byte,
// then the version.
pub const SELECT: usize = 146;

pub const ADDRESS: usize = 147;

pub const MASK: usize = 148;

pub const SPEAKER: usize = 149;

pub const VERSION: usize = 151;
