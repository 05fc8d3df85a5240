// The registers and the state of the CAN side: the address map, modes and error counters.
#![tactic(auto)]

mod errors;
mod map;
mod modes;
mod parts;

// Functions and not methods: docs/PROMISES.md promises each by this name.
pub use errors::{
    counters_zero, error_flags, flag, heard_rec, is_bus_off, less_one, moved, rec_more, tec_less,
    tec_more,
};
pub use map::{canstat, capped, first_control, int_is_low, mode_bits, region_of};
pub use modes::{
    enter, is_configuration, is_loopback, is_normal, mode_number, request_in, requested_by,
    sends_in, settle, waits_in, with_request,
};
pub use parts::{aborts_all, in_flight, is_idle, same_tx, tx_control, tx_number, with_tx_control};

// Bits of CANINTF and CANINTE; RX0IF is bit 0.
pub const RX0IF: u8 = 1;

pub const RX1IF: u8 = 2;

pub const TX0IF: u8 = 4;

pub const TX1IF: u8 = 8;

pub const TX2IF: u8 = 16;

pub const ERRIF: u8 = 32;

pub const WAKIF: u8 = 64;

pub const MERRF: u8 = 128;

// Bits of CANCTRL.
pub const OSM: u8 = 8;

pub const ABAT: u8 = 16;

// Bits of TXBnCTRL.
pub const TXREQ: u8 = 8;

pub const TXERR: u8 = 16;

pub const MLOA: u8 = 32;

pub const ABTF: u8 = 64;

// Bits of TXRTSCTRL: enables of the request pins, and levels.
pub const B1RTSM: u8 = 2;

pub const B2RTSM: u8 = 4;

pub const B0RTS: u8 = 8;

pub const B1RTS: u8 = 16;

pub const B2RTS: u8 = 32;

// Bits of RXB0CTRL and RXBnCTRL.
pub const BUKT1: u8 = 2;

pub const BUKT: u8 = 4;

pub const RXRTR: u8 = 8;

// Bits of SIDL and DLC: EXIDE of a filter or a message to send and IDE of one received, and RTR.
pub const EXIDE: u8 = 8;

pub const IDE: u8 = 8;

pub const RTR: u8 = 64;

// Bits of EFLG.
pub const RX0OVR: u8 = 64;

pub const RX1OVR: u8 = 128;

// By their numbers in CANSTAT and CANCTRL.
#[derive(Clone, Copy, Debug, PartialEq, Eq)]
pub enum Mode {
    Normal = 0,
    Sleep = 1,
    Loopback = 2,
    ListenOnly = 3,
    Configuration = 4,
}

#[derive(Clone, Copy, Debug, PartialEq, Eq)]
pub enum TxBuffer {
    Txb0 = 0,
    Txb1 = 1,
    Txb2 = 2,
}

#[derive(Clone, Copy, Debug, PartialEq, Eq)]
pub enum RxBuffer {
    Rxb0,
    Rxb1,
}

// The number of no mode, or of no buffer.
#[derive(Clone, Copy, Debug, PartialEq, Eq)]
pub struct UnknownNumber(pub u8);

// The buffer whose frame is on the bus, and the mode asked for and not yet entered.
#[derive(Clone, Copy, Debug, PartialEq, Eq)]
pub struct State {
    pub mode: Mode,
    pub flight: Option<TxBuffer>,
    pub request: Option<Mode>,
}

// EFLG keeps its two overflow bits here; the others follow from the counters.
#[derive(Clone, Copy, Debug, PartialEq, Eq)]
pub struct Flags {
    pub canctrl: u8,
    pub caninte: u8,
    pub canintf: u8,
    pub eflg: u8,
}

// TXBnCTRL.
#[derive(Clone, Copy, Debug, PartialEq, Eq)]
pub struct TxControl {
    pub txb0: u8,
    pub txb1: u8,
    pub txb2: u8,
}

// RXBnCTRL.
#[derive(Clone, Copy, Debug, PartialEq, Eq)]
pub struct RxControl {
    pub rxb0: u8,
    pub rxb1: u8,
}

#[derive(Clone, Copy, Debug, PartialEq, Eq)]
pub struct Counters {
    pub tec: u16,
    pub rec: u8,
}

// Everything that acts: apart from the bytes below, so that a bus event is seen to leave those alone.
#[derive(Clone, Copy, Debug, PartialEq, Eq)]
pub struct Control {
    pub flags: Flags,
    pub tx: TxControl,
    pub rx: RxControl,
    pub counters: Counters,
    pub state: State,
}

// The levels of the pins TX0RTS to TX2RTS: true is high.
#[derive(Clone, Copy, Debug, PartialEq, Eq)]
pub struct Pins {
    pub tx0rts: bool,
    pub tx1rts: bool,
    pub tx2rts: bool,
}

// The bytes of 00h to 2Fh (filters, masks, CNF, BFPCTRL, TXRTSCTRL), 30h to 5Fh (messages to send) and 60h to 7Fh (messages received),
// beside what acts and the pins.
#[derive(Clone, Copy, Debug, PartialEq, Eq)]
pub struct Core {
    pub config: [u8; 48],
    pub tx: [u8; 48],
    pub rx: [u8; 32],
    pub control: Control,
    pub pins: Pins,
}

// What lies at an address. Configured: CNF1-3, which like TXRTSCTRL take writes in the same mode as filters and masks but always read.
#[derive(Clone, Copy, Debug, PartialEq, Eq)]
pub enum Region {
    Filters,
    Masks,
    Configured,
    Bfpctrl,
    Txrtsctrl,
    Tec,
    Rec,
    Caninte,
    Canintf,
    Eflg,
    Canstat,
    Canctrl,
    TxCtrl(TxBuffer),
    TxMessage(TxBuffer),
    RxCtrl(RxBuffer),
    RxMessage,
}
