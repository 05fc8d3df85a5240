// The address map, INT and CANSTAT.
ghost use Rattle.std.specs.Prelude.{◌≡◌, ◌*◌, min};
ghost use Rattle.registers.specs.State.{mode_number};
ghost use Rattle.registers.specs.Registers.{
  tx_at,
  rx_at,
  filter_rows,
  mask_row,
  buffer_rows,
  region_of,
  first_control,
  sources,
  int_is_low,
  interrupt_code,
  canstat_of,
};

use crate::errors::counters_zero;
use crate::{
    Control, ERRIF, Flags, Mode, RX1IF, Region, RxBuffer, RxControl, State, TX0IF, TX1IF, TX2IF,
    TxBuffer, TxControl, WAKIF,
};

fn tx_at(address: u8) -> TxBuffer
    ensures { result ≡ tx_at address }
{
    if address < 64 {
        TxBuffer::Txb0
    } else if address < 80 {
        TxBuffer::Txb1
    } else {
        TxBuffer::Txb2
    }
}

fn rx_at(address: u8) -> RxBuffer
    ensures { result ≡ rx_at address }
{
    if address < 112 {
        RxBuffer::Rxb0
    } else {
        RxBuffer::Rxb1
    }
}

// Rows 0 and 1.
fn filter_rows(address: u8) -> Region
    ensures { result ≡ filter_rows address }
{
    if address % 16 < 12 {
        Region::Filters
    } else if address == 12 {
        Region::Bfpctrl
    } else if address == 13 {
        Region::Txrtsctrl
    } else if address == 28 {
        Region::Tec
    } else {
        Region::Rec
    }
}

// Row 2.
fn mask_row(address: u8) -> Region
    ensures { result ≡ mask_row address }
{
    if address < 40 {
        Region::Masks
    } else if address < 43 {
        Region::Configured
    } else if address == 43 {
        Region::Caninte
    } else if address == 44 {
        Region::Canintf
    } else {
        Region::Eflg
    }
}

// Rows 3 to 7.
fn buffer_rows(address: u8) -> Region
    ensures { result ≡ buffer_rows address }
{
    let control = address % 16 == 0;
    if address < 96 {
        let buffer = tx_at(address);
        if control {
            Region::TxCtrl(buffer)
        } else {
            Region::TxMessage(buffer)
        }
    } else if control {
        Region::RxCtrl(rx_at(address))
    } else {
        Region::RxMessage
    }
}

#[tactic(auto, unfolding(crate::specs::Registers::region_of))]
pub fn region_of(address: u8) -> Region
    ensures { result ≡ region_of address }
{
    if address % 16 == 14 {
        return Region::Canstat;
    }
    if address % 16 == 15 {
        return Region::Canctrl;
    }
    if address < 32 {
        return filter_rows(address);
    }
    if address < 48 {
        return mask_row(address);
    }
    buffer_rows(address)
}

pub fn first_control() -> Control
    ensures { result ≡ first_control }
{
    Control {
        flags: Flags {
            canctrl: 135,
            caninte: 0,
            canintf: 0,
            eflg: 0,
        },
        tx: TxControl {
            txb0: 0,
            txb1: 0,
            txb2: 0,
        },
        rx: RxControl { rxb0: 0, rxb1: 0 },
        counters: counters_zero(),
        state: State {
            mode: Mode::Configuration,
            flight: None,
            request: None,
        },
    }
}

// The interrupt sources that are enabled and flagged.
fn sources_of(flags: Flags) -> u8
    ensures { result ≡ sources flags }
{
    flags.caninte & flags.canintf
}

// The INT line.
#[tactic(auto, unfolding(crate::specs::Registers::int_is_low))]
pub fn int_is_low(control: Control) -> bool
    ensures { result ≡ int_is_low control }
{
    sources_of(control.flags) != 0
}

// The code of the lowest source, in its place.
#[tactic(auto, unfolding(crate::specs::Registers::interrupt_code))]
fn interrupt_bits(flagged: u8) -> u8
    ensures { result ≡ interrupt_code flagged * 2 }
{
    if flagged / ERRIF % 2 == 1 {
        return 2;
    }
    if flagged / WAKIF % 2 == 1 {
        return 4;
    }
    if flagged / TX0IF % 2 == 1 {
        return 6;
    }
    if flagged / TX1IF % 2 == 1 {
        return 8;
    }
    if flagged / TX2IF % 2 == 1 {
        return 10;
    }
    if flagged % 2 == 1 {
        return 12;
    }
    if flagged / RX1IF % 2 == 1 {
        return 14;
    }
    0
}

// The mode as bits 7 to 5.
pub fn mode_bits(mode: Mode) -> u8
    ensures { result ≡ mode_number mode * 32 }
{
    mode as u8 * 32
}

#[tactic(auto, unfolding(crate::specs::Registers::canstat_of))]
pub fn canstat(control: Control) -> u8
    ensures { result ≡ canstat_of control }
{
    mode_bits(control.state.mode) | interrupt_bits(sources_of(control.flags))
}

// TEC as it reads.
pub fn capped(tec: u16) -> u8
    ensures { result ≡ min tec 255 }
{
    tec.min(255) as u8
}
