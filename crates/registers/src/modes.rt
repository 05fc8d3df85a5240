// Modes: the request of a CANCTRL store, entering a mode, and the last act of a step.
ghost use Rattle.std.specs.Prelude.{◌≡◌};
ghost use Rattle.registers.specs.State.{mode_number, is_configuration, is_normal, is_loopback, with_request};
ghost use Rattle.registers.specs.Modes.{
  requested,
  ModeBy,
  request_in,
  sends_in,
  waits,
  counters_in,
  entered,
  free_to_change,
  settled,
};

use crate::errors::counters_zero;
use crate::parts::is_idle;
use crate::{Control, Counters, Mode, State, TXREQ, TxControl, UnknownNumber};

impl TryFrom<u8> for Mode {
    type Error = UnknownNumber;

    ghost try_from_gives = { ModeBy };

    fn try_from(number: u8) -> Result<Self, UnknownNumber> {
        match number {
            0 => Ok(Mode::Normal),
            1 => Ok(Mode::Sleep),
            2 => Ok(Mode::Loopback),
            3 => Ok(Mode::ListenOnly),
            4 => Ok(Mode::Configuration),
            _ => Err(UnknownNumber(number)),
        }
    }
}

pub fn mode_number(mode: Mode) -> u8
    ensures { result ≡ mode_number mode }
{
    mode as u8
}

pub fn is_configuration(mode: Mode) -> bool
    ensures { result ≡ is_configuration mode }
{
    mode == Mode::Configuration
}

pub fn is_normal(mode: Mode) -> bool
    ensures { result ≡ is_normal mode }
{
    mode == Mode::Normal
}

pub fn is_loopback(mode: Mode) -> bool
    ensures { result ≡ is_loopback mode }
{
    mode == Mode::Loopback
}

// Normal and Loopback send.
pub fn sends_in(mode: Mode) -> bool
    ensures { result ≡ sends_in mode }
{
    matches!(mode, Mode::Normal | Mode::Loopback)
}

pub fn requested_by(number: u8) -> Option<Mode>
    ensures { result ≡ requested number }
{
    Mode::try_from(number).ok()
}

// The request that mode bits number make in mode m.
pub fn request_in(mode: Mode, number: u8) -> Option<Mode>
    ensures { result ≡ request_in mode number }
{
    if number == mode_number(mode) {
        return None;
    }
    requested_by(number)
}

// Some buffer has TXREQ.
pub fn waits_in(tx: TxControl) -> bool
    ensures { result ≡ waits tx }
{
    (tx.txb0 / TXREQ % 2 == 1) | (tx.txb1 / TXREQ % 2 == 1) | (tx.txb2 / TXREQ % 2 == 1)
}

fn counters_in(mode: Mode, counters: Counters) -> Counters
    ensures { result ≡ counters_in mode counters }
{
    match mode {
        Mode::Normal | Mode::Sleep | Mode::Loopback => counters,
        Mode::ListenOnly | Mode::Configuration => counters_zero(),
    }
}

#[tactic(auto, unfolding(crate::specs::Modes::entered))]
pub fn enter(control: Control, mode: Mode) -> Control
    ensures { result ≡ entered control mode }
{
    Control {
        counters: counters_in(mode, control.counters),
        state: State {
            mode,
            ..control.state
        },
        ..control
    }
}

pub fn with_request(control: Control, request: Option<Mode>) -> Control
    ensures { result ≡ with_request control request }
{
    Control {
        state: State {
            request,
            ..control.state
        },
        ..control
    }
}

#[tactic(auto, unfolding(crate::specs::Modes::free_to_change))]
fn is_free_to_change(control: Control) -> bool
    ensures { result ≡ free_to_change control }
{
    let state = control.state;
    !sends_in(state.mode) | (!waits_in(control.tx) & is_idle(state.flight))
}

// A mode request is carried out where it can be: the last act of each accepted step.
#[tactic(auto, unfolding(crate::specs::Modes::settled))]
pub fn settle(control: Control) -> Control
    ensures { result ≡ settled control }
{
    match control.state.request {
        None => control,
        Some(mode) if is_free_to_change(control) => enter(with_request(control, None), mode),
        Some(_) => control,
    }
}
