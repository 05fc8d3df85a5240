// Parts of the state: numbers of the buffers, what is in flight, one part set and the rest as it was.
ghost use Rattle.std.specs.Prelude.{◌≡◌};
ghost use Rattle.registers.specs.State.{
  aborts_all,
  tx_number,
  TxBy,
  is_idle,
  same_tx,
  in_flight,
  tx_control,
  with_tx_control,
};

use crate::{ABAT, Control, TxBuffer, TxControl, UnknownNumber};

impl TryFrom<u8> for TxBuffer {
    type Error = UnknownNumber;

    ghost try_from_gives = { TxBy };

    fn try_from(number: u8) -> Result<Self, UnknownNumber> {
        match number {
            0 => Ok(TxBuffer::Txb0),
            1 => Ok(TxBuffer::Txb1),
            2 => Ok(TxBuffer::Txb2),
            _ => Err(UnknownNumber(number)),
        }
    }
}

pub fn tx_number(buffer: TxBuffer) -> u8
    ensures { result ≡ tx_number buffer }
{
    buffer as u8
}

pub fn is_idle(flight: Option<TxBuffer>) -> bool
    ensures { result ≡ is_idle flight }
{
    flight.is_none()
}

pub fn same_tx(first: TxBuffer, second: TxBuffer) -> bool
    ensures { result ≡ same_tx first second }
{
    first == second
}

pub fn in_flight(flight: Option<TxBuffer>, buffer: TxBuffer) -> bool
    ensures { result ≡ in_flight flight buffer }
{
    flight == Some(buffer)
}

pub fn tx_control(tx: TxControl, buffer: TxBuffer) -> u8
    ensures { result ≡ tx_control tx buffer }
{
    match buffer {
        TxBuffer::Txb0 => tx.txb0,
        TxBuffer::Txb1 => tx.txb1,
        TxBuffer::Txb2 => tx.txb2,
    }
}

pub fn with_tx_control(tx: TxControl, buffer: TxBuffer, value: u8) -> TxControl
    ensures { result ≡ with_tx_control tx buffer value }
{
    match buffer {
        TxBuffer::Txb0 => TxControl { txb0: value, ..tx },
        TxBuffer::Txb1 => TxControl { txb1: value, ..tx },
        TxBuffer::Txb2 => TxControl { txb2: value, ..tx },
    }
}

pub fn aborts_all(control: Control) -> bool
    ensures { result ≡ aborts_all control }
{
    control.flags.canctrl / ABAT % 2 == 1
}
