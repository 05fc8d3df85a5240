// Error counters, the flags of EFLG that follow from them, and ERRIF.
ghost use Rattle.std.specs.Prelude.{◌≡◌, cond, ◌+◌, ◌-◌, min, ltb};
ghost use Rattle.registers.specs.Errors.{
  is_bus_off,
  error_flags,
  rises,
  moved_to,
  tec_less,
  tec_more,
  rec_more,
  no_errors,
};

use crate::{Control, Counters, ERRIF, Flags};

// TEC goes no further: eight more than what makes it bus-off at most.
const LARGEST_TEC: u16 = 263;

pub fn is_bus_off(counters: Counters) -> bool
    ensures { result ≡ is_bus_off counters }
{
    256 <= counters.tec
}

// A bit that is set or not.
pub fn flag(on: bool, mask: u8) -> u8
    ensures { result ≡ cond on mask 0 }
{
    if on { mask } else { 0 }
}

#[tactic(auto, unfolding(crate::specs::Errors::error_flags))]
pub fn error_flags(counters: Counters) -> u8
    ensures { result ≡ error_flags counters }
{
    let tec = counters.tec;
    let rec = counters.rec;
    let off = flag(256 <= tec, 32);
    let passive = flag(128 <= tec, 16)
        | (flag(128 <= rec, 8)
            | (flag(96 <= tec, 4) | (flag(96 <= rec, 2) | flag((96 <= tec) | (96 <= rec), 1))));
    off | passive
}

fn is_rise(old: u8, new: u8) -> bool
    ensures { result ≡ rises old new }
{
    new & (255 - old) != 0
}

// The counters move, and ERRIF rises with a flag.
#[tactic(auto, unfolding(crate::specs::Errors::moved_to))]
pub fn moved(control: Control, counters: Counters) -> Control
    ensures { result ≡ moved_to control counters }
{
    let flags = control.flags;
    let rise = is_rise(error_flags(control.counters), error_flags(counters));
    let canintf = bits::choose(rise, flags.canintf | ERRIF, flags.canintf);
    Control {
        flags: Flags { canintf, ..flags },
        counters,
        ..control
    }
}

pub fn tec_less(counters: Counters) -> Counters
    ensures { result ≡ tec_less counters }
{
    Counters {
        tec: less_one(counters.tec),
        ..counters
    }
}

pub fn less_one(tec: u16) -> u16
    ensures { result ≡ tec - 1 }
{
    tec.saturating_sub(1)
}

pub fn tec_more(counters: Counters) -> Counters
    ensures { result ≡ tec_more counters }
{
    Counters {
        tec: counters.tec.saturating_add(8).min(LARGEST_TEC),
        ..counters
    }
}

// REC after a good frame.
pub fn heard_rec(rec: u8) -> u8
    ensures { result ≡ cond (ltb 127 rec) 127 (rec - 1) }
{
    rec.saturating_sub(1).min(127)
}

pub fn rec_more(counters: Counters, by: u8) -> Counters
    ensures { result ≡ rec_more counters by }
{
    Counters {
        rec: counters.rec.saturating_add(by),
        ..counters
    }
}

pub fn counters_zero() -> Counters
    ensures { result ≡ no_errors }
{
    Counters { tec: 0, rec: 0 }
}
