// The pairs of BRP and quanta, by number. The difference depends on nothing else, so there are 1,152 to try
// and not 2^24 settings.
ghost use Rattle.std.specs.Prelude.{◌≡◌, ◌<◌};
ghost use Rattle.bit_timing.specs.Pairs.{
  pairs,
  brp_at,
  quanta_at,
  size_at,
  clock_limit,
  IsFirstLeast,
  shared_quanta,
  setting_at,
};

use crate::{BTLMODE, LEAST_QUANTA, MOST_QUANTA, Setting};

const BRPS: u32 = 64;

// Of a bit, for each BRP.
const LENGTHS: u32 = MOST_QUANTA - LEAST_QUANTA + 1;

const PAIRS: u32 = BRPS * LENGTHS;

// The most quanta at which PS1 can be 1.
const MOST_SHARED: u32 = 18;

fn quanta(pair: u32) -> u32
    ensures { result ≡ quanta_at pair }
{
    LEAST_QUANTA + pair % LENGTHS
}

// The size of the difference.
pub fn size(oscillator: u32, rate: u32, pair: u32) -> u64
    requires { pair < pairs }
    ensures { (result ≡ size_at oscillator rate pair) × (result < clock_limit) }
{
    let clocks = crate::clocks(rate, pair / LENGTHS, quanta(pair));
    clocks.abs_diff(oscillator as u64)
}

// The first pair with the least size.
pub fn nearest(oscillator: u32, rate: u32) -> u32
    ensures { IsFirstLeast (size_at oscillator rate) pairs result }
{
    let mut first = 0;
    let mut least = size(oscillator, rate, 0);
    for pair in 1..PAIRS {
        let next = size(oscillator, rate, pair);
        if next < least {
            first = pair;
            least = next;
        }
    }
    first
}

// The quanta that SyncSeg, PropSeg and PS2 share with a PS1 of 1.
fn shared(quanta: u32) -> u32
    ensures { result ≡ shared_quanta quanta }
{
    quanta.min(MOST_SHARED)
}

// The lowest bytes of a pair.
pub fn setting(pair: u32) -> Setting
    requires { pair < pairs }
    ensures { result ≡ setting_at (brp_at pair) (quanta_at pair) }
{
    let quanta = quanta(pair);
    let shared = shared(quanta);
    let first = shared / 2;
    let second = shared - first;
    // Each less 1, as the registers have them.
    let prop_seg = first - 2;
    let ps1 = quanta - shared;
    let ps2 = second - 2;
    Setting {
        cnf1: (pair / LENGTHS) as u8,
        cnf2: (BTLMODE as u32 + ps1 * 8 + prop_seg) as u8,
        cnf3: ps2 as u8,
    }
}
