// Bit timing: which CNF1 to CNF3 are sound, how far they are off a bit rate, and the best ones for an
// oscillator. It knows nothing of the chip.
#![tactic(auto)]

mod pairs;

ghost use Rattle.std.specs.Prelude.{◌≡◌, cond, ◌≤◌, ◌<◌};
ghost use Rattle.bit_timing.specs.Timing.{
  brp_of,
  sjw_of,
  prop_seg_of,
  ps1_of,
  ps2_of,
  quanta_of,
  faults_of,
  is_sound,
  SoundHasNoFaults,
  clocks_at,
  difference_of,
  is_inside,
  plan_refusal,
  Planning,
};
ghost use Rattle.bit_timing.specs.Pairs.{clock_limit};
ghost use Rattle.records.specs.Records.{refusal_in};

use records::Refusal;

// The three registers, as a WRITE would store them.
#[derive(Clone, Copy, Debug, PartialEq, Eq)]
pub struct Setting {
    pub cnf1: u8,
    pub cnf2: u8,
    pub cnf3: u8,
}

// The best setting, and its difference.
#[derive(Clone, Copy, Debug, PartialEq, Eq)]
pub struct Planned {
    pub setting: Setting,
    pub difference: i64,
}

// In CNF2.
const BTLMODE: u8 = 128;

// In quanta.
const LEAST_PS2: u32 = 2;

// The lengths that a bit may have.
const LEAST_QUANTA: u32 = 8;

const MOST_QUANTA: u32 = 25;

// A rule that is broken, in the result of `faults`.
const BTLMODE_FAULT: u32 = 1;

const SPARE_FAULT: u32 = 2;

const PS2_FAULT: u32 = 4;

const PROPSEG_PS1_FAULT: u32 = 8;

const SJW_FAULT: u32 = 16;

const QUANTA_FAULT: u32 = 32;

// Hz, and bits a second.
const LEAST_OSCILLATOR: u32 = 1_000_000;

const MOST_OSCILLATOR: u32 = 40_000_000;

const LEAST_RATE: u32 = 5_000;

const MOST_RATE: u32 = 1_000_000;

// A plan may be off by one part of the oscillator in so many.
const LIMIT: u64 = 1_000;

// In quanta, but for the prescaler.
impl Setting {
    fn brp(self) -> u32
        ensures { result ≡ brp_of self }
    {
        (self.cnf1 % 64) as u32
    }

    fn sjw(self) -> u32
        ensures { result ≡ sjw_of self }
    {
        (self.cnf1 / 64 % 4) as u32 + 1
    }

    fn prop_seg(self) -> u32
        ensures { result ≡ prop_seg_of self }
    {
        (self.cnf2 % 8) as u32 + 1
    }

    fn ps1(self) -> u32
        ensures { result ≡ ps1_of self }
    {
        (self.cnf2 / 8 % 8) as u32 + 1
    }

    fn ps2(self) -> u32
        ensures { result ≡ ps2_of self }
    {
        (self.cnf3 % 8) as u32 + 1
    }

    // Of a bit, with the sync quantum.
    fn quanta(self) -> u32
        ensures { result ≡ quanta_of self }
    {
        1 + self.prop_seg() + self.ps1() + self.ps2()
    }
}

fn is_inside(least: u32, most: u32, number: u32) -> bool
    ensures { result ≡ is_inside least most number }
{
    (least..=most).contains(&number)
}

// The bit of a rule, 0 where it is kept.
fn fault(kept: bool, bit: u32) -> u32
    ensures { (result ≡ cond kept 0 bit) × (result ≤ bit) }
{
    if kept { 0 } else { bit }
}

// The rules that are broken, a bit for each.
#[tactic(auto, unfolding(crate::specs::Timing::faults_of))]
pub fn faults(setting: Setting) -> u32
    ensures { result ≡ faults_of setting }
{
    let ps2 = setting.ps2();
    let before = setting.prop_seg() + setting.ps1();
    fault(setting.cnf2 / BTLMODE % 2 == 1, BTLMODE_FAULT)
        + fault(setting.cnf3 / 8 % 8 == 0, SPARE_FAULT)
        + fault(LEAST_PS2 <= ps2, PS2_FAULT)
        + fault(ps2 <= before, PROPSEG_PS1_FAULT)
        + fault(setting.sjw() < ps2, SJW_FAULT)
        + fault(
            is_inside(LEAST_QUANTA, MOST_QUANTA, setting.quanta()),
            QUANTA_FAULT,
        )
}

// Whether every rule is kept, whoever proposed the setting.
#[tactic(auto, using(crate::proofs::Broken::sound_has_no_faults))]
pub fn check(setting: Setting) -> bool
    ensures { (result ≡ is_sound setting) × SoundHasNoFaults }
{
    faults(setting) == 0
}

// The clocks that a second of bits takes.
fn clocks(rate: u32, brp: u32, quanta: u32) -> u64
    requires { (brp < 64) × (quanta ≤ 25) }
    ensures { (result ≡ clocks_at rate brp quanta) × (result < clock_limit) }
{
    rate as u64 * 2 * (brp as u64 + 1) * quanta as u64
}

// Oscillator less what the rate would need, with its sign; of any setting, sound or not.
#[tactic(auto, unfolding(crate::specs::Timing::difference_of))]
pub fn difference(oscillator: u32, rate: u32, setting: Setting) -> i64
    ensures { result ≡ difference_of oscillator rate setting }
{
    let clocks = clocks(rate, setting.brp(), setting.quanta());
    oscillator as i64 - clocks as i64
}

// Whether a plan is asked for what a chip and a bus can have.
#[tactic(auto, unfolding(crate::specs::Timing::plan_refusal))]
fn check_ranges(oscillator: u32, rate: u32) -> Result<(), Refusal>
    ensures { refusal_in result ≡ plan_refusal oscillator rate }
{
    if !is_inside(LEAST_OSCILLATOR, MOST_OSCILLATOR, oscillator) {
        return Err(Refusal::Oscillator);
    }
    if !is_inside(LEAST_RATE, MOST_RATE, rate) {
        return Err(Refusal::Rate);
    }
    Ok(())
}

// The best setting for an oscillator in Hz and a rate in bits a second; none where no sound setting is near enough.
pub fn plan(oscillator: u32, rate: u32) -> Result<Option<Planned>, Refusal>
    ensures { Planning oscillator rate result }
{
    check_ranges(oscillator, rate)?;
    let pair = pairs::nearest(oscillator, rate);
    if pairs::size(oscillator, rate, pair) * LIMIT <= oscillator as u64 {
        let setting = pairs::setting(pair);
        let difference = difference(oscillator, rate, setting);
        return Ok(Some(Planned {
            setting,
            difference,
        }));
    }
    Ok(None)
}
