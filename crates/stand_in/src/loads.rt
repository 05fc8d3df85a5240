// The load of a profile into a chip that a C program holds.
ghost use Rattle.std.specs.Prelude.{◌≡◌, true, length, IfOk};
ghost use Rattle.records.specs.Records.{refusal_in};
ghost use Rattle.image.specs.Image.{is_chip};
ghost use Rattle.mcp2515.specs.ChipImage.{Moved};
ghost use Rattle.stand_in.specs.LoadCalls.{
  lengths_refusal,
  result_of,
  is_refused,
  LoadHeld,
  SentHeld,
};

use crate::refused;
use bus_log::RECORD_SIZE;
use image::{Image, VERSION};
use load_machine::{PROFILE_SIZE, Verdict};
use mcp2515::Chip;
use profile_loader::ENTRY_SIZE;
use records::Refusal;

// Behind the select line: a spare byte and the version, which stay.
const SPARE: usize = image::SPEAKER + 1;

// The profile as an array, where it and the events have sizes of theirs.
#[tactic(auto, unfolding(crate::specs::LoadCalls::lengths_refusal))]
pub fn sized<'a>(profile: &'a [u8], events: &'a [u8]) -> Result<&'a [u8; PROFILE_SIZE], Refusal>
    ensures refusal { refusal_in result ≡ lengths_refusal (length profile.now) (length events.now) }
    ensures same { IfOk result (λ x. x.now ≡ profile.now) }
{
    let Some(profile) = profile.as_array::<PROFILE_SIZE>() else {
        return Err(Refusal::Length);
    };
    if events.len() % ENTRY_SIZE > 0 {
        return Err(Refusal::Length);
    }
    Ok(profile)
}

// Puts a chip back into the bytes.
fn put_chip(image: &mut Image, chip: Chip)
    ensures { Moved image.old image.new chip }
{
    let mut bytes = mcp2515::pack(chip);
    bytes[SPARE] = image[SPARE];
    bytes[VERSION] = image[VERSION];
    *image = bytes;
}

// What a load returns to C.
fn result_of(verdict: Verdict) -> i64
    ensures { result ≡ result_of verdict }
{
    match verdict {
        Verdict::Refused(refusal) => bus_log::minus(refusal),
        Verdict::Waiting => 0,
        Verdict::In => 1,
        Verdict::Differs => 2,
    }
}

fn is_refused(verdict: Verdict) -> bool
    ensures { result ≡ is_refused verdict }
{
    matches!(verdict, Verdict::Refused(_))
}

// Leaves the chip as the load does, unless that is refused.
pub fn load_profile<'a>(
    image: &'a mut Image,
    profile: &'a [u8; PROFILE_SIZE],
    events: &'a [u8],
) -> i64
    requires { is_chip image.old ≡ true }
    ensures { LoadHeld image.old profile.now events.now image.new result }
{
    let before = mcp2515::unpack(*image);
    let loaded = profile_loader::load(before, *profile, events);
    if is_refused(loaded.verdict) {
        return result_of(loaded.verdict);
    }
    put_chip(image, loaded.chip);
    result_of(loaded.verdict)
}

// Counts the records before it stores them: too little room changes nothing.
pub fn load_records<'a>(
    image: &'a Image,
    profile: &'a [u8; PROFILE_SIZE],
    events: &'a [u8],
    records: &'a mut [u8],
) -> i64
    requires { is_chip image.now ≡ true }
    ensures { SentHeld image.now profile.now events.now records.old records.new result }
{
    let before = mcp2515::unpack(*image);
    let counted = profile_loader::run(before, *profile, events, &mut []);
    let verdict = profile_loader::verdict_in(counted.stage);
    if is_refused(verdict) {
        return result_of(verdict);
    }
    if records.len() < counted.sent {
        return refused(Refusal::Short);
    }
    profile_loader::run(before, *profile, events, records);
    (counted.sent / RECORD_SIZE) as i64
}
