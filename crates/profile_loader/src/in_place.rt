// The loader on a chip where it lies: each function takes the chip out, calls what is proved by value and stores what that gives
// back. They stay so: the loader holds one chip and changes it where it lies.
ghost use Rattle.std.specs.Prelude.{◌≡◌};
ghost use Rattle.mcp2515.specs.Step.{step_of};
ghost use Rattle.profile_loader.specs.Running.{replied, LoadedFrom};

use crate::runs::{load, send};
use bus_log::RECORD_SIZE;
use load_machine::{Command, PROFILE_SIZE, Verdict};
use mcp2515::Chip;

// A command.
pub fn send_in_place(chip: &mut Chip, command: Command) -> u8
    ensures { (result ≡ (replied chip.old command).reply) × (chip.new ≡ (replied chip.old command).chip) }
{
    let sent = send(*chip, command);
    *chip = sent.chip;
    sent.reply
}

// A record, such as a bus event between two commands.
pub fn event_in_place(chip: &mut Chip, record: [u8; RECORD_SIZE]) -> u8
    ensures { (result ≡ (step_of chip.old «record»).answer) × (chip.new ≡ (step_of chip.old «record»).chip) }
{
    let stepped = mcp2515::step(*chip, record);
    *chip = stepped.chip;
    stepped.answer
}

// A profile, with bus events between its commands.
pub fn load_in_place(chip: &mut Chip, profile: [u8; PROFILE_SIZE], events: &[u8]) -> Verdict
    ensures { LoadedFrom chip.old profile events.now (record { chip = chip.new; verdict = result }) }
{
    let loaded = load(*chip, profile, events);
    *chip = loaded.chip;
    loaded.verdict
}
