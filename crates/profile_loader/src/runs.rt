// The run: the machine's commands, one after the other, over a chip.
ghost use Rattle.std.specs.Prelude.{◌≡◌, [], ◌∷◌, ◌+◌, ◌*◌, ◌/◌, ◌^◌, ◌≤◌, ◌<◌, length};
ghost use Rattle.std.proofs.lemmas.List.Edits.{sets};
ghost use Rattle.mcp2515.specs.ChipImage.{chip_of};
ghost use Rattle.load_machine.specs.Machine.{session_of};
ghost use Rattle.profile_loader.specs.Gaps.{entry_size, log_of};
ghost use Rattle.load_rules.specs.Load.{is_lowered, verdict_in};
ghost use Rattle.profile_loader.specs.Running.{
  exchanged,
  replied,
  replied_in,
  underway,
  Gone,
  Advanced,
  Turned,
  Ran,
  LoadedFrom,
};

use crate::gaps::{ENTRY_SIZE, happen, put_record};
use crate::{Finished, Gap, Loaded, Loading, Replied};
use bus_log::RECORD_SIZE;
use image::Image;
use load_machine::{Command, PROFILE_SIZE, Stage, Turn, Verdict};
use mcp2515::Chip;
use records::Kind;
use registers::Mode;
use spi::Select;

// Two asks and a look, 34 writes and 34 reads.
const MOST_COMMANDS: u8 = 71;

// One record of a session: what an exchange answers is the reply from then on.
fn exchange(image: &mut Image, record: [u8; RECORD_SIZE], reply: u8) -> u8
    ensures { replied_in image.new result ≡ exchanged (replied_in image.old reply) «record» }
{
    let told = bus_log::run_one(image, &record);
    if record[0] == Kind::Exchange as u8 {
        told.answer
    } else {
        reply
    }
}

// A command, whose records are put down.
fn perform(image: &mut Image, command: Command, room: &mut [u8], at: usize) -> u8
    requires { at + 112 < 2 ^ 64 }
    ensures value { replied_in image.new result ≡ replied (chip_of image.old) command }
    ensures room_after { room.new ≡ sets room.old at (log_of (session_of command)) }
{
    let count = load_machine::records_in(command);
    let mut reply = 0;
    for index in 0..count {
        let record = load_machine::record_of(command, index);
        put_record(room, at + RECORD_SIZE * index as usize, record);
        reply = exchange(image, record, reply);
    }
    reply
}

// A command by itself.
pub fn send(chip: Chip, command: Command) -> Replied
    ensures { result ≡ replied chip command }
{
    let mut image = mcp2515::pack(chip);
    let reply = perform(&mut image, command, &mut [], 0);
    Replied {
        chip: mcp2515::unpack(image),
        reply,
    }
}

// What is due comes, then the command.
fn advance(
    image: &mut Image,
    loading: Loading,
    profile: [u8; PROFILE_SIZE],
    command: Command,
    events: &[u8],
    number: u8,
    room: &mut [u8],
) -> Loading
    requires { (loading.gap.left ≤ length events.now / entry_size) × (loading.gap.sent + 16 * loading.gap.left + 112 < 2 ^ 64) }
    ensures { Advanced (underway image.old loading) (underway image.new result) profile command events.now number room.old room.new }
{
    let gap = happen(image, loading.gap, events, number, room);
    let reply = perform(image, command, room, gap.sent);
    Loading {
        stage: load_machine::following(profile, loading.stage, reply),
        gap: Gap {
            left: gap.left,
            sent: gap.sent + RECORD_SIZE * load_machine::records_in(command) as usize,
        },
    }
}

fn turn(
    image: &mut Image,
    loading: Loading,
    profile: [u8; PROFILE_SIZE],
    start: Mode,
    events: &[u8],
    number: u8,
    room: &mut [u8],
) -> Loading
    requires { (loading.gap.left ≤ length events.now / entry_size) × (loading.gap.sent + 16 * loading.gap.left + 112 < 2 ^ 64) }
    ensures { Turned (underway image.old loading) (underway image.new result) profile start events.now number room.old room.new }
{
    match load_machine::next(profile, start, loading.stage) {
        Turn::Send(command) => advance(image, loading, profile, command, events, number, room),
        Turn::Say(_) => loading,
    }
}

fn is_lowered(select: Select) -> bool
    ensures { result ≡ is_lowered select }
{
    matches!(select, Select::Lowered(_, _))
}

// The turns of a load, where the chip lies.
fn go(
    image: &mut Image,
    begun: Loading,
    profile: [u8; PROFILE_SIZE],
    start: Mode,
    events: &[u8],
    room: &mut [u8],
) -> Loading
    requires { (begun.gap.left ≡ length events.now / entry_size) × (begun.gap.sent ≡ 0) }
    ensures { Gone (underway image.old begun) (underway image.new result) profile start events.now room.old room.new }
{
    let mut loading = begun;
    for number in 0..MOST_COMMANDS {
        loading = turn(image, loading, profile, start, events, number, room);
    }
    loading
}

// The load of a profile: its records are put into the room as far as that goes.
pub fn run(chip: Chip, profile: [u8; PROFILE_SIZE], events: &[u8], room: &mut [u8]) -> Finished
    ensures { Ran chip profile events.now room.old room.new result }
{
    let start = chip.core.control.state.mode;
    let begun = Loading {
        stage: load_machine::begin(is_lowered(chip.select), profile, start),
        gap: Gap {
            left: events.len() / ENTRY_SIZE,
            sent: 0,
        },
    };
    let mut image = mcp2515::pack(chip);
    let end = go(&mut image, begun, profile, start, events, room);
    Finished {
        stage: end.stage,
        chip: mcp2515::unpack(image),
        sent: end.gap.sent,
    }
}

pub fn verdict_in(stage: Stage) -> Verdict
    ensures { result ≡ verdict_in stage }
{
    match stage {
        Stage::Ended(verdict) => verdict,
        _ => Verdict::Differs,
    }
}

// The load of a profile, by value.
pub fn load(chip: Chip, profile: [u8; PROFILE_SIZE], events: &[u8]) -> Loaded
    ensures { LoadedFrom chip profile events.now result }
{
    let finished = run(chip, profile, events, &mut []);
    Loaded {
        chip: finished.chip,
        verdict: verdict_in(finished.stage),
    }
}
