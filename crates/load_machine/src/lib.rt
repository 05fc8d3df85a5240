// The loader of a profile as a machine by value: which command comes next, and what it says in the end. It
// knows no chip.
#![tactic(auto)]

ghost use Rattle.std.specs.Prelude.{◌≡◌, ℕ, get_or};
ghost use Rattle.load_machine.specs.Profile.{
  address_of,
  bits_of,
  is_writable_at,
  is_writable,
  agrees_at,
  loads_in,
  checked_for,
  refusal_for,
};
ghost use Rattle.load_machine.specs.Machine.{
  begin_of,
  next_of,
  checked_by,
  following_of,
  byte_of,
  bytes_in,
  plain_record,
  record_of_command,
  records_in,
};
ghost use Rattle.records.specs.Records.{refusal_in};

use records::{Kind, Refusal};
use registers::Mode;

// Filters 0 to 5, masks 0 and 1, RXB0CTRL, RXB1CTRL.
pub const PROFILE_SIZE: usize = 34;

const LAST_BYTE: u8 = 33;

#[derive(Clone, Copy, Debug, PartialEq, Eq)]
pub enum Verdict {
    // Nothing was sent: the refusal, by its number, since `next` and `following` answer for a stage with any number.
    Refused(u8),
    // Configuration was not reached, and no profile byte written.
    Waiting,
    // The chip holds the profile.
    In,
    // A byte read back differs. No chip brings it to this, as is proved of the run.
    Differs,
}

#[derive(Clone, Copy, Debug, PartialEq, Eq)]
pub enum Stage {
    Asking,
    Looking,
    // The byte to be written.
    Writing(u8),
    // The byte to be read back, and whether those before it agreed.
    Checking(u8, bool),
    // Back to the mode at the start.
    Returning(Verdict),
    Ended(Verdict),
}

#[derive(Clone, Copy, Debug, PartialEq, Eq)]
pub enum Command {
    // Asks for a mode.
    Ask(Mode),
    // Reads an address.
    Read(u8),
    // Writes to an address a byte.
    Write(u8, u8),
}

#[derive(Clone, Copy, Debug, PartialEq, Eq)]
pub enum Turn {
    Send(Command),
    Say(Verdict),
}

// CANSTAT, with the mode in bits 7-5.
const CANSTAT: u8 = 14;

const CANCTRL: u8 = 15;

const RXB0CTRL: u8 = 96;

const RXB1CTRL: u8 = 112;

// Bits 7-5 of CANCTRL ask for a mode.
const MODE_BITS: u8 = 224;

// The bits that a write reaches.
const FILTER_SIDL_BITS: u8 = 235;

const MASK_SIDL_BITS: u8 = 227;

const RXB0CTRL_BITS: u8 = 100;

const RXB1CTRL_BITS: u8 = 96;

// The codes of the instructions.
const READ: u8 = 3;

const WRITE: u8 = 2;

const BIT_MODIFY: u8 = 5;

// Where a byte of the profile goes.
#[tactic(auto, unfolding(crate::specs::Profile::address_of))]
pub fn address(index: u8) -> u8
    ensures { result ≡ address_of index }
{
    match index {
        0..12 => index,
        12..24 => index + 4,
        24..32 => index + 8,
        32 => RXB0CTRL,
        _ => RXB1CTRL,
    }
}

// The bits of a byte of the profile that a write reaches: of the control bytes, of SIDL of a filter and of a
// mask.
#[tactic(auto, using(crate::proofs::Places::reached))]
fn bits(index: u8) -> u8
    ensures { result ≡ bits_of index }
{
    match index {
        32 => RXB0CTRL_BITS,
        33.. => RXB1CTRL_BITS,
        _ if index % 4 != 1 => 255,
        0..24 => FILTER_SIDL_BITS,
        _ => MASK_SIDL_BITS,
    }
}

fn byte_at(profile: [u8; PROFILE_SIZE], index: u8) -> u8
    ensures { result ≡ get_or profile index 0 }
{
    profile.get(index as usize).copied().unwrap_or(0)
}

fn is_writable_at(profile: [u8; PROFILE_SIZE], index: u8) -> bool
    ensures { result ≡ is_writable_at profile index }
{
    let byte = byte_at(profile, index);
    byte & bits(index) == byte
}

fn is_writable(profile: [u8; PROFILE_SIZE]) -> bool
    ensures { result ≡ is_writable profile }
{
    for index in 0..=LAST_BYTE {
        if !is_writable_at(profile, index) {
            return false;
        }
    }
    true
}

fn agrees(profile: [u8; PROFILE_SIZE], index: u8, reply: u8) -> bool
    ensures { result ≡ agrees_at profile index reply }
{
    let mask = bits(index);
    reply & mask == byte_at(profile, index) & mask
}

fn loads_in(mode: Mode) -> bool
    ensures { result ≡ loads_in mode }
{
    matches!(mode, Mode::Normal | Mode::ListenOnly | Mode::Configuration)
}

// Whether a load may begin; low says whether the chip's select is low.
#[tactic(auto, unfolding(crate::specs::Profile::checked_for, crate::specs::Profile::refusal_for))]
fn check(low: bool, profile: [u8; PROFILE_SIZE], mode: Mode) -> Result<(), Refusal>
    ensures value { result ≡ checked_for low profile mode }
    ensures number { refusal_in result ≡ refusal_for low profile mode }
{
    if low {
        return Err(Refusal::Select);
    }
    if !is_writable(profile) {
        return Err(Refusal::Profile);
    }
    if !loads_in(mode) {
        return Err(Refusal::Mode);
    }
    Ok(())
}

// The first stage of a load: refused, it is at its end.
#[tactic(auto, unfolding(crate::specs::Machine::begin_of))]
pub fn begin(low: bool, profile: [u8; PROFILE_SIZE], mode: Mode) -> Stage
    ensures { result ≡ begin_of low profile mode }
{
    match check(low, profile, mode) {
        Ok(()) => Stage::Asking,
        Err(refusal) => Stage::Ended(Verdict::Refused(refusal.number())),
    }
}

// What comes next: a command or the verdict. start is the mode at the start.
#[tactic(auto, unfolding(crate::specs::Machine::next_of))]
pub fn next(profile: [u8; PROFILE_SIZE], start: Mode, stage: Stage) -> Turn
    ensures { result ≡ next_of profile start stage }
{
    match stage {
        Stage::Asking => Turn::Send(Command::Ask(Mode::Configuration)),
        Stage::Looking => Turn::Send(Command::Read(CANSTAT)),
        Stage::Writing(index) => Turn::Send(Command::Write(
            address(index),
            byte_at(profile, index),
        )),
        Stage::Checking(index, _) => Turn::Send(Command::Read(address(index))),
        Stage::Returning(_) => Turn::Send(Command::Ask(start)),
        Stage::Ended(verdict) => Turn::Say(verdict),
    }
}

// After byte index was read back.
fn checked(index: u8, agreed: bool) -> Stage
    ensures { result ≡ checked_by index agreed }
{
    if LAST_BYTE > index {
        return Stage::Checking(index + 1, agreed);
    }
    if agreed {
        return Stage::Returning(Verdict::In);
    }
    Stage::Returning(Verdict::Differs)
}

// The stage after the command, by its reply.
#[tactic(auto, unfolding(crate::specs::Machine::following_of))]
pub fn following(profile: [u8; PROFILE_SIZE], stage: Stage, reply: u8) -> Stage
    ensures { result ≡ following_of profile stage reply }
{
    match stage {
        Stage::Asking => Stage::Looking,
        Stage::Looking => {
            if reply / 32 == registers::mode_number(Mode::Configuration) {
                return Stage::Writing(0);
            }
            Stage::Returning(Verdict::Waiting)
        }
        Stage::Writing(index) => {
            if index < LAST_BYTE {
                return Stage::Writing(index + 1);
            }
            Stage::Checking(0, true)
        }
        Stage::Checking(index, agreed) => { checked(index, agreed & agrees(profile, index, reply)) }
        Stage::Returning(verdict) => Stage::Ended(verdict),
        Stage::Ended(verdict) => Stage::Ended(verdict),
    }
}

// What a command's session sends, with 0 past its bytes.
fn bytes_of(command: Command) -> [u8; 4]
    ensures { (j : ℕ) → get_or result j 0 ≡ byte_of command j }
{
    match command {
        Command::Ask(mode) => [BIT_MODIFY, CANCTRL, MODE_BITS, registers::mode_bits(mode)],
        Command::Read(address) => [READ, address, 0, 0],
        Command::Write(address, byte) => [WRITE, address, byte, 0],
    }
}

fn byte_of(command: Command, index: u8) -> u8
    ensures { result ≡ byte_of command index }
{
    bytes_of(command).get(index as usize).copied().unwrap_or(0)
}

fn bytes_in(command: Command) -> u8
    ensures { result ≡ bytes_in command }
{
    match command {
        Command::Ask(_) => 4,
        Command::Read(_) | Command::Write(_, _) => 3,
    }
}

// How many records a command's session has: select low, its bytes, select high.
pub fn records_in(command: Command) -> u8
    ensures { result ≡ records_in command }
{
    bytes_in(command) + 2
}

fn plain_record(kind: u8, field: u8) -> [u8; 16]
    ensures { result ≡ plain_record kind field }
{
    let mut record = [0; 16];
    record[0] = kind;
    record[1] = field;
    record
}

// One of the records.
#[tactic(auto, unfolding(crate::specs::Machine::record_of_command))]
pub fn record_of(command: Command, index: u8) -> [u8; 16]
    ensures { result ≡ record_of_command command index }
{
    if index == 0 {
        return plain_record(Kind::SelectLow as u8, 0);
    }
    if index > bytes_in(command) {
        return plain_record(Kind::SelectHigh as u8, 0);
    }
    plain_record(Kind::Exchange as u8, byte_of(command, index - 1))
}
