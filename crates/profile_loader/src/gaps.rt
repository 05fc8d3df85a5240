// What comes between two commands, and the records of a run put down one after the other.
ghost use Rattle.std.specs.Prelude.{◌≡◌, ◌+◌, ◌*◌, ◌-◌, ◌/◌, ◌^◌, ◌≤◌, ◌<◌, [], ◌∷◌, length, take, drop, set};
ghost use Rattle.std.proofs.lemmas.List.Edits.{sets};
ghost use Rattle.records.specs.Records.{kind_of, is_event};
ghost use Rattle.load_rules.specs.Load.{events_in};
ghost use Rattle.profile_loader.specs.Gaps.{
  entry_size,
  place_of,
  goes_by,
  start_at,
  entries_left,
  between,
  Came,
  GapRun,
};

use crate::Gap;
use bus_log::RECORD_SIZE;
use image::Image;
use records::Kind;

// After how many commands, in four bytes, then the record.
pub const ENTRY_SIZE: usize = 20;

// Past the room nothing is put down.
fn put_byte(room: &mut [u8], at: usize, byte: u8)
    ensures { room.new ≡ set room.old at byte }
{
    if at < room.len() {
        room[at] = byte;
    }
}

// Byte by byte, and not by copy_from_slice: a room may end within the record.
pub fn put_record(room: &mut [u8], at: usize, record: [u8; RECORD_SIZE])
    requires { at + 16 < 2 ^ 64 }
    ensures { room.new ≡ sets room.old at «record» }
{
    for i in 0..RECORD_SIZE {
        put_byte(room, at + i, record[i]);
    }
}

fn place_at(events: &[u8], at: usize) -> u32
    requires { at + entry_size ≤ length events.now }
    ensures { result ≡ place_of (drop at events.now) }
{
    u32::from_be_bytes([events[at], events[at + 1], events[at + 2], events[at + 3]])
}

fn record_at(events: &[u8], at: usize) -> [u8; RECORD_SIZE]
    requires { at + entry_size ≤ length events.now }
    ensures { result ≡ take 16 (drop 4 (drop at events.now)) }
{
    let mut record = [0; RECORD_SIZE];
    record.copy_from_slice(&events[at + 4..at + ENTRY_SIZE]);
    record
}

// Kinds 3 to 8.
#[tactic(auto, unfolding(records::specs::Records::kind_of))]
fn is_event(record: [u8; RECORD_SIZE]) -> bool
    ensures { result ≡ is_event (kind_of «record») }
{
    match records::kind_by(record[0]) {
        None | Some(Kind::SelectLow | Kind::Exchange | Kind::SelectHigh) => false,
        Some(_) => true,
    }
}

// Where the first of the entries that are left begins.
fn start_of(events: &[u8], left: usize) -> usize
    requires { left ≤ length events.now / entry_size }
    ensures { result ≡ start_at events.now left }
{
    (events.len() / ENTRY_SIZE - left) * ENTRY_SIZE
}

// Whether the first of them is passed over or has come, after number commands.
fn goes_by(events: &[u8], left: usize, number: u8) -> bool
    requires { left ≤ length events.now / entry_size }
    ensures { result ≡ goes_by number (entries_left events.now left) }
{
    if left == 0 {
        return false;
    }
    let at = start_of(events, left);
    if is_event(record_at(events, at)) {
        return (number > 0) & (place_at(events, at) <= number as u32);
    }
    true
}

// An event comes to the chip and is put down; any other record is passed over.
fn pass(image: &mut Image, gap: Gap, record: [u8; RECORD_SIZE], room: &mut [u8]) -> Gap
    requires { (gap.sent + 16 < 2 ^ 64) × (0 < gap.left) }
    ensures came { Came (between image.old gap) (between image.new result) (events_in («record» ∷ [])) room.old room.new }
    ensures left_value { result.left + 1 ≡ gap.left }
{
    let left = gap.left - 1;
    let sent = gap.sent;
    if !is_event(record) {
        return Gap { left, sent };
    }
    put_record(room, sent, record);
    bus_log::run_one(image, &record);
    Gap {
        left,
        sent: sent + RECORD_SIZE,
    }
}

// What is due after number commands comes, in its order. A while: how many come shows on the way.
pub fn happen(image: &mut Image, gap: Gap, events: &[u8], number: u8, room: &mut [u8]) -> Gap
    requires { (gap.left ≤ length events.now / entry_size) × (gap.sent + 16 * gap.left < 2 ^ 64) }
    ensures { GapRun (between image.old gap) (between image.new result) events.now number room.old room.new }
{
    let mut gap = gap;
    while goes_by(events, gap.left, number) {
        let at = start_of(events, gap.left);
        gap = pass(image, gap, record_at(events, at), room);
    }
    gap
}
