// Two logs side by side: the records in which they differ, and what one has past the end of the other.
#![tactic(auto)]

mod pair;

ghost use Rattle.std.specs.Prelude.{◌≡◌, true, cond, ◌+◌, ◌*◌, ◌/◌, ◌%◌, ◌^◌, ◌≤◌, ◌<◌, ltb, length, drop};
ghost use Rattle.std.proofs.lemmas.List.Edits.{sets};
ghost use Rattle.records.specs.Records.{refusal_in};
ghost use Rattle.image.specs.Image.{is_chip};
ghost use Rattle.mcp2515.specs.ChipImage.{chip_of};
ghost use Rattle.bus_log.specs.Log.{record_size, max_records, records_in, log_refusal, first_refusal};
ghost use Rattle.bus_log.specs.Run.{answer_room, call_result};
ghost use Rattle.compare.specs.Compare.{
  records_in_both,
  entry_of,
  entry_room,
  room_lack,
  compare_refusal,
  compare_result,
  entries_after,
  compare_entries,
  past_shorter,
  Comparing,
};
ghost use Rattle.compare.specs.Block.{
  told_by,
  compared_in,
  differences_told,
  differences_behind,
  Ahead,
  Ran,
  HasRoom,
  Listing,
  agreeing_of,
  compared_by,
};

use bus_log::{ANSWER_SET_SIZE, ANSWER_SIZE, RECORD_SIZE};
use image::Image;
use pair::Pair;
use records::Refusal;

// A record number in four bytes, then refusal and answer of either log, then the set of either.
const ENTRY_SIZE: usize = 10;

// Records are run a block at a time, and the answers of a block compared: the step then runs in the loop
// in which it is fastest.
const BLOCK: usize = 512;

const BLOCK_SIZE: usize = RECORD_SIZE * BLOCK;

const BLOCK_ANSWERS: usize = ANSWER_SIZE * BLOCK;

const BLOCK_SETS: usize = ANSWER_SET_SIZE * BLOCK;

// How many records at the start of both logs are the same, up to the first that is not.
fn agreeing(first: &[u8], second: &[u8]) -> usize
    ensures told { result ≡ agreeing_of (records_in_both first.now second.now) first.now second.now }
    ensures most { result ≤ records_in_both first.now second.now }
{
    let (ours, _) = first.as_chunks::<RECORD_SIZE>();
    let (theirs, _) = second.as_chunks::<RECORD_SIZE>();
    ours.iter()
        .zip(theirs)
        .take_while(|(one, two)| one == two)
        .count()
}

// ---- a block of records
// Runs records over a chip and stores their answers, with the sets where they are wanted, which is an argument
// as in `bus_log::run_from`.
fn run_block(image: &mut Image, records: &[u8], told: &mut [u8], wanted: bool)
    requires chip { is_chip image.old ≡ true }
    requires whole { length records.now % record_size ≡ 0 }
    requires count { records_in (length records.now) ≤ max_records }
    requires room { answer_room wanted (records_in (length records.now)) ≤ length told.old }
    ensures { Ran wanted (records_in (length records.now)) records.now image.old image.new told.old told.new }
{
    bus_log::run_from(image, records, told, wanted);
}

// Stores an entry at a place: a record's number, and refusal, answer and set of either log. By place: a part
// that the caller lends would be named there by the same two bounds.
fn put_entry(
    entries: &mut [u8],
    at: usize,
    number: u32,
    one: &[u8; ANSWER_SET_SIZE],
    two: &[u8; ANSWER_SET_SIZE],
)
    requires { at + entry_room 1 ≤ length entries.old }
    ensures { entries.new ≡ sets entries.old at (entry_of (record { number = number; first = told_by one.now; second = told_by two.now })) }
{
    let [n0, n1, n2, n3] = number.to_be_bytes();
    entries[at..at + ENTRY_SIZE].copy_from_slice(&[
        n0, n1, n2, n3, one[0], one[1], two[0], two[1], one[2], two[2],
    ]);
}

// Lists the differences of a block by the answers of either log; found were listed already. In an empty
// output nothing is stored: they are counted.
fn list_block(block: Pair<'_>, told: &[u8], other: &[u8], entries: &mut [u8], found: usize) -> usize
    requires told_all { answer_room true (records_in (length block.first.now)) ≤ length told.now }
    requires other_all { answer_room true (records_in (length block.first.now)) ≤ length other.now }
    requires few { found ≤ block.before }
    requires has_room { HasRoom (found + length (differences_told block told.now other.now)) entries.old }
    ensures { Listing (differences_told block.entry told.now other.now) found entries.old entries.new result }
{
    let (ours, _) = block.first.as_chunks::<RECORD_SIZE>();
    let (theirs, _) = block.second.as_chunks::<RECORD_SIZE>();
    let (our_sets, _) = told.as_chunks::<ANSWER_SET_SIZE>();
    let (their_sets, _) = other.as_chunks::<ANSWER_SET_SIZE>();
    let storing = !entries.is_empty();
    let mut listed = found;
    for i in 0..ours.len() {
        if ours[i] == theirs[i] && our_sets[i] == their_sets[i] {
            continue;
        }
        if storing {
            let number = (block.before + i + 1) as u32;
            put_entry(
                entries,
                ENTRY_SIZE * listed,
                number,
                &our_sets[i],
                &their_sets[i],
            );
        }
        listed += 1;
    }
    listed
}

// ---- two logs
// Runs the records of a log for the chip that they leave.
fn run_ahead(image: &mut Image, log: &[u8])
    requires chip { is_chip image.old ≡ true }
    requires whole { length log.now % record_size ≡ 0 }
    ensures { Ahead (records_in (length log.now)) log.now image.old image.new }
{
    let mut told = [0u8; BLOCK_ANSWERS];
    for block in log.chunks(BLOCK_SIZE) {
        run_block(image, block, &mut told, false);
    }
}

// Lists the differences of a pair, run from the chip that the records before left in both logs. In an empty
// output they are counted only.
fn list(image: &Image, pair: Pair<'_>, entries: &mut [u8]) -> usize
    requires chip { is_chip image.now ≡ true }
    requires has_room { HasRoom (length (differences_behind pair (chip_of image.now))) entries.old }
    ensures { Listing (differences_behind pair.entry (chip_of image.now)) 0 entries.old entries.new result }
{
    let mut one = *image;
    let mut two = *image;
    let mut told = [0u8; BLOCK_SETS];
    let mut other = [0u8; BLOCK_SETS];
    let mut before = pair.before;
    let mut found = 0;
    for (first, second) in pair
        .first
        .chunks(BLOCK_SIZE)
        .zip(pair.second.chunks(BLOCK_SIZE))
    {
        run_block(&mut one, first, &mut told, true);
        run_block(&mut two, second, &mut other, true);
        let block = Pair {
            first,
            second,
            before,
        };
        found = list_block(block, &told, &other, entries, found);
        before += first.len() / RECORD_SIZE;
    }
    found
}

// Whether there is too little room for the entries of these differences. Where there is room for an entry of
// each record nothing is counted; else the differences are, in an empty part of the output.
#[tactic(auto, using(crate::proofs::Blocks::at_most))]
fn lacks_room(image: &Image, pair: Pair<'_>, entries: &mut [u8]) -> bool
    requires { is_chip image.now ≡ true }
    ensures told { result ≡ ltb (length entries.old) (entry_room (length (differences_behind pair.entry (chip_of image.now)))) }
    ensures kept { entries.new ≡ entries.old }
{
    let room = entries.len();
    if ENTRY_SIZE * (pair.first.len() / RECORD_SIZE) <= room {
        return false;
    }
    let lent = 0;
    let found = list(image, pair, &mut entries[..lent]);
    room < ENTRY_SIZE * found
}

// Lists the differences of two logs, each from power-on, where there is room for them, and tells how many. As
// long as the records agree one chip serves for both logs (Block.OneChip), so only the first is run there; logs
// that agree as far as both go are not run.
#[tactic(auto, using(mcp2515::proofs::Images::power_on_is_chip))]
fn list_logs(first: &[u8], second: &[u8], entries: &mut [u8]) -> Result<usize, Refusal>
    requires { records_in_both first.now second.now ≤ max_records }
    ensures told { compared_in result ≡ compared_by (room_lack first.now second.now (length entries.old)) first.now second.now }
    ensures buffer { entries.new ≡ entries_after (room_lack first.now second.now (length entries.old)) first.now second.now entries.old }
{
    let count = first.len().min(second.len()) / RECORD_SIZE;
    let same = agreeing(first, second);
    if same == count {
        return Ok(0);
    }
    let at = same * RECORD_SIZE;
    let end = count * RECORD_SIZE;
    let mut image = image::power_on();
    run_ahead(&mut image, &first[..at]);
    let pair = Pair {
        first: &first[at..end],
        second: &second[at..end],
        before: same,
    };
    if lacks_room(&image, pair, entries) {
        return Err(Refusal::Room);
    }
    Ok(list(&image, pair, entries))
}

// Why two logs are refused, whatever the room.
fn logs_refusal(first: usize, second: usize) -> Result<(), Refusal>
    ensures { refusal_in result ≡ first_refusal (log_refusal first) (log_refusal second) }
{
    bus_log::log_refusal(first)?;
    bus_log::log_refusal(second)
}

// The refusal of two logs comes before the one of the room.
#[tactic(auto, using(bus_log::proofs::Refusals::neither, bus_log::proofs::Refusals::taken))]
fn compare_logs(first: &[u8], second: &[u8], entries: &mut [u8]) -> Result<usize, Refusal>
    ensures told { compared_in result ≡ compared_by (compare_refusal first.now second.now (length entries.old)) first.now second.now }
    ensures buffer { entries.new ≡ compare_entries first.now second.now entries.old }
{
    logs_refusal(first.len(), second.len())?;
    list_logs(first, second, entries)
}

// What C gets: the number of entries, or minus the refusal.
fn result_of(told: Result<usize, Refusal>) -> i64
    requires { (compared_in told).found < 2 ^ 63 }
    ensures { result ≡ call_result (compared_in told).refusal (compared_in told).found }
{
    match told {
        Ok(found) => found as i64,
        Err(refusal) => bus_log::minus(refusal.number()),
    }
}

// The part of the longer log past the shorter one's length; refused, the end of the first. By a range, since
// `compare` promises a suffix of a lent log, where it lies.
fn leftover<'a>(first: &'a [u8], second: &'a [u8], refused: bool) -> &'a [u8]
    ensures { result.now ≡ cond refused (drop (length first.now) first.now) (past_shorter first.now second.now) }
{
    let first_len = first.len();
    let second_len = second.len();
    if refused {
        return &first[first_len..];
    }
    if first_len < second_len {
        return &second[first_len..];
    }
    &first[second_len..]
}

// Compares two logs, each run from power-on by a chip of its own: stores an entry for each record in which
// they differ, hands out their number, or minus the refusal, and returns what one log has past the end of
// the other, where it lies. Refused, no byte of the output changes.
#[tactic(auto, using(crate::proofs::Whole::count_fits))]
pub fn compare<'a>(
    first: &'a [u8],
    second: &'a [u8],
    entries: &mut [u8],
    count: &mut i64,
) -> &'a [u8]
    ensures { Comparing first.now second.now entries.old entries.new count.new result.now }
{
    let told = compare_logs(first, second, entries);
    *count = result_of(told);
    leftover(first, second, told.is_err())
}

// The same for C, which knows by the lengths where the leftover lies.
#[tactic(auto, using(crate::proofs::Whole::count_fits))]
#[unsafe(no_mangle)]
pub extern "C" fn mcp2515_compare_logs<'a>(
    first: &'a [u8],
    second: &'a [u8],
    entries: &'a mut [u8],
) -> i64
    ensures result { result ≡ compare_result first.now second.now (length entries.old) }
    ensures buffer { entries.new ≡ compare_entries first.now second.now entries.old }
{
    let told = compare_logs(first, second, entries);
    result_of(told)
}
