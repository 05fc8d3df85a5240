// The look over a buffer's filters, and the set of all that match.
ghost use Rattle.std.specs.Prelude.{◌≡◌, ◌-◌, ◌<◌, ◌≤◌, [], ◌∷◌, take};
ghost use Rattle.bits.specs.Bit.{word_of};
ghost use Rattle.registers.specs.Registers.{rx_control};
ghost use Rattle.image.specs.Image.{control_of};
ghost use Rattle.receiving.specs.Words.{word_at, word_matches};
ghost use Rattle.receiving.specs.Receiving.{
  mask_at,
  filters,
  set_of,
  lowest_from,
  takes_any,
  lowest_for,
  hit_for,
};
ghost use Rattle.receiving.specs.AnswerSets.{wanted_set};

use crate::Key;
use image::{Image, RXB0CTRL, RXB1CTRL};
use registers::RxBuffer;

// Filters 0 to 5.
const FILTERS: u8 = 6;

// EXIDE, in the second byte of a filter's word: no mask takes it out.
const ALWAYS: u32 = 0x0800;

fn mask_at(filter: u8) -> usize
    ensures { (result ≡ mask_at filter) × (result ≤ 36) }
{
    if filter < 2 { 0x20 } else { 0x24 }
}

// Four bytes as one number, low byte first: then four bytes of the image are one load.
pub fn word(a: u8, b: u8, c: u8, d: u8) -> u32
    ensures { result ≡ word_of (a ∷ b ∷ c ∷ d ∷ []) }
{
    u32::from_le_bytes([a, b, c, d])
}

fn word_at(image: &Image, at: usize) -> u32
    requires { at ≤ 36 }
    ensures { result ≡ word_at image.now at }
{
    word(image[at], image[at + 1], image[at + 2], image[at + 3])
}

#[tactic(auto, unfolding(crate::specs::Words::word_matches))]
fn is_match(image: &Image, key: Key, filter: u8) -> bool
    requires { filter < filters }
    ensures { result ≡ word_matches image.now key filter }
{
    let at = (filter / 3 * 16 + filter % 3 * 4) as usize;
    let counted = (word_at(image, mask_at(filter)) & key.reach) | ALWAYS;
    word_at(image, at) & counted == key.word & counted
}

// Every filter that matches, bit n for filter n.
#[tactic(auto, using(crate::proofs::Sets::set_next), unfolding(crate::specs::Receiving::set_of))]
fn matched_by(image: &Image, key: Key) -> u8
    ensures { result ≡ set_of (word_matches image.now key) filters }
{
    let mut set = 0;
    for filter in 0..FILTERS {
        set = bits::choose(is_match(image, key, filter), bits::set(set, filter), set);
    }
    set
}

// The set where it is asked for; else it is not worked out.
#[tactic(auto, using(crate::proofs::Sets::set_take))]
pub fn set_if(wanted: bool, image: &Image, key: Key) -> u8
    ensures { result ≡ wanted_set wanted (set_of (word_matches (take 48 image.now) key) filters) }
{
    if wanted { matched_by(image, key) } else { 0 }
}

// The look over filters first to end - 1: the first that matches is the answer. The rules want a loop that yields it by `break`.
#[tactic(auto, using(crate::proofs::Look::skipped, crate::proofs::Look::found, crate::proofs::Look::ended))]
fn lowest(image: &Image, key: Key, first: u8, end: u8) -> Option<u8>
    requires { (first ≤ end) × (end ≤ filters) }
    ensures { result ≡ lowest_from (word_matches image.now key) first (end - first) }
{
    'look: {
        for filter in first..end {
            if is_match(image, key, filter) {
                break 'look Some(filter);
            }
        }
        None
    }
}

#[tactic(auto, using(crate::proofs::Look::lowest_take))]
fn lowest_for(image: &Image, key: Key, buffer: RxBuffer) -> Option<u8>
    ensures { result ≡ lowest_for (word_matches (take 48 image.now) key) buffer }
{
    match buffer {
        RxBuffer::Rxb0 => lowest(image, key, 0, 2),
        RxBuffer::Rxb1 => lowest(image, key, 2, 6),
    }
}

#[tactic(auto, unfolding(image::specs::Image::decoded))]
fn rx_control(image: &Image, buffer: RxBuffer) -> u8
    ensures { result ≡ rx_control (control_of image.now).rx buffer }
{
    match buffer {
        RxBuffer::Rxb0 => image[RXB0CTRL],
        RxBuffer::Rxb1 => image[RXB1CTRL],
    }
}

// RXM 11 takes any frame.
fn takes_any(ctrl: u8) -> bool
    ensures { result ≡ takes_any ctrl }
{
    ctrl / 32 % 4 == 3
}

#[tactic(auto, unfolding(crate::specs::Receiving::hit_for))]
pub fn hit_for(image: &Image, key: Key, buffer: RxBuffer) -> Option<u8>
    ensures { result ≡ hit_for (control_of image.now) (word_matches (take 48 image.now) key) buffer }
{
    if takes_any(rx_control(image, buffer)) {
        return Some(0);
    }
    lowest_for(image, key, buffer)
}
