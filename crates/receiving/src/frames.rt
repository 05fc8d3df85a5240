// A frame as register bytes.
ghost use Rattle.std.specs.Prelude.{◌≡◌, true, false, cond, ℕ, ◌+◌, ◌*◌, ◌%◌, ◌≤◌, ◌<◌, ltb};
ghost use Rattle.registers.specs.State.{with_rx_bytes};
ghost use Rattle.image.specs.Image.{core_of, Became};
ghost use Rattle.receiving.specs.Words.{key_of};
ghost use Rattle.receiving.specs.Receiving.{
  sidh_of,
  sidl_of,
  eid8_of,
  eid0_of,
  dlc_of,
  carried_by,
  filled,
  headed,
  bytes_at,
  bytes_stored,
  bytes_after,
};

use crate::filters::word;
use crate::{Key, Verdict};
use image::Image;
use records::Frame;
use registers::{RTR, RxBuffer};

// Where the bytes of a buffer lie, behind its control byte.
fn bytes_of(buffer: RxBuffer) -> usize
    ensures { result ≡ 96 + bytes_at buffer }
{
    match buffer {
        RxBuffer::Rxb0 => 96,
        RxBuffer::Rxb1 => 112,
    }
}

fn sidh(frame: Frame) -> u8
    ensures { result ≡ sidh_of frame }
{
    let identifier = frame.identifier;
    if frame.extended {
        ((identifier >> 21) % 256) as u8
    } else {
        ((identifier >> 3) % 256) as u8
    }
}

fn sidl_standard(identifier: u32, remote: bool) -> u8
    ensures { result ≡ identifier % 8 * 32 + cond remote 16 0 }
{
    if remote {
        (identifier % 8 * 32 + 16) as u8
    } else {
        (identifier % 8 * 32) as u8
    }
}

fn sidl(frame: Frame) -> u8
    ensures { result ≡ sidl_of frame }
{
    let identifier = frame.identifier;
    if frame.extended {
        ((identifier >> 18) % 8 * 32 + 8 + (identifier >> 16) % 4) as u8
    } else {
        sidl_standard(identifier, frame.remote)
    }
}

fn eid8(frame: Frame) -> u8
    ensures { result ≡ eid8_of frame }
{
    let identifier = frame.identifier;
    if frame.extended {
        ((identifier >> 8) % 256) as u8
    } else {
        0
    }
}

fn eid0(frame: Frame) -> u8
    ensures { result ≡ eid0_of frame }
{
    let identifier = frame.identifier;
    if frame.extended {
        (identifier % 256) as u8
    } else {
        0
    }
}

fn dlc(frame: Frame) -> u8
    ensures { result ≡ dlc_of frame }
{
    let code = frame.code;
    code | bits::choose(frame.extended & frame.remote, RTR, 0)
}

// Of the eight data bytes the frame carries those with a number below this one. A code above 8 serves as it stands, since
// no ninth byte is asked for.
fn data_end(frame: Frame) -> u8
    ensures { (j : ℕ) → j < 8 → ltb j result ≡ ltb j (carried_by frame) }
{
    if frame.remote { 0 } else { frame.code }
}

// The first two data bytes lie where an extended frame has EID8 and EID0.
fn standard_key(frame: Frame) -> Key
    requires { frame.extended ≡ false }
    ensures { result ≡ key_of frame }
{
    let end = data_end(frame);
    let first = frame.bytes[0];
    let second = frame.bytes[1];
    let eid8_reach = bits::choose(0 < end, 0xFF, 0);
    let eid0_reach = bits::choose(1 < end, 0xFF, 0);
    Key {
        word: word(sidh(frame), sidl(frame), first, second),
        reach: word(0xFF, 0xE0, eid8_reach, eid0_reach),
    }
}

fn extended_key(frame: Frame) -> Key
    requires { frame.extended ≡ true }
    ensures { result ≡ key_of frame }
{
    Key {
        word: word(sidh(frame), sidl(frame), eid8(frame), eid0(frame)),
        reach: word(0xFF, 0xE3, 0xFF, 0xFF),
    }
}

pub fn key_of(frame: Frame) -> Key
    ensures { result ≡ key_of frame }
{
    if frame.extended {
        extended_key(frame)
    } else {
        standard_key(frame)
    }
}

// The identifier bytes and DLC of the buffer at `at`.
fn head(image: &mut Image, at: usize, frame: Frame)
    requires { at ≤ 112 }
    ensures { image.new ≡ headed image.old at frame }
{
    image[at + 1] = sidh(frame);
    image[at + 2] = sidl(frame);
    image[at + 3] = eid8(frame);
    image[at + 4] = eid0(frame);
    image[at + 5] = dlc(frame);
}

// The data bytes that the frame carries go behind them. Their number is a byte, as the code is: so all eight are chosen at
// once, and not one by one.
fn fill(image: &mut Image, at: usize, frame: Frame)
    requires { at ≤ 112 }
    ensures { image.new ≡ filled image.old at frame 8 }
{
    let end = data_end(frame);
    for j in 0..8 {
        let i = at + 6 + usize::from(j);
        image[i] = bits::choose(j < end, frame.bytes[usize::from(j)], image[i]);
    }
}

#[tactic(auto, unfolding(crate::specs::Receiving::bytes_stored))]
fn put(image: &mut Image, at: usize, frame: Frame)
    requires { at ≤ 112 }
    ensures { image.new ≡ bytes_stored image.old at frame }
{
    head(image, at, frame);
    fill(image, at, frame);
}

// The bytes of a frame, where its verdict stores it.
#[tactic(auto, using(crate::proofs::Stored::frame_put, crate::proofs::Stored::unchanged))]
pub fn put_by(image: &mut Image, verdict: Verdict, frame: Frame)
    ensures { Became image.old image.new (with_rx_bytes (core_of image.old) (bytes_after verdict (core_of image.old).rx frame)) }
{
    match verdict {
        Verdict::Unmatched | Verdict::Lost(_) => {}
        Verdict::Stored(buffer, _) => put(image, bytes_of(buffer), frame),
        Verdict::RolledOver(_) => put(image, bytes_of(RxBuffer::Rxb1), frame),
    }
}
