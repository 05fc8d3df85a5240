// What becomes of a frame, and the chip after it.
ghost use Rattle.std.specs.Prelude.{◌≡◌, take};
ghost use Rattle.bits.specs.Bit.{has_bit};
ghost use Rattle.registers.specs.State.{bukt_bit, rx_flag, with_control};
ghost use Rattle.image.specs.Image.{control_of, core_of, Became};
ghost use Rattle.receiving.specs.Words.{word_matches};
ghost use Rattle.receiving.specs.Receiving.{
  reception_number,
  hit_for,
  is_full,
  verdict0,
  verdict1,
  verdict_by,
  match_of,
  reception_of,
  hit_bits,
  lost_at,
  overflow_bit,
  control_after,
  received_of,
};
ghost use Rattle.receiving.specs.AnswerSets.{answer_set_in, answer_set_to, plain_answer, wanted_match};

use crate::filters::{hit_for, set_if};
use crate::frames::{key_of, put_by};
use crate::{Key, MatchAnswer, Reception, Verdict};
use image::{CANINTF, EFLG, Image, RXB0CTRL, RXB1CTRL};
use records::{Answer, Frame};
use registers::{BUKT, ERRIF, RXRTR, RxBuffer};

pub fn reception_number(reception: Reception) -> u8
    ensures { result ≡ reception_number reception }
{
    reception as u8
}

// The answer to a frame for which no filter is asked: its set is empty.
pub fn unheard(reception: Reception) -> Answer
    ensures { answer_set_in result ≡ plain_answer (reception_number reception) }
{
    Answer {
        byte: reception_number(reception),
        matched: 0,
    }
}

// RXnIF, by its number.
fn flag_of(buffer: RxBuffer) -> u8
    ensures { result ≡ rx_flag buffer }
{
    match buffer {
        RxBuffer::Rxb0 => 0,
        RxBuffer::Rxb1 => 1,
    }
}

// RXnOVR, by its number.
fn overflow_of(buffer: RxBuffer) -> u8
    ensures { result ≡ overflow_bit buffer }
{
    match buffer {
        RxBuffer::Rxb0 => 6,
        RxBuffer::Rxb1 => 7,
    }
}

#[tactic(auto, unfolding(image::specs::Image::decoded))]
fn is_full(image: &Image, buffer: RxBuffer) -> bool
    ensures { result ≡ is_full (control_of image.now) buffer }
{
    bits::has(image[CANINTF], flag_of(buffer))
}

// The rollover bit.
#[tactic(auto, unfolding(image::specs::Image::decoded))]
fn has_bukt(image: &Image) -> bool
    ensures { result ≡ has_bit (control_of image.now).rx.rxb0 bukt_bit }
{
    image[RXB0CTRL] / BUKT % 2 == 1
}

// Matched for RXB0.
fn judge0(image: &Image, filter: u8) -> Verdict
    ensures { result ≡ verdict0 (control_of image.now) filter }
{
    if !is_full(image, RxBuffer::Rxb0) {
        Verdict::Stored(RxBuffer::Rxb0, filter)
    } else if !has_bukt(image) {
        Verdict::Lost(RxBuffer::Rxb0)
    } else if is_full(image, RxBuffer::Rxb1) {
        Verdict::Lost(RxBuffer::Rxb1)
    } else {
        Verdict::RolledOver(filter)
    }
}

// Not matched for RXB0.
fn judge1(image: &Image, hit: Option<u8>) -> Verdict
    ensures { result ≡ verdict1 (control_of image.now) hit }
{
    match hit {
        None => Verdict::Unmatched,
        Some(_) if is_full(image, RxBuffer::Rxb1) => Verdict::Lost(RxBuffer::Rxb1),
        Some(filter) => Verdict::Stored(RxBuffer::Rxb1, filter),
    }
}

// By the hit of RXB0; only where it has none are the filters of RXB1 asked.
fn judge(image: &Image, key: Key, hit: Option<u8>) -> Verdict
    ensures { result ≡ verdict_by (control_of image.now) hit (hit_for (control_of image.now) (word_matches (take 48 image.now) key) RxBuffer.Rxb1) }
{
    match hit {
        Some(filter) => judge0(image, filter),
        None => judge1(image, hit_for(image, key, RxBuffer::Rxb1)),
    }
}

// The match answer: what becomes of the frame, and its set where that is asked for.
fn match_of(image: &Image, frame: Frame, wanted: bool) -> MatchAnswer
    ensures { result ≡ wanted_match wanted (match_of (control_of image.now) (take 48 image.now) frame) }
{
    let key = key_of(frame);
    let matched = set_if(wanted, image, key);
    let verdict = judge(image, key, hit_for(image, key, RxBuffer::Rxb0));
    MatchAnswer { verdict, matched }
}

fn reception_of(verdict: Verdict) -> Reception
    ensures { result ≡ reception_of verdict }
{
    match verdict {
        Verdict::Unmatched => Reception::NoMatch,
        Verdict::Stored(RxBuffer::Rxb0, _) => Reception::InRxb0,
        Verdict::Stored(RxBuffer::Rxb1, _) | Verdict::RolledOver(_) => Reception::InRxb1,
        Verdict::Lost(_) => Reception::Lost,
    }
}

fn hit_bits(filter: u8, remote: bool) -> u8
    ensures { result ≡ hit_bits filter remote }
{
    filter | bits::choose(remote, RXRTR, 0)
}

// The hit below the bits of the control byte that a write reaches, and the buffer's flag.
fn mark_stored(image: &mut Image, buffer: RxBuffer, filter: u8, remote: bool)
    ensures { Became image.old image.new (with_control (core_of image.old) (control_after (Verdict.Stored buffer filter) (control_of image.old) remote)) }
{
    let canintf = bits::set(image[CANINTF], flag_of(buffer));
    let hit = hit_bits(filter, remote);
    match buffer {
        RxBuffer::Rxb0 => image[RXB0CTRL] = bits::merge(9, image[RXB0CTRL], hit),
        RxBuffer::Rxb1 => image[RXB1CTRL] = bits::merge(15, image[RXB1CTRL], hit),
    }
    image[CANINTF] = canintf;
}

// The hit of a frame that rolls over shows in both control bytes.
fn mark_rolled(image: &mut Image, filter: u8, remote: bool)
    ensures { Became image.old image.new (with_control (core_of image.old) (control_after (Verdict.RolledOver filter) (control_of image.old) remote)) }
{
    mark_stored(image, RxBuffer::Rxb1, filter, remote);
    image[RXB0CTRL] = bits::merge(1, image[RXB0CTRL], filter);
}

// A loss: the buffer's overflow bit, and ERRIF.
fn lose(image: &mut Image, buffer: RxBuffer)
    ensures { Became image.old image.new (with_control (core_of image.old) (lost_at (control_of image.old) (overflow_bit buffer))) }
{
    let canintf = image[CANINTF] | ERRIF;
    image[EFLG] = bits::set(image[EFLG], overflow_of(buffer));
    image[CANINTF] = canintf;
}

// The control registers that a frame changes.
fn mark(image: &mut Image, verdict: Verdict, remote: bool)
    ensures { Became image.old image.new (with_control (core_of image.old) (control_after verdict (control_of image.old) remote)) }
{
    match verdict {
        Verdict::Unmatched => {}
        Verdict::Stored(buffer, filter) => mark_stored(image, buffer, filter, remote),
        Verdict::RolledOver(filter) => mark_rolled(image, filter, remote),
        Verdict::Lost(buffer) => lose(image, buffer),
    }
}

// The receive rules whole.
#[tactic(auto, using(image::proofs::Laws::followed), unfolding(crate::specs::Receiving::received_of))]
pub fn receive(image: &mut Image, frame: Frame, wanted: bool) -> Answer
    ensures answered { answer_set_in result ≡ answer_set_to wanted (received_of (core_of image.old) frame) }
    ensures acted { Became image.old image.new (received_of (core_of image.old) frame).core }
{
    let MatchAnswer { verdict, matched } = match_of(image, frame, wanted);
    mark(image, verdict, frame.remote);
    put_by(image, verdict, frame);
    Answer {
        byte: reception_number(reception_of(verdict)),
        matched,
    }
}
