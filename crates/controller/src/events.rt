// Events of the bus and of the request pins: when one is refused, its answer, and the core after it.
ghost use Rattle.std.specs.Prelude.{◌≡◌, not, ◌&&◌, Some};
ghost use Rattle.records.specs.Records.{record_of, refusal_in, outcome_of};
ghost use Rattle.registers.specs.State.{is_normal, with_control};
ghost use Rattle.registers.specs.Errors.{is_bus_off, moved_to, tec_less, rec_less};
ghost use Rattle.receiving.specs.AnswerSets.{answer_set_to, answer_set_in, plain_answer};
ghost use Rattle.image.specs.Image.{
  control_of,
  core_of,
  Became,
  RefusedKept,
};
ghost use Rattle.controller.specs.Sending.{counted, sent_by};
ghost use Rattle.controller.specs.Events.{
  woken_control,
  sleeping,
  heard_in,
  heard_of,
  answer_set_of,
  delivered,
  finished,
  ends_in,
  ended,
  idled,
  error_adds,
  erred,
  error_heard,
  recovered,
  pin_of,
  falls_enabled,
  pin_requested,
  pinned,
  happens_by,
  busy_refusal,
  end_refusal,
  recovery_refusal,
  refusal_by,
  event_of,
  outcome_told,
};

use crate::End;
use crate::sending::{choice_of, end, frame_sent, sent, tx_flag};
use image::control::{control_of, put_control, put_level, settle};
use image::{
    CANINTE, CANINTF, FLIGHT, Image, MODE, NO_FLIGHT, PINS, REC, TEC, TEC_HIGH, TXB0CTRL, TXRTSCTRL,
};
use receiving::{Reception, unheard, verdicts};
use records::{Answer, Fields, Frame, Kind, Refusal};
use registers::{Control, MERRF, Mode, TXREQ, TxBuffer, WAKIF};

// The answer to an event that asks no filter.
fn plain(byte: u8) -> Answer
    ensures { answer_set_in result ≡ plain_answer byte }
{
    Answer { byte, matched: 0 }
}

fn is_bus_off(image: &Image) -> bool
    ensures { result ≡ is_bus_off (control_of image.now).counters }
{
    registers::is_bus_off(control_of(image).counters)
}

#[tactic(auto, unfolding(registers::specs::Modes::entered))]
fn woken(control: Control) -> Control
    ensures { result ≡ woken_control control }
{
    let canintf = control.flags.canintf | WAKIF;
    let mut next = registers::enter(control, Mode::ListenOnly);
    next.flags.canintf = canintf;
    next
}

fn sleep(image: &mut Image) -> Reception
    ensures value { result ≡ (sleeping (core_of image.old)).answer }
    ensures became { Became image.old image.new (sleeping (core_of image.old)).core }
{
    if image[CANINTE] / WAKIF % 2 == 1 {
        let control = control_of(image);
        put_control(image, woken(control));
        return Reception::Woke;
    }
    Reception::NotListening
}

// A good frame: REC falls, by which no error flag rises.
fn count_good(image: &mut Image)
    ensures { Became image.old image.new (with_control (core_of image.old) (moved_to (control_of image.old) (rec_less (control_of image.old).counters))) }
{
    image[REC] = registers::heard_rec(image[REC]);
}

fn hear_normal(image: &mut Image, frame: Frame, wanted: bool) -> Answer
    ensures result_value { answer_set_in result ≡ answer_set_to wanted (heard_in Mode.Normal (core_of image.old) frame) }
    ensures became { Became image.old image.new (heard_in Mode.Normal (core_of image.old) frame).core }
{
    if is_bus_off(image) {
        return unheard(Reception::NotListening);
    }
    let answer = verdicts::receive(image, frame, wanted);
    count_good(image);
    answer
}

#[tactic(auto, using(crate::proofs::Acts::received, crate::proofs::Acts::plainly))]
fn hear_only(image: &mut Image, frame: Frame, wanted: bool) -> Answer
    ensures result_value { answer_set_in result ≡ answer_set_to wanted (heard_in Mode.ListenOnly (core_of image.old) frame) }
    ensures became { Became image.old image.new (heard_in Mode.ListenOnly (core_of image.old) frame).core }
{
    if is_bus_off(image) {
        return unheard(Reception::NotListening);
    }
    verdicts::receive(image, frame, wanted)
}

fn hear(image: &mut Image, frame: Frame, wanted: bool) -> Answer
    ensures result_value { answer_set_in result ≡ answer_set_to wanted (heard_of (core_of image.old) frame) }
    ensures became { Became image.old image.new (heard_of (core_of image.old) frame).core }
{
    match image::mode_of(image[MODE]) {
        Mode::Normal => hear_normal(image, frame, wanted),
        Mode::Sleep => unheard(sleep(image)),
        Mode::ListenOnly => hear_only(image, frame, wanted),
        Mode::Loopback | Mode::Configuration => unheard(Reception::NotListening),
    }
}

// Loopback: the frame goes to the own receive rules.
fn deliver(image: &mut Image, buffer: TxBuffer, wanted: bool) -> Answer
    ensures result_value { answer_set_in result ≡ answer_set_of wanted (delivered (core_of image.old) buffer) }
    ensures became { Became image.old image.new (delivered (core_of image.old) buffer).core }
{
    let own = frame_sent(image, buffer);
    let control = control_of(image);
    put_control(image, sent(control, buffer));
    verdicts::receive(image, own, wanted)
}

// The buffer is sent: nothing is in flight any more.
fn mark_sent(image: &mut Image, buffer: TxBuffer)
    ensures { Became image.old image.new (with_control (core_of image.old) (sent_by (control_of image.old) buffer)) }
{
    let place = TXB0CTRL + (registers::tx_number(buffer) as usize);
    image[place] = image[place] & !TXREQ;
    image[CANINTF] = bits::set(image[CANINTF], tx_flag(buffer));
    image[FLIGHT] = NO_FLIGHT;
}

// In Normal TEC falls, by which no error flag rises.
fn count_sent(image: &mut Image)
    ensures { Became image.old image.new (with_control (core_of image.old) (counted (control_of image.old) (tec_less (control_of image.old).counters))) }
{
    if registers::is_normal(image::mode_of(image[MODE])) {
        let [low, high] = registers::less_one(control_of(image).counters.tec).to_le_bytes();
        image[TEC] = low;
        image[TEC_HIGH] = high;
    }
}

// A frame that is sent, in place: most ends are this one.
#[tactic(auto, using(crate::proofs::Acts::sent_counted))]
fn finish_sent(image: &mut Image, buffer: TxBuffer) -> Answer
    ensures result_value { answer_set_in result ≡ plain_answer 0 }
    ensures became { Became image.old image.new (finished (core_of image.old) buffer End.Sent).core }
{
    mark_sent(image, buffer);
    count_sent(image);
    plain(0)
}

// Apart, as recovery below: acts that are rare, which within a run make it slower. (A receive error is as quick within it.)
#[inline(never)]
#[tactic(auto, using(crate::proofs::Acts::packed))]
fn finish_failed(image: &mut Image, buffer: TxBuffer, outcome: End) -> Answer
    ensures result_value { answer_set_in result ≡ plain_answer 0 }
    ensures became { Became image.old image.new (finished (core_of image.old) buffer outcome).core }
{
    let control = control_of(image);
    put_control(image, end(outcome, control, buffer));
    plain(0)
}

// In Loopback a frame that is sent comes back in.
#[tactic(auto, using(crate::proofs::Acts::unsent, crate::proofs::Acts::plainly))]
fn finish(image: &mut Image, loopback: bool, buffer: TxBuffer, outcome: End, wanted: bool) -> Answer
    ensures result_value { answer_set_in result ≡ answer_set_of wanted (ends_in loopback (core_of image.old) buffer outcome) }
    ensures became { Became image.old image.new (ends_in loopback (core_of image.old) buffer outcome).core }
{
    match outcome {
        End::Sent if loopback => deliver(image, buffer, wanted),
        End::Sent => finish_sent(image, buffer),
        End::LostArbitration | End::Failed => finish_failed(image, buffer, outcome),
    }
}

fn end_flight(image: &mut Image, number: u8, wanted: bool) -> Answer
    ensures result_value { answer_set_in result ≡ answer_set_of wanted (ended (core_of image.old) number) }
    ensures became { Became image.old image.new (ended (core_of image.old) number).core }
{
    let loopback = registers::is_loopback(image::mode_of(image[MODE]));
    match image::flight_of(image[FLIGHT]) {
        None => plain(0),
        Some(buffer) => finish(image, loopback, buffer, End::from(number), wanted),
    }
}

#[tactic(auto, using(crate::proofs::Acts::flight_put), unfolding(crate::specs::Events::idled))]
fn idle(image: &mut Image) -> u8
    ensures value { result ≡ (idled (core_of image.old)).answer }
    ensures became { Became image.old image.new (idled (core_of image.old)).core }
{
    match choice_of(control_of(image)) {
        Some(buffer) => {
            let number = registers::tx_number(buffer);
            image[FLIGHT] = number;
            number
        }
        None => NO_FLIGHT,
    }
}

fn error_adds(number: u8) -> u8
    ensures { result ≡ error_adds number }
{
    if number == 0 { 1 } else { 8 }
}

fn err(control: Control, by: u8) -> Control
    ensures { result ≡ erred control by }
{
    let mut next = control;
    next.flags.canintf |= MERRF;
    registers::moved(next, registers::rec_more(control.counters, by))
}

fn counts_errors(control: Control) -> bool
    ensures { result ≡ is_normal control.state.mode && not (is_bus_off control.counters) }
{
    registers::is_normal(control.state.mode) & !registers::is_bus_off(control.counters)
}

#[tactic(auto, unfolding(crate::specs::Events::error_heard))]
fn error_heard(control: Control, number: u8) -> Control
    ensures { result ≡ error_heard control number }
{
    if counts_errors(control) {
        err(control, error_adds(number))
    } else {
        control
    }
}

#[tactic(auto, using(crate::proofs::Acts::packed))]
fn hear_error(image: &mut Image, number: u8)
    ensures { Became image.old image.new (with_control (core_of image.old) (error_heard (control_of image.old) number)) }
{
    let control = control_of(image);
    put_control(image, error_heard(control, number));
}

fn with_no_errors(control: Control) -> Control
    ensures { result ≡ recovered control }
{
    let mut next = control;
    next.counters = registers::counters_zero();
    next
}

#[inline(never)]
#[tactic(auto, using(crate::proofs::Acts::packed))]
fn recover(image: &mut Image)
    ensures { Became image.old image.new (with_control (core_of image.old) (recovered (control_of image.old))) }
{
    let control = control_of(image);
    put_control(image, with_no_errors(control));
}

fn pin_of(number: u8) -> TxBuffer
    ensures { result ≡ pin_of number }
{
    TxBuffer::try_from(number).unwrap_or(TxBuffer::Txb2)
}

// A fall of a request pin that TXRTSCTRL enables.
#[tactic(auto, using(crate::proofs::Acts::pin_falls, image::proofs::Laws::tx_below))]
fn falls_enabled(image: &Image, buffer: TxBuffer, high: bool) -> bool
    ensures { result ≡ falls_enabled (core_of image.now) buffer high }
{
    let number = registers::tx_number(buffer);
    let place = PINS + (number as usize);
    bits::has(image[TXRTSCTRL], number) & ((image[place] != 0) & !high)
}

// Such a fall requests the buffer as RTS does.
#[tactic(auto, using(crate::proofs::Acts::pin_requested_lem, crate::proofs::Acts::pin_idle))]
fn request_by_pin(image: &mut Image, buffer: TxBuffer, high: bool)
    ensures { Became image.old image.new (pin_requested (core_of image.old) buffer high) }
{
    if falls_enabled(image, buffer, high) {
        stores::bytes::request_one(image, buffer);
    }
}

// The level of a request pin.
#[tactic(auto, using(crate::proofs::Acts::pin_moved_lem), unfolding(crate::specs::Events::pinned, records::specs::Records::record_of))]
fn move_pin(image: &mut Image, fields: Fields)
    ensures { Became image.old image.new (pinned (core_of image.old) (record_of fields)) }
{
    let buffer = pin_of(fields.field);
    let high = fields.code != 0;
    request_by_pin(image, buffer, high);
    put_level(image, buffer, high);
}

// An accepted event.
#[tactic(auto, using(crate::proofs::Acts::plainly), unfolding(crate::specs::Events::idled, records::specs::Records::record_of))]
fn happen(image: &mut Image, kind: Kind, fields: Fields, wanted: bool) -> Answer
    ensures result_value { answer_set_in result ≡ answer_set_of wanted (happens_by (Some kind) (core_of image.old) (record_of fields)) }
    ensures became { Became image.old image.new (happens_by (Some kind) (core_of image.old) (record_of fields)).core }
{
    match kind {
        Kind::SelectLow | Kind::Exchange | Kind::SelectHigh => plain(0),
        Kind::FrameHeard => hear(image, records::frame_of(fields), wanted),
        Kind::BusIdle => plain(idle(image)),
        Kind::FrameEnds => end_flight(image, fields.field, wanted),
        Kind::ReceiveError => {
            hear_error(image, fields.field);
            plain(0)
        }
        Kind::Recovery => {
            recover(image);
            plain(0)
        }
        Kind::PinLevel => {
            move_pin(image, fields);
            plain(0)
        }
    }
}

// A frame, bus idle and a receive error come while no own frame is in flight.
fn check_idle(control: Control) -> Result<(), Refusal>
    ensures { refusal_in result ≡ busy_refusal control }
{
    if registers::is_idle(control.state.flight) {
        Ok(())
    } else {
        Err(Refusal::InFlight)
    }
}

// In Loopback no own frame is lost and none fails.
fn check_end(control: Control, number: u8) -> Result<(), Refusal>
    ensures { refusal_in result ≡ end_refusal control number }
{
    if registers::is_idle(control.state.flight) {
        Err(Refusal::NoFlight)
    } else if registers::is_loopback(control.state.mode) & (number != 0) {
        Err(Refusal::State)
    } else {
        Ok(())
    }
}

fn check_recovery(control: Control) -> Result<(), Refusal>
    ensures { refusal_in result ≡ recovery_refusal control }
{
    if registers::is_bus_off(control.counters) {
        Ok(())
    } else {
        Err(Refusal::State)
    }
}

// Whether the state lets an event of this kind happen. An arm for each kind, for the reason at records::is_sound.
#[tactic(auto, unfolding(records::specs::Records::record_of))]
fn check(kind: Kind, control: Control, fields: Fields) -> Result<(), Refusal>
    ensures { refusal_in result ≡ refusal_by (Some kind) control (record_of fields) }
{
    match kind {
        Kind::SelectLow | Kind::Exchange | Kind::SelectHigh => Err(Refusal::Field),
        Kind::FrameHeard => check_idle(control),
        Kind::BusIdle => check_idle(control),
        Kind::ReceiveError => check_idle(control),
        Kind::FrameEnds => check_end(control, fields.field),
        Kind::Recovery => check_recovery(control),
        Kind::PinLevel => Ok(()),
    }
}

// One event: refused, it changes nothing. The set is worked out where it is asked for, else it is 0; that it is wanted is an argument and no
// const parameter, since the callers of `controller::event` say it as they run.
pub fn event(image: &mut Image, fields: Fields, wanted: bool) -> Result<Answer, Refusal>
    ensures told { outcome_of result ≡ outcome_told wanted (event_of (core_of image.old) (record_of fields)) }
    ensures became { Became image.old image.new (event_of (core_of image.old) (record_of fields)).core }
    ensures refused_kept { RefusedKept (refusal_in result) image.old image.new }
{
    let kind = Kind::try_from(fields.kind)?;
    if !records::is_sound(fields) {
        return Err(Refusal::Field);
    }
    check(kind, control_of(image), fields)?;
    let answer = happen(image, kind, fields, wanted);
    settle(image);
    Ok(answer)
}
