// A record of 16 bytes taken apart: its kind, its fields, and whether refusal 2 names it.
#![tactic(auto)]

ghost use Rattle.std.specs.Prelude.{◌≡◌, [], ◌∷◌, ◌+◌, ◌*◌, ◌/◌, ◌%◌, ◌<◌, ◌^◌, ◌-◌};
ghost use Rattle.records.specs.Records.{
  refused_outcome,
  kind_by,
  KindOrRefusal,
  refusal_number,
  Tells,
  zeros,
  frame_of,
  data_bytes,
  carried,
  largest_identifier,
  zeros_past,
  sound_frame,
  largest_field,
  largest_second,
  sound_as,
  sound_plain,
  sound_of,
  record_of,
};

#[derive(Clone, Copy, Debug, PartialEq, Eq)]
pub enum Kind {
    SelectLow = 0,
    Exchange = 1,
    SelectHigh = 2,
    FrameHeard = 3,
    BusIdle = 4,
    FrameEnds = 5,
    ReceiveError = 6,
    Recovery = 7,
    PinLevel = 8,
}

// Why something is refused: a record or a log, a profile to load, a bit timing or the bytes of a chip.
#[derive(Clone, Copy, Debug, PartialEq, Eq)]
pub enum Refusal {
    Select = 1,
    Field = 2,
    InFlight = 3,
    NoFlight = 4,
    State = 5,
    Length = 6,
    Room = 7,
    Count = 8,
    Profile = 10,
    Mode = 11,
    Oscillator = 12,
    Rate = 13,
    Speaker = 18,
    Short = 19,
    Chip = 21,
}

// A frame on the bus; `code` is its data length code. Of `bytes` only the first bytes count, as many as it carries.
#[derive(Clone, Copy)]
pub struct Frame {
    pub extended: bool,
    pub remote: bool,
    pub code: u8,
    pub identifier: u32,
    pub bytes: [u8; 8],
}

// A record taken apart. The data bytes are one number, low byte first.
#[derive(Clone, Copy)]
pub struct Fields {
    pub kind: u8,
    pub field: u8,
    pub code: u8,
    pub spare: u8,
    pub identifier: u32,
    pub data: u64,
}

// What an accepted record is answered: a byte, and the filters that match its frame, bit n for filter n.
#[derive(Clone, Copy, Debug, PartialEq, Eq)]
pub struct Answer {
    pub byte: u8,
    pub matched: u8,
}

// The same as the bytes of an answer say it: the refusal comes first, 0 for none.
#[derive(Clone, Copy, Debug, PartialEq, Eq)]
pub struct Outcome {
    pub refusal: u8,
    pub answer: u8,
    pub matched: u8,
}

// A length code has four bits.
const LARGEST_CODE: u8 = 15;

impl TryFrom<u8> for Kind {
    type Error = Refusal;

    ghost try_from_gives = { KindOrRefusal };

    fn try_from(number: u8) -> Result<Self, Refusal> {
        match number {
            0 => Ok(Kind::SelectLow),
            1 => Ok(Kind::Exchange),
            2 => Ok(Kind::SelectHigh),
            3 => Ok(Kind::FrameHeard),
            4 => Ok(Kind::BusIdle),
            5 => Ok(Kind::FrameEnds),
            6 => Ok(Kind::ReceiveError),
            7 => Ok(Kind::Recovery),
            8 => Ok(Kind::PinLevel),
            _ => Err(Refusal::Field),
        }
    }
}

// Beside try_from, since docs/PROMISES.md promises it by this name, as it does refused of any number and the functions of Fields below.
pub fn kind_by(number: u8) -> Option<Kind>
    ensures { result ≡ kind_by number }
{
    Kind::try_from(number).ok()
}

impl Refusal {
    pub fn number(self) -> u8
        ensures { result ≡ refusal_number self }
    {
        self as u8
    }
}

impl From<Result<Answer, Refusal>> for Outcome {
    ghost from_gives = { Tells };

    fn from(told: Result<Answer, Refusal>) -> Outcome {
        match told {
            Ok(answer) => Outcome {
                refusal: 0,
                answer: answer.byte,
                matched: answer.matched,
            },
            Err(refusal) => refused(refusal.number()),
        }
    }
}

// What is told of a refused record.
pub fn refused(refusal: u8) -> Outcome
    ensures { result ≡ refused_outcome refusal }
{
    Outcome {
        refusal,
        answer: 0,
        matched: 0,
    }
}

// Two bytes as one number, low byte first.
pub fn paired(a: u8, b: u8) -> u16
    ensures { (result % 256 ≡ a) × (result / 256 ≡ b) }
{
    u16::from_le_bytes([a, b])
}

// Four bytes as one number, high byte first.
pub fn joined(a: u8, b: u8, c: u8, d: u8) -> u32
    ensures { (result / 0x1000000 % 256 ≡ a) × (result / 0x10000 % 256 ≡ b) × (result / 0x100 % 256 ≡ c) × (result % 256 ≡ d) }
{
    u32::from_be_bytes([a, b, c, d])
}

// Eight bytes as one number, low byte first.
pub fn word(a: u8, b: u8, c: u8, d: u8, e: u8, f: u8, g: u8, h: u8) -> u64
    ensures low { (result % 256 ≡ a) × (result / 0x100 % 256 ≡ b) × (result / 0x10000 % 256 ≡ c) × (result / 0x1000000 % 256 ≡ d) }
    ensures high { (result / 0x100000000 % 256 ≡ e) × (result / 0x10000000000 % 256 ≡ f) × (result / 0x1000000000000 % 256 ≡ g) × (result / 0x100000000000000 % 256 ≡ h) }
{
    u64::from_le_bytes([a, b, c, d, e, f, g, h])
}

// A record taken apart.
pub fn fields_of(record: &[u8; 16]) -> Fields
    ensures { record_of result ≡ «record».now }
{
    Fields {
        kind: record[0],
        field: record[1],
        code: record[2],
        spare: record[3],
        identifier: joined(record[4], record[5], record[6], record[7]),
        data: word(
            record[8], record[9], record[10], record[11], record[12], record[13], record[14],
            record[15],
        ),
    }
}

// The data bytes.
fn split(data: u64) -> [u8; 8]
    ensures { result ≡ «data» % 256 ∷ «data» / 0x100 % 256 ∷ «data» / 0x10000 % 256 ∷ «data» / 0x1000000 % 256 ∷ «data» / 0x100000000 % 256 ∷ «data» / 0x10000000000 % 256 ∷ «data» / 0x1000000000000 % 256 ∷ «data» / 0x100000000000000 % 256 ∷ [] }
{
    data.to_le_bytes()
}

#[tactic(auto, using(crate::proofs::Taken::four), unfolding(crate::specs::Records::frame_of, crate::specs::Records::record_of))]
pub fn frame_of(fields: Fields) -> Frame
    ensures { result ≡ frame_of (record_of fields) }
{
    Frame {
        extended: fields.field % 2 == 1,
        remote: fields.field / 2 % 2 == 1,
        code: fields.code,
        identifier: fields.identifier,
        bytes: split(fields.data),
    }
}

fn largest_identifier(extended: bool) -> u32
    ensures { result ≡ largest_identifier extended }
{
    if extended { 536870911 } else { 2047 }
}

// The largest number that the data bytes of a length code make.
fn largest_data(code: u8) -> u64
    ensures { result ≡ 256 ^ data_bytes code - 1 }
{
    match code {
        0 => 0,
        1 => 0xFF,
        2 => 0xFFFF,
        3 => 0xFFFFFF,
        4 => 0xFFFFFFFF,
        5 => 0xFFFFFFFFFF,
        6 => 0xFFFFFFFFFFFF,
        7 => 0xFFFFFFFFFFFFFF,
        _ => 0xFFFFFFFFFFFFFFFF,
    }
}

// The data bytes that the frame does not carry are 0.
fn past_zero(fields: Fields, remote: bool) -> bool
    ensures { result ≡ zeros_past (record_of fields) (carried remote fields.code) 8 }
{
    fields.data <= largest_data(bits::choose(remote, 0, fields.code))
}

#[tactic(auto, using(crate::proofs::Taken::four), unfolding(crate::specs::Records::record_of))]
fn is_sound_frame(fields: Fields) -> bool
    ensures { result ≡ sound_frame (record_of fields) }
{
    let most = largest_identifier(fields.field % 2 == 1);
    let remote = fields.field / 2 % 2 == 1;
    (fields.field <= largest_field(Kind::FrameHeard))
        & (fields.code <= largest_second(Kind::FrameHeard))
        & (fields.spare == 0)
        & (fields.identifier <= most)
        & past_zero(fields, remote)
}

fn largest_field(kind: Kind) -> u8
    ensures { result ≡ largest_field kind }
{
    match kind {
        Kind::SelectLow | Kind::SelectHigh | Kind::BusIdle | Kind::Recovery => 0,
        Kind::Exchange => 255,
        Kind::FrameHeard => 3,
        Kind::FrameEnds => 2,
        Kind::ReceiveError => 1,
        Kind::PinLevel => 2,
    }
}

// Byte 2 goes up to this: who speaks, a length code, the level of a pin.
fn largest_second(kind: Kind) -> u8
    ensures { result ≡ largest_second kind }
{
    match kind {
        Kind::SelectLow | Kind::Exchange | Kind::SelectHigh | Kind::PinLevel => 1,
        Kind::FrameHeard => LARGEST_CODE,
        Kind::BusIdle | Kind::FrameEnds | Kind::ReceiveError | Kind::Recovery => 0,
    }
}

// Bytes 3 to 15 are 0.
#[tactic(auto, using(crate::proofs::Taken::zero_four, crate::proofs::Taken::zero_bytes), unfolding(crate::specs::Records::record_of))]
fn tail_zero(fields: Fields) -> bool
    ensures { result ≡ zeros (record_of fields) 3 13 }
{
    (fields.spare == 0) & (fields.identifier == 0) & (fields.data == 0)
}

// A record of a kind that has no more than two fields.
#[tactic(auto, unfolding(crate::specs::Records::record_of))]
pub fn is_sound_as(kind: Kind, fields: Fields) -> bool
    ensures { result ≡ sound_as kind (record_of fields) }
{
    (fields.field <= largest_field(kind))
        & (fields.code <= largest_second(kind))
        & tail_zero(fields)
}

// The same of a number that is no kind too: no field of it may be other than 0.
#[tactic(auto, unfolding(crate::specs::Records::record_of))]
pub fn is_sound_plain(kind: Option<Kind>, fields: Fields) -> bool
    ensures { result ≡ sound_plain kind (record_of fields) }
{
    match kind {
        Some(named) => is_sound_as(named, fields),
        None => (fields.field == 0) & (fields.code == 0) & tail_zero(fields),
    }
}

// Refusal 2 does not name the record. An arm for each kind: with one for all kinds of two fields a run jumps by the kind twice, and a log
// of nothing but bus idle takes half as long again.
#[tactic(auto, using(crate::proofs::Taken::two_fields), unfolding(crate::specs::Records::sound_of, crate::specs::Records::kind_of, crate::specs::Records::record_of))]
pub fn is_sound(fields: Fields) -> bool
    ensures { result ≡ sound_of (record_of fields) }
{
    match kind_by(fields.kind) {
        None => false,
        Some(Kind::FrameHeard) => is_sound_frame(fields),
        Some(Kind::SelectLow) => is_sound_as(Kind::SelectLow, fields),
        Some(Kind::Exchange) => is_sound_as(Kind::Exchange, fields),
        Some(Kind::SelectHigh) => is_sound_as(Kind::SelectHigh, fields),
        Some(Kind::BusIdle) => is_sound_as(Kind::BusIdle, fields),
        Some(Kind::FrameEnds) => is_sound_as(Kind::FrameEnds, fields),
        Some(Kind::ReceiveError) => is_sound_as(Kind::ReceiveError, fields),
        Some(Kind::Recovery) => is_sound_as(Kind::Recovery, fields),
        Some(Kind::PinLevel) => is_sound_as(Kind::PinLevel, fields),
    }
}
