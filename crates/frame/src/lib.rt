// Frames of the RV-C bus (RULES 3): the 29-bit identifier taken apart and formed, a frame checked by itself, and eight
// bytes as one number.
#![tactic(auto)]

pub mod standard;

ghost use Rattle.std.specs.Prelude.{◌≡◌};
ghost use Rattle.frame.specs.Identifier.{reserved_of, parts_of};
ghost use Rattle.frame.specs.Frame.{source_allowed, checked_of};
ghost use Rattle.frame.specs.Promises.{TakeApart, Form, Check, DestinationOf, CatalogueForm, NumberOf, BytesOf};
ghost use Rattle.frame.specs.Promises.{DgnBytes, DgnOf, number_of_bad_identifier, number_of_not_formed, refusal_of};
ghost use Rattle.frame.specs.Promises.{told_verdict};

use words::Refusal;

// The parts of an identifier: bits 28-26, 24-8 and 7-0.
#[derive(Clone, Copy)]
pub struct Parts {
    pub priority: u8,
    pub dgn: u32,
    pub source: u8,
}

// Why an identifier is not taken apart: refusals 3 and 5.
#[derive(Clone, Copy)]
pub enum BadIdentifier {
    IdentifierTooLarge,
    ReservedBitSet,
}

// An identifier taken apart, or why not.
pub type Apart = Result<Parts, BadIdentifier>;

// Why an identifier is not formed: refusal 12.
#[derive(Clone, Copy)]
pub enum NotFormed {
    NoCode,
}

// An identifier formed, or why not.
pub type Formed = Result<u32, NotFormed>;

// What a frame alone is refused for: 3, 4, 5, 6.
#[derive(Clone, Copy)]
pub enum BadFrame {
    IdentifierTooLarge,
    NotEightBytes,
    ReservedBitSet,
    SourceNotAllowed,
}

// The parts of a frame's identifier, or what the frame is refused for.
pub type Verdict = Result<Parts, BadFrame>;

// A frame's verdict, with its eight bytes beside it; zeros where it is bad.
#[derive(Clone, Copy)]
pub struct Checked {
    pub verdict: Verdict,
    pub bytes: [u8; 8],
}

// Whom a DGN is sent to.
#[derive(Clone, Copy)]
pub enum Destination {
    NotAddressed,
    All,
    One(u8),
}

impl Refusal for BadIdentifier {
    ghost number = { number_of_bad_identifier };

    fn refusal(self) -> u8 {
        match self {
            BadIdentifier::IdentifierTooLarge => 3,
            BadIdentifier::ReservedBitSet => 5,
        }
    }
}

impl Refusal for NotFormed {
    ghost number = { number_of_not_formed };

    fn refusal(self) -> u8 {
        match self {
            NotFormed::NoCode => 12,
        }
    }
}

impl Refusal for BadFrame {
    ghost number = { refusal_of };

    fn refusal(self) -> u8 {
        match self {
            BadFrame::IdentifierTooLarge => 3,
            BadFrame::NotEightBytes => 4,
            BadFrame::ReservedBitSet => 5,
            BadFrame::SourceNotAllowed => 6,
        }
    }
}

// Takes an identifier apart into priority, DGN and source. Refusal 3 where it has more than 29 bits, then 5 where the
// reserved bit is set. The source is not judged: `check` does that.
pub fn take_apart(id: u32) -> Apart
    ensures { TakeApart id result }
{
    if standard::IDENTIFIERS <= id {
        return Err(BadIdentifier::IdentifierTooLarge);
    }
    if reserved_bit(id) == 1 {
        return Err(BadIdentifier::ReservedBitSet);
    }
    Ok(parts_of(id))
}

// Forms an identifier from its parts; the reserved bit is 0. Refusal 12 where the priority is above 7 or the DGN has
// more than 17 bits.
pub fn form(priority: u8, dgn: u32, source: u8) -> Formed
    ensures { Form priority dgn source result }
{
    if standard::LOWEST_PRIORITY < priority || standard::GREATEST_DGN < dgn {
        return Err(NotFormed::NoCode);
    }
    Ok(u32::from(priority) * 0x4000000 + dgn * 256 + u32::from(source))
}

// Checks a frame by itself, and hands its parts and its eight bytes on. Refusals 3, 4, 5 and 6, the lowest that
// applies, with zeros beside it. Every call that hears a frame checks it so: nobody has to do it first.
pub fn check(id: u32, bytes: &[u8]) -> Checked
    ensures { Check id bytes.now result }
{
    let verdict = judge(id, bytes.len());
    let mut data = [0; 8];
    if verdict.is_ok() {
        data.copy_from_slice(bytes);
    }
    Checked {
        verdict,
        bytes: data,
    }
}

// Whom a frame with this DGN is for: nobody in particular, all, or one address, which the DGN ends with. It answers for
// every number; of one with more than 17 bits it reads the lowest 16.
pub fn destination_of(dgn: u32) -> Destination
    ensures { DestinationOf dgn result }
{
    if 0xF0 <= dgn / 256 % 256 {
        return Destination::NotAddressed;
    }
    let to = (dgn % 256) as u8;
    if to == standard::EVERYONE {
        return Destination::All;
    }
    Destination::One(to)
}

// The DGN as catalogue and hosted list have it: an addressed one with 00h for its destination, any other as it is.
pub fn catalogue_form(dgn: u32) -> u32
    ensures { CatalogueForm dgn result }
{
    if dgn / 256 % 256 < 0xF0 {
        return dgn - dgn % 256;
    }
    dgn
}

// Eight bytes as one number, low byte first. `bytes_of` is its way back.
pub fn number_of(bytes: [u8; 8]) -> u64
    ensures { NumberOf bytes result }
{
    u64::from_le_bytes(bytes)
}

// A number as eight bytes, low byte first. `number_of` is its way back.
pub fn bytes_of(number: u64) -> [u8; 8]
    ensures { BytesOf number result }
{
    number.to_le_bytes()
}

// A DGN as three bytes, low byte first; of a larger number its three lowest.
pub fn dgn_bytes(dgn: u32) -> [u8; 3]
    ensures { DgnBytes dgn result }
{
    [
        (dgn % 256) as u8,
        (dgn / 256 % 256) as u8,
        (dgn / 256 / 256 % 256) as u8,
    ]
}

// The number in three bytes, the low one first: a DGN, where it has no more than 17 bits, which is for the caller to
// see.
pub fn dgn_of(low: u8, middle: u8, high: u8) -> u32
    ensures { DgnOf low middle high result }
{
    u32::from(low) + 256 * u32::from(middle) + 65536 * u32::from(high)
}

fn reserved_bit(id: u32) -> u32
    ensures { result ≡ reserved_of id }
{
    id / 0x2000000 % 2
}

fn parts_of(id: u32) -> Parts
    ensures { result ≡ parts_of id }
{
    let priority = (id / 0x4000000 % 8) as u8;
    let dgn = id / 256 % 0x20000;
    let source = (id % 256) as u8;
    Parts {
        priority,
        dgn,
        source,
    }
}

fn source_allowed(source: u8, dgn: u32) -> bool
    ensures { result ≡ source_allowed source dgn }
{
    let upper = dgn / 256 % 512;
    match source {
        standard::EVERYONE => false,
        standard::NO_ADDRESS => {
            upper == standard::REQUEST / 256 || upper == standard::CLAIM / 256
        }
        _ => true,
    }
}

fn judge(id: u32, size: usize) -> Verdict
    ensures { told_verdict result ≡ checked_of id size }
{
    if standard::IDENTIFIERS <= id {
        return Err(BadFrame::IdentifierTooLarge);
    }
    if size != 8 {
        return Err(BadFrame::NotEightBytes);
    }
    if reserved_bit(id) == 1 {
        return Err(BadFrame::ReservedBitSet);
    }
    let parts = parts_of(id);
    if !source_allowed(parts.source, parts.dgn) {
        return Err(BadFrame::SourceNotAllowed);
    }
    Ok(parts)
}
