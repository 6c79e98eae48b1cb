// The words of crate `frame`.
use crate::notes::{byte_at, get, get_as};
use crate::{notes, say};
use frame::{BadFrame, BadIdentifier, Destination, NotFormed, Parts, Verdict};
use streams::Streams;
use words::Refusal;

pub fn call(n: usize, notes: &mut [u64], bytes: &[u8], streams: &mut Streams) {
    match n {
        0 => take_apart(notes, streams),
        1 => form(notes, streams),
        2 => check(notes, bytes, streams),
        3 => destination_of(notes, streams),
        4 => dgn(frame::catalogue_form(get_as(notes, notes::FIRST)), streams),
        5 => number_of(bytes, streams),
        6 => bytes_of(notes, streams),
        7 => dgn_bytes(notes, streams),
        8 => dgn_of(notes, streams),
        _ => {}
    }
}

fn take_apart(notes: &mut [u64], streams: &mut Streams) {
    let answer = frame::take_apart(get_as(notes, notes::FIRST));
    match answer {
        Ok(into) => parts(b"Into priority=# dgn=~ source=%", into, streams),
        Err(BadIdentifier::IdentifierTooLarge) => say::text(b"IdentifierTooLarge", streams),
        Err(BadIdentifier::ReservedBitSet) => say::text(b"ReservedBitSet", streams),
    }
    say::end(notes, notes::FRAME_APART, answer.refusal(), streams);
}

fn parts(pattern: &[u8], parts: Parts, streams: &mut Streams) {
    let numbers = [
        u64::from(parts.priority),
        u64::from(parts.dgn),
        u64::from(parts.source),
    ];
    say::form(pattern, &numbers, 0, streams);
}

fn form(notes: &mut [u64], streams: &mut Streams) {
    let priority: u8 = get_as(notes, notes::FIRST);
    let dgn: u32 = get_as(notes, notes::SECOND);
    let answer = frame::form(priority, dgn, get_as(notes, notes::THIRD));
    match answer {
        Ok(id) => say::number(b"Identifier ^", u64::from(id), streams),
        Err(NotFormed::NoCode) => say::text(b"NoCode", streams),
    }
    say::end(notes, notes::FRAME_FORMED, answer.refusal(), streams);
}

fn check(notes: &mut [u64], bytes: &[u8], streams: &mut Streams) {
    let checked = frame::check(get_as(notes, notes::FIRST), bytes);
    tell(notes, checked.verdict, streams);
    say::bytes(b" bytes=", &checked.bytes, streams);
    say::end(
        notes,
        notes::FRAME_VERDICT,
        checked.verdict.refusal(),
        streams,
    );
}

fn tell(notes: &mut [u64], answer: Verdict, streams: &mut Streams) {
    match answer {
        Ok(sound) => parts(b"Sound priority=# dgn=~ source=%", sound, streams),
        Err(why) => bad_frame(notes, why, streams),
    }
}

// Why a frame is bad.
pub fn bad_frame(notes: &mut [u64], why: BadFrame, streams: &mut Streams) {
    match why {
        BadFrame::IdentifierTooLarge => say::text(b"BadFrame IdentifierTooLarge", streams),
        BadFrame::NotEightBytes => say::text(b"BadFrame NotEightBytes", streams),
        BadFrame::ReservedBitSet => say::text(b"BadFrame ReservedBitSet", streams),
        BadFrame::SourceNotAllowed => say::text(b"BadFrame SourceNotAllowed", streams),
    }
    notes::put(notes, notes::FRAME_BAD_FRAME, u64::from(why.refusal()));
}

fn destination_of(notes: &[u64], streams: &mut Streams) {
    match frame::destination_of(get_as(notes, notes::FIRST)) {
        Destination::NotAddressed => say::text(b"NotAddressed\n", streams),
        Destination::All => say::text(b"All\n", streams),
        Destination::One(address) => say::number(b"One %\n", u64::from(address), streams),
    }
}

fn dgn(dgn: u32, streams: &mut Streams) {
    say::number(b"~\n", u64::from(dgn), streams);
}

fn number_of(bytes: &[u8], streams: &mut Streams) {
    let number = frame::number_of(first_eight(bytes));
    say::form(b"@ = #\n", &[number, number], 0, streams);
}

fn bytes_of(notes: &mut [u64], streams: &mut Streams) {
    let bytes = frame::bytes_of(get(notes, notes::FIRST));
    say::eight(notes, b"", bytes, streams);
    say::text(b"\n", streams);
}

fn dgn_bytes(notes: &[u64], streams: &mut Streams) {
    let bytes = frame::dgn_bytes(get_as(notes, notes::FIRST));
    say::bytes(b"", &bytes, streams);
    say::text(b"\n", streams);
}

fn dgn_of(notes: &[u64], streams: &mut Streams) {
    let low: u8 = get_as(notes, notes::FIRST);
    let middle: u8 = get_as(notes, notes::SECOND);
    dgn(
        frame::dgn_of(low, middle, get_as(notes, notes::THIRD)),
        streams,
    );
}

// The first eight bytes of those that were typed.
pub fn first_eight(data: &[u8]) -> [u8; 8] {
    let mut eight = [0u8; 8];
    for (i, byte) in eight.iter_mut().enumerate() {
        *byte = byte_at(data, i);
    }
    eight
}
