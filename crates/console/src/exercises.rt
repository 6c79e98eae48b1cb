// Exercises: a message split and joined again, a row written and read back, as a class would do it by many lines.
use crate::notes::{get, get_as};
use crate::{fields, notes, say};
use catalogue::{NotRead, Row, Writing};
use streams::Streams;
use words::Refusal;

// A receiver after a frame; and where that finished a message, whether the message is the one that was split.
#[derive(Clone, Copy)]
struct Heard<R> {
    receiver: R,
    same: Option<bool>,
}

pub fn call(n: usize, notes: &[u64], bytes: &[u8], streams: &mut Streams) {
    match n {
        0 => try_long_message(bytes, streams),
        1 => try_fast_packet(bytes, get_as(notes, notes::SECOND), streams),
        2 => row_back(get(notes, notes::FIRST) as usize, streams),
        _ => {}
    }
}

fn try_long_message(bytes: &[u8], streams: &mut Streams) {
    let mut storage = [0u8; message::limits::STORAGE_BYTES];
    long_message(bytes, &mut storage, streams);
}

fn try_fast_packet(bytes: &[u8], sequence: u8, streams: &mut Streams) {
    let mut storage = [0u8; fast::limits::STORAGE_BYTES];
    fast_packet(bytes, sequence, &mut storage, streams);
}

// A message split and sent by 54h, and what a new receiver hands back.
fn long_message(whole: &[u8], storage: &mut [u8], streams: &mut Streams) {
    let announced = message::announcement(whole, 0x1FECA);
    if let Err(why) = announced.answer {
        return not_split(why.refusal(), streams);
    }
    let mut heard = hear(
        message::Receiver::new(),
        storage,
        0x1CECFF54,
        announced.bytes,
        whole,
    );
    let mut packets: u32 = 0;
    for number in 1..=255 {
        if heard.same.is_some() {
            break;
        }
        packets = number;
        let split = message::packet(whole, 0x1FECA, number);
        heard = hear(heard.receiver, storage, 0x1CEBFF54, split.bytes, whole);
    }
    joined(
        b"length=# packets=# ",
        whole.len(),
        packets,
        heard.same,
        streams,
    );
}

fn not_split(refusal: u8, streams: &mut Streams) {
    say::number(b"not split, refusal #\n", u64::from(refusal), streams);
}

// How long the message was, how many frames it took, and whether it came back.
fn joined(pattern: &[u8], length: usize, last: u32, same: Option<bool>, streams: &mut Streams) {
    say::form(pattern, &[length as u64, u64::from(last)], 0, streams);
    match same {
        Some(true) => say::text(b"the same bytes\n", streams),
        Some(false) | None => say::text(b"OTHER BYTES\n", streams),
    }
}

fn hear(
    receiver: message::Receiver,
    storage: &mut [u8],
    id: u32,
    bytes: [u8; 8],
    whole: &[u8],
) -> Heard<message::Receiver> {
    let heard = receiver.hear(storage, id, &bytes);
    let same = match heard.answer {
        Ok(message::Event::Finished { .. }) => Some(
            message::message(storage, heard.answer) == whole,
        ),
        _ => None,
    };
    Heard {
        receiver: heard.receiver,
        same,
    }
}

// A message split and sent by 0Eh in fast packets, and what a new receiver hands back.
fn fast_packet(whole: &[u8], sequence: u8, storage: &mut [u8], streams: &mut Streams) {
    let dgns = [0x1F001u32];
    let started = fast::Receiver::start(&dgns);
    let split = fast::frame_of(whole, sequence, 0);
    if let Err(why) = split.answer {
        return not_split(why.refusal(), streams);
    }
    let mut heard = hear_fast(started.receiver, storage, split.bytes, whole);
    let mut last: u32 = 0;
    for number in 1..=31 {
        if heard.same.is_some() {
            break;
        }
        last = number;
        let split = fast::frame_of(whole, sequence, number);
        heard = hear_fast(heard.receiver, storage, split.bytes, whole);
    }
    joined(
        b"length=# last frame=# ",
        whole.len(),
        last,
        heard.same,
        streams,
    );
}

// It stands beside `hear`, for the two receivers and their answers are types of two crates with no trait between them: a
// trait written here would have the two bodies as its implementations.
fn hear_fast(
    receiver: fast::Receiver,
    storage: &mut [u8],
    bytes: [u8; 8],
    whole: &[u8],
) -> Heard<fast::Receiver> {
    let heard = receiver.hear(storage, 0x19F0010E, &bytes);
    let same = match heard.answer {
        Ok(fast::Event::Finished { .. }) => Some(fast::message(storage, heard.answer) == whole),
        _ => None,
    };
    Heard {
        receiver: heard.receiver,
        same,
    }
}

// A row at its least code, its greatest, and the three below that: each read in a frame of zeros as a value, the value
// written into a frame of ones, and read back there.
fn row_back(n: usize, streams: &mut Streams) {
    match catalogue::row_at(n) {
        Err(_) => say::text(b"NoSuchRow, refusal 11", streams),
        Ok(row) => {
            code_back(n, row, 0, streams);
            special_codes(n, row, ones(row.width), streams);
        }
    }
    say::text(b"\n", streams);
}

fn special_codes(n: usize, row: Row, greatest: u64, streams: &mut Streams) {
    if greatest < 3 {
        return;
    }
    if 3 < greatest {
        code_back(n, row, greatest - 3, streams);
    }
    code_back(n, row, greatest - 2, streams);
    code_back(n, row, greatest - 1, streams);
    code_back(n, row, greatest, streams);
}

fn code_back(n: usize, row: Row, code: u64, streams: &mut Streams) {
    let id = id_of(row.dgn);
    let zeros = frame::bytes_of(shifted(code, row.first));
    say::text(b" ", streams);
    match catalogue::read_scaled(n, id, &zeros) {
        Err(NotRead::BadFrame(_)) => say::text(b"BadFrame", streams),
        Err(NotRead::NoSuchRow) => say::text(b"NoSuchRow", streams),
        Ok(value) => {
            let mut bytes = [0xFFu8; 8];
            let writing = catalogue::write(n, id, &mut bytes, value);
            wrote(writing, streams);
            read_back(n, id, bytes, streams);
            let around = frame::number_of(bytes) | shifted(ones(row.width), row.first);
            if around != u64::MAX {
                say::text(b" another bit changed", streams);
            }
        }
    }
}

fn wrote(writing: Writing, streams: &mut Streams) {
    if let Err(why) = writing {
        say::number(b"#:", u64::from(why.refusal()), streams);
    }
}

fn read_back(n: usize, id: u32, bytes: [u8; 8], streams: &mut Streams) {
    match catalogue::read(n, id, &bytes) {
        Err(NotRead::BadFrame(_)) => say::text(b"BadFrame", streams),
        Err(NotRead::NoSuchRow) => say::text(b"NoSuchRow", streams),
        Ok(field) => {
            say::number(b"#=", field.code, streams);
            fields::class(field.class, streams);
        }
    }
}

fn ones(width: u8) -> u64 {
    if width < 64 {
        return !(u64::MAX << width);
    }
    u64::MAX
}

fn shifted(code: u64, first: u8) -> u64 {
    if first < 64 {
        return code << first;
    }
    0
}

fn id_of(dgn: u32) -> u32 {
    frame::form(6, dgn, 0x54).unwrap_or(0)
}
