// The words of crate `capture`: one cutter of lines, and the block that it was given last.
use crate::frames::first_eight;
use crate::notes::{bounded, byte_at, field_as, get, get_as, put};
use crate::{notes, say};
use capture::{Cutter, Cutting, Ending, LONGEST_LINE};
use streams::Streams;
use words::Refusal;

pub fn call(n: usize, notes: &mut [u64], bytes: &[u8], streams: &mut Streams) {
    match n {
        0 => take_apart(notes, bytes, streams),
        1 => write(notes, bytes, streams),
        2 => new(notes, streams),
        3 => next(notes, bytes, streams),
        4 => last(notes, streams),
        _ => {}
    }
}

fn take_apart(notes: &mut [u64], bytes: &[u8], streams: &mut Streams) {
    let line = capture::take_apart(bytes);
    match line.answer {
        Ok(()) => say::number(b"Sound gap=#", u64::from(line.gap), streams),
        Err(_) => say::number(b"Malformed gap=#", u64::from(line.gap), streams),
    }
    say::frame(notes, line.id, line.bytes, streams);
    say::end(
        notes,
        notes::CAPTURE_READING,
        line.answer.refusal(),
        streams,
    );
}

fn write(notes: &[u64], bytes: &[u8], streams: &mut Streams) {
    let gap: u16 = get_as(notes, notes::FIRST);
    let id: u32 = get_as(notes, notes::SECOND);
    let written = capture::write(gap, id, first_eight(bytes));
    let text = written.bytes;
    let count = bounded(written.count, &text);
    say::text(&text[..count], streams);
    say::text(b"\n", streams);
}

fn new(notes: &mut [u64], streams: &mut Streams) {
    keep(notes, Cutter::new());
    say::text(b"a cutter at the start of a stream\n", streams);
    show(notes, streams);
}

fn next(notes: &mut [u64], bytes: &[u8], streams: &mut Streams) {
    let before = cutter(notes);
    let cut = before.next(bytes, get(notes, notes::SECOND) as usize);
    keep(notes, cut.cutter);
    tell(notes, bytes, cut.answer, streams);
    say::number(b" next=#\n", cut.read_to as u64, streams);
    show(notes, streams);
}

fn tell(notes: &[u64], bytes: &[u8], answer: Cutting, streams: &mut Streams) {
    match answer {
        Cutting::Within { from, to } => within(bytes, from, to, streams),
        Cutting::Carried(length) => carried(notes, length, streams),
        Cutting::TooLong => say::text(b"TooLong", streams),
        Cutting::BlockUsed => say::text(b"BlockUsed", streams),
        Cutting::AllRead => say::text(b"AllRead", streams),
    }
}

// A line that stands whole in the block.
fn within(bytes: &[u8], from: usize, to: usize, streams: &mut Streams) {
    say::form(
        b"Within from=# to=# \"",
        &[from as u64, to as u64],
        0,
        streams,
    );
    readable(bytes, from, to, streams);
    say::text(b"\"", streams);
}

// A line that began in an earlier block.
fn carried(notes: &[u64], length: usize, streams: &mut Streams) {
    say::number(b"Carried # \"", length as u64, streams);
    let carry = carry(notes);
    readable(&carry, 0, length, streams);
    say::text(b"\"", streams);
}

fn readable(bytes: &[u8], from: usize, to: usize, streams: &mut Streams) {
    for i in from..to {
        say::text(&[printed(byte_at(bytes, i))], streams);
    }
}

// A character that can be printed, and a point for any other.
fn printed(c: u8) -> u8 {
    match c {
        b' '..=b'~' => c,
        _ => b'.',
    }
}

fn last(notes: &[u64], streams: &mut Streams) {
    match cutter(notes).last() {
        Ending::Carried(length) => carried(notes, length, streams),
        Ending::TooLong => say::text(b"TooLong", streams),
        Ending::Nothing => say::text(b"Nothing", streams),
    }
    say::text(b"\n", streams);
}

// The cutter of the notes.
fn cutter(notes: &[u64]) -> Cutter {
    Cutter {
        carry: carry(notes),
        length: get(notes, notes::CUTTER) as usize,
        lines: field_as(notes, notes::CUTTER, 1),
    }
}

fn carry(notes: &[u64]) -> [u8; LONGEST_LINE] {
    let mut carry = [0u8; LONGEST_LINE];
    for (i, byte) in carry.iter_mut().enumerate() {
        *byte = field_as(notes, notes::CUTTER_CARRY, i);
    }
    carry
}

// Notes the cutter.
fn keep(notes: &mut [u64], cutter: Cutter) {
    put(notes, notes::CUTTER, cutter.length as u64);
    put(notes, notes::CUTTER + 1, u64::from(cutter.lines));
    for (i, byte) in cutter.carry.iter().enumerate() {
        put(notes, notes::CUTTER_CARRY.wrapping_add(i), u64::from(*byte));
    }
}

pub fn show(notes: &[u64], streams: &mut Streams) {
    say::form(
        b"  capture.cutter.length=# lines=# carry=",
        notes,
        notes::CUTTER,
        streams,
    );
    let carry = carry(notes);
    let count = bounded(get(notes, notes::CUTTER) as usize, &carry);
    say::bytes(b"", &carry[..count], streams);
    say::text(b"\n", streams);
}
