// What the console prints: texts, numbers, bytes, and the end of an answer with its number.
use crate::notes::{bounded, byte_at, get, put};
use crate::{notes, typing};
use streams::Streams;

pub fn text(text: &[u8], streams: &mut Streams) {
    streams.write(text);
}

// A pattern with numbers, taken from a place on: `#` is one in decimal digits, `%` an address, `~` a DGN, `^` an
// identifier and `@` a NAME, all in hexadecimal digits, `?` true or false. Every other character is printed as it is.
pub fn form(pattern: &[u8], numbers: &[u64], at: usize, streams: &mut Streams) {
    let mut next = at;
    for c in pattern {
        if piece(*c, get(numbers, next), streams) {
            next = next.wrapping_add(1);
        }
    }
}

// A character of a pattern, and whether it was the number.
fn piece(c: u8, number: u64, streams: &mut Streams) -> bool {
    match c {
        b'#' => decimal(number, streams),
        b'%' => hex(number, 2, streams),
        b'~' => hex(number, 5, streams),
        b'^' => hex(number, 8, streams),
        b'@' => hex(number, 16, streams),
        b'?' => word(b"false true", number as usize, streams),
        _ => {
            text(&[c], streams);
            return false;
        }
    }
    true
}

// A pattern with one number.
pub fn number(pattern: &[u8], number: u64, streams: &mut Streams) {
    form(pattern, &[number], 0, streams);
}

// One of these words, counted from 0.
pub fn word(words: &[u8], n: usize, streams: &mut Streams) {
    text(typing::nth_name(words, n), streams);
}

fn decimal(number: u64, streams: &mut Streams) {
    let mut digits = [0u8; 20];
    let end = text::put_decimal(&mut digits, 0, b"", number);
    let count = bounded(end, &digits);
    text(&digits[..count], streams);
}

// At least so many digits, and more where the number has more; in small letters, as `text` writes none.
fn hex(number: u64, least: usize, streams: &mut Streams) {
    text(b"0x", streams);
    hex_digits(number, least, streams);
}

// The digits alone.
fn hex_digits(number: u64, least: usize, streams: &mut Streams) {
    let mut digits = [0u8; 16];
    let count = io::hex(number, least, &mut digits);
    text(&digits[..count], streams);
}

// A number that may be negative.
pub fn signed(number: i64, streams: &mut Streams) {
    if number < 0 {
        text(b"-", streams);
    }
    decimal(number.unsigned_abs(), streams);
}

fn byte(byte: u8, streams: &mut Streams) {
    hex_digits(u64::from(byte), 2, streams);
}

// Bytes as pairs of hexadecimal digits.
pub fn bytes(label: &[u8], bytes: &[u8], streams: &mut Streams) {
    text(label, streams);
    for one in bytes {
        byte(*one, streams);
    }
}

// Some bytes of a storage, from a place on; 0 past its end.
pub fn stretch(storage: &[u8], from: usize, count: usize, streams: &mut Streams) {
    for i in 0..count {
        byte(byte_at(storage, from.wrapping_add(i)), streams);
    }
}

// Eight bytes that a call gave. They are noted, and the word `that` means them in the next line.
pub fn eight(notes: &mut [u64], label: &[u8], eight: [u8; 8], streams: &mut Streams) {
    put(notes, notes::THAT, frame::number_of(eight));
    bytes(label, &eight, streams);
}

// A frame that stands beside an answer.
pub fn frame(notes: &mut [u64], id: u32, bytes: [u8; 8], streams: &mut Streams) {
    number(b" id=^", u64::from(id), streams);
    eight(notes, b" bytes=", bytes, streams);
}

// The end of an answer: the number of its refusal, which is noted, and the end of the line.
pub fn end(notes: &mut [u64], kind: usize, refusal: u8, streams: &mut Streams) {
    put(notes, kind, u64::from(refusal));
    if refusal != 0 {
        number(b", refusal #", u64::from(refusal), streams);
    }
    text(b"\n", streams);
}

// No call or field of this part has the name.
pub fn unknown(streams: &mut Streams) {
    text(b"malformed: no such call or field; type help\n", streams);
}

// What is wrong with a line, and at which of its words, counted from 0.
pub fn malformed(n: usize, why: &[u8], streams: &mut Streams) {
    number(b"malformed, word #: ", n as u64, streams);
    text(why, streams);
    text(b"\n", streams);
}
