// The words of crate `text`: a piece put into bytes that the console lends for one call, hyphens all of them.
use crate::notes::{bounded, get};
use crate::{notes, say};
use streams::Streams;

// So many bytes are lent at most.
const MOST_LENT: usize = 64;

pub fn call(n: usize, notes: &[u64], bytes: &[u8], streams: &mut Streams) {
    if n == 4 {
        return width(notes, streams);
    }
    let mut all = [b'-'; MOST_LENT];
    let lent = bounded(get(notes, notes::FIRST) as usize, &all);
    answer(n, notes, &mut all[..lent], bytes, streams);
}

// Where the arguments of a call do not fit, what was read of them is answered as `text::put_bytes` would be.
pub fn unread(notes: &[u64], bytes: &[u8], streams: &mut Streams) {
    call(3, notes, bytes, streams);
}

// The answer, and the lent bytes.
fn answer(n: usize, notes: &[u64], out: &mut [u8], bytes: &[u8], streams: &mut Streams) {
    let end = piece(n, notes, out, bytes);
    say::number(b"# \"", end as u64, streams);
    say::text(out, streams);
    say::text(b"\"\n", streams);
}

// Puts the piece of the n-th call; the key of bytes is not typed.
fn piece(n: usize, notes: &[u64], out: &mut [u8], bytes: &[u8]) -> usize {
    let at = get(notes, notes::SECOND) as usize;
    let number = get(notes, notes::FOURTH);
    match n {
        0 => text::put(out, at, bytes),
        1 => text::put_decimal(out, at, bytes, number),
        2 => text::put_hex(out, at, bytes, number, get(notes, notes::FIFTH) as usize),
        _ => text::put_bytes(out, at, b"bytes=", bytes),
    }
}

fn width(notes: &[u64], streams: &mut Streams) {
    let width = text::decimal_width(get(notes, notes::FIRST));
    say::number(b"#\n", width as u64, streams);
}
