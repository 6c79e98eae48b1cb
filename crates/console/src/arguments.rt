// The arguments of a call and the values of a field: read from the line by their shape, and noted.
use crate::notes::{get, put};
use crate::typing::{
    Word, bytes_in, ends_here, find_word, letter, nth_name, nth_word, number_in, word_between,
};
use crate::{notes, say};
use streams::Streams;

// Reads and notes the arguments of the n-th call of a part; the shapes stand in a list as the names do. A shape has a
// letter for each argument: `t` a truth value, `1`, `2`, `4`, `8` a number of so many bytes, `b` bytes, `e` eight
// bytes, `v` a value to write, `l` a list of numbers up to the end of the line; a point stands for no argument. Where
// an argument does not fit, that is said, and the answer is no.
pub fn called(notes: &mut [u64], shapes: &[u8], n: usize, streams: &mut Streams) -> bool {
    arguments(notes, 1, nth_name(shapes, n), streams)
}

// Reads the values of a field, which are of this shape. Where one does not fit, that is said, and the answer is no.
pub fn values(notes: &mut [u64], shape: &[u8], streams: &mut Streams) -> bool {
    arguments(notes, 2, shape, streams)
}

// Reads the arguments from this word of the line on.
fn arguments(notes: &mut [u64], from: usize, shape: &[u8], streams: &mut Streams) -> bool {
    let count = if shape.starts_with(b".") {
        0
    } else {
        shape.len()
    };
    for (i, letter) in shape.iter().take(count).enumerate() {
        if !argument(notes, from.wrapping_add(i), i, *letter, streams) {
            return false;
        }
    }
    // A list has read the line to its end.
    shape.starts_with(b"l") || ends_here(notes, from.wrapping_add(count), streams)
}

// Reads one argument, the n-th word of the line, and notes it; a number at `slot`.
pub fn argument(
    notes: &mut [u64],
    n: usize,
    slot: usize,
    letter: u8,
    streams: &mut Streams,
) -> bool {
    match letter {
        b'b' => bytes(notes, n, streams),
        b'e' => eight(notes, n, streams),
        b'v' => value(notes, n, slot, streams),
        b'l' => list(notes, n, streams),
        b'd' => edition(notes, n, slot, streams),
        _ => number(
            notes,
            n,
            slot,
            nth_word(notes, n),
            greatest(letter),
            streams,
        ),
    }
}

// The greatest number of a letter; of `u`, which stands for a unit, 5.
fn greatest(letter: u8) -> u64 {
    match letter {
        b't' => 1,
        b'u' => 5,
        b'1' => 0xFF,
        b'2' => 0xFFFF,
        b'4' => 0xFFFFFFFF,
        _ => 0xFFFFFFFFFFFFFFFF,
    }
}

fn number(
    notes: &mut [u64],
    n: usize,
    slot: usize,
    at: Option<Word>,
    most: u64,
    streams: &mut Streams,
) -> bool {
    let Some(at) = at else {
        return misses(n, b"an argument is missing", streams);
    };
    let Some(number) = number_in(notes, at) else {
        return misses(n, b"no number", streams);
    };
    if most < number {
        return misses(n, b"a number too large for this argument", streams);
    }
    put(notes, slot, number);
    true
}

// An edition: 0 is noted for one, 1 for two.
fn edition(notes: &mut [u64], n: usize, slot: usize, streams: &mut Streams) -> bool {
    let Some(at) = nth_word(notes, n) else {
        return misses(n, b"an argument is missing", streams);
    };
    let Some(word) = find_word(notes, at, b"One Two Edition::One Edition::Two") else {
        return misses(n, b"no edition: write One or Two", streams);
    };
    put(notes, slot, (word % 2) as u64);
    true
}

fn misses(n: usize, why: &[u8], streams: &mut Streams) -> bool {
    say::malformed(n, why, streams);
    false
}

fn bytes(notes: &mut [u64], n: usize, streams: &mut Streams) -> bool {
    let Some(at) = nth_word(notes, n) else {
        return misses(n, b"bytes are missing; none are written -", streams);
    };
    let Some(count) = bytes_in(notes, at) else {
        return misses(
            n,
            b"no bytes: write pairs of hexadecimal digits, or \"text\"",
            streams,
        );
    };
    if (notes::MOST_BYTES as u64) < count {
        return misses(n, b"more bytes than the console has room for", streams);
    }
    put(notes, notes::BYTES, count);
    true
}

fn eight(notes: &mut [u64], n: usize, streams: &mut Streams) -> bool {
    if !bytes(notes, n, streams) {
        return false;
    }
    if get(notes, notes::BYTES) != 8 {
        return misses(n, b"eight bytes are wanted here", streams);
    }
    true
}

fn value(notes: &mut [u64], n: usize, slot: usize, streams: &mut Streams) -> bool {
    let Some(at) = nth_word(notes, n) else {
        return misses(n, b"an argument is missing", streams);
    };
    if let Some(class) = find_word(notes, at, b"NoData OutOfRange Reserved") {
        put(notes, notes::VALUE, class as u64);
        return true;
    }
    put(notes, notes::VALUE, notes::SCALED);
    if letter(notes, at.from) == b'-' {
        return negative(notes, n, slot, at, streams);
    }
    number(notes, n, slot, Some(at), 0x7FFFFFFFFFFFFFFF, streams)
}

// A number below zero: one less than its size is noted.
fn negative(notes: &mut [u64], n: usize, slot: usize, at: Word, streams: &mut Streams) -> bool {
    let size = word_between(at.from.wrapping_add(1), at.to);
    let well = number(notes, n, slot, size, 0x8000000000000000, streams);
    let number = get(notes, slot);
    if number != 0 {
        put(notes, notes::VALUE, notes::NEGATIVE);
        put(notes, slot, number - 1);
    }
    well
}

// The words from this one on, as a list of numbers.
fn list(notes: &mut [u64], n: usize, streams: &mut Streams) -> bool {
    let mut count: usize = 0;
    for i in 0..notes::MOST_NUMBERS {
        let here = n.wrapping_add(i);
        let at = nth_word(notes, here);
        if at.is_none() {
            break;
        }
        let slot = notes::NUMBERS.wrapping_add(i);
        if !number(notes, here, slot, at, 0xFFFFFFFF, streams) {
            return false;
        }
        count = i.wrapping_add(1);
    }
    put(notes, notes::LIST, count as u64);
    ends_here(notes, n.wrapping_add(count), streams)
}
