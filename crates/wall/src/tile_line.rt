// A line that names a tile: `tile=0 dgn=1FF9C bit=8 instance=1 name=Salon`.
ghost use Rattle.std.specs.Prelude.{◌≤◌};

use rvc::texts;

// A name has at most so many bytes.
pub const NAME_BYTES: usize = 14;

// A line taken apart. The name is filled up with spaces.
#[derive(Clone, Copy)]
pub struct TileLine {
    pub tile: usize,
    pub dgn: u32,
    pub bit: u32,
    pub instance: u8,
    pub name: [u8; NAME_BYTES],
}

// A number in a line, and the place behind it.
#[derive(Clone, Copy)]
struct Number {
    value: u32,
    next: usize,
}

// A run of digits: what they spell, and how many there are.
#[derive(Clone, Copy)]
struct Run {
    value: u32,
    count: usize,
}

// Whether a line is to name a tile.
pub fn begins(line: &[u8]) -> bool {
    stands(b"tile=", line, 0)
}

// Takes a line apart, given without its newline. Whatever is not spelled just so is malformed: there is no line then.
pub fn take_apart(line: &[u8]) -> Option<TileLine> {
    let tile = decimal(b"tile=", line, 0)?;
    let dgn = five_digits(b" dgn=", line, tile.next)?;
    let bit = decimal(b" bit=", line, dgn.next)?;
    let instance = decimal(b" instance=", line, bit.next)?;
    if 255 < instance.value || !stands(b" name=", line, instance.next) {
        return None;
    }
    let from = std::num::wrapping_add_usize(instance.next, 6);
    if !is_name(line, from) {
        return None;
    }
    Some(TileLine {
        tile: tile.value as usize,
        dgn: dgn.value,
        bit: bit.value,
        instance: instance.value as u8,
        name: name_in(line, from),
    })
}

// A key, and behind it a decimal number of one to three digits, no more of them than it needs.
fn decimal(key: &[u8], line: &[u8], at: usize) -> Option<Number> {
    if !stands(key, line, at) {
        return None;
    }
    let from = std::num::wrapping_add_usize(at, key.len());
    let run = digits(10, 3, line, from);
    if texts::decimal_width(run.value as u64) != run.count {
        return None;
    }
    Some(number_of(run, from))
}

// A key, and behind it five hexadecimal digits.
fn five_digits(key: &[u8], line: &[u8], at: usize) -> Option<Number> {
    if !stands(key, line, at) {
        return None;
    }
    let from = std::num::wrapping_add_usize(at, key.len());
    let run = digits(16, 5, line, from);
    if run.count != 5 {
        return None;
    }
    Some(number_of(run, from))
}

// The number that digits from a place on spell, and the place behind them.
fn number_of(run: Run, from: usize) -> Number {
    Number {
        value: run.value,
        next: std::num::wrapping_add_usize(from, run.count),
    }
}

// The digits that stand at a place, up to so many.
fn digits(base: u32, most: usize, line: &[u8], from: usize) -> Run
    requires { (base ≤ 16) × (most ≤ 5) }
{
    let mut value: u32 = 0;
    for count in 0..most {
        let digit = value_of(byte_at(line, std::num::wrapping_add_usize(from, count)));
        if base <= digit {
            return Run { value, count };
        }
        value = value * base + digit;
    }
    Run { value, count: most }
}

// The digit that a byte spells; 16 where it is none. Letters are capitals.
fn value_of(code: u8) -> u32 {
    match code {
        b'0'..=b'9' => (code - b'0') as u32,
        b'A'..=b'F' => (code - b'A') as u32 + 10,
        _ => 16,
    }
}

// Whether a key stands at a place of the line. A key ends in `=`, so that none stands behind the line's end.
fn stands(key: &[u8], line: &[u8], at: usize) -> bool {
    match line.get(at..) {
        Some(rest) => rest.starts_with(key),
        None => false,
    }
}

// Whether the rest of a line is a name: one to fourteen bytes from 20h to 7Eh.
fn is_name(line: &[u8], from: usize) -> bool {
    match line.get(from..) {
        Some(name) => {
            !name.is_empty()
                && name.len() <= NAME_BYTES
                && name.iter().all(|code| is_printed(*code))
        }
        None => false,
    }
}

// Whether a byte may stand in a name.
fn is_printed(code: u8) -> bool {
    matches!(code, b' '..=b'~')
}

// The rest of a line, filled up with spaces.
fn name_in(line: &[u8], from: usize) -> [u8; NAME_BYTES] {
    let mut name = [b' '; NAME_BYTES];
    for (i, code) in name.iter_mut().enumerate() {
        *code = byte_at(line, std::num::wrapping_add_usize(from, i));
    }
    name
}

// The byte at a place of the line; behind its end, a space.
fn byte_at(line: &[u8], at: usize) -> u8 {
    if line.len() <= at {
        return b' ';
    }
    line[at]
}
