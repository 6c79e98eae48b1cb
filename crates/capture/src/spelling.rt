// The spelling of a line: its keys, and the numbers that its digits spell.
ghost use Rattle.std.specs.Prelude.{◌≡◌, ◌+◌, ◌≤◌, ◌<◌, length, drop};
ghost use Rattle.capture.specs.Digits.{value_of, number_read};
ghost use Rattle.capture.specs.Line.{has_shape, begins_with, gap_read, bytes_read};
ghost use Rattle.capture.specs.Private.{told_spelled};

use crate::{GREATEST_GAP, KEYS_AND_DIGITS, SHORTEST_LINE, TEXT_BYTES};

// The length, and the three keys at the places that the length leaves them.
pub fn has_shape(line: &[u8]) -> bool
    ensures { result ≡ has_shape line.now }
{
    if line.len() < SHORTEST_LINE {
        return false;
    }
    if TEXT_BYTES < line.len() {
        return false;
    }
    let width = line.len() - KEYS_AND_DIGITS;
    if !begins(b"gap=", line, 0) {
        return false;
    }
    if !begins(b" id=", line, width + 4) {
        return false;
    }
    begins(b" data=", line, width + 16)
}

// The gap: no more digits than it needs, and at most 65,535.
pub fn gap(part: &[u8]) -> Option<u16>
    requires { length part.now ≤ 8 }
    ensures { told_spelled result ≡ gap_read part.now }
{
    let gap = number(10, part)?;
    if GREATEST_GAP < gap {
        return None;
    }
    if text::decimal_width(gap as u64) != part.len() {
        return None;
    }
    Some(gap as u16)
}

// The number that at most eight digits spell.
pub fn number(base: u32, part: &[u8]) -> Option<u32>
    requires { (base ≤ 16) × (length part.now ≤ 8) }
    ensures { told_spelled result ≡ number_read base part.now }
{
    let mut number = 0;
    for code in part {
        let value = value_of(*code);
        if base <= value {
            return None;
        }
        number = number * base + value;
    }
    Some(number)
}

// The bytes that sixteen digits spell.
pub fn eight_bytes(part: &[u8]) -> Option<[u8; 8]>
    requires { length part.now ≡ 16 }
    ensures { told_spelled result ≡ bytes_read 8 part.now }
{
    let mut bytes = [0; 8];
    for (i, byte) in bytes.iter_mut().enumerate() {
        *byte = number(16, &part[2 * i..2 * i + 2])? as u8;
    }
    Some(bytes)
}

// The digit that a byte spells; 16 where it is none. Without a branch on the digit: a letter's code lies 64 up, and its
// low four bits 9 below its value. The value is right where its own code is the byte.
fn value_of(code: u8) -> u32
    ensures { result ≡ value_of code }
{
    let wide = code as u32;
    let value = wide % 16 + wide / 64 * 9;
    if 16 <= value {
        return 16;
    }
    if value + value / 10 * 7 + 48 != wide {
        return 16;
    }
    value
}

// Whether a key stands at a place of the line.
fn begins(key: &[u8], line: &[u8], at: usize) -> bool
    requires { at ≤ length line.now }
    ensures { result ≡ begins_with key.now (drop at line.now) }
{
    line[at..].starts_with(key)
}
