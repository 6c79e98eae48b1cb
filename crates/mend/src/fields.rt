// The fields of a line: which digits stand behind each key, and whether a carriage return stands at the end.
ghost use Rattle.std.specs.Prelude.{◌≡◌, ◌+◌, ◌≤◌, length, drop};
ghost use Rattle.capture.specs.Digits.{value_of};
ghost use Rattle.capture.specs.Line.{begins_with};
ghost use Rattle.mend.specs.Mending.{is_small, capital, ahead, return_in};
ghost use Rattle.mend.specs.Places.{FieldFound, FieldsFound, told_return};

// Where the digits of each field end, and whether a carriage return stands behind the last. The gap's digits begin at
// 4, those of the identifier 4 behind the gap's end, and those of the data 6 behind the identifier's.
#[derive(Clone, Copy)]
pub struct Places {
    pub gap_to: usize,
    pub id_to: usize,
    pub data_to: usize,
    pub returns: bool,
}

// The fields of a line, from left to right.
pub fn find(line: &[u8]) -> Option<Places>
    ensures { FieldsFound line.now result }
{
    let gap_to = field(line, 0, b"gap=", 10)?;
    let id_to = field(line, gap_to, b" id=", 16)?;
    let data_to = field(line, id_to, b" data=", 16)?;
    let returns = return_in(line, data_to)?;
    Some(Places {
        gap_to,
        id_to,
        data_to,
        returns,
    })
}

// Where the digits end that stand behind a key, where the key is at this place of the line.
fn field(line: &[u8], at: usize, key: &[u8], base: u32) -> Option<usize>
    requires { at ≤ length line.now }
    ensures { FieldFound line.now at key.now base result }
{
    if !begins(line, at, key) {
        return None;
    }
    Some(digits_to(line, at + key.len(), base))
}

// Whether a key stands at a place of the line.
fn begins(line: &[u8], at: usize, key: &[u8]) -> bool
    requires { at ≤ length line.now }
    ensures { result ≡ begins_with key.now (drop at line.now) }
{
    line[at..].starts_with(key)
}

// Where the digits end that begin at a place of the line.
fn digits_to(line: &[u8], from: usize, base: u32) -> usize
    requires { from ≤ length line.now }
    ensures { result ≡ from + length (ahead base (drop from line.now)) }
{
    for i in from..line.len() {
        if base <= value_of(line[i]) {
            return i;
        }
    }
    line.len()
}

// The digit that a byte spells, in a letter of either case; 16 where it is none.
fn value_of(code: u8) -> u32
    ensures { result ≡ value_of (capital code) }
{
    let wide = capital_of(code) as u32;
    if wide < 48 {
        return 16;
    }
    if wide <= 57 {
        return wide - 48;
    }
    if wide < 65 {
        return 16;
    }
    if wide <= 70 {
        return wide - 65 + 10;
    }
    16
}

// A small letter of a hexadecimal digit as its capital, and every other byte as it is.
pub fn capital_of(code: u8) -> u8
    ensures { result ≡ capital code }
{
    if is_small(code) {
        return code - 32;
    }
    code
}

pub fn is_small(code: u8) -> bool
    ensures { result ≡ is_small code }
{
    if code < b'a' {
        return false;
    }
    code <= b'f'
}

// Whether a carriage return stands from a place of the line to its end, if nothing else does.
fn return_in(line: &[u8], at: usize) -> Option<bool>
    requires { at ≤ length line.now }
    ensures { told_return result ≡ return_in (drop at line.now) }
{
    let count = line.len() - at;
    if count == 0 {
        return Some(false);
    }
    if count != 1 {
        return None;
    }
    if line[at] != b'\r' {
        return None;
    }
    Some(true)
}
