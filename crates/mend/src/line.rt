// A line mended: its text put into lent bytes, and which mendings changed it.
ghost use Rattle.std.specs.Prelude.{◌≡◌, ◌++◌, ◌+◌, ◌-◌, ◌≤◌, length, drop};
ghost use Rattle.words.specs.Words.{◌or◌};
ghost use Rattle.words.specs.Lists.{any};
ghost use Rattle.text.specs.Pieces.{Wrote};
ghost use Rattle.capture.specs.Line.{gap_key, id_key, data_key};
ghost use Rattle.mend.specs.Mending.{is_small, capitals, without_zeros, eight_digits, tidied, actions_of};
ghost use Rattle.mend.specs.Places.{parts_at, PlacesFit, Became};

use crate::fields;
use crate::fields::Places;

// Which of the four mendings changed a line.
#[derive(Clone, Copy)]
pub struct Actions {
    pub cr: bool,
    pub case: bool,
    pub gap: bool,
    pub id: bool,
}

// What becomes of a line: its mended text, up to a place of the lent bytes, or that it is dropped.
#[derive(Clone, Copy)]
pub enum Outcome {
    Kept { to: usize, actions: Actions },
    Dropped,
}

// Mends a line, given without its newline: puts the text with all four mendings, and looks whether it is sound.
pub fn mend(out: &mut [u8], at: usize, line: &[u8]) -> Outcome
    requires { (at + 96 ≤ length out.old) × (length line.now ≤ 80) }
    ensures { Became line.now out.old at out.new result }
{
    let Some(places) = fields::find(line) else {
        return Outcome::Dropped;
    };
    if places.id_to == places.gap_to + 4 {
        return Outcome::Dropped;
    }
    let to = put_tidied(out, at, line, places);
    let read = capture::take_apart(&out[at..to]);
    match read.answer {
        Ok(()) => Outcome::Kept {
            to,
            actions: due(line, places),
        },
        Err(_) => Outcome::Dropped,
    }
}

// The line with all four mendings.
fn put_tidied(out: &mut [u8], at: usize, line: &[u8], places: Places) -> usize
    requires { (at + 96 ≤ length out.old) × (length line.now ≤ 80) × PlacesFit line.now places }
    ensures { Wrote out.old at (tidied (parts_at line.now places)) out.new result
        × (result ≤ at + 96) }
{
    let gap_to = places.gap_to;
    let id_from = gap_to + 4;
    let id_to = places.id_to;
    let data_from = id_to + 6;
    let data_to = places.data_to;
    let gap_end = put_gap(out, at, &line[4..gap_to]);
    let id_end = put_id(out, gap_end, &line[id_from..id_to]);
    put_data(out, id_end, &line[data_from..data_to])
}

// A gap without leading zeros, behind its key.
fn put_gap(out: &mut [u8], at: usize, part: &[u8]) -> usize
    requires { at + 4 + length part.now ≤ length out.old }
    ensures { Wrote out.old at (gap_key ++ without_zeros part.now) out.new result
        × (result ≤ at + 4 + length part.now) }
{
    let key_end = text::put(out, at, b"gap=");
    let zeros = leading_zeros(part);
    text::put(out, key_end, &part[zeros..])
}

// How many zeros lead some digits; the last digit is none of them.
fn leading_zeros(part: &[u8]) -> usize
    ensures { (drop result part.now ≡ without_zeros part.now) × (result ≤ length part.now) }
{
    let last = part.len().saturating_sub(1);
    for i in 0..last {
        if part[i] != b'0' {
            return i;
        }
    }
    last
}

// An identifier in capitals, behind its key and as many zeros as it lacks of eight digits.
fn put_id(out: &mut [u8], at: usize, part: &[u8]) -> usize
    requires { at + 12 + length part.now ≤ length out.old }
    ensures { Wrote out.old at (id_key ++ eight_digits (capitals part.now)) out.new result
        × (result ≤ at + 12 + length part.now) }
{
    let from = text::put_hex(out, at, b" id=", 0, lacking(part.len()));
    put_capitals(out, from, part)
}

// How many digits an identifier lacks.
fn lacking(count: usize) -> usize
    ensures { result ≡ 8 - count }
{
    if 8 < count {
        return 0;
    }
    8 - count
}

// The data in capitals, behind their key.
fn put_data(out: &mut [u8], at: usize, part: &[u8]) -> usize
    requires { at + 6 + length part.now ≤ length out.old }
    ensures { Wrote out.old at (data_key ++ capitals part.now) out.new result
        × (result ≤ at + 6 + length part.now) }
{
    let key_end = text::put(out, at, b" data=");
    put_capitals(out, key_end, part)
}

// Digits in capitals.
fn put_capitals(out: &mut [u8], at: usize, part: &[u8]) -> usize
    requires { at + length part.now ≤ length out.old }
    ensures { Wrote out.old at (capitals part.now) out.new result
        × (result ≡ at + length part.now) }
{
    for (i, code) in part.iter().enumerate() {
        out[at + i] = fields::capital_of(*code);
    }
    at + part.len()
}

// Which mendings change a line.
fn due(line: &[u8], places: Places) -> Actions
    requires { PlacesFit line.now places }
    ensures { result ≡ actions_of (parts_at line.now places) }
{
    let gap_to = places.gap_to;
    let id_from = gap_to + 4;
    let id_to = places.id_to;
    let data_from = id_to + 6;
    let data_to = places.data_to;
    let small_id = has_small(&line[id_from..id_to]);
    let small_data = has_small(&line[data_from..data_to]);
    let zeros = leading_zeros(&line[4..gap_to]);
    Actions {
        cr: places.returns,
        case: either(small_id, small_data),
        gap: 0 < zeros,
        id: id_to - id_from < 8,
    }
}

// Whether a small letter is among some digits.
fn has_small(part: &[u8]) -> bool
    ensures { result ≡ any is_small part.now }
{
    part.iter().any(|code| fields::is_small(*code))
}

pub fn either(a: bool, b: bool) -> bool
    ensures { result ≡ (a or b) }
{
    if a {
        return true;
    }
    b
}
