// The lines of the report, put into lent bytes behind what stands there.
ghost use Rattle.std.specs.Prelude.{◌+◌, ◌≤◌, length};
ghost use Rattle.text.specs.Pieces.{Wrote};
ghost use Rattle.busread.specs.Report.{head_text, refusal_text, message_text};
ghost use Rattle.busread.specs.Report.{place_text, value_text, field_text, closing_text};

use catalogue::{Class, Field, Row};

// How many lines there were, how many were refused, and how many long messages were finished.
#[derive(Clone, Copy)]
pub struct Counts {
    pub frames: u32,
    pub refused: u32,
    pub messages: u32,
}

// What a frame's lines begin with.
pub fn put_head(out: &mut [u8], at: usize, number: u32, source: u8, dgn: u32) -> usize
    requires { at + 48 ≤ length out.old }
    ensures { Wrote out.old at (head_text number source dgn) out.new result × (result ≤ at + 48) }
{
    let number_end = text::put_decimal(out, at, b"frame=", number as u64);
    let source_end = text::put_hex(out, number_end, b" sa=", source as u64, 2);
    text::put_hex(out, source_end, b" dgn=", dgn as u64, 5)
}

// A refused line.
pub fn put_refusal(out: &mut [u8], at: usize, number: u32, refusal: u32) -> usize
    requires { at + 64 ≤ length out.old }
    ensures { Wrote out.old at (refusal_text number refusal) out.new result × (result ≤ at + 64) }
{
    let number_end = text::put_decimal(out, at, b"frame=", number as u64);
    let refusal_end = text::put_decimal(out, number_end, b" refusal=", refusal as u64);
    text::put(out, refusal_end, b"\n")
}

// A finished message.
pub fn put_message(
    out: &mut [u8],
    at: usize,
    number: u32,
    source: u8,
    dgn: u32,
    bytes: &[u8],
) -> usize
    requires { (at + 4096 ≤ length out.old) × (length bytes.now ≤ 1785) }
    ensures { Wrote out.old at (message_text number source dgn bytes.now) out.new result
        × (result ≤ at + 4096) }
{
    let head_end = put_head(out, at, number, source, dgn);
    let length_end = text::put_decimal(out, head_end, b" length=", bytes.len() as u64);
    let bytes_end = text::put_bytes(out, length_end, b" bytes=", bytes);
    text::put(out, bytes_end, b"\n")
}

// The class of a field, and its code.
fn put_value(out: &mut [u8], at: usize, class: Class, code: u64) -> usize
    requires { at + 44 ≤ length out.old }
    ensures { Wrote out.old at (value_text class code) out.new result × (result ≤ at + 44) }
{
    match class {
        Class::Number => text::put_decimal(out, at, b" class=number raw=", code),
        Class::NoData => text::put_decimal(out, at, b" class=no-data raw=", code),
        Class::OutOfRange => text::put_decimal(out, at, b" class=out-of-range raw=", code),
        Class::Reserved => text::put_decimal(out, at, b" class=reserved raw=", code),
    }
}

// A field of a catalogued frame, behind the head of its frame.
pub fn put_field(out: &mut [u8], at: usize, head: &[u8], row: Row, field: Field) -> usize
    requires { (at + 160 ≤ length out.old) × (length head.now ≤ 48) }
    ensures { Wrote out.old at (field_text head.now row field) out.new result × (result ≤ at + 160) }
{
    let head_end = text::put(out, at, head);
    let place_end = put_place(out, head_end, row);
    let class = field.class;
    let value_end = put_value(out, place_end, class, field.code);
    text::put(out, value_end, b"\n")
}

// Where a field lies.
fn put_place(out: &mut [u8], at: usize, row: Row) -> usize
    requires { at + 64 ≤ length out.old }
    ensures { Wrote out.old at (place_text row) out.new result × (result ≤ at + 64) }
{
    let bit_end = text::put_decimal(out, at, b" bit=", row.first as u64);
    text::put_decimal(out, bit_end, b" width=", row.width as u64)
}

// The closing line.
pub fn put_closing(out: &mut [u8], at: usize, counts: Counts) -> usize
    requires { at + 128 ≤ length out.old }
    ensures { Wrote out.old at (closing_text counts) out.new result }
{
    let frames_end = text::put_decimal(out, at, b"frames=", counts.frames as u64);
    let refused_end = text::put_decimal(out, frames_end, b" refused=", counts.refused as u64);
    let messages_end = text::put_decimal(out, refused_end, b" messages=", counts.messages as u64);
    text::put(out, messages_end, b"\n")
}
