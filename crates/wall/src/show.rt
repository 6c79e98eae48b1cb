// What is printed: a line for each refusal, and the wall, a box for each tile.
ghost use Rattle.std.specs.Prelude.{◌<◌, ◌≤◌};

use crate::state::{Label, Wall};
use crate::{state, values};
use rvc::texts;
use streams::Streams;
use tiles::{Panel, Reading, TILES};

// The boxes that stand side by side, and the characters inside of one.
const COLUMNS: usize = 4;

const WIDTH: usize = 18;

// The three lines of a box.
#[derive(Clone, Copy)]
enum Part {
    Title,
    Value,
    Note,
}

// The number of a refusal, with that of its line; 0 is none, and says nothing.
pub fn refused(line: u32, number: u8, streams: &mut Streams) {
    if number == 0 {
        return;
    }
    say(b"line=", streams);
    decimal(line as u64, streams);
    say(b" refusal=", streams);
    decimal(number as u64, streams);
    say(b"\n", streams);
}

// The wall: its rows of boxes, with a border above the first and below each.
pub fn show_wall(wall: Wall, streams: &mut Streams) {
    let panel = wall.panel;
    if !has_named(panel, 0, TILES) {
        say(b"no tile is named\n", streams);
        return;
    }
    show_border(streams);
    for row in 0..TILES / COLUMNS {
        show_row(wall, row * COLUMNS, streams);
    }
}

// A row of boxes; nothing where none of its tiles is named.
fn show_row(wall: Wall, first: usize, streams: &mut Streams)
    requires { first ≤ 28 }
{
    let panel = wall.panel;
    if !has_named(panel, first, first + COLUMNS) {
        return;
    }
    show_line(wall, first, Part::Title, streams);
    show_line(wall, first, Part::Value, streams);
    show_line(wall, first, Part::Note, streams);
    show_border(streams);
}

// A line of the boxes of a row.
fn show_line(wall: Wall, first: usize, part: Part, streams: &mut Streams)
    requires { first ≤ 28 }
{
    for column in 0..COLUMNS {
        say(b"|", streams);
        show_part(wall, first + column, part, streams);
    }
    say(b"|\n", streams);
}

// The line above and below boxes.
fn show_border(streams: &mut Streams) {
    say(
        b"+------------------+------------------+------------------+------------------+\n",
        streams,
    );
}

// A line of a box; spaces where the tile names no row.
fn show_part(wall: Wall, tile: usize, part: Part, streams: &mut Streams)
    requires { tile < 32 }
{
    let panel = wall.panel;
    let labels = wall.labels;
    let reading = reading_of(panel, tile);
    if is_blank(reading) {
        spaces(WIDTH, streams);
        return;
    }
    let label = labels[tile];
    match part {
        Part::Title => show_title(tile, label, streams),
        Part::Value => show_value(reading, streams),
        Part::Note => show_note(label, streams),
    }
}

// Whether one of the tiles from one to before another is named.
fn has_named(panel: Panel, from: usize, to: usize) -> bool {
    (from..to).any(|tile| !is_blank(reading_of(panel, tile)))
}

// What a tile shows. Neither refusal comes: the panel has the tile, and keeps its rules.
fn reading_of(panel: Panel, tile: usize) -> Reading {
    panel.reading(tile).unwrap_or(Reading::Blank)
}

// Whether a tile names no row.
fn is_blank(reading: Reading) -> bool {
    matches!(reading, Reading::Blank)
}

// The number in two places, and the name.
fn show_title(tile: usize, label: Label, streams: &mut Streams) {
    let name = label.name;
    say(b" ", streams);
    if tile < 10 {
        say(b" ", streams);
    }
    decimal(tile as u64, streams);
    say(b" ", streams);
    say(&name, streams);
}

// What a tile shows, with its unit. The sign of a degree is two bytes and one character.
fn show_value(reading: Reading, streams: &mut Streams) {
    match reading {
        Reading::Blank => spaces(WIDTH, streams),
        Reading::NoData => show_word(b"no data", streams),
        Reading::OutOfRange => show_word(b"out of range", streams),
        Reading::Reserved => show_word(b"reserved", streams),
        Reading::Degrees(number) => show_float(number, b" \xC2\xB0C", 3, streams),
        Reading::Percent(number) => show_float(number, b" %", 2, streams),
        Reading::Hertz(number) => show_float(number, b" Hz", 3, streams),
        Reading::Volts(number) => show_twentieths(number, b" V", streams),
        Reading::Amperes(number) => show_twentieths(number, b" A", streams),
    }
}

// Whether the value can be trusted: it never came, or came too long ago, or nothing is to be said.
fn show_note(label: Label, streams: &mut Streams) {
    match label.silence {
        None => show_word(b"never heard", streams),
        Some(silence) if state::is_stale(silence) => show_word(b"stale", streams),
        Some(_) => spaces(WIDTH, streams),
    }
}

// A number with its unit, which is so many characters wide.
fn show_float(number: f32, unit: &[u8], width: usize, streams: &mut Streams)
    requires { width ≤ 3 }
{
    let mut text = [0u8; WIDTH];
    let end = values::put_float(&mut text, number);
    show_centred(&text[..end], unit, end + width, streams);
}

// A number of twentieths with its unit, which is two characters wide.
fn show_twentieths(number: i64, unit: &[u8], streams: &mut Streams) {
    let mut text = [0u8; WIDTH];
    let end = values::put_twentieths(&mut text, number);
    show_centred(&text[..end], unit, end + 2, streams);
}

// A text without a unit.
fn show_word(word: &[u8], streams: &mut Streams) {
    show_centred(word, b"", word.len(), streams);
}

// A text and its unit, together so many characters wide, in the middle of a line of a box.
fn show_centred(text: &[u8], unit: &[u8], width: usize, streams: &mut Streams) {
    let margin = room(width);
    let left = margin / 2;
    spaces(left, streams);
    say(text, streams);
    say(unit, streams);
    spaces(margin - left, streams);
}

// The characters that a text leaves of a line.
fn room(width: usize) -> usize
    ensures { result ≤ 18 }
{
    WIDTH.saturating_sub(width)
}

// So many spaces.
fn spaces(count: usize, streams: &mut Streams)
    requires { count ≤ 18 }
{
    let blank = [b' '; WIDTH];
    say(&blank[..count], streams);
}

// A whole number.
fn decimal(number: u64, streams: &mut Streams) {
    let mut digits = [0u8; 20];
    let end = texts::put_decimal(&mut digits, 0, b"", number);
    say(&digits[..end], streams);
}

// Every text goes out here.
fn say(text: &[u8], streams: &mut Streams) {
    streams.write(text);
}
