// A typed line: its words, and the numbers and bytes that they mean. The line stands in the notes, a letter a note.
ghost use Rattle.std.specs.Prelude.{◌≤◌};

use crate::notes::{field_as, get, put};
use crate::{notes, say};
use streams::Streams;

// Where a word stands: it has one letter at least.
#[derive(Clone, Copy)]
pub struct Word {
    pub from: usize,
    pub to: usize,
}

// The word between two places, if there is one.
pub fn word_between(from: usize, to: usize) -> Option<Word> {
    (from < to).then_some(Word { from, to })
}

// A letter of the line; 0 past its end.
pub fn letter(notes: &[u64], at: usize) -> u8 {
    if at < length(notes) {
        return field_as(notes, notes::LINE, at);
    }
    0
}

// How many letters the line has.
fn length(notes: &[u64]) -> usize {
    get(notes, notes::LETTERS) as usize
}

// The line's word of this number, counted from 0.
pub fn nth_word(notes: &[u64], n: usize) -> Option<Word> {
    let mut from = past_blanks(notes, 0);
    let mut to = end_of(notes, from);
    for _ in 0..n {
        from = past_blanks(notes, to);
        to = end_of(notes, from);
    }
    word_between(from, to)
}

// The first place from here on at which no blank stands.
fn past_blanks(notes: &[u64], at: usize) -> usize {
    let end = length(notes);
    (at..end)
        .find(|i| !is_blank(letter(notes, *i)))
        .unwrap_or(end)
}

// Where the word that begins here ends. A blank between quotation marks belongs to the word.
fn end_of(notes: &[u64], at: usize) -> usize {
    let end = length(notes);
    let mut quoted = false;
    for i in at..end {
        let c = letter(notes, i);
        if !quoted && is_blank(c) {
            return i;
        }
        quoted = quoted != (c == b'"');
    }
    end
}

// Brackets, commas and equal signs stand between words as blanks do, so that a call may be typed as code has it.
fn is_blank(c: u8) -> bool {
    matches!(
        c,
        b' ' | b'\t' | b'\r' | b'(' | b')' | b'[' | b']' | b',' | b'=' | b';' | b'&'
    )
}

// The list of this number, counted from 0. A list ends with a bar behind its last blank.
pub fn nth_list(lists: &[u8], n: usize) -> &[u8] {
    lists.split(|c| *c == b'|').nth(n).unwrap_or(b"")
}

// The name of this number in a list, counted from 0; nothing past the last. A name ends with a blank.
pub fn nth_name(names: &[u8], n: usize) -> &[u8] {
    names.split(|c| *c == b' ').nth(n).unwrap_or(b"")
}

// Which name of a list the word is, counted from 0.
pub fn find_word(notes: &[u64], word: Word, names: &[u8]) -> Option<usize> {
    names
        .split(|c| *c == b' ')
        .position(|name| is_name(notes, word, name))
}

// Whether a word of the line is this name.
fn is_name(notes: &[u64], word: Word, name: &[u8]) -> bool {
    word.to.wrapping_sub(word.from) == name.len()
        && name
            .iter()
            .enumerate()
            .all(|(i, c)| letter(notes, word.from.wrapping_add(i)) == *c)
}

// Which of these is the first word of the line.
pub fn asked(notes: &[u64], names: &[u8]) -> Option<usize> {
    find_word(notes, nth_word(notes, 0)?, names)
}

// Which name of a list the line's first word has behind the name of the part.
pub fn find(notes: &[u64], lists: &[u8], list: usize) -> Option<usize> {
    let word = nth_word(notes, 0)?;
    find_word(notes, behind(notes, word)?, nth_list(lists, list))
}

// Which of these the word behind `set` or `show` is.
pub fn find_state(notes: &[u64], names: &[u8]) -> Option<usize> {
    find_word(notes, nth_word(notes, 1)?, names)
}

// Which of these fields of a record the line sets.
pub fn find_field(notes: &[u64], names: &[u8]) -> Option<usize> {
    find_word(notes, nth_word(notes, 3)?, names)
}

// Which of these parts of the library the line is about: the name of a call, or behind `set` or `show` that of a field,
// begins with the part's name.
pub fn part(notes: &[u64], names: &[u8]) -> Option<usize> {
    let word = named(notes)?;
    let head = word_between(word.from, head_end(notes, word))?;
    find_word(notes, head, names)
}

// The word that names a call or a field.
fn named(notes: &[u64]) -> Option<Word> {
    if asked(notes, b"set show").is_some() {
        return nth_word(notes, 1);
    }
    nth_word(notes, 0)
}

// The part of a word behind its first `::` or point.
fn behind(notes: &[u64], word: Word) -> Option<Word> {
    let end = head_end(notes, word);
    if letter(notes, end) == b':' {
        return word_between(end.wrapping_add(2), word.to);
    }
    word_between(end.wrapping_add(1), word.to)
}

// Where the part of a word before its first colon or point ends.
fn head_end(notes: &[u64], word: Word) -> usize {
    (word.from..word.to)
        .find(|i| matches!(letter(notes, *i), b':' | b'.'))
        .unwrap_or(word.to)
}

// Whether the line has no word here; if it has one, that is said.
pub fn ends_here(notes: &[u64], n: usize, streams: &mut Streams) -> bool {
    if nth_word(notes, n).is_some() {
        say::malformed(n, b"one argument too many", streams);
        return false;
    }
    true
}

// The word as a number: decimal, or hexadecimal as 0x54 or 54h; true is 1 and false 0.
pub fn number_in(notes: &[u64], word: Word) -> Option<u64> {
    if let Some(truth) = find_word(notes, word, b"false true") {
        return Some(truth as u64);
    }
    if letter(notes, word.from) == b'0' && letter(notes, word.from.wrapping_add(1)) == b'x' {
        return digits(notes, word.from.wrapping_add(2), word.to, 16);
    }
    let last = word.to.wrapping_sub(1);
    if letter(notes, last) == b'h' {
        return digits(notes, word.from, last, 16);
    }
    digits(notes, word.from, word.to, 10)
}

// The digits of a number. There is none without a digit, with another character, or from 2 to the 64 on.
fn digits(notes: &[u64], from: usize, to: usize, base: u32) -> Option<u64>
    requires { (2 ≤ base) × (base ≤ 36) }
{
    let digits = word_between(from, to)?;
    let mut value: u64 = 0;
    for i in digits.from..digits.to {
        let digit = digit(letter(notes, i), base)?;
        value = value
            .checked_mul(u64::from(base))?
            .checked_add(u64::from(digit))?;
    }
    Some(value)
}

// A digit's value, in a letter of either case.
fn digit(c: u8, base: u32) -> Option<u32>
    requires { (2 ≤ base) × (base ≤ 36) }
{
    char::from(c).to_digit(base)
}

// The word as bytes, which are noted: pairs of hexadecimal digits and texts in quotation marks, one after another; `-`
// for none; `that` for the last eight bytes that a call gave; `counting:N` for N bytes that count 0 to 250 again and
// again. How many they are, if it is that.
pub fn bytes_in(notes: &mut [u64], word: Word) -> Option<u64> {
    match find_word(notes, word, b"- that") {
        Some(0) => Some(0),
        Some(_) => Some(that(notes)),
        None => many_bytes(notes, word),
    }
}

fn many_bytes(notes: &mut [u64], word: Word) -> Option<u64> {
    let behind = word.from.wrapping_add(9);
    let prefix = Word { to: behind, ..word };
    if is_name(notes, prefix, b"counting:") {
        count(notes);
        return number_in(notes, word_between(behind, word.to)?);
    }
    digit_pairs(notes, word)
}

fn that(notes: &mut [u64]) -> u64 {
    let eight = frame::bytes_of(get(notes, notes::THAT));
    for (i, byte) in eight.iter().enumerate() {
        put_byte(notes, i, *byte);
    }
    8
}

// Notes a byte that was typed.
fn put_byte(notes: &mut [u64], at: usize, byte: u8) {
    if at < notes::MOST_BYTES {
        put(notes, notes::DATA.wrapping_add(at), u64::from(byte));
    }
}

fn count(notes: &mut [u64]) {
    for i in 0..notes::MOST_BYTES {
        put_byte(notes, i, (i % 251) as u8);
    }
}

// Where reading a word as bytes stands: the next letter, how many bytes there are, whether a text is open, and whether
// all was well so far. Reading goes on behind what is no digit, for what stands there is noted too: so the count stays
// beside `well`, and is no Option.
#[derive(Clone, Copy)]
struct Pairs {
    at: usize,
    count: usize,
    quoted: bool,
    well: bool,
}

fn digit_pairs(notes: &mut [u64], word: Word) -> Option<u64> {
    let mut p = Pairs {
        at: word.from,
        count: 0,
        quoted: false,
        well: true,
    };
    for _ in 0..length(notes) {
        if word.to <= p.at {
            break;
        }
        p = pair(notes, p);
    }
    (p.well && !p.quoted).then_some(p.count as u64)
}

// The next letter of a text, or the next two digits.
fn pair(notes: &mut [u64], p: Pairs) -> Pairs {
    let c = letter(notes, p.at);
    if c == b'"' {
        return Pairs {
            at: p.at.wrapping_add(1),
            quoted: !p.quoted,
            ..p
        };
    }
    if p.quoted {
        put_byte(notes, p.count, c);
        return taken(p, 1, p.well);
    }
    let high = digit(c, 16);
    let low = digit(letter(notes, p.at.wrapping_add(1)), 16);
    put_byte(notes, p.count, byte_of(high.unwrap_or(0), low.unwrap_or(0)));
    taken(p, 2, p.well && high.is_some() && low.is_some())
}

// One byte more, of so many letters.
fn taken(p: Pairs, letters: usize, well: bool) -> Pairs {
    Pairs {
        at: p.at.wrapping_add(letters),
        count: p.count.wrapping_add(1),
        well,
        ..p
    }
}

// The byte of two digits.
fn byte_of(high: u32, low: u32) -> u8 {
    (high % 16 * 16 + low % 16) as u8
}
