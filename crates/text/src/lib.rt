// Text put into lent bytes, each piece behind the one before (RULES 11.1, 11.2 and 11.17): words, numbers in decimal
// and in hexadecimal digits, and bytes as two digits each.
//
// Every `put` takes the lent bytes `out` and the place `at` in them, and answers the place behind what it wrote, which
// is the `at` of the next piece. It refuses nothing. A piece that does not fit behind `at` is left out whole: no byte
// changes, and `at` itself is answered. So a builder who lends enough bytes need not look, and one who lends too few
// sees that an answer did not move.
#![tactic(auto)]

ghost use Rattle.std.specs.Prelude.{◌≡◌, ◌+◌, ◌*◌, ◌≤◌, ◌<◌, length};
ghost use Rattle.words.specs.Words.{◌≤?◌};
ghost use Rattle.text.specs.Text.{glyph, digits, byte_pairs};
ghost use Rattle.text.specs.Pieces.{placed};
ghost use Rattle.text.specs.Promises.{Put, PutDecimal, PutHex, PutBytes, DecimalWidth};

// Puts a word.
pub fn put(out: &mut [u8], at: usize, word: &[u8]) -> usize
    ensures { Put out.old at word.now result out.new }
{
    if !fits(out.len(), at, word.len()) {
        return at;
    }
    put_word(out, at, word)
}

// Puts a key, and behind it a number in decimal, without leading zeros: `gap=50`. A key may be empty.
pub fn put_decimal(out: &mut [u8], at: usize, key: &[u8], number: u64) -> usize
    ensures { PutDecimal out.old at key.now number result out.new }
{
    let width = decimal_width(number);
    if !fits(out.len(), at, key.len() + width) {
        return at;
    }
    let from = put_word(out, at, key);
    put_digits(out, from, 10, number, width)
}

// Puts a key, and behind it the last `count` hexadecimal digits of a number, in capitals: ` dgn=0FEF2`. A number of
// fewer digits has zeros before them; of one that has more, those above the last `count` are left out.
pub fn put_hex(out: &mut [u8], at: usize, key: &[u8], number: u64, count: usize) -> usize
    ensures { PutHex out.old at key.now number count result out.new }
{
    if out.len() < count {
        return at;
    }
    if !fits(out.len(), at, key.len() + count) {
        return at;
    }
    let from = put_word(out, at, key);
    put_digits(out, from, 16, number, count)
}

// Puts a key, and behind it two hexadecimal digits for each byte, in their order: ` bytes=0141434D`.
pub fn put_bytes(out: &mut [u8], at: usize, key: &[u8], bytes: &[u8]) -> usize
    ensures { PutBytes out.old at key.now bytes.now result out.new }
{
    if out.len() / 2 < bytes.len() {
        return at;
    }
    if !fits(out.len(), at, key.len() + 2 * bytes.len()) {
        return at;
    }
    let from = put_word(out, at, key);
    put_pairs(out, from, bytes)
}

// How many digits a number has in decimal, without leading zeros: 1 to 20. So many bytes `put_decimal` needs behind its
// key.
pub fn decimal_width(number: u64) -> usize
    ensures { DecimalWidth number result }
{
    let mut width: usize = 1;
    let mut rest = number;
    while 10 <= rest {
        rest = rest / 10;
        width += 1;
    }
    width
}

// Whether so many bytes fit behind a place.
fn fits(room: usize, at: usize, size: usize) -> bool
    ensures { result ≡ (at + size ≤? room) }
{
    at <= room && size <= room - at
}

// A word that fits.
fn put_word(out: &mut [u8], at: usize, word: &[u8]) -> usize
    requires { at + length word.now ≤ length out.old }
    ensures { (out.new ≡ placed out.old at word.now)
        × (result ≡ at + length word.now) }
{
    let end = at + word.len();
    out[at..end].copy_from_slice(word);
    end
}

// The last `count` digits of a number, from the last to the first.
fn put_digits(out: &mut [u8], at: usize, base: u64, number: u64, count: usize) -> usize
    requires { (0 < base) × (base ≤ 16) × (at + count ≤ length out.old) }
    ensures { (out.new ≡ placed out.old at (digits base count number)) × (result ≡ at + count) }
{
    let mut rest = number;
    for i in (0..count).rev() {
        out[at + i] = glyph_of(rest % base);
        rest /= base;
    }
    at + count
}

// Two digits for each byte.
fn put_pairs(out: &mut [u8], at: usize, bytes: &[u8]) -> usize
    requires { at + 2 * length bytes.now ≤ length out.old }
    ensures { (out.new ≡ placed out.old at (byte_pairs bytes.now))
        × (result ≡ at + 2 * length bytes.now) }
{
    let mut end = at;
    for byte in bytes {
        end = put_digits(out, end, 16, u64::from(*byte), 2);
    }
    end
}

// The code of a digit.
#[tactic(auto, unfolding(crate::specs::Text::glyph))]
fn glyph_of(digit: u64) -> u8
    requires { digit < 16 }
    ensures { result ≡ glyph digit }
{
    if digit < 10 {
        b'0' + digit as u8
    } else {
        b'A' + (digit as u8 - 10)
    }
}
