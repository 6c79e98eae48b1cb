// A number as text: exact decimals, without zeros at their end. In ten-millionths each step of a reading is a whole
// number: 1/128 is 78,125 of them, and 1/20 is 500,000.
ghost use Rattle.std.specs.Prelude.{◌<◌, ◌≤◌, length};

use rvc::texts;

// One, in ten-millionths.
const ONE: u64 = 10000000;

// So many steps are still shown, and with their unit fill a box. No reading has nearly as many.
const MOST_STEPS: u64 = 16777215;

// Puts a number that is a whole number of 1/128, as degrees, percent and hertz are, at the start of the lent bytes, and
// answers the place behind it.
pub fn put_float(out: &mut [u8], number: f32) -> usize
    ensures { result ≤ length out.new }
{
    let steps = number * 128.0;
    if -9223372036854775808.0 <= steps {
        if steps < 9223372036854775808.0 {
            return put_steps(out, std::num::truncating_f32_to_i64(steps), 78125);
        }
    }
    put_unknown(out)
}

// Puts a number of twentieths, as volts and amperes are, likewise.
pub fn put_twentieths(out: &mut [u8], twentieths: i64) -> usize
    ensures { result ≤ length out.new }
{
    put_steps(out, twentieths, 500000)
}

// A number of steps, each so many ten-millionths.
fn put_steps(out: &mut [u8], steps: i64, size: u64) -> usize
    requires { size ≤ 500000 }
    ensures { result ≤ length out.new }
{
    let count = steps.unsigned_abs();
    if MOST_STEPS < count {
        return put_unknown(out);
    }
    put_number(out, steps < 0, count * size)
}

// What stands where a number would be too wide for its box.
fn put_unknown(out: &mut [u8]) -> usize
    ensures { result ≤ length out.new }
{
    texts::put(out, 0, b"?")
}

// A number of ten-millionths.
fn put_number(out: &mut [u8], negative: bool, magnitude: u64) -> usize
    ensures { result ≤ length out.new }
{
    let sign_end = put_sign(out, negative);
    let whole_end = texts::put_decimal(out, sign_end, b"", magnitude / ONE);
    put_fraction(out, whole_end, magnitude % ONE)
}

// The sign of a number below zero.
fn put_sign(out: &mut [u8], negative: bool) -> usize
    ensures { result ≤ length out.new }
{
    if negative {
        return texts::put(out, 0, b"-");
    }
    0
}

// The decimals of a fraction, with the point before them; none where it is 0.
fn put_fraction(out: &mut [u8], at: usize, fraction: u64) -> usize
    requires { (at ≤ length out.old) × (fraction < 10000000) }
    ensures { result ≤ length out.new }
{
    if fraction == 0 {
        return at;
    }
    let from = texts::put(out, at, b".");
    put_places(out, from, fraction)
}

// The decimals: seven at most, and none once nothing is left.
fn put_places(out: &mut [u8], at: usize, fraction: u64) -> usize
    requires { (at ≤ length out.old) × (fraction < 10000000) }
    ensures { result ≤ length out.new }
{
    let mut end = at;
    let mut rest = fraction;
    for _ in 0..7 {
        if rest == 0 {
            break;
        }
        end = texts::put_decimal(out, end, b"", rest * 10 / ONE);
        rest = rest * 10 % ONE;
    }
    end
}
