// Classes: which codes of a row are no numbers.
ghost use Rattle.std.specs.Prelude.{◌≡◌, ◌≤◌};
ghost use Rattle.catalogue.specs.Classes.{greatest_code, has_three, class_at, is_error, class_in, below_greatest};

use crate::{Class, Row, fields};

// The least width at which all ones is no number.
const LEAST_CLASSED: u8 = 2;

// The width of a field of two states, and the code that is neither: 10b.
const TWO_STATES: u8 = 2;

const ERROR_CODE: u64 = 2;

#[tactic(auto, unfolding(crate::specs::Classes::class_in))]
pub fn class_in(row: Row, code: u64) -> Class
    ensures { result ≡ class_in row code }
{
    if row.plain {
        Class::Number
    } else if is_error(row, code) {
        Class::OutOfRange
    } else {
        class_at(row.width, code)
    }
}

// Whether a code is 10b in a row of two states.
fn is_error(row: Row, code: u64) -> bool
    ensures { result ≡ is_error row code }
{
    row.two_state && row.width == TWO_STATES && code == ERROR_CODE
}

// How far below the greatest code a class stands.
pub fn below_greatest(class: Class) -> u64
    ensures { result ≡ below_greatest class }
{
    match class {
        Class::NoData => 0,
        Class::OutOfRange => 1,
        Class::Reserved => 2,
        Class::Number => 3,
    }
}

// The class by the width alone, counted down from the greatest code: that one is no-data, one less is out-of-range, two
// less is reserved, where the width has them. At a width above 64 no code is the greatest.
fn class_at(width: u8, code: u64) -> Class
    ensures { result ≡ class_at width code }
{
    if width < LEAST_CLASSED || fields::FRAME_BITS < width {
        return Class::Number;
    }
    let greatest = greatest_code(width);
    if code == greatest {
        return Class::NoData;
    }
    if !has_three(width) {
        return Class::Number;
    }
    if code == greatest - 1 {
        return Class::OutOfRange;
    }
    if code == greatest - 2 {
        return Class::Reserved;
    }
    Class::Number
}

// All ones.
fn greatest_code(width: u8) -> u64
    requires { (1 ≤ width) × (width ≤ 64) }
    ensures { result ≡ greatest_code width }
{
    u64::MAX >> (fields::FRAME_BITS - width)
}

// Whether the width has all three classes.
fn has_three(width: u8) -> bool
    ensures { result ≡ has_three width }
{
    width == fields::UINT8 || width == fields::UINT16 || width == fields::UINT32
}
