// The service point number of a DM_RV, read and written by the rows of its three parts.
ghost use Rattle.std.specs.Prelude.{◌≡◌, ◌<◌, pos};
ghost use Rattle.catalogue.specs.declared.Value.TheVariants.{Scaled};
ghost use Rattle.faults.specs.ServicePoint.{service_points, joined, HasServicePoint};
ghost use Rattle.faults.specs.Promises.{WriteServicePoint};

use crate::names;
use catalogue::{NotWritten, Value, Writing};

// How many numbers there are.
const NUMBERS: u32 = 0x80000;

// How many values the lowest part has, the middle one, and both together.
const LOW_VALUES: u32 = 8;

const MIDDLE_VALUES: u32 = 256;

const LOWER_VALUES: u32 = 2048;

// The number that three parts spell.
pub fn join(high: u64, middle: u64, low: u64) -> u32
    requires { (high < 256) × (middle < 256) × (low < 8) }
    ensures { result ≡ joined high middle low }
{
    high as u32 * LOWER_VALUES + middle as u32 * LOW_VALUES + low as u32
}

// Writes a number into a DM_RV, if it has 19 bits.
pub fn write(id: u32, bytes: &mut [u8], number: u32) -> Writing
    requires { HasServicePoint id bytes.old }
    ensures { WriteServicePoint id bytes.old number result bytes.new }
{
    if NUMBERS <= number {
        return Err(NotWritten::NoCode);
    }
    write_parts(id, bytes, number)
}

// Writes the three parts of a number of 19 bits into a DM_RV: none of them is refused there.
fn write_parts(id: u32, bytes: &mut [u8], number: u32) -> Writing
    requires has_service_point { HasServicePoint id bytes.old }
    requires number_lt_service_points { number < service_points }
    ensures { WriteServicePoint id bytes.old number result bytes.new }
{
    crate::write(
        names::SERVICE_POINT_HIGH,
        id,
        bytes,
        value_of(number / LOWER_VALUES),
    )?;
    crate::write(
        names::SERVICE_POINT_MIDDLE,
        id,
        bytes,
        value_of(number / LOW_VALUES % MIDDLE_VALUES),
    )?;
    crate::write(
        names::SERVICE_POINT_LOW,
        id,
        bytes,
        value_of(number % LOW_VALUES),
    )
}

// A part's code as the value to write.
fn value_of(code: u32) -> Value
    ensures { result ≡ Scaled (pos code) }
{
    Value::Scaled(i64::from(code))
}
