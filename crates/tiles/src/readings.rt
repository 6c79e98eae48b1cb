// A value that was read, as a tile shows it. A scaled value is a number of steps; a power of two of them makes one
// degree, percent or hertz, so the division is exact.
ghost use Rattle.std.specs.Prelude.{◌≡◌, ◌^◌, ◌<◌};
ghost use Rattle.std.specs.Int.Signed.{mag};
ghost use Rattle.tiles.specs.Exact.{nearest};
ghost use Rattle.tiles.specs.Tile.{shown_number, shown};
ghost use Rattle.tiles.specs.Private.{IsSmall};

use crate::Reading;
use rvc::fields::{Unit, Value};

// 1/2 of a percent.
fn halves(v: i64) -> f32
    requires { mag v < 2 ^ 16 }
    ensures { result ≡ nearest v 2 }
{
    v as f32 / 2.0
}

// 1/32 of a degree.
fn thirty_seconds(v: i64) -> f32
    requires { mag v < 2 ^ 16 }
    ensures { result ≡ nearest v 32 }
{
    v as f32 / 32.0
}

// 1/128 of a hertz.
fn hundred_twenty_eighths(v: i64) -> f32
    requires { mag v < 2 ^ 16 }
    ensures { result ≡ nearest v 128 }
{
    v as f32 / 128.0
}

// So many steps of a unit. A tile names no row of another unit than these five.
fn shown_number(unit: Unit, v: i64) -> Reading
    requires { mag v < 2 ^ 16 }
    ensures { result ≡ shown_number unit v }
{
    match unit {
        Unit::Celsius => Reading::Degrees(thirty_seconds(v)),
        Unit::Percent => Reading::Percent(halves(v)),
        Unit::Hertz => Reading::Hertz(hundred_twenty_eighths(v)),
        Unit::Volt => Reading::Volts(v),
        Unit::Ampere => Reading::Amperes(v),
        Unit::Other => Reading::NoData,
    }
}

// A value of a row with this unit.
pub fn shown(unit: Unit, value: Value) -> Reading
    requires { IsSmall value }
    ensures { result ≡ shown unit value }
{
    match value {
        Value::Scaled(v) => shown_number(unit, v),
        Value::NoData => Reading::NoData,
        Value::OutOfRange => Reading::OutOfRange,
        Value::Reserved => Reading::Reserved,
    }
}
