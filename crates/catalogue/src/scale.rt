// Scaled values: a code's value, and the code of a value or of a class.
ghost use Rattle.std.specs.Prelude.{◌≡◌, ◌^◌, ◌<◌};
ghost use Rattle.std.proofs.Math.IntN.{sub_ℕ};
ghost use Rattle.catalogue.specs.Field.{InFrame};
ghost use Rattle.catalogue.specs.Scale.{steps_of, scaled_of, value_of};
ghost use Rattle.catalogue.specs.Scale.{steps_in_one};
ghost use Rattle.catalogue.specs.Private.{told_coded};
ghost use Rattle.catalogue.specs.Codes.{code_where, stepped_code, scaled_code, class_code, code_of};

use crate::{Class, Field, Row, Unit, Value, classes, fields};

// In 1/32 °C: a step of 1 °C at 8 bits, and how far the least value stands below 0 at 8 and 16 bits (000, 5.3).
const CELSIUS_8_STEP: u64 = 32;

const CELSIUS_8_OFFSET: u64 = 1280;

const CELSIUS_16_OFFSET: u64 = 8736;

// In 1/20 A: how far the least value stands below 0 at 16 bits.
const AMPERE_OFFSET: u64 = 32000;

// A scaled value is `step` times the code, less `offset`.
#[derive(Clone, Copy)]
struct Steps {
    step: u64,
    offset: u64,
}

// A field's value.
#[tactic(auto, unfolding(crate::specs::Scale::value_of))]
pub fn value_in(row: Row, field: Field) -> Value
    requires { field.code < 2 ^ 32 }
    ensures { result ≡ value_of row field }
{
    match field.class {
        Class::Number => Value::Scaled(scaled(row.unit, row.width, field.code)),
        Class::NoData => Value::NoData,
        Class::OutOfRange => Value::OutOfRange,
        Class::Reserved => Value::Reserved,
    }
}

// The code that is written for a value, or none.
#[tactic(auto, unfolding(crate::specs::Codes::code_of))]
pub fn code_of(row: Row, value: Value) -> Option<u64>
    requires { InFrame row.first row.width }
    ensures { told_coded result ≡ code_of row value }
{
    match value {
        Value::Scaled(number) => scaled_code(row, number),
        Value::NoData => class_code(row, Class::NoData),
        Value::OutOfRange => class_code(row, Class::OutOfRange),
        Value::Reserved => class_code(row, Class::Reserved),
    }
}

// A class's code, where the row has the class.
fn class_code(row: Row, class: Class) -> Option<u64>
    requires { InFrame row.first row.width }
    ensures { told_coded result ≡ class_code row class }
{
    let greatest = fields::power(row.width) - 1;
    let code = greatest.checked_sub(classes::below_greatest(class))?;
    code_where(row, class, code)
}

// A scaled value's code, where it is a number's.
fn scaled_code(row: Row, value: i64) -> Option<u64>
    requires { InFrame row.first row.width }
    ensures { told_coded result ≡ scaled_code row value }
{
    let steps = steps_of(row.unit, row.width);
    let lifted = steps.offset.checked_add_signed(value)?;
    stepped_code(row, steps.step, lifted)
}

// The code of so many steps from 0 up, where they are whole steps of the code.
fn stepped_code(row: Row, step: u64, lifted: u64) -> Option<u64>
    requires in_frame { InFrame row.first row.width }
    requires step_nonzero { 0 < step }
    ensures { told_coded result ≡ stepped_code row step lifted }
{
    let code = lifted / step;
    if lifted % step != 0 || fields::power(row.width) <= code {
        return None;
    }
    code_where(row, Class::Number, code)
}

// A code, where the row gives it this class.
fn code_where(row: Row, class: Class, code: u64) -> Option<u64>
    ensures { told_coded result ≡ code_where row class code }
{
    if classes::class_in(row, code) == class {
        Some(code)
    } else {
        None
    }
}

fn scaled(unit: Unit, width: u8, code: u64) -> i64
    requires { code < 2 ^ 32 }
    ensures { result ≡ scaled_of unit width code }
{
    let steps = steps_of(unit, width);
    minus(steps.step * code, steps.offset)
}

#[tactic(auto, unfolding(crate::specs::Scale::steps_of, crate::specs::Scale::celsius_steps, crate::specs::Scale::ampere_steps))]
fn steps_of(unit: Unit, width: u8) -> Steps
    ensures { result ≡ steps_of unit width }
{
    match (unit, width) {
        (Unit::Celsius, fields::UINT8) => Steps {
            step: CELSIUS_8_STEP,
            offset: CELSIUS_8_OFFSET,
        },
        (Unit::Celsius, fields::UINT16) => Steps {
            step: 1,
            offset: CELSIUS_16_OFFSET,
        },
        (Unit::Ampere, fields::UINT16) => Steps {
            step: 1,
            offset: AMPERE_OFFSET,
        },
        _ => Steps { step: 1, offset: 0 },
    }
}

fn minus(a: u64, b: u64) -> i64
    requires { (a < 2 ^ 62) × (b < 2 ^ 62) }
    ensures { result ≡ sub_ℕ a b }
{
    a as i64 - b as i64
}

// How many steps make one of a unit, at a width; 0 where it has no scale.
#[tactic(auto, unfolding(crate::specs::Scale::steps_in_one))]
pub fn steps_in_one(unit: Unit, width: u8) -> u8
    ensures { result ≡ steps_in_one unit width }
{
    match (unit, width) {
        (Unit::Percent, fields::UINT8) => 2,
        (Unit::Celsius, fields::UINT8 | fields::UINT16) => 32,
        (Unit::Volt, fields::UINT16) => 20,
        (Unit::Ampere, fields::UINT16) => 20,
        (Unit::Hertz, fields::UINT16) => 128,
        _ => 0,
    }
}
