// The field catalogue of RV-C (RULES 6 and 7): its rows, a field's class and code, its scaled value, and a field
// written.
#![tactic(auto)]

mod classes;
pub mod dgns;
mod fields;
mod instance_dgns;
pub mod names;
mod packed;
mod scale;
mod table;

ghost use Rattle.std.specs.Prelude.{◌≡◌};
ghost use Rattle.words.specs.Words.{◌=?◌};
ghost use Rattle.words.specs.Lists.{any};
ghost use Rattle.catalogue.specs.Instances.{instance_dgns};
ghost use Rattle.catalogue.specs.Table.{row_at};
ghost use Rattle.catalogue.specs.Private.{is_of, not_written};
ghost use Rattle.catalogue.specs.Promises.{Rows, RowAt, RowsOf, RowOf, PackedRows, RowIn, RowsIn, RowOfIn};
ghost use Rattle.catalogue.specs.Promises.{Classify, ReadField, ReadScaled, WriteField, ReadRow, ReadRowScaled};
ghost use Rattle.catalogue.specs.Promises.{WriteRow, HasInstance, StepsInOne, Opens, number_of_not_found};
ghost use Rattle.catalogue.specs.Promises.{number_of_not_read, number_of_not_written};
ghost use Rattle.catalogue.specs.declared.NotRead.{NotRead};

use frame::BadFrame;
use words::Refusal;

// What a row's numbers count; `Other` is any unit that has no scale here, or none.
#[derive(Clone, Copy, Default)]
pub enum Unit {
    #[default]
    Other,
    Percent,
    Celsius,
    Volt,
    Ampere,
    Hertz,
}

// A field of a DGN (RULES 6.1): its bits are counted over the bytes, 8 to each. A plain row is always a number; in a
// two-state row, which has two bits, 10b is out-of-range (RULES 7.13). The default row is all zeros, and lies in no
// frame. (The two marks are no enum, since the laws of classes speak of each.)
#[derive(Clone, Copy, Default)]
pub struct Row {
    pub dgn: u32,
    pub first: u8,
    pub width: u8,
    pub unit: Unit,
    pub plain: bool,
    pub two_state: bool,
}

// Why no row is found: refusal 11.
#[derive(Clone, Copy)]
pub enum NotFound {
    NoSuchRow,
}

// A row, or why not.
pub type Looked = Result<Row, NotFound>;

// The rows of a DGN: `count` of them, from number `start`.
#[derive(Clone, Copy)]
pub struct Span {
    pub start: usize,
    pub count: usize,
}

#[derive(Clone, Copy, PartialEq)]
pub enum Class {
    Number,
    NoData,
    OutOfRange,
    Reserved,
}

// What stands in a field.
#[derive(Clone, Copy)]
pub struct Field {
    pub class: Class,
    pub code: u64,
}

// Why a field is not read: refusals 3 to 6, or 11: no such row, or a frame of another DGN.
#[derive(Clone, Copy)]
pub enum NotRead {
    BadFrame(BadFrame),
    NoSuchRow,
}

// A field read, or why not.
pub type Reading = Result<Field, NotRead>;

// A number of the row's steps, or a class that is none.
#[derive(Clone, Copy)]
pub enum Value {
    Scaled(i64),
    NoData,
    OutOfRange,
    Reserved,
}

// A field's value read, or why not.
pub type ScaledReading = Result<Value, NotRead>;

// Why a field is not written: refusals 3 to 6, 11, 12.
#[derive(Clone, Copy)]
pub enum NotWritten {
    BadFrame(BadFrame),
    NoSuchRow,
    NoCode,
}

// A field written, or why not.
pub type Writing = Result<(), NotWritten>;

impl Refusal for NotFound {
    ghost number = { number_of_not_found };

    fn refusal(self) -> u8 {
        match self {
            NotFound::NoSuchRow => 11,
        }
    }
}

impl Refusal for NotRead {
    ghost number = { number_of_not_read };

    fn refusal(self) -> u8 {
        match self {
            NotRead::BadFrame(why) => why.refusal(),
            NotRead::NoSuchRow => 11,
        }
    }
}

impl Refusal for NotWritten {
    ghost number = { number_of_not_written };

    fn refusal(self) -> u8 {
        match self {
            NotWritten::BadFrame(why) => why.refusal(),
            NotWritten::NoSuchRow => 11,
            NotWritten::NoCode => 12,
        }
    }
}

impl From<BadFrame> for NotRead {
    ghost from_gives = { λ why r. r ≡ NotRead.BadFrame why };

    fn from(why: BadFrame) -> NotRead {
        NotRead::BadFrame(why)
    }
}

// What is not read is not written, for the same reason.
impl From<NotRead> for NotWritten {
    ghost from_gives = { λ why r. r ≡ not_written why };

    fn from(why: NotRead) -> NotWritten {
        match why {
            NotRead::BadFrame(why) => NotWritten::BadFrame(why),
            NotRead::NoSuchRow => NotWritten::NoSuchRow,
        }
    }
}

// How many rows the catalogue has: `row_at` gives those with a lower number.
pub fn rows() -> usize
    ensures { Rows result }
{
    packed::COUNT
}

// The row with this number, from 0; refusal 11 where the catalogue has none. Hand the row to `read_row` or `write_row`.
pub fn row_at(n: usize) -> Looked
    ensures { RowAt n result }
{
    let table = packed_rows();
    row_in(&table, n)
}

// The rows of a DGN, as it stands in a frame: the number of the first, and how many follow it; 0 rows where it has
// none.
pub fn rows_of(dgn: u32) -> Span
    ensures { RowsOf dgn result }
{
    let table = packed_rows();
    rows_in(&table, dgn)
}

// The row of a DGN, as it stands in a frame, that begins at this bit; refusal 11 where there is none.
pub fn row_of(dgn: u32, first: u8) -> Looked
    ensures { RowOf dgn first result }
{
    let table = packed_rows();
    row_of_in(&table, dgn, first)
}

// The catalogue as a table of packed rows, for a program that holds it and lends it: each call above makes it anew.
pub fn packed_rows() -> [u64; packed::COUNT]
    ensures { PackedRows result }
{
    packed::ROWS
}

// The row of a table with this number, from 0; refusal 11 where the table has none, or one that lies in no frame.
pub fn row_in(table: &[u64], n: usize) -> Looked
    ensures { RowIn table.now n result }
{
    table::row_in(table, n)
}

// The rows of a DGN in a table, as it stands in a frame: the number of the first, and how many follow it. The table has
// to be in order of its DGNs, as `packed_rows` is.
pub fn rows_in(table: &[u64], dgn: u32) -> Span
    ensures { RowsIn table.now dgn result }
{
    table::span_in(table, frame::catalogue_form(dgn))
}

// The row of a DGN in a table, as it stands in a frame, that begins at this bit; refusal 11 where there is none, or one
// that lies in no frame.
pub fn row_of_in(table: &[u64], dgn: u32, first: u8) -> Looked
    ensures { RowOfIn table.now dgn first result }
{
    table::row_with(table, frame::catalogue_form(dgn), first)
}

// Whether the standard puts an instance in byte 0 of a DGN of the catalogue, as it stands in a frame. Of a DGN that the
// catalogue does not have nothing is said: false.
pub fn has_instance(dgn: u32) -> bool
    ensures { HasInstance dgn result }
{
    is_marked(frame::catalogue_form(dgn))
}

// How many steps of a scaled value make one of a unit, at a width: 2 halves of a percent, 32 of a °C, 20 of a volt or
// an ampere, 128 of a hertz. 0 where the width has no scale, and a scaled value is the code: the promise `StepsInOne`
// has this 0, so it is no `Option`.
pub fn steps_in_one(unit: Unit, width: u8) -> u8
    ensures { StepsInOne unit width result }
{
    scale::steps_in_one(unit, width)
}

// A row's field, class and code, in a frame whose eight bytes are this number. It is not asked whether the row is one
// of that frame's DGN: `read_row` asks.
pub fn classify(row: Row, number: u64) -> Field
    ensures { Classify row number result }
{
    let code = fields::cut(number, row.first, row.width);
    Field {
        class: classes::class_in(row, code),
        code,
    }
}

// Reads a row's field, class and code, from a frame. Refusals 3 to 6 of the frame; then 11 where the row is of another
// DGN, or lies in no frame.
pub fn read_row(row: Row, id: u32, bytes: &[u8]) -> Reading
    ensures { ReadRow row id bytes.now result }
{
    let number = open_row(row, id, bytes)?;
    Ok(classify(row, number))
}

// Reads a row's field from a frame as a scaled value: a whole number of the unit's steps, or the class where the code
// is no number. Refusals as of `read_row`.
pub fn read_row_scaled(row: Row, id: u32, bytes: &[u8]) -> ScaledReading
    ensures { ReadRowScaled row id bytes.now result }
{
    let field = read_row(row, id, bytes)?;
    Ok(scale::value_in(row, field))
}

// Writes a value into a row's field of a frame, and alters no other bit. Refusals 3 to 6 and 11 as of `read_row`, then
// 12 where the value has no code in that row; a refusal alters no bit. What is written reads back as the same value.
pub fn write_row(row: Row, id: u32, bytes: &mut [u8], value: Value) -> Writing
    ensures { WriteRow row id bytes.old value result bytes.new }
{
    let number = open_row(row, id, bytes)?;
    let code = scale::code_of(row, value).ok_or(NotWritten::NoCode)?;
    fields::store(bytes, fields::put(number, row.first, row.width, code));
    Ok(())
}

// Reads the field of the catalogue's row with this number. Refusals 3 to 6; then 11 where there is no such row, or it
// is of another DGN.
pub fn read(n: usize, id: u32, bytes: &[u8]) -> Reading
    ensures { ReadField n id bytes.now result }
{
    read_row(nth(n), id, bytes)
}

// Reads the field of the catalogue's row with this number as a scaled value. Refusals as of `read`.
pub fn read_scaled(n: usize, id: u32, bytes: &[u8]) -> ScaledReading
    ensures { ReadScaled n id bytes.now result }
{
    read_row_scaled(nth(n), id, bytes)
}

// Writes a value into the field of the catalogue's row with this number, and alters no other bit. Refusals as of
// `read`, then 12 where the value has no code; a refusal alters no bit.
pub fn write(n: usize, id: u32, bytes: &mut [u8], value: Value) -> Writing
    ensures { WriteField n id bytes.old value result bytes.new }
{
    write_row(nth(n), id, bytes, value)
}

// Whether a DGN, with 00h for a destination, is marked as one with an instance in byte 0.
fn is_marked(dgn: u32) -> bool
    ensures { result ≡ any (◌=?◌ dgn) instance_dgns }
{
    is_among(&instance_dgns::DGNS, dgn)
}

fn is_among(list: &[u32], dgn: u32) -> bool
    ensures { result ≡ any (◌=?◌ dgn) list.now }
{
    list.iter().any(|marked| dgn == *marked)
}

// The row with this number; past the end one that lies in no frame.
fn nth(n: usize) -> Row
    ensures { result ≡ row_at n }
{
    row_at(n).unwrap_or_default()
}

// The eight bytes of a frame as a number, where a row lies in it and the frame is of the row's DGN; or why not.
fn open_row(row: Row, id: u32, bytes: &[u8]) -> Result<u64, NotRead>
    ensures { Opens row id bytes.now result }
{
    let checked = frame::check(id, bytes);
    let parts = checked.verdict?;
    if !is_of(row, parts.dgn) {
        return Err(NotRead::NoSuchRow);
    }
    Ok(frame::number_of(checked.bytes))
}

// Whether a row lies in a frame, and is of a DGN as it stands in a frame.
fn is_of(row: Row, dgn: u32) -> bool
    ensures { result ≡ is_of row dgn }
{
    table::lies_in_frame(row) && row.dgn == frame::catalogue_form(dgn)
}
