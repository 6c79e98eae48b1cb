// Rows of a table of packed rows: a row is one number, in hexadecimal digits DGN (5), first bit (2), width (2), unit
// (1), mark (1).
ghost use Rattle.std.specs.Prelude.{◌≡◌, ◌<◌, length};
ghost use Rattle.std.specs.List.{find};
ghost use Rattle.catalogue.specs.Table.{nth, lies_in_frame};
ghost use Rattle.catalogue.specs.Packed.{unit_of, unpacked, table_rows, lying, table_row, table_row_with, halved};
ghost use Rattle.catalogue.specs.Packed.{table_span};
ghost use Rattle.catalogue.specs.Private.{begins};
ghost use Rattle.catalogue.specs.Promises.{told_looked};

use crate::{Looked, NotFound, Row, Span, Unit, fields};

// Where the digits stand, and how many values each part has.
const DGN_FROM: u64 = 0x1000000;

const DGNS: u64 = 0x100000;

const FIRST_FROM: u64 = 0x10000;

const WIDTH_FROM: u64 = 0x100;

const BYTES: u64 = 0x100;

const UNIT_FROM: u64 = 0x10;

const DIGITS: u64 = 0x10;

const PLAIN: u64 = 1;

const TWO_STATE: u64 = 2;

#[tactic(auto, unfolding(crate::specs::Packed::unit_of))]
fn unit_of(digit: u64) -> Unit
    ensures { result ≡ unit_of digit }
{
    match digit {
        1 => Unit::Percent,
        2 => Unit::Celsius,
        3 => Unit::Volt,
        4 => Unit::Ampere,
        5 => Unit::Hertz,
        _ => Unit::Other,
    }
}

fn unpack(number: u64) -> Row
    ensures { result ≡ unpacked number }
{
    Row {
        dgn: (number / DGN_FROM % DGNS) as u32,
        first: (number / FIRST_FROM % BYTES) as u8,
        width: (number / WIDTH_FROM % BYTES) as u8,
        unit: unit_of(number / UNIT_FROM % DIGITS),
        plain: number % DIGITS == PLAIN,
        two_state: number % DIGITS == TWO_STATE,
    }
}

// Whether a row lies in a frame.
#[tactic(auto, unfolding(crate::specs::Table::lies_in_frame))]
pub fn lies_in_frame(row: Row) -> bool
    ensures { result ≡ lies_in_frame row }
{
    1 <= row.width
        && row.width <= fields::WIDEST
        && u32::from(row.first) + u32::from(row.width) <= u32::from(fields::FRAME_BITS)
}

// A row, if it lies in a frame.
#[tactic(auto, unfolding(crate::specs::Packed::lying))]
fn checked(row: Row) -> Looked
    ensures { told_looked result ≡ lying row }
{
    if lies_in_frame(row) {
        Ok(row)
    } else {
        Err(NotFound::NoSuchRow)
    }
}

// The row with this number, if it lies in a frame.
pub fn row_in(table: &[u64], n: usize) -> Looked
    ensures { told_looked result ≡ table_row table.now n }
{
    match table.get(n) {
        Some(packed) => checked(unpack(*packed)),
        None => Err(NotFound::NoSuchRow),
    }
}

fn dgn_at(table: &[u64], n: usize) -> u64
    requires { n < length table.now }
    ensures { result ≡ (nth (table_rows table.now) n).dgn }
{
    table[n] / DGN_FROM % DGNS
}

// How many rows have a DGN below the key: halving. `partition_point` of a slice says nothing of a table that is out of
// order, and `rows_in` promises what this halving finds of any table (`RowsIn`).
fn lower(table: &[u64], key: u64) -> usize
    ensures { result ≡ halved (table_rows table.now) key }
{
    let mut low = 0usize;
    let mut high = table.len();
    while low < high {
        let middle = low + (high - low) / 2;
        if dgn_at(table, middle) < key {
            low = middle + 1;
        } else {
            high = middle;
        }
    }
    low
}

// The rows of a DGN.
pub fn span_in(table: &[u64], dgn: u32) -> Span
    ensures { result ≡ table_span table.now dgn }
{
    let key = u64::from(dgn);
    let start = lower(table, key);
    let end = lower(table, key + 1);
    Span {
        start,
        count: end - start,
    }
}

// The first row with a DGN and a first bit, if it lies in a frame.
pub fn row_with(table: &[u64], dgn: u32, first: u8) -> Looked
    ensures { told_looked result ≡ table_row_with table.now dgn first }
{
    match first_with(table, dgn, first) {
        Some(row) => checked(row),
        None => Err(NotFound::NoSuchRow),
    }
}

// The first row with a DGN and a first bit.
fn first_with(table: &[u64], dgn: u32, first: u8) -> Option<Row>
    ensures { result ≡ find (begins dgn first) (table_rows table.now) }
{
    table
        .iter()
        .map(|packed| unpack(*packed))
        .find(|row| begins(*row, dgn, first))
}

// Whether a row has a DGN and a first bit.
fn begins(row: Row, dgn: u32, first: u8) -> bool
    ensures { result ≡ begins dgn first row }
{
    row.dgn == dgn && row.first == first
}
