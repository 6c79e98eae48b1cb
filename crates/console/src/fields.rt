// The words of crate `catalogue`: one row, and a lent table of packed rows.
use crate::notes::{bounded, field, field_as, get, get_as, put, put_all};
use crate::{claims, frames, notes, say};
use catalogue::{
    Class, Field, Looked, NotRead, NotWritten, Reading, Row, ScaledReading, Span, Unit, Value,
    Writing,
};
use streams::Streams;
use words::Refusal;

pub fn call(
    n: usize,
    notes: &mut [u64],
    bytes: &mut [u8],
    packed: &mut [u64],
    streams: &mut Streams,
) {
    match n {
        0 => say::number(b"#\n", catalogue::rows() as u64, streams),
        1 => row_at(notes, streams),
        2 => row_of(notes, streams),
        3 => span(catalogue::rows_of(get_as(notes, notes::FIRST)), streams),
        4 => packed_rows(notes, packed, streams),
        5..=7 => look_in(n, notes, packed, streams),
        8 => read(notes, bytes, streams),
        9 => read_scaled(notes, bytes, streams),
        10 => classify(notes, streams),
        11 => read_row(notes, bytes, streams),
        12 => read_row_scaled(notes, bytes, streams),
        13 => write(notes, bytes, streams),
        14 => write_row(notes, bytes, streams),
        15 => claims::truth(
            catalogue::has_instance(get_as(notes, notes::FIRST)),
            streams,
        ),
        16 => steps_in_one(notes, streams),
        _ => {}
    }
}

fn steps_in_one(notes: &[u64], streams: &mut Streams) {
    let unit = unit_of(get(notes, notes::FIRST));
    let steps = catalogue::steps_in_one(unit, get_as(notes, notes::SECOND));
    say::number(b"#\n", u64::from(steps), streams);
}

fn row_at(notes: &mut [u64], streams: &mut Streams) {
    let answer = catalogue::row_at(get(notes, notes::FIRST) as usize);
    looked(notes, answer, streams);
}

fn row_of(notes: &mut [u64], streams: &mut Streams) {
    let dgn: u32 = get_as(notes, notes::FIRST);
    let answer = catalogue::row_of(dgn, get_as(notes, notes::SECOND));
    looked(notes, answer, streams);
}

// Rows of the lent table.
fn look_in(n: usize, notes: &mut [u64], packed: &[u64], streams: &mut Streams) {
    let count = bounded(get(notes, notes::PACKED) as usize, packed);
    let lent = &packed[..count];
    match n {
        5 => row_in(notes, lent, streams),
        6 => row_of_in(notes, lent, streams),
        _ => span(
            catalogue::rows_in(lent, get_as(notes, notes::FIRST)),
            streams,
        ),
    }
}

// The catalogue becomes the lent table.
fn packed_rows(notes: &mut [u64], packed: &mut [u64], streams: &mut Streams) {
    let rows = catalogue::packed_rows();
    lend(notes, packed, &rows, streams);
}

// Packed rows become the lent table.
pub fn lend(notes: &mut [u64], packed: &mut [u64], rows: &[u64], streams: &mut Streams) {
    put_all(packed, 0, rows);
    put(notes, notes::PACKED, rows.len() as u64);
    say::form(b"# packed rows are lent\n", notes, notes::PACKED, streams);
}

fn row_in(notes: &mut [u64], packed: &[u64], streams: &mut Streams) {
    let answer = catalogue::row_in(packed, get(notes, notes::FIRST) as usize);
    looked(notes, answer, streams);
}

fn row_of_in(notes: &mut [u64], packed: &[u64], streams: &mut Streams) {
    let dgn: u32 = get_as(notes, notes::FIRST);
    let answer = catalogue::row_of_in(packed, dgn, get_as(notes, notes::SECOND));
    looked(notes, answer, streams);
}

// A row that was found becomes the console's row.
pub fn looked(notes: &mut [u64], answer: Looked, streams: &mut Streams) {
    tell_looked(notes, answer, streams);
    say::end(notes, notes::CATALOGUE_LOOKED, answer.refusal(), streams);
    if answer.is_ok() {
        show(notes, streams);
    }
}

fn tell_looked(notes: &mut [u64], answer: Looked, streams: &mut Streams) {
    match answer {
        Ok(found) => is(notes, found, streams),
        Err(_) => say::text(b"NoSuchRow", streams),
    }
}

fn is(notes: &mut [u64], found: Row, streams: &mut Streams) {
    say::text(b"Is", streams);
    keep(notes, found);
}

fn span(span: Span, streams: &mut Streams) {
    say::form(
        b"start=# count=#\n",
        &[span.start as u64, span.count as u64],
        0,
        streams,
    );
}

fn classify(notes: &[u64], streams: &mut Streams) {
    field_read(
        catalogue::classify(row(notes), get(notes, notes::FIRST)),
        streams,
    );
    say::text(b"\n", streams);
}

fn read(notes: &mut [u64], bytes: &[u8], streams: &mut Streams) {
    let row = get(notes, notes::FIRST) as usize;
    let answer = catalogue::read(row, get_as(notes, notes::SECOND), bytes);
    reading(notes, answer, streams);
}

fn read_row(notes: &mut [u64], bytes: &[u8], streams: &mut Streams) {
    let answer = catalogue::read_row(row(notes), get_as(notes, notes::FIRST), bytes);
    reading(notes, answer, streams);
}

pub fn reading(notes: &mut [u64], answer: Reading, streams: &mut Streams) {
    tell_reading(notes, answer, streams);
    say::end(notes, notes::CATALOGUE_READING, answer.refusal(), streams);
}

fn tell_reading(notes: &mut [u64], answer: Reading, streams: &mut Streams) {
    match answer {
        Ok(read) => field_read(read, streams),
        Err(why) => not_read(notes, why, streams),
    }
}

// Why a field is not read.
fn not_read(notes: &mut [u64], why: NotRead, streams: &mut Streams) {
    match why {
        NotRead::BadFrame(why) => frames::bad_frame(notes, why, streams),
        NotRead::NoSuchRow => say::text(b"NoSuchRow", streams),
    }
}

fn field_read(field: Field, streams: &mut Streams) {
    class(field.class, streams);
    say::number(b" code=#", field.code, streams);
}

// The name of a class.
pub fn class(class: Class, streams: &mut Streams) {
    match class {
        Class::NoData => say::text(b"NoData", streams),
        Class::OutOfRange => say::text(b"OutOfRange", streams),
        Class::Reserved => say::text(b"Reserved", streams),
        Class::Number => say::text(b"Number", streams),
    }
}

fn read_scaled(notes: &mut [u64], bytes: &[u8], streams: &mut Streams) {
    let row = get(notes, notes::FIRST) as usize;
    let answer = catalogue::read_scaled(row, get_as(notes, notes::SECOND), bytes);
    scaled(notes, answer, streams);
}

fn read_row_scaled(notes: &mut [u64], bytes: &[u8], streams: &mut Streams) {
    let answer = catalogue::read_row_scaled(row(notes), get_as(notes, notes::FIRST), bytes);
    scaled(notes, answer, streams);
}

fn scaled(notes: &mut [u64], answer: ScaledReading, streams: &mut Streams) {
    tell_scaled(notes, answer, streams);
    say::end(
        notes,
        notes::CATALOGUE_SCALED_READING,
        answer.refusal(),
        streams,
    );
}

fn tell_scaled(notes: &mut [u64], answer: ScaledReading, streams: &mut Streams) {
    match answer {
        Ok(read) => value(read, streams),
        Err(why) => not_read(notes, why, streams),
    }
}

fn value(value: Value, streams: &mut Streams) {
    match value {
        Value::Scaled(number) => {
            say::text(b"Scaled ", streams);
            say::signed(number, streams);
        }
        Value::NoData => say::text(b"NoData", streams),
        Value::OutOfRange => say::text(b"OutOfRange", streams),
        Value::Reserved => say::text(b"Reserved", streams),
    }
}

// The value that was typed; its number is noted at `slot`.
pub fn typed_value(notes: &[u64], slot: usize) -> Value {
    let number: i64 = get_as(notes, slot);
    match get(notes, notes::VALUE) {
        0 => Value::NoData,
        1 => Value::OutOfRange,
        2 => Value::Reserved,
        3 => Value::Scaled(number),
        // Below zero one less than the size is noted.
        _ => Value::Scaled((-1i64).wrapping_sub(number)),
    }
}

fn write(notes: &mut [u64], bytes: &mut [u8], streams: &mut Streams) {
    let row = get(notes, notes::FIRST) as usize;
    let id: u32 = get_as(notes, notes::SECOND);
    let answer = catalogue::write(row, id, bytes, typed_value(notes, notes::FOURTH));
    written(notes, bytes, answer, streams);
}

fn write_row(notes: &mut [u64], bytes: &mut [u8], streams: &mut Streams) {
    let id: u32 = get_as(notes, notes::FIRST);
    let answer = catalogue::write_row(row(notes), id, bytes, typed_value(notes, notes::THIRD));
    written(notes, bytes, answer, streams);
}

// What writing answered, and the lent bytes after it.
pub fn written(notes: &mut [u64], bytes: &[u8], answer: Writing, streams: &mut Streams) {
    tell_writing(notes, answer, streams);
    say::bytes(b" bytes=", bytes, streams);
    say::end(notes, notes::CATALOGUE_WRITING, answer.refusal(), streams);
}

fn tell_writing(notes: &mut [u64], answer: Writing, streams: &mut Streams) {
    match answer {
        Ok(()) => say::text(b"Written", streams),
        Err(NotWritten::BadFrame(why)) => frames::bad_frame(notes, why, streams),
        Err(NotWritten::NoSuchRow) => say::text(b"NoSuchRow", streams),
        Err(NotWritten::NoCode) => say::text(b"NoCode", streams),
    }
}

// The row of the notes. At first it has no bits: no call reads by it.
fn row(notes: &[u64]) -> Row {
    Row {
        dgn: get_as(notes, notes::ROW),
        first: field_as(notes, notes::ROW, 1),
        width: field_as(notes, notes::ROW, 2),
        unit: unit_of(field(notes, notes::ROW, 3)),
        plain: field(notes, notes::ROW, 4) != 0,
        two_state: field(notes, notes::ROW, 5) != 0,
    }
}

// A unit is typed and noted as a number, as every state is. Unit is a type of the library and u64 one of std, so the
// console can implement neither From nor TryFrom between them.
fn unit_of(number: u64) -> Unit {
    match number {
        1 => Unit::Percent,
        2 => Unit::Celsius,
        3 => Unit::Volt,
        4 => Unit::Ampere,
        5 => Unit::Hertz,
        _ => Unit::Other,
    }
}

// Notes the row.
fn keep(notes: &mut [u64], row: Row) {
    let fields = [
        u64::from(row.dgn),
        u64::from(row.first),
        u64::from(row.width),
        number_of_unit(row.unit),
        u64::from(row.plain),
        u64::from(row.two_state),
    ];
    put_all(notes, notes::ROW, &fields);
}

fn number_of_unit(unit: Unit) -> u64 {
    match unit {
        Unit::Other => 0,
        Unit::Percent => 1,
        Unit::Celsius => 2,
        Unit::Volt => 3,
        Unit::Ampere => 4,
        Unit::Hertz => 5,
    }
}

pub fn show(notes: &[u64], streams: &mut Streams) {
    say::form(
        b"  catalogue.row.dgn=~ first=# width=# unit=",
        notes,
        notes::ROW,
        streams,
    );
    say::word(
        b"Other Percent Celsius Volt Ampere Hertz",
        field(notes, notes::ROW, 3) as usize,
        streams,
    );
    say::form(b" plain=? two_state=?\n", notes, notes::ROW + 4, streams);
}
