// The words of crate `faults`: the fields of a DM_RV, and one sender of active faults. They use the console's claim,
// host, and lent table of packed rows.
use crate::claims::claim;
use crate::commands::host;
use crate::notes::{field_as, get, get_as, put, put_all, record};
use crate::{commands, fields, frames, notes, say, state};
use catalogue::NotRead;
use faults::{
    Fault, NotAdded, NotCleared, NotHeard, NotStepped, PLACES, Replied, Requested, Requesting,
    Response, Sender, ServicePoint,
};
use frame::standard;
use streams::Streams;
use words::Refusal;

// The notes of a place: eight bytes, period, until_due, age.
pub const FIELDS: usize = 11;

pub fn call(
    n: usize,
    notes: &mut [u64],
    bytes: &mut [u8],
    packed: &mut [u64],
    streams: &mut Streams,
) {
    match n {
        0 => packed_rows(notes, packed, streams),
        1 => row_at(notes, streams),
        2 => read(notes, bytes, streams),
        3 => write(notes, bytes, streams),
        4 => read_service_point(notes, bytes, streams),
        5 => write_service_point(notes, bytes, streams),
        6 => start(notes, bytes, streams),
        7 => add(notes, bytes, streams),
        8 => clear(notes, streams),
        9 => step(notes, streams),
        10 => request(notes, bytes, streams),
        11 => reply(notes, bytes, streams),
        _ => {}
    }
}

// The rows of DM_RV become the lent table.
fn packed_rows(notes: &mut [u64], packed: &mut [u64], streams: &mut Streams) {
    let rows = faults::packed_rows();
    fields::lend(notes, packed, &rows, streams);
}

fn row_at(notes: &mut [u64], streams: &mut Streams) {
    let answer = faults::row_at(get(notes, notes::FIRST) as usize);
    fields::looked(notes, answer, streams);
}

fn read(notes: &mut [u64], bytes: &[u8], streams: &mut Streams) {
    let row = get(notes, notes::FIRST) as usize;
    let answer = faults::read(row, get_as(notes, notes::SECOND), bytes);
    fields::reading(notes, answer, streams);
}

fn write(notes: &mut [u64], bytes: &mut [u8], streams: &mut Streams) {
    let row = get(notes, notes::FIRST) as usize;
    let id: u32 = get_as(notes, notes::SECOND);
    let value = fields::typed_value(notes, notes::FOURTH);
    let answer = faults::write(row, id, bytes, value);
    fields::written(notes, bytes, answer, streams);
}

fn read_service_point(notes: &mut [u64], bytes: &[u8], streams: &mut Streams) {
    let answer = faults::read_service_point(get_as(notes, notes::FIRST), bytes);
    tell_service_point(notes, answer, streams);
    say::end(
        notes,
        notes::FAULTS_SERVICE_POINT,
        answer.refusal(),
        streams,
    );
}

fn tell_service_point(notes: &mut [u64], answer: ServicePoint, streams: &mut Streams) {
    match answer {
        Ok(number) => say::number(b"Is #", u64::from(number), streams),
        Err(NotRead::BadFrame(why)) => frames::bad_frame(notes, why, streams),
        Err(NotRead::NoSuchRow) => say::text(b"NoSuchRow", streams),
    }
}

fn write_service_point(notes: &mut [u64], bytes: &mut [u8], streams: &mut Streams) {
    let id: u32 = get_as(notes, notes::FIRST);
    let answer = faults::write_service_point(id, bytes, get_as(notes, notes::THIRD));
    fields::written(notes, bytes, answer, streams);
}

fn start(notes: &mut [u64], bytes: &[u8], streams: &mut Streams) {
    keep(notes, Sender::start(frames::first_eight(bytes)));
    say::text(b"a sender of 32 empty places\n", streams);
    show(notes, streams);
}

// `faults::Sender::add BYTES PERIOD`
fn add(notes: &mut [u64], bytes: &[u8], streams: &mut Streams) {
    let period: u16 = get_as(notes, notes::SECOND);
    let added = sender(notes).add(frames::first_eight(bytes), period);
    keep(notes, added.sender);
    match added.answer {
        Ok(place) => say::number(b"Added #", place as u64, streams),
        Err(NotAdded::BrokenState) => say::text(b"BrokenState", streams),
        Err(NotAdded::NoPlace) => say::text(b"NoPlace", streams),
        Err(NotAdded::PeriodNotAllowed) => say::text(b"PeriodNotAllowed", streams),
    }
    end(notes, notes::FAULTS_ADDING, added.answer.refusal(), streams);
}

// The end of an answer, and the sender.
fn end(notes: &mut [u64], kind: usize, refusal: u8, streams: &mut Streams) {
    say::end(notes, kind, refusal, streams);
    show(notes, streams);
}

fn clear(notes: &mut [u64], streams: &mut Streams) {
    let cleared = sender(notes).clear(get(notes, notes::FIRST) as usize);
    keep(notes, cleared.sender);
    match cleared.answer {
        Ok(()) => say::text(b"Cleared", streams),
        Err(NotCleared::BrokenState) => say::text(b"BrokenState", streams),
        Err(NotCleared::NoSuchFault) => say::text(b"NoSuchFault", streams),
    }
    end(
        notes,
        notes::FAULTS_CLEARING,
        cleared.answer.refusal(),
        streams,
    );
}

fn step(notes: &mut [u64], streams: &mut Streams) {
    let stepped = sender(notes).step(claim(notes));
    keep(notes, stepped.sender);
    match stepped.answer {
        Ok(Some(place)) => say::number(b"Send #", place as u64, streams),
        Ok(None) => say::text(b"NothingDue", streams),
        Err(NotStepped::BrokenState) => say::text(b"BrokenState", streams),
        Err(NotStepped::ListMalformed) => say::text(b"ListMalformed", streams),
        Err(NotStepped::NoAddressHeld) => say::text(b"NoAddressHeld", streams),
    }
    say::frame(notes, stepped.id, stepped.bytes, streams);
    end(
        notes,
        notes::FAULTS_STEPPING,
        stepped.answer.refusal(),
        streams,
    );
}

fn request(notes: &mut [u64], bytes: &[u8], streams: &mut Streams) {
    let asked = sender(notes).request(claim(notes), get_as(notes, notes::FIRST), bytes);
    requested(notes, asked, streams);
    show(notes, streams);
}

// What the sender makes of a request.
fn requested(notes: &mut [u64], requested: Requested, streams: &mut Streams) {
    keep(notes, requested.sender);
    tell_requesting(notes, requested.answer, streams);
    say::frame(notes, requested.id, requested.bytes, streams);
    say::end(
        notes,
        notes::FAULTS_REQUESTING,
        requested.answer.refusal(),
        streams,
    );
}

fn tell_requesting(notes: &mut [u64], answer: Requesting, streams: &mut Streams) {
    match answer {
        Ok(Response::NothingToDo) => say::text(b"NothingToDo", streams),
        Ok(Response::Send) => say::text(b"Send", streams),
        Err(NotHeard::BrokenState) => say::text(b"BrokenState", streams),
        Err(NotHeard::BadFrame(why)) => frames::bad_frame(notes, why, streams),
        Err(NotHeard::ListMalformed) => say::text(b"ListMalformed", streams),
        Err(NotHeard::DgnTooLarge) => say::text(b"DgnTooLarge", streams),
        Err(NotHeard::NoAddressHeld) => say::text(b"NoAddressHeld", streams),
    }
}

// What the sender makes of a frame, and what the host makes of it.
fn reply(notes: &mut [u64], bytes: &[u8], streams: &mut Streams) {
    let id: u32 = get_as(notes, notes::FIRST);
    let replied = sender(notes).reply(host(notes), claim(notes), id, bytes);
    replied_so(notes, replied, streams);
    show(notes, streams);
}

fn replied_so(notes: &mut [u64], replied: Replied, streams: &mut Streams) {
    let ours = replied.faults;
    say::text(b"faults=", streams);
    requested(notes, ours, streams);
    say::text(b"host=", streams);
    commands::requested(notes, replied.host, streams);
    sent_first(notes, ours.id, ours.bytes);
}

// Where the sender gave a frame, `that` is its bytes, and not those that stand beside what the host says.
fn sent_first(notes: &mut [u64], id: u32, bytes: [u8; 8]) {
    if id != standard::NO_FRAME {
        put(notes, notes::THAT, frame::number_of(bytes));
    }
}

// The sender of the notes. At first its places are empty.
fn sender(notes: &[u64]) -> Sender {
    Sender {
        faults: places(notes),
        no_fault: eight(notes, notes::NO_FAULT),
    }
}

fn places(notes: &[u64]) -> [Fault; PLACES] {
    let mut places = [place(notes, notes::FAULTS); PLACES];
    for (i, kept) in places.iter_mut().enumerate() {
        *kept = place(notes, record(notes::FAULTS, FIELDS, i));
    }
    places
}

fn place(notes: &[u64], at: usize) -> Fault {
    Fault {
        bytes: eight(notes, at),
        period: field_as(notes, at, 8),
        until_due: field_as(notes, at, 9),
        age: field_as(notes, at, 10),
    }
}

// Eight bytes that are noted from a place on.
fn eight(notes: &[u64], at: usize) -> [u8; 8] {
    let mut eight = [0u8; 8];
    for (i, byte) in eight.iter_mut().enumerate() {
        *byte = field_as(notes, at, i);
    }
    eight
}

// Notes the sender.
fn keep(notes: &mut [u64], sender: Sender) {
    for (i, place) in sender.faults.iter().enumerate() {
        keep_place(notes, record(notes::FAULTS, FIELDS, i), *place);
    }
    keep_eight(notes, notes::NO_FAULT, sender.no_fault);
}

fn keep_place(notes: &mut [u64], at: usize, place: Fault) {
    keep_eight(notes, at, place.bytes);
    let times = [
        u64::from(place.period),
        u64::from(place.until_due),
        u64::from(place.age),
    ];
    put_all(notes, at.wrapping_add(8), &times);
}

fn keep_eight(notes: &mut [u64], at: usize, bytes: [u8; 8]) {
    for (i, byte) in bytes.iter().enumerate() {
        put(notes, at.wrapping_add(i), u64::from(*byte));
    }
}

// The places that are not all zeros, and the bytes of no fault.
pub fn show(notes: &[u64], streams: &mut Streams) {
    show_places(notes, streams);
    say::bytes(
        b"  faults.no_fault=",
        &eight(notes, notes::NO_FAULT),
        streams,
    );
    say::text(b"\n", streams);
}

fn show_places(notes: &[u64], streams: &mut Streams) {
    for i in 0..PLACES {
        show_place(notes, i, streams);
    }
}

fn show_place(notes: &[u64], position: usize, streams: &mut Streams) {
    let shown = state::show(
        notes,
        b"  faults.faults[#",
        b"] bytes=",
        notes::FAULTS,
        FIELDS,
        position,
        streams,
    );
    if shown {
        show_fields(notes, record(notes::FAULTS, FIELDS, position), streams);
    }
}

fn show_fields(notes: &[u64], at: usize, streams: &mut Streams) {
    say::bytes(b"", &eight(notes, at), streams);
    say::form(
        b" period=# until_due=# age=#\n",
        notes,
        at.wrapping_add(8),
        streams,
    );
}
