// The words of crate `message`: one receiver, its storage, and the last answer about a frame.
use crate::notes::{bounded, field, field_as, get, get_as, put, put_all, record};
use crate::{frames, notes, say, state};
use message::limits::{PLACES, STRETCH};
use message::{
    Announcing, Answer, Event, NotHeard, NotSplit, Place, Receiver, Splitting, Unsplittable,
};
use streams::Streams;
use words::Refusal;

pub fn call(n: usize, notes: &mut [u64], bytes: &[u8], storage: &mut [u8], streams: &mut Streams) {
    match n {
        0 => new(notes, streams),
        1 => hear(notes, bytes, storage, streams),
        2 => pause(notes, storage, streams),
        3 => finished(notes, storage, streams),
        4 => announcement(notes, bytes, streams),
        5 => packet(notes, bytes, streams),
        _ => {}
    }
}

fn new(notes: &mut [u64], streams: &mut Streams) {
    keep(notes, Receiver::new());
    put(notes, notes::MESSAGE_FINISHED, 0);
    say::text(b"a receiver of eight free places\n", streams);
}

fn hear(notes: &mut [u64], bytes: &[u8], storage: &mut [u8], streams: &mut Streams) {
    let id: u32 = get_as(notes, notes::FIRST);
    let lent = bounded(get(notes, notes::MESSAGE_STORAGE) as usize, storage);
    let heard = receiver(notes).hear(&mut storage[..lent], id, bytes);
    keep(notes, heard.receiver);
    keep_answer(notes, heard.answer);
    heard_so(notes, storage, heard.answer, streams);
}

fn heard_so(notes: &mut [u64], storage: &[u8], answer: Answer, streams: &mut Streams) {
    tell(notes, answer, streams);
    say::bytes(b"", message::message(storage, answer), streams);
    say::end(notes, notes::MESSAGE_ANSWER, answer.refusal(), streams);
    show(notes, storage, streams);
}

fn tell(notes: &mut [u64], answer: Answer, streams: &mut Streams) {
    match answer {
        Ok(Event::NothingToDo) => say::text(b"NothingToDo", streams),
        Ok(Event::Opened) => say::text(b"Opened", streams),
        Ok(Event::Stored) => say::text(b"Stored", streams),
        Ok(Event::Finished { .. }) => say::form(
            b"Finished place=# sender=% dgn=~ length=# message=",
            notes,
            notes::MESSAGE_FINISHED + 1,
            streams,
        ),
        Err(NotHeard::StorageTooShort) => say::text(b"StorageTooShort", streams),
        Err(NotHeard::BrokenState) => say::text(b"BrokenState", streams),
        Err(NotHeard::BadFrame(why)) => frames::bad_frame(notes, why, streams),
        Err(NotHeard::MalformedAnnouncement) => say::text(b"MalformedAnnouncement", streams),
        Err(NotHeard::NoPlaceFree) => say::text(b"NoPlaceFree", streams),
        Err(NotHeard::NoOpenMessage) => say::text(b"NoOpenMessage", streams),
        Err(NotHeard::UnexpectedPacket) => say::text(b"UnexpectedPacket", streams),
    }
}

// The part of the storage that the last answer hands over.
fn finished(notes: &[u64], storage: &[u8], streams: &mut Streams) {
    let lent = bounded(get(notes, notes::MESSAGE_STORAGE) as usize, storage);
    let bytes = message::message(&storage[..lent], kept_answer(notes));
    say::number(b"length=#", bytes.len() as u64, streams);
    say::bytes(b" bytes=", bytes, streams);
    say::text(b"\n", streams);
}

fn pause(notes: &mut [u64], storage: &[u8], streams: &mut Streams) {
    let paused = receiver(notes).pause(get_as(notes, notes::FIRST));
    keep(notes, paused.receiver);
    match paused.answer {
        Ok(count) => say::number(b"Closed #", u64::from(count), streams),
        Err(_) => say::text(b"BrokenState", streams),
    }
    say::end(
        notes,
        notes::MESSAGE_PAUSING,
        paused.answer.refusal(),
        streams,
    );
    show(notes, storage, streams);
}

fn announcement(notes: &mut [u64], bytes: &[u8], streams: &mut Streams) {
    let announced = message::announcement(bytes, get_as(notes, notes::SECOND));
    tell_announcing(notes, announced.answer, streams);
    say::eight(notes, b"", announced.bytes, streams);
    say::end(
        notes,
        notes::MESSAGE_ANNOUNCING,
        announced.answer.refusal(),
        streams,
    );
}

fn tell_announcing(notes: &mut [u64], answer: Announcing, streams: &mut Streams) {
    match answer {
        Ok(()) => say::text(b"Bytes ", streams),
        Err(why) => unsplittable(notes, why, streams),
    }
}

fn packet(notes: &mut [u64], bytes: &[u8], streams: &mut Streams) {
    let dgn: u32 = get_as(notes, notes::SECOND);
    let split = message::packet(bytes, dgn, get_as(notes, notes::THIRD));
    tell_splitting(notes, split.answer, streams);
    say::eight(notes, b"", split.bytes, streams);
    say::end(
        notes,
        notes::MESSAGE_SPLITTING,
        split.answer.refusal(),
        streams,
    );
}

fn tell_splitting(notes: &mut [u64], answer: Splitting, streams: &mut Streams) {
    match answer {
        Ok(()) => say::text(b"Bytes ", streams),
        Err(NotSplit::Unsplittable(why)) => unsplittable(notes, why, streams),
        Err(NotSplit::NoSuchPacket) => say::text(b"NoSuchPacket ", streams),
    }
}

fn unsplittable(notes: &mut [u64], why: Unsplittable, streams: &mut Streams) {
    match why {
        Unsplittable::NoCode => say::text(b"Refused NoCode ", streams),
        Unsplittable::LengthNotSplit => say::text(b"Refused LengthNotSplit ", streams),
    }
    put(notes, notes::MESSAGE_UNSPLITTABLE, u64::from(why.refusal()));
}

// The receiver of the notes.
fn receiver(notes: &[u64]) -> Receiver {
    let mut places = Receiver::new().places;
    for (i, kept) in places.iter_mut().enumerate() {
        *kept = place(notes, record(notes::MESSAGE_PLACES, 5, i));
    }
    Receiver { places }
}

fn place(notes: &[u64], at: usize) -> Place {
    Place {
        sender: get_as(notes, at),
        length: field_as(notes, at, 1),
        dgn: field_as(notes, at, 2),
        expected: field_as(notes, at, 3),
        idle: field_as(notes, at, 4),
    }
}

// Notes the receiver.
fn keep(notes: &mut [u64], receiver: Receiver) {
    for (i, place) in receiver.places.iter().enumerate() {
        keep_place(notes, record(notes::MESSAGE_PLACES, 5, i), *place);
    }
}

fn keep_place(notes: &mut [u64], at: usize, place: Place) {
    let fields = [
        u64::from(place.sender),
        u64::from(place.length),
        u64::from(place.dgn),
        u64::from(place.expected),
        u64::from(place.idle),
    ];
    put_all(notes, at, &fields);
}

// The last answer, as far as it is about a finished message.
fn kept_answer(notes: &[u64]) -> Answer {
    if get(notes, notes::MESSAGE_FINISHED) == 0 {
        return Ok(Event::NothingToDo);
    }
    Ok(Event::Finished {
        place: field(notes, notes::MESSAGE_FINISHED, 1) as usize,
        sender: field_as(notes, notes::MESSAGE_FINISHED, 2),
        dgn: field_as(notes, notes::MESSAGE_FINISHED, 3),
        length: field_as(notes, notes::MESSAGE_FINISHED, 4),
    })
}

fn keep_answer(notes: &mut [u64], answer: Answer) {
    match answer {
        Ok(
            Event::Finished {
                place,
                sender,
                dgn,
                length,
            },
        ) => {
            let finished = [
                1,
                place as u64,
                u64::from(sender),
                u64::from(dgn),
                u64::from(length),
            ];
            put_all(notes, notes::MESSAGE_FINISHED, &finished);
        }
        _ => put(notes, notes::MESSAGE_FINISHED, 0),
    }
}

// The places that are not all zeros, each with the bytes that it has stored.
pub fn show(notes: &[u64], storage: &[u8], streams: &mut Streams) {
    for i in 0..PLACES {
        show_place(notes, storage, i, streams);
    }
}

fn show_place(notes: &[u64], storage: &[u8], position: usize, streams: &mut Streams) {
    let shown = state::show(
        notes,
        b"  message.places[#",
        b"] sender=% length=# dgn=~ expected=# idle=# stored=",
        notes::MESSAGE_PLACES,
        5,
        position,
        streams,
    );
    if shown {
        let expected: u8 = field_as(notes, record(notes::MESSAGE_PLACES, 5, position), 3);
        say::stretch(
            storage,
            record(0, STRETCH, position),
            stored(expected),
            streams,
        );
        say::text(b"\n", streams);
    }
}

// How many bytes the packets before the expected one have stored.
fn stored(expected: u8) -> usize {
    if expected == 0 {
        return 0;
    }
    7 * (expected as usize - 1)
}
