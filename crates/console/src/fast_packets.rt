// The words of crate `fast`: one receiver of fast packets, its storage, and the last answer about a frame.
// They stand beside those of messages.rt, which they are like: places, answers and their cases are types of two crates
// that name their refusals differently, so that a form for both would be handed each step of both.
use crate::notes::{bounded, field, field_as, get, get_as, put, put_all, record};
use crate::{frames, notes, say, state};
use fast::limits::{DGNS, PLACES, STRETCH};
use fast::{Answer, Event, NotHeard, NotSplit, Place, Receiver, Started};
use streams::Streams;
use words::Refusal;

pub fn call(n: usize, notes: &mut [u64], bytes: &[u8], storage: &mut [u8], streams: &mut Streams) {
    match n {
        0 => start(notes, storage, streams),
        1 => hear(notes, bytes, storage, streams),
        2 => pause(notes, storage, streams),
        3 => finished(notes, storage, streams),
        4 => frame_of(notes, bytes, streams),
        _ => {}
    }
}

fn start(notes: &mut [u64], storage: &[u8], streams: &mut Streams) {
    let list = typed_list(notes);
    let started = start_from(notes, &list);
    keep(notes, started.receiver);
    match started.answer {
        Ok(()) => say::text(b"Named", streams),
        Err(_) => say::text(b"ListMalformed", streams),
    }
    say::end(
        notes,
        notes::FAST_STARTING,
        started.answer.refusal(),
        streams,
    );
    show(notes, storage, streams);
}

// The numbers of the list that was typed.
fn typed_list(notes: &[u64]) -> [u32; 32] {
    let mut list = [0u32; 32];
    for (i, number) in list.iter_mut().enumerate() {
        *number = field_as(notes, notes::NUMBERS, i);
    }
    list
}

// A receiver of as many of them as were typed.
fn start_from(notes: &[u64], list: &[u32]) -> Started {
    let count = bounded(get(notes, notes::LIST) as usize, list);
    Receiver::start(&list[..count])
}

fn hear(notes: &mut [u64], bytes: &[u8], storage: &mut [u8], streams: &mut Streams) {
    let id: u32 = get_as(notes, notes::FIRST);
    let lent = bounded(get(notes, notes::FAST_STORAGE) as usize, storage);
    let heard = receiver(notes).hear(&mut storage[..lent], id, bytes);
    keep(notes, heard.receiver);
    keep_answer(notes, heard.answer);
    heard_so(notes, storage, heard.answer, streams);
}

fn heard_so(notes: &mut [u64], storage: &[u8], answer: Answer, streams: &mut Streams) {
    tell(notes, answer, streams);
    say::bytes(b"", fast::message(storage, answer), streams);
    say::end(notes, notes::FAST_ANSWER, answer.refusal(), streams);
    show(notes, storage, streams);
}

fn tell(notes: &mut [u64], answer: Answer, streams: &mut Streams) {
    match answer {
        Ok(Event::NothingToDo) => say::text(b"NothingToDo", streams),
        Ok(Event::Opened) => say::text(b"Opened", streams),
        Ok(Event::Stored) => say::text(b"Stored", streams),
        Ok(Event::Finished { .. }) => say::form(
            b"Finished place=# sender=% dgn=~ length=# message=",
            notes,
            notes::FAST_FINISHED + 1,
            streams,
        ),
        Err(NotHeard::StorageTooShort) => say::text(b"StorageTooShort", streams),
        Err(NotHeard::BrokenState) => say::text(b"BrokenState", streams),
        Err(NotHeard::BadFrame(why)) => frames::bad_frame(notes, why, streams),
        Err(NotHeard::MalformedLength) => say::text(b"MalformedLength", streams),
        Err(NotHeard::NoPlaceFree) => say::text(b"NoPlaceFree", streams),
        Err(NotHeard::NoOpenMessage) => say::text(b"NoOpenMessage", streams),
        Err(NotHeard::UnexpectedFrame) => say::text(b"UnexpectedFrame", streams),
    }
}

// The part of the storage that the last answer hands over.
fn finished(notes: &[u64], storage: &[u8], streams: &mut Streams) {
    let lent = bounded(get(notes, notes::FAST_STORAGE) as usize, storage);
    let bytes = fast::message(&storage[..lent], kept_answer(notes));
    say::number(b"length=#", bytes.len() as u64, streams);
    say::bytes(b" bytes=", bytes, streams);
    say::text(b"\n", streams);
}

fn pause(notes: &mut [u64], storage: &[u8], streams: &mut Streams) {
    let paused = receiver(notes).pause(get_as(notes, notes::FIRST));
    keep(notes, paused.receiver);
    match paused.answer {
        Ok(count) => say::number(b"Closed #", u64::from(count), streams),
        Err(_) => say::text(b"BrokenState", streams),
    }
    say::end(notes, notes::FAST_PAUSING, paused.answer.refusal(), streams);
    show(notes, storage, streams);
}

fn frame_of(notes: &mut [u64], bytes: &[u8], streams: &mut Streams) {
    let sequence: u8 = get_as(notes, notes::SECOND);
    let split = fast::frame_of(bytes, sequence, get_as(notes, notes::THIRD));
    match split.answer {
        Ok(()) => say::text(b"Bytes", streams),
        Err(NotSplit::NoCode) => say::text(b"NoCode", streams),
        Err(NotSplit::LengthNotSplit) => say::text(b"LengthNotSplit", streams),
        Err(NotSplit::NoSuchFrame) => say::text(b"NoSuchFrame", streams),
    }
    say::eight(notes, b" ", split.bytes, streams);
    say::end(
        notes,
        notes::FAST_SPLITTING,
        split.answer.refusal(),
        streams,
    );
}

// The receiver of the notes.
fn receiver(notes: &[u64]) -> Receiver {
    Receiver {
        dgns: dgns(notes),
        named: get(notes, notes::FAST_NAMED) as usize,
        places: places(notes),
    }
}

fn dgns(notes: &[u64]) -> [u32; DGNS] {
    let mut dgns = [0u32; DGNS];
    for (i, dgn) in dgns.iter_mut().enumerate() {
        *dgn = field_as(notes, notes::FAST_DGNS, i);
    }
    dgns
}

fn places(notes: &[u64]) -> [Place; PLACES] {
    let mut places = [place(notes, notes::FAST_PLACES); PLACES];
    for (i, kept) in places.iter_mut().enumerate() {
        *kept = place(notes, record(notes::FAST_PLACES, 6, i));
    }
    places
}

fn place(notes: &[u64], at: usize) -> Place {
    Place {
        sender: get_as(notes, at),
        dgn: field_as(notes, at, 1),
        sequence: field_as(notes, at, 2),
        length: field_as(notes, at, 3),
        expected: field_as(notes, at, 4),
        idle: field_as(notes, at, 5),
    }
}

// Notes the receiver.
fn keep(notes: &mut [u64], receiver: Receiver) {
    put(notes, notes::FAST_NAMED, receiver.named as u64);
    for (i, dgn) in receiver.dgns.iter().enumerate() {
        put(notes, notes::FAST_DGNS.wrapping_add(i), u64::from(*dgn));
    }
    for (i, place) in receiver.places.iter().enumerate() {
        keep_place(notes, record(notes::FAST_PLACES, 6, i), *place);
    }
}

fn keep_place(notes: &mut [u64], at: usize, place: Place) {
    let fields = [
        u64::from(place.sender),
        u64::from(place.dgn),
        u64::from(place.sequence),
        u64::from(place.length),
        u64::from(place.expected),
        u64::from(place.idle),
    ];
    put_all(notes, at, &fields);
}

// The last answer, as far as it is about a finished message.
fn kept_answer(notes: &[u64]) -> Answer {
    if get(notes, notes::FAST_FINISHED) == 0 {
        return Ok(Event::NothingToDo);
    }
    Ok(Event::Finished {
        place: field(notes, notes::FAST_FINISHED, 1) as usize,
        sender: field_as(notes, notes::FAST_FINISHED, 2),
        dgn: field_as(notes, notes::FAST_FINISHED, 3),
        length: field_as(notes, notes::FAST_FINISHED, 4),
    })
}

fn keep_answer(notes: &mut [u64], answer: Answer) {
    match answer {
        Ok(
            Event::Finished {
                place,
                sender,
                dgn,
                length,
            },
        ) => {
            let finished = [
                1,
                place as u64,
                u64::from(sender),
                u64::from(dgn),
                u64::from(length),
            ];
            put_all(notes, notes::FAST_FINISHED, &finished);
        }
        _ => put(notes, notes::FAST_FINISHED, 0),
    }
}

// How many DGNs are named, and which; and the places that are not all zeros, each with the bytes that it has stored.
pub fn show(notes: &[u64], storage: &[u8], streams: &mut Streams) {
    say::form(
        b"  fast.named=# fast.dgns=",
        notes,
        notes::FAST_NAMED,
        streams,
    );
    show_dgns(notes, get(notes, notes::FAST_NAMED) as usize, streams);
    say::text(b"\n", streams);
    show_places(notes, storage, streams);
}

fn show_dgns(notes: &[u64], named: usize, streams: &mut Streams) {
    for i in 0..named.min(DGNS) {
        say::form(b" ~", notes, notes::FAST_DGNS.wrapping_add(i), streams);
    }
}

fn show_places(notes: &[u64], storage: &[u8], streams: &mut Streams) {
    for i in 0..PLACES {
        show_place(notes, storage, i, streams);
    }
}

fn show_place(notes: &[u64], storage: &[u8], position: usize, streams: &mut Streams) {
    let shown = state::show(
        notes,
        b"  fast.places[#",
        b"] sender=% dgn=~ sequence=# length=# expected=# idle=# stored=",
        notes::FAST_PLACES,
        6,
        position,
        streams,
    );
    if shown {
        let expected: u8 = field_as(notes, record(notes::FAST_PLACES, 6, position), 4);
        say::stretch(
            storage,
            record(0, STRETCH, position),
            stored(expected),
            streams,
        );
        say::text(b"\n", streams);
    }
}

// How many bytes the frames before the expected one have stored: six in the first, seven in each later one.
fn stored(expected: u8) -> usize {
    if expected == 0 {
        return 0;
    }
    7 * expected as usize - 1
}
