// The words of crate `command`: a list of entries to start a host from, and one host. They use the console's claim.
use crate::claims::claim;
use crate::notes::{field, field_as, get, get_as, put, put_all, record};
use crate::{frames, notes, say, state};
use command::{
    Acknowledging, Acknowledgment, Choice, ENTRIES, Edition, Entry, Host, NotAcknowledged,
    NotAnswered, NotRouted, Positions, Requested, Requesting, Response, Routing,
};
use streams::Streams;
use words::Refusal;

pub fn call(n: usize, notes: &mut [u64], bytes: &[u8], streams: &mut Streams) {
    match n {
        0 => start(notes, streams),
        1 => route(notes, bytes, streams),
        2 => request(notes, bytes, streams),
        3 => acknowledge(notes, streams),
        _ => {}
    }
}

// A host of the first of the entries: `command::Host::start COUNT EDITION`
fn start(notes: &mut [u64], streams: &mut Streams) {
    let count = get(notes, notes::FIRST) as usize;
    let edition = edition_of(get(notes, notes::SECOND));
    let started = Host::start(entries(notes, notes::ENTRIES), count, edition);
    keep(notes, started.host);
    match started.answer {
        Ok(()) => say::text(b"Hosted", streams),
        Err(_) => say::text(b"ListMalformed", streams),
    }
    say::end(
        notes,
        notes::COMMAND_STARTING,
        started.answer.refusal(),
        streams,
    );
    show_host(notes, streams);
}

fn route(notes: &mut [u64], bytes: &[u8], streams: &mut Streams) {
    let routed = host(notes).route(claim(notes), get_as(notes, notes::FIRST), bytes);
    tell_routing(notes, routed.answer, streams);
    show_positions(routed.positions, streams);
    say::end(
        notes,
        notes::COMMAND_ROUTING,
        routed.answer.refusal(),
        streams,
    );
}

fn tell_routing(notes: &mut [u64], answer: Routing, streams: &mut Streams) {
    match answer {
        Ok(Choice::NothingToDo) => say::text(b"NothingToDo", streams),
        Ok(Choice::Picked) => say::text(b"Picked", streams),
        Err(NotRouted::BrokenState) => say::text(b"BrokenState", streams),
        Err(NotRouted::BadFrame(why)) => frames::bad_frame(notes, why, streams),
        Err(NotRouted::ListMalformed) => say::text(b"ListMalformed", streams),
        Err(NotRouted::NoAddressHeld) => say::text(b"NoAddressHeld", streams),
    }
}

fn request(notes: &mut [u64], bytes: &[u8], streams: &mut Streams) {
    let asked = host(notes).request(claim(notes), get_as(notes, notes::FIRST), bytes);
    requested(notes, asked, streams);
}

// What the host makes of a request.
pub fn requested(notes: &mut [u64], requested: Requested, streams: &mut Streams) {
    tell_requesting(notes, requested.answer, streams);
    show_positions(requested.positions, streams);
    say::frame(notes, requested.id, requested.bytes, streams);
    say::end(
        notes,
        notes::COMMAND_REQUESTING,
        requested.answer.refusal(),
        streams,
    );
}

fn tell_requesting(notes: &mut [u64], answer: Requesting, streams: &mut Streams) {
    match answer {
        Ok(Response::NothingToDo) => say::text(b"NothingToDo", streams),
        Ok(Response::SendClaim) => say::text(b"SendClaim", streams),
        Ok(Response::Supported) => say::text(b"Supported", streams),
        Ok(Response::SendNak) => say::text(b"SendNak", streams),
        Ok(Response::Unsupported) => say::text(b"Unsupported", streams),
        Err(NotAnswered::BrokenState) => say::text(b"BrokenState", streams),
        Err(NotAnswered::BadFrame(why)) => frames::bad_frame(notes, why, streams),
        Err(NotAnswered::ListMalformed) => say::text(b"ListMalformed", streams),
        Err(NotAnswered::DgnTooLarge) => say::text(b"DgnTooLarge", streams),
        Err(NotAnswered::NoAddressHeld) => say::text(b"NoAddressHeld", streams),
    }
}

// `command::acknowledge CODE INSTANCE REQUESTER DGN`
fn acknowledge(notes: &mut [u64], streams: &mut Streams) {
    let acknowledged = command::acknowledge(claim(notes), reply(notes));
    tell_acknowledging(acknowledged.answer, streams);
    say::frame(notes, acknowledged.id, acknowledged.bytes, streams);
    say::end(
        notes,
        notes::COMMAND_ACKNOWLEDGING,
        acknowledged.answer.refusal(),
        streams,
    );
}

fn tell_acknowledging(answer: Acknowledging, streams: &mut Streams) {
    match answer {
        Ok(()) => say::text(b"Send", streams),
        Err(NotAcknowledged::BrokenState) => say::text(b"BrokenState", streams),
        Err(NotAcknowledged::RequesterNotAllowed) => say::text(b"RequesterNotAllowed", streams),
        Err(NotAcknowledged::ListMalformed) => say::text(b"ListMalformed", streams),
        Err(NotAcknowledged::DgnTooLarge) => say::text(b"DgnTooLarge", streams),
        Err(NotAcknowledged::NoAddressHeld) => say::text(b"NoAddressHeld", streams),
    }
}

fn reply(notes: &[u64]) -> Acknowledgment {
    Acknowledgment {
        code: get_as(notes, notes::FIRST),
        instance: get_as(notes, notes::SECOND),
        requester: get_as(notes, notes::THIRD),
        dgn: get_as(notes, notes::FOURTH),
    }
}

// The positions up to their count.
fn show_positions(positions: Positions, streams: &mut Streams) {
    say::text(b" positions=", streams);
    for position in positions.at.iter().take(positions.count) {
        say::number(b" #", u64::from(*position), streams);
    }
}

// The host of the notes.
pub fn host(notes: &[u64]) -> Host {
    Host {
        entries: entries(notes, notes::HOST_ENTRIES),
        count: get(notes, notes::HOST_COUNT) as usize,
        edition: edition_of(get(notes, notes::HOST_EDITION)),
    }
}

// An edition is noted as a number, as every state is; From and TryFrom cannot be the console's, for both types are not.
fn edition_of(number: u64) -> Edition {
    match number {
        0 => Edition::One,
        _ => Edition::Two,
    }
}

fn number_of_edition(edition: Edition) -> u64 {
    match edition {
        Edition::One => 0,
        Edition::Two => 1,
    }
}

// The entries of the notes from a place on.
fn entries(notes: &[u64], at: usize) -> [Entry; ENTRIES] {
    let mut entries = [entry(notes, at); ENTRIES];
    for (i, kept) in entries.iter_mut().enumerate() {
        *kept = entry(notes, record(at, 4, i));
    }
    entries
}

fn entry(notes: &[u64], at: usize) -> Entry {
    Entry {
        command: get_as(notes, at),
        status: field_as(notes, at, 1),
        instance: field_as(notes, at, 2),
        zero_is_all: field(notes, at, 3) != 0,
    }
}

// Notes the host.
fn keep(notes: &mut [u64], host: Host) {
    put(notes, notes::HOST_COUNT, host.count as u64);
    put(notes, notes::HOST_EDITION, number_of_edition(host.edition));
    for (i, entry) in host.entries.iter().enumerate() {
        keep_entry(notes, record(notes::HOST_ENTRIES, 4, i), *entry);
    }
}

fn keep_entry(notes: &mut [u64], at: usize, entry: Entry) {
    let fields = [
        u64::from(entry.command),
        u64::from(entry.status),
        u64::from(entry.instance),
        u64::from(entry.zero_is_all),
    ];
    put_all(notes, at, &fields);
}

// The entries to start from, and the host.
pub fn show(notes: &[u64], streams: &mut Streams) {
    show_entries(notes, b"  command.entries[#", notes::ENTRIES, streams);
    show_host(notes, streams);
}

fn show_host(notes: &[u64], streams: &mut Streams) {
    say::form(
        b"  command.host.count=# edition=",
        notes,
        notes::HOST_COUNT,
        streams,
    );
    say::word(
        b"One Two",
        get(notes, notes::HOST_EDITION) as usize,
        streams,
    );
    say::text(b"\n", streams);
    show_entries(
        notes,
        b"  command.host.entries[#",
        notes::HOST_ENTRIES,
        streams,
    );
}

fn show_entries(notes: &[u64], head: &[u8], at: usize, streams: &mut Streams) {
    state::show_all(
        notes,
        head,
        b"] command=~ status=~ instance=# zero_is_all=?\n",
        at,
        4,
        ENTRIES,
        streams,
    );
}
