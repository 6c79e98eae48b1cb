// State that stands in the notes: how it is shown, and how `set` changes it.
use crate::arguments::{argument, values};
use crate::node_table::MOST_RECORDS;
use crate::notes::{byte_at, field, get, get_as, put, put_all, record};
use crate::typing::{ends_here, find_field, find_state, letter, nth_word, number_in};
use crate::{active_faults, notes, say};
use streams::Streams;

// The head of a record, with its position, and its fields; nothing where they are all 0. Whether it was printed.
pub fn show(
    notes: &[u64],
    head: &[u8],
    fields: &[u8],
    at: usize,
    size: usize,
    position: usize,
    streams: &mut Streams,
) -> bool {
    let begins = record(at, size, position);
    if notes::all_zero(notes, begins, size) {
        return false;
    }
    say::number(head, position as u64, streams);
    say::form(fields, notes, begins, streams);
    true
}

// The first `count` of some records that are not zero throughout.
pub fn show_all(
    notes: &[u64],
    head: &[u8],
    fields: &[u8],
    at: usize,
    size: usize,
    count: usize,
    streams: &mut Streams,
) {
    for i in 0..count {
        show(notes, head, fields, at, size, i, streams);
    }
}

// `set`: any field of any state that stands in the notes.
pub fn set(notes: &mut [u64], streams: &mut Streams) {
    let n = find_state(
        notes,
        b"fast.named \
          claim.name claim.candidates claim.position claim.wait claim.silent claim.losses \
          command.host.count command.host.edition \
          capture.cutter.length capture.cutter.lines \
          catalogue.row.dgn catalogue.row.first catalogue.row.width catalogue.row.unit catalogue.row.plain \
          catalogue.row.two_state",
    );
    let Some(n) = n else {
        return set_lent(notes, streams);
    };
    let letter = byte_at(b"88882t88d84411utt", n);
    set_number(notes, 2, letter, notes::SINGLE.wrapping_add(n), streams);
}

// Sets a number, which is the n-th word of the line: `set claim.wait 251`.
fn set_number(notes: &mut [u64], n: usize, letter: u8, at: usize, streams: &mut Streams) {
    if !argument(notes, n, 0, letter, streams) {
        return;
    }
    if ends_here(notes, n.wrapping_add(1), streams) {
        let number = get(notes, notes::FIRST);
        put(notes, at, number);
    }
}

// How much of something is lent, up to all that there is.
fn set_lent(notes: &mut [u64], streams: &mut Streams) {
    let Some(n) = find_state(notes, b"message.lent fast.lent nodes.lent catalogue.lent") else {
        return set_listed(notes, streams);
    };
    if values(notes, b"8", streams) {
        lend(notes, n, all_of(n), streams);
    }
}

fn all_of(n: usize) -> u64 {
    match n {
        0 => message::limits::STORAGE_BYTES as u64,
        1 => fast::limits::STORAGE_BYTES as u64,
        2 => MOST_RECORDS as u64,
        _ => catalogue::rows() as u64,
    }
}

fn lend(notes: &mut [u64], n: usize, most: u64, streams: &mut Streams) {
    let lent = get(notes, notes::FIRST);
    if most < lent {
        return say::malformed(2, b"more than the console has", streams);
    }
    put(notes, notes::LENT.wrapping_add(n), lent);
}

// A number of a list: `set claim.list[2] 80h`.
fn set_listed(notes: &mut [u64], streams: &mut Streams) {
    match find_state(
        notes,
        b"fast.dgns claim.list capture.cutter.carry faults.no_fault",
    ) {
        Some(0) => set_in_list(notes, b"84", notes::FAST_DGNS, fast::limits::DGNS, streams),
        Some(1) => set_in_list(notes, b"81", notes::CLAIM_LIST, claim::CANDIDATES, streams),
        Some(2) => set_in_list(
            notes,
            b"81",
            notes::CUTTER_CARRY,
            capture::LONGEST_LINE,
            streams,
        ),
        Some(_) => set_in_list(notes, b"81", notes::NO_FAULT, 8, streams),
        None => set_place(notes, streams),
    }
}

fn set_in_list(notes: &mut [u64], shape: &[u8], at: usize, count: usize, streams: &mut Streams) {
    if position_and_number(notes, shape, count, streams) {
        let here = at.wrapping_add(get(notes, notes::FIRST) as usize);
        let number = get(notes, notes::SECOND);
        put(notes, here, number);
    }
}

// Reads a position and a number; whether there is such a position among `count`.
fn position_and_number(
    notes: &mut [u64],
    shape: &[u8],
    count: usize,
    streams: &mut Streams,
) -> bool {
    if !values(notes, shape, streams) {
        return false;
    }
    if get(notes, notes::FIRST) < count as u64 {
        return true;
    }
    no_such_position(streams);
    false
}

// A byte of a storage: `set message.storage[5] 7`.
pub fn set_byte(notes: &mut [u64], storage: &mut [u8], streams: &mut Streams) {
    if position_and_number(notes, b"81", storage.len(), streams) {
        let at = get(notes, notes::FIRST) as usize;
        notes::put_byte(storage, at, get_as(notes, notes::SECOND));
    }
}

// A packed row: `set catalogue.packed[0] 0x0EF0000080`.
pub fn set_packed(notes: &mut [u64], packed: &mut [u64], streams: &mut Streams) {
    if position_and_number(notes, b"88", packed.len(), streams) {
        let at = get(notes, notes::FIRST) as usize;
        put(packed, at, get(notes, notes::SECOND));
    }
}

fn no_such_position(streams: &mut Streams) {
    say::malformed(2, b"no such position", streams);
}

// A place of a receiver, or the answer to read a message by: `set message.places[3].dgn 1`; `set message.answer PLACE
// SENDER DGN LENGTH`.
fn set_place(notes: &mut [u64], streams: &mut Streams) {
    match find_state(
        notes,
        b"message.places fast.places message.answer fast.answer",
    ) {
        Some(0) => set_field(
            notes,
            b".sender .length .dgn .expected .idle",
            b"12412",
            notes::MESSAGE_PLACES,
            message::limits::PLACES,
            streams,
        ),
        Some(1) => set_field(
            notes,
            b".sender .dgn .sequence .length .expected .idle",
            b"141112",
            notes::FAST_PLACES,
            fast::limits::PLACES,
            streams,
        ),
        Some(2) => set_answer(notes, b"8142", notes::MESSAGE_FINISHED, streams),
        Some(_) => set_answer(notes, b"8141", notes::FAST_FINISHED, streams),
        None => set_record(notes, streams),
    }
}

fn set_answer(notes: &mut [u64], shape: &[u8], at: usize, streams: &mut Streams) {
    if values(notes, shape, streams) {
        put(notes, at, 1);
        put_four(notes, at.wrapping_add(1), notes::FIRST);
    }
}

// An entry or a record: `set nodes[3].name 500`.
fn set_record(notes: &mut [u64], streams: &mut Streams) {
    match find_state(
        notes,
        b"command.entries command.host.entries nodes faults.faults",
    ) {
        Some(0) => set_entry(notes, notes::ENTRIES, streams),
        Some(1) => set_entry(notes, notes::HOST_ENTRIES, streams),
        Some(2) => set_field(
            notes,
            b".present .name .challenger .wait",
            b"t882",
            notes::NODES,
            MOST_RECORDS,
            streams,
        ),
        Some(_) => set_fault(notes, streams),
        None => say::unknown(streams),
    }
}

// One field of an entry, or all four: `set command.entries[0] COMMAND STATUS INSTANCE ZERO_IS_ALL`.
fn set_entry(notes: &mut [u64], at: usize, streams: &mut Streams) {
    if names_field(notes) {
        return set_field(
            notes,
            b".command .status .instance .zero_is_all",
            b"441t",
            at,
            command::ENTRIES,
            streams,
        );
    }
    let Some(position) = position(notes, command::ENTRIES) else {
        return no_such_position(streams);
    };
    if values(notes, b"8441t", streams) {
        put_four(notes, record(at, 4, position), notes::SECOND);
    }
}

// Whether the word behind the position is the name of a field.
fn names_field(notes: &[u64]) -> bool {
    match nth_word(notes, 3) {
        Some(name) => letter(notes, name.from) == b'.',
        None => false,
    }
}

// A field of a place of the sender, of which the first eight notes are its bytes: `set faults.faults[3].period 100`,
// `set faults.faults[3].bytes[0] 5`.
fn set_fault(notes: &mut [u64], streams: &mut Streams) {
    let Some(position) = position(notes, faults::PLACES) else {
        return no_such_position(streams);
    };
    let begins = record(notes::FAULTS, active_faults::FIELDS, position);
    match find_field(notes, b".bytes .period .until_due .age") {
        Some(0) => set_fault_byte(notes, begins, streams),
        Some(1) => set_number(notes, 4, b'2', begins.wrapping_add(8), streams),
        Some(2) => set_number(notes, 4, b'2', begins.wrapping_add(9), streams),
        Some(_) => set_number(notes, 4, b'1', begins.wrapping_add(10), streams),
        None => say::unknown(streams),
    }
}

fn set_fault_byte(notes: &mut [u64], begins: usize, streams: &mut Streams) {
    let Some(at) = typed_position(notes, 4, 8) else {
        return say::malformed(4, b"no such position", streams);
    };
    set_number(notes, 5, b'1', begins.wrapping_add(at), streams);
}

// A field of a record. The letters of the fields stand in the order of their names.
fn set_field(
    notes: &mut [u64],
    names: &[u8],
    letters: &[u8],
    at: usize,
    count: usize,
    streams: &mut Streams,
) {
    let Some(position) = position(notes, count) else {
        return no_such_position(streams);
    };
    let Some(n) = find_field(notes, names) else {
        return say::unknown(streams);
    };
    let begins = record(at, letters.len(), position);
    set_number(
        notes,
        4,
        byte_at(letters, n),
        begins.wrapping_add(n),
        streams,
    );
}

// The position in a list of so many that the line names, if it names one.
fn position(notes: &[u64], count: usize) -> Option<usize> {
    typed_position(notes, 2, count)
}

fn typed_position(notes: &[u64], n: usize, count: usize) -> Option<usize> {
    let at = number_in(notes, nth_word(notes, n)?)? as usize;
    (at < count).then_some(at)
}

// Four of the numbers that were typed become a record.
fn put_four(notes: &mut [u64], at: usize, first: usize) {
    let four = [
        field(notes, first, 0),
        field(notes, first, 1),
        field(notes, first, 2),
        field(notes, first, 3),
    ];
    put_all(notes, at, &four);
}
