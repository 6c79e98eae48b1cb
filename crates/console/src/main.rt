// A console for class: it reads a call a line from standard input and prints the answer in words, with the number of a
// refusal, the state and the lent bytes. It keeps one receiver of each kind with its storage, a claim, a host, a sender
// of faults, a node table, a row and a cutter of lines. docs/CONSOLE.md has its words.
#![tactic(auto)]

mod active_faults;
mod arguments;
mod calls;
mod captures;
mod claims;
mod commands;
mod exercises;
mod fast_packets;
mod fields;
mod frames;
mod lines;
mod messages;
mod node_table;
mod notes;
mod say;
mod state;
mod texts;
mod typing;

use calls::Call;
use notes::{NOTES, bounded, get, put};
use streams::Streams;

// The number of the part `text`, in the order of calls.rt.
const TEXT: usize = 10;

// What the console keeps beside its notes: the storage of both receivers, and a table of packed rows to lend.
#[derive(Clone, Copy)]
struct Desk {
    long: [u8; message::limits::STORAGE_BYTES],
    fast: [u8; fast::limits::STORAGE_BYTES],
    packed: [u64; 375],
}

fn main(rt: HostRuntime) -> std::io::Result<()> {
    let mut streams = Streams::new(&rt);
    let mut notes = [0u64; NOTES];
    put(
        &mut notes,
        notes::MESSAGE_STORAGE,
        message::limits::STORAGE_BYTES as u64,
    );
    put(
        &mut notes,
        notes::FAST_STORAGE,
        fast::limits::STORAGE_BYTES as u64,
    );
    put(&mut notes, notes::TABLE, nodes::RECORDS as u64);
    let mut desk = start();
    listen(&mut notes, &mut desk, &mut streams);
    streams.outcome()
}

fn start() -> Desk {
    Desk {
        long: [0; message::limits::STORAGE_BYTES],
        fast: [0; fast::limits::STORAGE_BYTES],
        packed: [0; 375],
    }
}

// Line after line. Nothing says that an input ends, so the loop goes up to a number that no input reaches.
fn listen(notes: &mut [u64], desk: &mut Desk, streams: &mut Streams) {
    for _ in 0..u64::MAX {
        if !next_line(notes, desk, streams) {
            break;
        }
    }
}

// Reads a line and answers it; no where the input has ended.
fn next_line(notes: &mut [u64], desk: &mut Desk, streams: &mut Streams) -> bool {
    let mut line = io::buffer();
    let Some(count) = lines::read_line(&mut line, streams) else {
        return false;
    };
    let count = bounded(count, &line);
    turn(&line[..count], notes, desk, streams);
    true
}

// A line: nothing, a title, or a call.
fn turn(line: &[u8], notes: &mut [u64], desk: &mut Desk, streams: &mut Streams) {
    note(line, notes);
    if is_said(line, notes, streams) {
        return;
    }
    echo(line, notes, streams);
    heed(notes, desk, streams);
}

// Notes the letters of the line.
fn note(line: &[u8], notes: &mut [u64]) {
    put(notes, notes::LETTERS, line.len() as u64);
    for (i, letter) in line.iter().enumerate() {
        put(notes, notes::LINE.wrapping_add(i), u64::from(*letter));
    }
}

// Whether nothing is asked: the line is empty, too long, or begins with # and is printed as it is.
fn is_said(line: &[u8], notes: &[u64], streams: &mut Streams) -> bool {
    let Some(first) = typing::nth_word(notes, 0) else {
        return true;
    };
    if lines::LONGEST <= line.len() {
        say::text(b"malformed: the line is too long\n", streams);
        return true;
    }
    if typing::letter(notes, first.from) == b'#' {
        print(line, streams);
        return true;
    }
    false
}

fn print(line: &[u8], streams: &mut Streams) {
    say::text(line, streams);
    say::text(b"\n", streams);
}

// The line before its answer, for a script.
fn echo(line: &[u8], notes: &[u64], streams: &mut Streams) {
    if get(notes, notes::ECHO) != 0 {
        say::text(b"> ", streams);
        print(line, streams);
    }
}

// A call is answered by the part of the library that it is about; other lines set or show state, or ask for a number.
fn heed(notes: &mut [u64], desk: &mut Desk, streams: &mut Streams) {
    let Some(call) = calls::asked(notes) else {
        return others(notes, desk, streams);
    };
    let well = calls::reads(notes, call, streams);
    let mut data = notes::typed(notes);
    let count = bounded(get(notes, notes::BYTES) as usize, &data);
    let bytes = &mut data[..count];
    if well {
        answer(notes, bytes, desk, call, streams);
    } else if call.part == TEXT {
        texts::unread(notes, bytes, streams);
    }
}

fn answer(notes: &mut [u64], bytes: &mut [u8], desk: &mut Desk, call: Call, streams: &mut Streams) {
    match call.part {
        0 => frames::call(call.n, notes, bytes, streams),
        1 => messages::call(call.n, notes, bytes, &mut desk.long, streams),
        2 => fast_packets::call(call.n, notes, bytes, &mut desk.fast, streams),
        3 => fields::call(call.n, notes, bytes, &mut desk.packed, streams),
        4 => claims::call(call.n, notes, bytes, streams),
        5 => node_table::call(call.n, notes, bytes, streams),
        6 => commands::call(call.n, notes, bytes, streams),
        7 => active_faults::call(call.n, notes, bytes, &mut desk.packed, streams),
        8 => captures::call(call.n, notes, bytes, streams),
        TEXT => texts::call(call.n, notes, bytes, streams),
        _ => exercises::call(call.n, notes, bytes, streams),
    }
}

// A line that asks for no call.
fn others(notes: &mut [u64], desk: &mut Desk, streams: &mut Streams) {
    match typing::asked(notes, b"set show") {
        Some(0) => set(notes, desk, streams),
        Some(_) => show(notes, desk, streams),
        None => console_words(notes, streams),
    }
}

// `set message.storage[5] 7`, `set catalogue.packed[0] 0x0EF0000080`; and what stands in the notes.
fn set(notes: &mut [u64], desk: &mut Desk, streams: &mut Streams) {
    match typing::find_state(notes, b"message.storage fast.storage catalogue.packed") {
        Some(0) => state::set_byte(notes, &mut desk.long, streams),
        Some(1) => state::set_byte(notes, &mut desk.fast, streams),
        Some(_) => state::set_packed(notes, &mut desk.packed, streams),
        None => state::set(notes, streams),
    }
}

// `show claim`.
fn show(notes: &[u64], desk: &Desk, streams: &mut Streams) {
    if typing::nth_word(notes, 2).is_some() {
        return say::unknown(streams);
    }
    match typing::find_state(notes, b"message fast") {
        Some(0) => messages::show(notes, &desk.long, streams),
        Some(_) => fast_packets::show(notes, &desk.fast, streams),
        None => show_noted(notes, streams),
    }
}

fn show_noted(notes: &[u64], streams: &mut Streams) {
    match typing::find_state(notes, b"catalogue claim nodes command faults capture") {
        Some(0) => fields::show(notes, streams),
        Some(1) => claims::show(notes, streams),
        Some(2) => node_table::show(notes, streams),
        Some(3) => commands::show(notes, streams),
        Some(4) => active_faults::show(notes, streams),
        Some(_) => captures::show(notes, streams),
        None => say::unknown(streams),
    }
}

// The console's own words, and the numbers of refusals.
fn console_words(notes: &mut [u64], streams: &mut Streams) {
    let Some(n) = typing::asked(notes, b"echo help") else {
        return calls::refusals(notes, streams);
    };
    if !arguments::called(notes, b"t .", n, streams) {
        return;
    }
    if n == 0 {
        let on = get(notes, notes::FIRST);
        put(notes, notes::ECHO, on);
    } else {
        help(streams);
    }
}

fn help(streams: &mut Streams) {
    say::text(
        b"Type a call by its name in README's table, and its arguments: frame::take_apart(0x19FECA54)\n\
          Numbers: 84, 0x54, 54h, true. Bytes: 20090002FFEBFE00, \"text\", - for none, that for the last eight.\n\
          The state is the console's own: set claim.wait 251 changes it, show claim prints it.\n\
          docs/CONSOLE.md has all words.\n",
        streams,
    );
}
