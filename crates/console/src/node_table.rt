// The words of crate `nodes`: one table of 300 records, of which 254 or another number are lent.
use crate::notes::{bounded, field, field_as, get, get_as, put_all, record};
use crate::{frames, notes, say, state};
use nodes::{BadTable, Challenger, Effect, Hearing, Node, NotHeard, Pausing, RECORDS};
use streams::Streams;
use words::Refusal;

// How many records the console keeps.
pub const MOST_RECORDS: usize = 300;

pub fn call(n: usize, notes: &mut [u64], bytes: &[u8], streams: &mut Streams) {
    match n {
        0 => emptied(notes, streams),
        1 => heard(notes, bytes, streams),
        2 => looked_up(notes, streams),
        3 => found_address(notes, streams),
        4 => paused(notes, streams),
        5 => found_challenger(notes, streams),
        _ => {}
    }
}

fn emptied(notes: &mut [u64], streams: &mut Streams) {
    keep(notes, &nodes::empty());
    say::text(b"254 records in which nobody has an address\n", streams);
    show(notes, streams);
}

fn keep_node(notes: &mut [u64], at: usize, node: Node) {
    let four = [
        u64::from(node.present),
        node.name,
        node.challenger,
        u64::from(node.wait),
    ];
    put_all(notes, at, &four);
}

fn heard(notes: &mut [u64], bytes: &[u8], streams: &mut Streams) {
    let id: u32 = get_as(notes, notes::FIRST);
    let mut table = table(notes);
    let lent = bounded(get(notes, notes::TABLE) as usize, &table);
    let answer = nodes::hear(&mut table[..lent], id, bytes);
    keep(notes, &table);
    tell(notes, answer, streams);
    say::end(notes, notes::NODES_HEARD, answer.refusal(), streams);
    show(notes, streams);
}

fn tell(notes: &mut [u64], answer: Hearing, streams: &mut Streams) {
    match answer {
        Ok(Effect::Silent) => say::text(b"Silent", streams),
        Ok(Effect::Taken(address)) => say::number(b"Taken %", u64::from(address), streams),
        Ok(Effect::Challenges(address)) => say::number(
            b"Challenges %",
            u64::from(address),
            streams,
        ),
        Ok(Effect::HeldByLower(address)) => say::number(
            b"HeldByLower %",
            u64::from(address),
            streams,
        ),
        Ok(Effect::NothingToDo) => say::text(b"NothingToDo", streams),
        Err(NotHeard::TableTooShort) => say::text(b"TableTooShort", streams),
        Err(NotHeard::BrokenState) => say::text(b"BrokenState", streams),
        Err(NotHeard::BadFrame(why)) => frames::bad_frame(notes, why, streams),
    }
}

fn paused(notes: &mut [u64], streams: &mut Streams) {
    let ms: u16 = get_as(notes, notes::FIRST);
    let mut table = table(notes);
    let lent = bounded(get(notes, notes::TABLE) as usize, &table);
    let answer = nodes::pause(&mut table[..lent], ms);
    keep(notes, &table);
    tell_pause(answer, streams);
    say::end(notes, notes::NODES_PAUSING, answer.refusal(), streams);
    show(notes, streams);
}

fn tell_pause(answer: Pausing, streams: &mut Streams) {
    match answer {
        Ok(count) => say::number(b"Replaced #", u64::from(count), streams),
        Err(why) => bad_table(why, streams),
    }
}

// Why a table is refused.
fn bad_table(why: BadTable, streams: &mut Streams) {
    match why {
        BadTable::TableTooShort => say::text(b"TableTooShort", streams),
        BadTable::BrokenState => say::text(b"BrokenState", streams),
    }
}

fn looked_up(notes: &mut [u64], streams: &mut Streams) {
    let table = table(notes);
    let lent = bounded(get(notes, notes::TABLE) as usize, &table);
    let answer = nodes::look_up(&table[..lent], get_as(notes, notes::FIRST));
    match answer {
        Ok(Some(name)) => say::number(b"Present @", name, streams),
        Ok(None) => say::text(b"Absent", streams),
        Err(why) => bad_table(why, streams),
    }
    say::end(notes, notes::NODES_LOOKED_UP, answer.refusal(), streams);
}

fn found_address(notes: &mut [u64], streams: &mut Streams) {
    let table = table(notes);
    let lent = bounded(get(notes, notes::TABLE) as usize, &table);
    let answer = nodes::find_address(&table[..lent], get(notes, notes::FIRST));
    match answer {
        Ok(Some(address)) => say::number(b"At %", u64::from(address), streams),
        Ok(None) => say::text(b"NoAddress", streams),
        Err(why) => bad_table(why, streams),
    }
    say::end(notes, notes::NODES_FOUND_ADDRESS, answer.refusal(), streams);
}

fn found_challenger(notes: &mut [u64], streams: &mut Streams) {
    let table = table(notes);
    let lent = bounded(get(notes, notes::TABLE) as usize, &table);
    let answer = nodes::find_challenger(&table[..lent], get_as(notes, notes::FIRST));
    match answer {
        Ok(Some(challenger)) => waits(challenger, streams),
        Ok(None) => say::text(b"NoChallenger", streams),
        Err(why) => bad_table(why, streams),
    }
    say::end(
        notes,
        notes::NODES_FOUND_CHALLENGER,
        answer.refusal(),
        streams,
    );
}

fn waits(challenger: Challenger, streams: &mut Streams) {
    let two = [challenger.name, u64::from(challenger.wait)];
    say::form(b"Waits name=@ wait=#", &two, 0, streams);
}

// The table of the notes.
fn table(notes: &[u64]) -> [Node; MOST_RECORDS] {
    let mut table = [node(notes, notes::NODES); MOST_RECORDS];
    for (i, kept) in table.iter_mut().enumerate() {
        *kept = node(notes, record(notes::NODES, 4, i));
    }
    table
}

fn node(notes: &[u64], at: usize) -> Node {
    Node {
        present: get(notes, at) != 0,
        name: field(notes, at, 1),
        challenger: field(notes, at, 2),
        wait: field_as(notes, at, 3),
    }
}

// Notes a table, or the records at its start.
fn keep(notes: &mut [u64], table: &[Node]) {
    for (i, node) in table.iter().enumerate() {
        keep_node(notes, record(notes::NODES, 4, i), *node);
    }
}

// The records that are not all zeros.
pub fn show(notes: &[u64], streams: &mut Streams) {
    state::show_all(
        notes,
        b"  nodes[%",
        b"] present=? name=@ challenger=@ wait=#\n",
        notes::NODES,
        4,
        MOST_RECORDS,
        streams,
    );
}
