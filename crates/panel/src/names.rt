// Who has which address: the panel's node table. `hear`, `pause` and `look_up` lend it to the library as a slice, and
// nothing else does.
ghost use Rattle.std.specs.Prelude.{◌≡◌};
ghost use Rattle.nodes.specs.Promises.{Hear, LookUp, Pause};

use crate::show;
use rvc::Refusal;
use rvc::identifiers::standard::NO_ADDRESS;
use rvc::node_table::{Effect, Hearing, LookedUp, Node, Pausing, RECORDS};
use streams::Streams;

// A table after a frame, and what was answered.
#[derive(Clone, Copy)]
struct After {
    table: [Node; RECORDS],
    answer: Hearing,
}

// A table after a pause, likewise.
#[derive(Clone, Copy)]
struct AfterPause {
    table: [Node; RECORDS],
    answer: Pausing,
}

// Hears a frame, and shows who takes or challenges an address by it. A claim gives up any other address of its sender,
// which a challenger then takes.
pub fn hear_claim(
    table: [Node; RECORDS],
    id: u32,
    bytes: [u8; 8],
    streams: &mut Streams,
) -> [Node; RECORDS] {
    let after = hear(table, id, &bytes);
    let heard = after.table;
    match after.answer {
        Ok(Effect::Taken(address)) => {
            show_node(heard, address, streams);
            show_others(table, heard, address, streams);
        }
        Ok(Effect::Challenges(address)) => {
            show::show_challenger(address, rvc::identifiers::number_of(bytes), streams);
            show_others(table, heard, address, streams);
        }
        Ok(Effect::HeldByLower(address)) => show_others(table, heard, address, streams),
        Ok(Effect::Silent) => show_others(table, heard, NO_ADDRESS, streams),
        Ok(Effect::NothingToDo) => {}
        Err(why) => show::refused(why.refusal(), streams),
    }
    heard
}

// Time passes for the challengers, and those that it gives an address are shown.
pub fn pause_nodes(table: [Node; RECORDS], gap: u16, streams: &mut Streams) -> [Node; RECORDS] {
    let after = pause(table, gap);
    let paused = after.table;
    match after.answer {
        Ok(0) => {}
        Ok(_) => show_others(table, paused, NO_ADDRESS, streams),
        Err(why) => show::refused(why.refusal(), streams),
    }
    paused
}

// Everybody who has an address.
pub fn show_nodes(table: [Node; RECORDS], streams: &mut Streams) {
    for address in 0..NO_ADDRESS {
        show_node(table, address, streams);
    }
}

// Everybody who has an address that another NAME had before, except at the address that is shown already.
fn show_others(before: [Node; RECORDS], after: [Node; RECORDS], shown: u8, streams: &mut Streams) {
    for address in 0..NO_ADDRESS {
        if address != shown {
            show_change(
                before[address as usize],
                after[address as usize],
                address,
                streams,
            );
        }
    }
}

// Who has an address, if it is another NAME than before.
fn show_change(before: Node, after: Node, address: u8, streams: &mut Streams) {
    if after.name != before.name && after.present {
        show::show_name(address, after.name, streams);
    }
}

// Who has an address, if anybody has.
fn show_node(table: [Node; RECORDS], address: u8, streams: &mut Streams) {
    match look_up(table, address) {
        Ok(Some(name)) => show::show_name(address, name, streams),
        Ok(None) => {}
        Err(why) => show::refused(why.refusal(), streams),
    }
}

fn hear(table: [Node; RECORDS], id: u32, bytes: &[u8]) -> After
    ensures { Hear table id bytes.now result.answer result.table }
{
    let mut lent = table;
    let answer = rvc::node_table::hear(&mut lent, id, bytes);
    left(lent, answer)
}

fn left(table: [Node; RECORDS], answer: Hearing) -> After
    ensures { (result.table ≡ table) × (result.answer ≡ answer) }
{
    After { table, answer }
}

fn pause(table: [Node; RECORDS], gap: u16) -> AfterPause
    ensures { Pause table gap result.answer result.table }
{
    let mut lent = table;
    let answer = rvc::node_table::pause(&mut lent, gap);
    left_by_pause(lent, answer)
}

fn left_by_pause(table: [Node; RECORDS], answer: Pausing) -> AfterPause
    ensures { (result.table ≡ table) × (result.answer ≡ answer) }
{
    AfterPause { table, answer }
}

fn look_up(table: [Node; RECORDS], address: u8) -> LookedUp
    ensures { LookUp table address result }
{
    let lent = table;
    rvc::node_table::look_up(&lent, address)
}
