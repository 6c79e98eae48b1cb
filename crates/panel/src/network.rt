// The panel as a node of the network: its address, and the long messages that it joins.
use crate::state::Panel;
use crate::{names, own_faults, replies, show, state};
use rvc::Refusal;
use rvc::claims::{Claim, Heard, Place, Reaction};
use rvc::messages::{Event, Receiver};
use rvc::node_table::{Node, RECORDS};
use streams::Streams;

// The panel's NAME (3.3): no other node of the coach has it.
const NAME: u64 = 0x8000_1234_5678_9ABC;

// 3.2.8.
const PRODUCT_IDENTIFICATION: u32 = 0xFEEB;

// Claims the first of two addresses.
pub fn start(streams: &mut Streams) -> Panel {
    let started = Claim::start(NAME, b"\x9C\x9D");
    let bytes = started.bytes;
    let claim = started.claim;
    match started.answer {
        Ok(()) => {
            show::send(started.id, bytes, streams);
            show::show_standing(claim, streams);
        }
        Err(why) => show::refused(why.refusal(), streams),
    }
    let nodes = names::hear_claim(rvc::node_table::empty(), started.id, bytes, streams);
    state::new(
        claim,
        nodes,
        replies::start(streams),
        own_faults::start(streams),
    )
}

// Time passes for the claim, for our faults, for the node table, for the open messages, and for what the panel shows.
// For simplicity the whole pause is the claim's first: an address that is held at its end is held for all its steps.
pub fn pause(panel: Panel, gap: u16, streams: &mut Streams) -> Panel {
    let claim = pause_claim(panel.claim, gap, streams);
    let faults = own_faults::pause(panel.faults, claim, gap, streams);
    let nodes = panel.nodes;
    let nodes = names::pause_nodes(nodes, gap, streams);
    let receiver = pause_receiver(panel.receiver, gap, streams);
    let tanks = panel.tanks;
    let chargers = panel.chargers;
    let tanks = state::pause_tanks(tanks, gap, streams);
    let chargers = state::pause_chargers(chargers, gap, streams);
    let mut panel = panel;
    panel.claim = claim;
    panel.faults = faults;
    panel.nodes = nodes;
    panel.receiver = receiver;
    panel.tanks = tanks;
    panel.chargers = chargers;
    panel
}

// An address is held after 250 ms, and is then told.
fn pause_claim(claim: Claim, gap: u16, streams: &mut Streams) -> Claim {
    let paused = claim.pause(gap);
    let answer = paused.answer;
    let after = paused.claim;
    show::refused(answer.refusal(), streams);
    if is_held(claim) != is_held(after) {
        show::show_standing(after, streams);
    }
    after
}

fn is_held(claim: Claim) -> bool {
    matches!(claim.stands(), Ok(Place::Held(_)))
}

// A message whose sender pauses for too long is dropped without a word.
fn pause_receiver(receiver: Receiver, gap: u16, streams: &mut Streams) -> Receiver {
    let paused = receiver.pause(gap);
    let answer = paused.answer;
    show::refused(answer.refusal(), streams);
    paused.receiver
}

// A rival's claim at our address: a lower NAME wins it, and we go on to the next (3.3).
pub fn contest(claim: Claim, id: u32, bytes: [u8; 8], streams: &mut Streams) -> Heard {
    let heard = claim.hear(id, &bytes);
    let to_send = heard.bytes;
    match heard.answer {
        Ok(Reaction::NothingToDo) => {}
        Ok(Reaction::OwnName) => show::say(b"own name heard\n", streams),
        Ok(Reaction::SendClaimAgain) => show::send(heard.id, to_send, streams),
        Ok(Reaction::SendNextClaim | Reaction::SendCannotClaim) => {
            show::send(heard.id, to_send, streams);
            show::show_standing(heard.claim, streams);
        }
        Err(why) => show::refused(why.refusal(), streams),
    }
    heard
}

// The node table hears what we claim, as every other node does. A claim that we send again ends a challenge.
pub fn hear_own_claim(
    nodes: [Node; RECORDS],
    contested: Heard,
    streams: &mut Streams,
) -> [Node; RECORDS] {
    let bytes = contested.bytes;
    match contested.answer {
        Ok(Reaction::SendClaimAgain | Reaction::SendNextClaim | Reaction::SendCannotClaim) =>
            names::hear_claim(nodes, contested.id, bytes, streams),
        Ok(Reaction::NothingToDo | Reaction::OwnName) | Err(_) => nodes,
    }
}

// A frame of a long message; the storage is lent to the receiver.
pub fn join(
    receiver: Receiver,
    id: u32,
    bytes: [u8; 8],
    storage: &mut [u8],
    streams: &mut Streams,
) -> Receiver {
    let heard = receiver.hear(storage, id, &bytes);
    let answer = heard.answer;
    show::refused(answer.refusal(), streams);
    if let Ok(Event::Finished { sender, dgn, .. }) = answer {
        finished(
            sender,
            dgn,
            rvc::messages::message(storage, answer),
            streams,
        );
    }
    heard.receiver
}

// The panel shows product identifications, and no other long message.
fn finished(sender: u8, dgn: u32, text: &[u8], streams: &mut Streams) {
    if dgn == PRODUCT_IDENTIFICATION {
        show::show_product(sender, text, streams);
    }
}
