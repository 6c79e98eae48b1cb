// A panel for tanks, chargers and slides: it claims an address, answers requests, broadcasts a fault of its own, shows
// who has which address and what the tanks, chargers and slides of a coach said last, and says when that is stale. It
// hears a recorded exchange on standard input, a line for each frame; a frame that it would send is printed behind the
// word `send`.
#![tactic(auto)]

mod names;
mod network;
mod own_faults;
mod replies;
mod show;
mod state;

ghost use Rattle.std.specs.Prelude.{◌≡◌, ◌<◌, length};

use rvc::Refusal;
use rvc::captures::{Cutter, Cutting, Ending, NotRead};
use rvc::identifiers::Parts;
use rvc::messages::limits::STORAGE_BYTES;
use state::Panel;
use std::io;
use streams::Streams;

// The panel while it listens: the lines of its input so far, and whether more may come. No enum: both of its cases
// would hold a listener.
#[derive(Clone, Copy)]
struct Listener {
    cutter: Cutter,
    panel: Panel,
    more: bool,
}

// After a line of a block, and where the next one begins.
#[derive(Clone, Copy)]
struct Turn {
    listener: Listener,
    next: usize,
}

fn main(rt: HostRuntime) -> io::Result<()> {
    let mut streams = Streams::new(&rt);
    let mut block = block();
    let mut storage = [0u8; STORAGE_BYTES];
    let listener = Listener {
        cutter: Cutter::new(),
        panel: network::start(&mut streams),
        more: true,
    };
    let listener = listen(listener, &mut block, &mut storage, &mut streams);
    let panel = last_line(listener, &mut storage, &mut streams);
    show::show_panel(panel, &mut streams);
    streams.outcome()
}

// Room for a block of the input.
fn block() -> [u8; 65536]
    ensures { length result ≡ 65536 }
{
    [0; 65536]
}

// Block after block. Nothing says that an input ends, so the loop goes up to a number that no input reaches.
fn listen(
    listener: Listener,
    block: &mut [u8],
    storage: &mut [u8],
    streams: &mut Streams,
) -> Listener {
    let mut listener = listener;
    for _ in 0..u64::MAX {
        listener = read_block(listener, block, storage, streams);
        if !listener.more {
            break;
        }
    }
    listener
}

// Reads once; nothing read is the end.
fn read_block(
    listener: Listener,
    block: &mut [u8],
    storage: &mut [u8],
    streams: &mut Streams,
) -> Listener {
    let count = streams.read(block);
    if count == 0 {
        return Listener {
            more: false,
            ..listener
        };
    }
    hear_block(listener, &block[..count], storage, streams)
}

// The lines of a block.
fn hear_block(
    listener: Listener,
    block: &[u8],
    storage: &mut [u8],
    streams: &mut Streams,
) -> Listener {
    let mut listener = listener;
    let mut at: usize = 0;
    // No iterator goes over the lines: where one ends is known after it.
    while at < block.len() {
        let turn = next_line(listener, block, at, storage, streams);
        listener = turn.listener;
        at = turn.next;
    }
    listener
}

// The next line of a block, if it has one.
fn next_line(
    listener: Listener,
    block: &[u8],
    at: usize,
    storage: &mut [u8],
    streams: &mut Streams,
) -> Turn
    requires { at < length block.now }
    ensures { at < result.next }
{
    let old = listener.cutter;
    let panel = listener.panel;
    let cut = old.next(block, at);
    let cutter = cut.cutter;
    let answer = cut.answer;
    match answer {
        Cutting::Within { from, to } => {
            let panel = hear_line(panel, &block[from..to], storage, streams);
            turned(cutter, panel, true, cut.read_to)
        }
        Cutting::Carried(count) => {
            let carry = cutter.carry;
            let panel = hear_line(panel, &carry[..count], storage, streams);
            turned(cutter, panel, true, cut.read_to)
        }
        Cutting::TooLong => {
            too_long(streams);
            turned(cutter, panel, true, cut.read_to)
        }
        Cutting::BlockUsed => turned(cutter, panel, true, block.len()),
        Cutting::AllRead => turned(cutter, panel, false, block.len()),
    }
}

fn turned(cutter: Cutter, panel: Panel, more: bool, next: usize) -> Turn
    ensures { result.next ≡ next }
{
    Turn {
        listener: Listener {
            cutter,
            panel,
            more,
        },
        next,
    }
}

// The end of the input, which may end a line.
fn last_line(listener: Listener, storage: &mut [u8], streams: &mut Streams) -> Panel {
    let cutter = listener.cutter;
    let panel = listener.panel;
    let ending = cutter.last();
    match ending {
        Ending::Carried(count) => {
            let carry = cutter.carry;
            hear_line(panel, &carry[..count], storage, streams)
        }
        Ending::TooLong => {
            too_long(streams);
            panel
        }
        Ending::Nothing => panel,
    }
}

// A line that is too long is malformed.
fn too_long(streams: &mut Streams) {
    show::refused(NotRead::Malformed.refusal(), streams);
}

// A line: the pause before its frame, then the frame. A malformed line passes no time.
fn hear_line(panel: Panel, text: &[u8], storage: &mut [u8], streams: &mut Streams) -> Panel {
    let line = rvc::captures::take_apart(text);
    match line.answer {
        Ok(()) => {
            let panel = network::pause(panel, line.gap, streams);
            hear_frame(panel, line.id, line.bytes, storage, streams)
        }
        Err(why) => {
            show::refused(why.refusal(), streams);
            panel
        }
    }
}

// A frame that is refused by itself is refused once, whatever it is for.
fn hear_frame(
    panel: Panel,
    id: u32,
    bytes: [u8; 8],
    storage: &mut [u8],
    streams: &mut Streams,
) -> Panel {
    match rvc::identifiers::check(id, &bytes).verdict {
        Ok(parts) => hear_sound(panel, parts, id, bytes, storage, streams),
        Err(why) => {
            show::refused(why.refusal(), streams);
            panel
        }
    }
}

// Each part of the panel hears every sound frame, and leaves those that are not meant for it. What a frame can change
// is what its part returns.
fn hear_sound(
    panel: Panel,
    parts: Parts,
    id: u32,
    bytes: [u8; 8],
    storage: &mut [u8],
    streams: &mut Streams,
) -> Panel {
    let contested = network::contest(panel.claim, id, bytes, streams);
    let claim = contested.claim;
    let nodes = panel.nodes;
    let nodes = names::hear_claim(nodes, id, bytes, streams);
    let nodes = network::hear_own_claim(nodes, contested, streams);
    let receiver = network::join(panel.receiver, id, bytes, storage, streams);
    let host = panel.host;
    let faults = panel.faults;
    replies::answer_request(faults.sender, host, claim, id, bytes, streams);
    replies::answer_command(host, claim, parts.source, id, bytes, streams);
    let tanks = panel.tanks;
    let chargers = panel.chargers;
    let slides = panel.slides;
    Panel {
        claim,
        nodes,
        host,
        faults,
        receiver,
        tanks: state::hear_tank(tanks, parts.dgn, id, bytes, streams),
        chargers: state::hear_charger(chargers, parts.dgn, id, bytes, streams),
        slides: state::hear_slide(slides, parts.dgn, id, bytes, streams),
    }
}
