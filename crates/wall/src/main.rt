// A wall panel of 32 tiles, shown in the terminal. It reads lines from standard input: those that name a tile, and
// those of a capture of the bus. A line that is refused is told at once; at the end of the input the wall is printed.
#![tactic(auto)]

mod show;
mod state;
mod tile_line;
mod values;

ghost use Rattle.std.specs.Prelude.{◌≡◌, ◌<◌, length};

use rvc::Refusal;
use rvc::captures::{Cutter, Cutting, Ending, NotRead};
use state::Wall;
use std::io;
use streams::Streams;

// The wall while it listens: the lines of its input so far, and whether more may come. No enum: both of its cases would
// hold a listener.
#[derive(Clone, Copy)]
struct Listener {
    cutter: Cutter,
    wall: Wall,
    more: bool,
}

// After a line of a block, and where the next one begins.
#[derive(Clone, Copy)]
struct Turn {
    listener: Listener,
    next: usize,
}

// Hears the whole input, and shows the wall.
fn main(rt: HostRuntime) -> io::Result<()> {
    let mut streams = Streams::new(&rt);
    let mut block = block();
    let listener = Listener {
        cutter: Cutter::new(),
        wall: state::new(),
        more: true,
    };
    let listener = listen(listener, &mut block, &mut streams);
    let wall = last_line(listener, &mut streams);
    show::show_wall(wall, &mut streams);
    streams.outcome()
}

// Room for a block of the input.
fn block() -> [u8; 65536]
    ensures { length result ≡ 65536 }
{
    [0; 65536]
}

// Block after block. Nothing says that an input ends, so the loop goes up to a number that no input reaches.
fn listen(listener: Listener, block: &mut [u8], streams: &mut Streams) -> Listener {
    let mut listener = listener;
    for _ in 0..u64::MAX {
        listener = read_block(listener, block, streams);
        if !listener.more {
            break;
        }
    }
    listener
}

// Reads once; nothing read is the end.
fn read_block(listener: Listener, block: &mut [u8], streams: &mut Streams) -> Listener {
    let count = streams.read(block);
    if count == 0 {
        return Listener {
            more: false,
            ..listener
        };
    }
    hear_block(listener, &block[..count], streams)
}

// The lines of a block.
fn hear_block(listener: Listener, block: &[u8], streams: &mut Streams) -> Listener {
    let mut listener = listener;
    let mut at: usize = 0;
    // No iterator goes over the lines: where one ends is known after it.
    while at < block.len() {
        let turn = next_line(listener, block, at, streams);
        listener = turn.listener;
        at = turn.next;
    }
    listener
}

// The next line of a block, if it has one.
fn next_line(listener: Listener, block: &[u8], at: usize, streams: &mut Streams) -> Turn
    requires { at < length block.now }
    ensures { at < result.next }
{
    let old = listener.cutter;
    let wall = listener.wall;
    let cut = old.next(block, at);
    let cutter = cut.cutter;
    let answer = cut.answer;
    match answer {
        Cutting::Within { from, to } => {
            let wall = hear_line(wall, cutter.lines, &block[from..to], streams);
            turned(cutter, wall, true, cut.read_to)
        }
        Cutting::Carried(count) => {
            let carry = cutter.carry;
            let wall = hear_line(wall, cutter.lines, &carry[..count], streams);
            turned(cutter, wall, true, cut.read_to)
        }
        Cutting::TooLong => {
            malformed(cutter.lines, streams);
            turned(cutter, wall, true, cut.read_to)
        }
        Cutting::BlockUsed => turned(cutter, wall, true, block.len()),
        Cutting::AllRead => turned(cutter, wall, false, block.len()),
    }
}

// A listener and a place, put together.
fn turned(cutter: Cutter, wall: Wall, more: bool, next: usize) -> Turn
    ensures { result.next ≡ next }
{
    Turn {
        listener: Listener { cutter, wall, more },
        next,
    }
}

// The end of the input, which may end a line. The cutter has not counted that line.
fn last_line(listener: Listener, streams: &mut Streams) -> Wall {
    let cutter = listener.cutter;
    let wall = listener.wall;
    let number = std::num::wrapping_add_u32(cutter.lines, 1);
    let ending = cutter.last();
    match ending {
        Ending::Carried(count) => {
            let carry = cutter.carry;
            hear_line(wall, number, &carry[..count], streams)
        }
        Ending::TooLong => {
            malformed(number, streams);
            wall
        }
        Ending::Nothing => wall,
    }
}

// A malformed line, by its number; so is one that is too long.
fn malformed(number: u32, streams: &mut Streams) {
    show::refused(number, NotRead::Malformed.refusal(), streams);
}

// A line of either kind, by its number.
fn hear_line(wall: Wall, number: u32, text: &[u8], streams: &mut Streams) -> Wall {
    if tile_line::begins(text) {
        return name_tile(wall, number, text, streams);
    }
    hear_frame(wall, number, text, streams)
}

// A line that names a tile.
fn name_tile(wall: Wall, number: u32, text: &[u8], streams: &mut Streams) -> Wall {
    let Some(line) = tile_line::take_apart(text) else {
        malformed(number, streams);
        return wall;
    };
    let step = state::name(wall, line);
    show::refused(number, step.answer.refusal(), streams);
    step.wall
}

// A line of a capture: the pause before its frame, then the frame. A malformed line passes no time.
fn hear_frame(wall: Wall, number: u32, text: &[u8], streams: &mut Streams) -> Wall {
    let line = rvc::captures::take_apart(text);
    match line.answer {
        Ok(()) => {
            let wall = state::pause(wall, line.gap);
            let step = state::hear(wall, line.id, line.bytes);
            show::refused(number, step.answer.refusal(), streams);
            step.wall
        }
        Err(_) => {
            malformed(number, streams);
            wall
        }
    }
}
