// Reads a capture of the bus from standard input and prints what each pair of sender and DGN had of it, in blocks and
// with constant memory (RULES 15).
#![tactic(auto)]

ghost use Rattle.std.specs.Prelude.{◌≡◌, ◌≤◌, length};
ghost use Rattle.traffic.specs.Counters.{table_size};
ghost use Rattle.traffic.specs.Reader.{out_room, Ready, BlockTaken};

mod counters;
mod reader;
mod report;
mod seen;

use counters::TABLE_SIZE;
use reader::{Going, Reader};
use std::io;
use streams::Streams;

// The reader after a block, and whether another is to be read. No enum: both of its cases would hold a reader.
#[derive(Clone, Copy)]
struct Fed {
    reader: Reader,
    more: bool,
}

fn main(rt: HostRuntime) -> io::Result<()> {
    let mut streams = Streams::new(&rt);
    let mut block = block();
    let mut table = table();
    let mut out = output();
    streams.write(b"format=1\n");
    let reader = read_all(
        reader::new(),
        &mut streams,
        &mut block,
        &mut table,
        &mut out,
    );
    let written_to = reader::finish(reader, &mut table, &mut out);
    streams.write(&out[..written_to]);
    streams.outcome()
}

// Room for a block of the input.
fn block() -> [u8; 65536]
    ensures { length result ≡ 65536 }
{
    [0; 65536]
}

// The counters of the pairs.
fn table() -> [u64; TABLE_SIZE]
    ensures { length result ≡ table_size }
{
    [0; TABLE_SIZE]
}

// Room for what a run prints.
fn output() -> [u8; 131072]
    ensures { length result ≡ 131072 }
{
    [0; 131072]
}

// Block after block. Nothing says that an input ends, so the loop goes up to a number that no input reaches.
fn read_all(
    reader: Reader,
    streams: &mut Streams,
    block: &mut [u8],
    table: &mut [u64],
    out: &mut [u8],
) -> Reader
    requires { (out_room ≤ length out.old) × Ready reader table.old }
    ensures { Ready result table.new }
{
    let mut reader = reader;
    for _ in 0..u64::MAX {
        let fed = read_block(reader, streams, block, table, out);
        reader = fed.reader;
        if !fed.more {
            break;
        }
    }
    reader
}

// Reads once; nothing read is the end.
fn read_block(
    reader: Reader,
    streams: &mut Streams,
    block: &mut [u8],
    table: &mut [u64],
    out: &mut [u8],
) -> Fed
    requires { (out_room ≤ length out.old) × Ready reader table.old }
    ensures { Ready result.reader table.new }
{
    let count = streams.read(block);
    if count == 0 {
        return Fed {
            reader,
            more: false,
        };
    }
    feed(reader, streams, &block[..count], table, out)
}

// Takes the lines of a block, and writes what they print.
fn feed(
    reader: Reader,
    streams: &mut Streams,
    block: &[u8],
    table: &mut [u64],
    out: &mut [u8],
) -> Fed
    requires { (out_room ≤ length out.old) × Ready reader table.old }
    ensures { BlockTaken block.now reader table.old result table.new }
{
    let mut reader = reader;
    let mut read_to: usize = 0;
    // No iterator goes over the turns: how far one reads is known after it, and its output is written before the next.
    loop {
        let run = reader::lines(reader, block, read_to, table, out);
        let written_to = run.written_to;
        streams.write(&out[..written_to]);
        reader = run.reader;
        let going = run.going;
        match going {
            Going::On => read_to = run.read_to,
            Going::Used => return Fed { reader, more: true },
            Going::Over => {
                return Fed {
                    reader,
                    more: false,
                };
            }
        }
    }
}
