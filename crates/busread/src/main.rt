// Reads a capture of the bus from standard input and prints its report to standard output, in blocks and with constant
// memory (RULES 11.8 to 11.20).
#![tactic(auto)]

ghost use Rattle.std.specs.Prelude.{◌≡◌, ◌≤◌, length};
ghost use Rattle.message.specs.Receiver.{room};
ghost use Rattle.catalogue.specs.Packed.{packed_rows};
ghost use Rattle.busread.specs.Reader.{out_room, Ready};

mod reader;
mod report;
mod step;

use message::limits::STORAGE_BYTES;
use reader::{Going, Reader};
use std::io;
use streams::Streams;

// The reader after a block, and whether another is to be read. No enum: both of its cases would hold a reader.
#[derive(Clone, Copy)]
struct Fed {
    reader: Reader,
    more: bool,
}

fn main(rt: HostRuntime) -> io::Result<()> {
    let mut streams = Streams::new(&rt);
    let mut block = block();
    let mut storage = storage();
    let mut out = output();
    let table = catalogue::packed_rows();
    streams.write(b"format=1\n");
    let reader = reader::new();
    let reader = read_all(
        reader,
        &mut streams,
        &mut block,
        &mut storage,
        &mut out,
        &table,
    );
    let written_to = reader::finish(reader, &mut storage, &mut out, &table);
    streams.write(&out[..written_to]);
    streams.outcome()
}

// Room for a block of the input.
fn block() -> [u8; 65536]
    ensures { length result ≡ 65536 }
{
    [0; 65536]
}

// The receiver's storage.
fn storage() -> [u8; STORAGE_BYTES]
    ensures { length result ≡ 14280 }
{
    [0; STORAGE_BYTES]
}

// Room for what a run prints.
fn output() -> [u8; 131072]
    ensures { length result ≡ 131072 }
{
    [0; 131072]
}

// Block after block. Nothing says that an input ends, so the loop goes up to a number that no input reaches.
fn read_all(
    reader: Reader,
    streams: &mut Streams,
    block: &mut [u8],
    storage: &mut [u8],
    out: &mut [u8],
    table: &[u64],
) -> Reader
    requires { (out_room ≤ length out.old) × (room ≤ length storage.old) × Ready reader × (table.now ≡ packed_rows) }
    ensures { Ready result }
{
    let mut reader = reader;
    for _ in 0..u64::MAX {
        let fed = read_block(reader, streams, block, storage, out, table);
        reader = fed.reader;
        if !fed.more {
            break;
        }
    }
    reader
}

// Reads once; nothing read is the end.
fn read_block(
    reader: Reader,
    streams: &mut Streams,
    block: &mut [u8],
    storage: &mut [u8],
    out: &mut [u8],
    table: &[u64],
) -> Fed
    requires { (out_room ≤ length out.old) × (room ≤ length storage.old) × Ready reader × (table.now ≡ packed_rows) }
    ensures { Ready result.reader }
{
    let count = streams.read(block);
    if count == 0 {
        return Fed {
            reader,
            more: false,
        };
    }
    feed(reader, streams, &block[..count], storage, out, table)
}

// Takes the lines of a block, and writes what they print.
fn feed(
    reader: Reader,
    streams: &mut Streams,
    block: &[u8],
    storage: &mut [u8],
    out: &mut [u8],
    table: &[u64],
) -> Fed
    requires { (out_room ≤ length out.old) × (room ≤ length storage.old) × Ready reader × (table.now ≡ packed_rows) }
    ensures { Ready result.reader }
{
    let mut reader = reader;
    let mut read_to: usize = 0;
    // No iterator goes over the turns: how far one reads is known after it, and its output is written before the next.
    loop {
        let run = reader::lines(reader, block, read_to, storage, out, table);
        let written_to = run.written_to;
        streams.write(&out[..written_to]);
        reader = run.reader;
        let going = run.going;
        match going {
            Going::On => read_to = run.read_to,
            Going::Used => return Fed { reader, more: true },
            Going::Over => {
                return Fed {
                    reader,
                    more: false,
                };
            }
        }
    }
}
