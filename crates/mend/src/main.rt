// Mends a capture that was edited by hand (RULES 17): reads the file whose name is its argument twice, in blocks and
// with constant memory. The first pass writes the sound capture to standard output, the second a line for each line
// that was changed or dropped. Where the file or the output fails it says so on standard error, and stops.
#![tactic(auto)]

ghost use Rattle.std.specs.Prelude.{◌≡◌, ◌≤◌, length, take};
ghost use Rattle.mend.specs.Reader.{out_room, BlockTaken};

mod fields;
mod line;
mod reader;
mod report;

use capture::Cutter;
use reader::{Going, Pass};
use std::env::{Env, FillError};
use std::fs::File;
use std::io::{Cursor, Print, Read, Seek, SeekFrom, Write};
use std::{io, str};

// The cutter after a block, whether another is to be read, and whether all was read and written. Two flags: each
// case of an enum would hold the cutter, and the rest of a block is still written after a write that failed.
#[derive(Clone, Copy)]
struct Fed {
    cutter: Cutter,
    more: bool,
    well: bool,
}

fn main(rt: HostRuntime) {
    let mut name = [0u8; 4096];
    let first = rt.arg(1, &mut name);
    let mut other = [0u8; 1];
    let second = rt.arg(2, &mut other);
    if is_missing(first) || !is_missing(second) {
        say(&rt, b"mend: it takes the name of one file\n");
        return;
    }
    match first {
        Ok(count) => mend(&rt, &name[..count]),
        Err(_) => say(&rt, b"mend: the file's name: File name too long\n"),
    }
}

// Whether the program was given fewer arguments.
fn is_missing(argument: Result<usize, FillError>) -> bool {
    matches!(argument, Err(FillError::NotPresent))
}

// Both passes over the file of this name. Each begins at its start: a file that has none, as a pipe, is not read.
fn mend(rt: &HostRuntime, name: &[u8]) {
    let path = match str::from_utf8(name) {
        Ok(path) => path,
        Err(_) => {
            say(rt, b"mend: the file's name: it is no text in UTF-8\n");
            return;
        }
    };
    let mut file = match File::open(rt, path) {
        Ok(file) => file,
        Err(error) => {
            fail(rt, name, error);
            return;
        }
    };
    if !run(rt, Pass::Capture, &mut file, name) {
        return;
    }
    run(rt, Pass::Report, &mut file, name);
}

// One pass over the file; false where something failed.
fn run(rt: &HostRuntime, pass: Pass, file: &mut File, name: &[u8]) -> bool {
    if let Err(error) = file.seek(SeekFrom::Start(0)) {
        fail(rt, name, error);
        return false;
    }
    let mut block = block();
    let mut out = output();
    let fed = read_all(rt, pass, file, name, &mut block, &mut out);
    if !fed.well {
        return false;
    }
    let cutter = fed.cutter;
    let written_to = reader::finish(pass, cutter, &mut out);
    write(rt, &out[..written_to])
}

// Says on standard error why the file cannot be read.
fn fail(rt: &HostRuntime, name: &[u8], error: io::Error) {
    let mut word = [0u8; 8192];
    let key_end = text::put(&mut word, 0, b"mend: ");
    let end = text::put(&mut word, key_end, name);
    explain(rt, &word[..end], error);
}

// Writes to standard output; false, with a word on standard error, where that fails.
fn write(rt: &HostRuntime, words: &[u8]) -> bool {
    match rt.write_all(words) {
        Ok(()) => true,
        Err(error) => {
            explain(rt, b"mend: standard output", error);
            false
        }
    }
}

// Says on standard error what failed and, in the system's words, why.
fn explain(rt: &HostRuntime, what: &[u8], error: io::Error) {
    let mut printed = Cursor::new([0u8; 256]);
    let _ = write!(printed, "{error}");
    let why = printed.into_inner();
    let end = words_end(&why);
    say(rt, what);
    say(rt, b": ");
    say(rt, &why[..end]);
    say(rt, b"\n");
}

// Where the system's words end in what is printed of an error: behind them stands the error's number, or nothing.
fn words_end(why: &[u8]) -> usize
    ensures { (result ≤ length why.now) × (result ≡ length (take result why.now)) }
{
    for i in 0..why.len() {
        if why[i] == 0 || why[i..].starts_with(b" (os error ") {
            return i;
        }
    }
    why.len()
}

// Writes to standard error. Where that fails there is nowhere to say so.
fn say(rt: &HostRuntime, words: &[u8]) {
    let _ = rt.stderr().write_all(words);
}

// Room for a block of the file.
fn block() -> [u8; 65536]
    ensures { length result ≡ 65536 }
{
    [0; 65536]
}

// Room for what a run writes.
fn output() -> [u8; 131072]
    ensures { length result ≡ 131072 }
{
    [0; 131072]
}

// Block after block. Nothing says that a file ends, so the loop goes up to a number that no file reaches.
fn read_all(
    rt: &HostRuntime,
    pass: Pass,
    file: &mut File,
    name: &[u8],
    block: &mut [u8],
    out: &mut [u8],
) -> Fed
    requires { out_room ≤ length out.old }
{
    let mut cutter = Cutter::new();
    for _ in 0..u64::MAX {
        let fed = read_block(rt, pass, cutter, file, name, block, out);
        if !fed.well {
            return fed;
        }
        if !fed.more {
            return fed;
        }
        cutter = fed.cutter;
    }
    Fed {
        cutter,
        more: false,
        well: true,
    }
}

// Reads once; nothing read is the end.
fn read_block(
    rt: &HostRuntime,
    pass: Pass,
    cutter: Cutter,
    file: &mut File,
    name: &[u8],
    block: &mut [u8],
    out: &mut [u8],
) -> Fed
    requires { out_room ≤ length out.old }
{
    let count = match file.read(block) {
        Ok(count) => count,
        Err(error) => {
            fail(rt, name, error);
            return Fed {
                cutter,
                more: false,
                well: false,
            };
        }
    };
    if count == 0 {
        return Fed {
            cutter,
            more: false,
            well: true,
        };
    }
    feed(rt, pass, cutter, &block[..count], out)
}

// Takes the lines of a block, and writes what is to be written of them.
fn feed(rt: &HostRuntime, pass: Pass, cutter: Cutter, block: &[u8], out: &mut [u8]) -> Fed
    requires { out_room ≤ length out.old }
    ensures { BlockTaken block.now cutter result }
{
    let mut cutter = cutter;
    let mut read_to: usize = 0;
    let mut well = true;
    // No iterator goes over the turns: how far one reads is known after it, and its output is written before the next.
    loop {
        let run = reader::lines(pass, cutter, block, read_to, out);
        let written_to = run.written_to;
        if !write(rt, &out[..written_to]) {
            well = false;
        }
        cutter = run.cutter;
        let going = run.going;
        match going {
            Going::On => read_to = run.read_to,
            Going::Used => {
                return Fed {
                    cutter,
                    more: true,
                    well,
                };
            }
            Going::Over => {
                return Fed {
                    cutter,
                    more: false,
                    well,
                };
            }
        }
    }
}
