// The capture's lines, block by block: what is kept between two lines, a run over the lines of a block, and the end.
ghost use Rattle.std.specs.Prelude.{◌≡◌, ◌+◌, ◌≤◌, length};
ghost use Rattle.traffic.specs.Counters.{seen_by, OneMore};
ghost use Rattle.traffic.specs.Reader.{half, out_room, Ready, Starts, Took, Went, stayed, Turned, Runs};
ghost use Rattle.traffic.specs.Reader.{ClosedBehind, Finished};

use crate::counters::Totals;
use crate::seen::Seen;
use crate::{counters, report, seen};
use capture::{Cutter, Cutting, Ending};

#[derive(Clone, Copy)]
pub struct Reader {
    pub cutter: Cutter,
    pub totals: Totals,
}

// Whether a run goes on in its block, has used it up, or has read all the lines that are read.
#[derive(Clone, Copy)]
pub enum Going {
    On,
    Used,
    Over,
}

// Where a run leaves the reader: the position up to which the block was read, and the place behind what was printed.
#[derive(Clone, Copy)]
pub struct Run {
    pub reader: Reader,
    pub read_to: usize,
    pub written_to: usize,
    pub going: Going,
}

// The totals after a line, and the place behind what it printed.
#[derive(Clone, Copy)]
struct Step {
    totals: Totals,
    written_to: usize,
}

// At the start of a capture.
pub fn new() -> Reader
    ensures { Starts result }
{
    Reader {
        cutter: Cutter::new(),
        totals: Totals {
            lines: 0,
            refused: 0,
            other: 0,
            pairs: 0,
            clock: 0,
        },
    }
}

// Takes lines of a block, from a position on, until the block is used up or half of the output is full.
pub fn lines(reader: Reader, block: &[u8], from: usize, table: &mut [u64], out: &mut [u8]) -> Run
    requires { (out_room ≤ length out.old) × Ready reader table.old }
    ensures { Runs block.now from reader table.old result table.new out.new }
{
    let mut reader = reader;
    let mut read_to = from;
    let mut written_to: usize = 0;
    // No iterator goes over the lines: where one ends is known after it, and whether there is room for the next.
    while written_to <= 65536 {
        let turned = turn(reader, block, read_to, table, out, written_to);
        let going = turned.going;
        match going {
            Going::On => {
                reader = turned.reader;
                read_to = turned.read_to;
                written_to = turned.written_to;
            }
            Going::Used => return turned,
            Going::Over => return turned,
        }
    }
    Run {
        reader,
        read_to,
        written_to,
        going: Going::On,
    }
}

// Takes the next line of a block, if it has one.
fn turn(
    reader: Reader,
    block: &[u8],
    read_to: usize,
    table: &mut [u64],
    out: &mut [u8],
    written_to: usize,
) -> Run
    requires { (out_room ≤ length out.old) × (written_to ≤ half) × Ready reader table.old }
    ensures { Turned block.now read_to reader table.old out.old written_to result
        table.new out.new }
{
    let old = reader.cutter;
    let cut = old.next(block, read_to);
    let cutter = cut.cutter;
    let totals = reader.totals;
    let answer = cut.answer;
    match answer {
        Cutting::Within { from, to } => {
            let seen = seen::look_at(&block[from..to]);
            line(totals, seen, cutter, cut.read_to, table, out, written_to)
        }
        Cutting::Carried(count) => {
            let carry = cutter.carry;
            let seen = seen::look_at(&carry[..count]);
            line(totals, seen, cutter, cut.read_to, table, out, written_to)
        }
        Cutting::TooLong => {
            let seen = seen::malformed();
            line(totals, seen, cutter, cut.read_to, table, out, written_to)
        }
        Cutting::BlockUsed => stays(reader, cutter, cut.read_to, written_to, Going::Used),
        Cutting::AllRead => stays(reader, cutter, cut.read_to, written_to, Going::Over),
    }
}

// Takes a line: it prints its refusal, if it has one, and is counted.
fn take(totals: Totals, line: Seen, table: &mut [u64], out: &mut [u8], written_to: usize) -> Step
    requires { (written_to + 64 ≤ length out.old) × OneMore totals table.old }
    ensures { Took totals table.old (seen_by line) out.old written_to result table.new
        out.new }
{
    let says = line.says;
    let end = report::put_says(out, written_to, totals.lines + 1, says);
    Step {
        totals: counters::count(totals, line, table),
        written_to: end,
    }
}

// Takes a line; the cutter goes on behind it.
fn line(
    totals: Totals,
    seen: Seen,
    cutter: Cutter,
    read_to: usize,
    table: &mut [u64],
    out: &mut [u8],
    written_to: usize,
) -> Run
    requires { (written_to + 64 ≤ length out.old) × OneMore totals table.old }
    ensures { Went totals table.old (seen_by seen) cutter read_to out.old written_to result
        table.new out.new }
{
    let step = take(totals, seen, table, out, written_to);
    let after = step.totals;
    Run {
        reader: Reader {
            cutter,
            totals: after,
        },
        read_to,
        written_to: step.written_to,
        going: Going::On,
    }
}

// Without a line.
fn stays(reader: Reader, cutter: Cutter, read_to: usize, written_to: usize, going: Going) -> Run
    ensures { result ≡ stayed reader cutter read_to written_to going }
{
    let totals = reader.totals;
    Run {
        reader: Reader { cutter, totals },
        read_to,
        written_to,
        going,
    }
}

// The end of the capture: a line that has no newline, then the figures.
pub fn finish(reader: Reader, table: &mut [u64], out: &mut [u8]) -> usize
    requires { (out_room ≤ length out.old) × Ready reader table.old }
    ensures { Finished reader table.old out.old result out.new }
{
    let cutter = reader.cutter;
    let totals = reader.totals;
    let ending = cutter.last();
    match ending {
        Ending::Carried(count) => {
            let carry = cutter.carry;
            close(totals, seen::look_at(&carry[..count]), table, out)
        }
        Ending::TooLong => close(totals, seen::malformed(), table, out),
        Ending::Nothing => report::put_figures(out, 0, totals, table),
    }
}

// The last line, and the figures behind what it prints.
fn close(totals: Totals, line: Seen, table: &mut [u64], out: &mut [u8]) -> usize
    requires { (out_room ≤ length out.old) × OneMore totals table.old }
    ensures { ClosedBehind totals table.old (seen_by line) out.old result out.new }
{
    let step = take(totals, line, table, out, 0);
    let after = step.totals;
    report::put_figures(out, step.written_to, after, table)
}
