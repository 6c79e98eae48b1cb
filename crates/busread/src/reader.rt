// The capture's lines, block by block: what is kept between two lines, a run over the lines of a block, and the end.
ghost use Rattle.std.specs.Prelude.{◌≡◌, ◌≤◌, length, replicate};
ghost use Rattle.message.specs.Receiver.{room};
ghost use Rattle.catalogue.specs.Packed.{packed_rows};
ghost use Rattle.capture.specs.Line.{line_read};
ghost use Rattle.capture.specs.Cutter.{fresh};
ghost use Rattle.text.specs.Pieces.{Wrote};
ghost use Rattle.busread.specs.Report.{at_start};
ghost use Rattle.busread.specs.Reader.{half, out_room, kept_by, Ready, OneMore, after, Went, WentPast, stayed};
ghost use Rattle.busread.specs.Reader.{Turned, Runs, end_text};

use crate::report::Counts;
use crate::step::Step;
use crate::{report, step};
use capture::{Cutter, Cutting, Ending};
use message::Receiver;

#[derive(Clone, Copy)]
pub struct Reader {
    pub cutter: Cutter,
    pub receiver: Receiver,
    pub counts: Counts,
}

// Whether a run goes on in its block, has used it up, or has read all the lines that are read.
#[derive(Clone, Copy)]
pub enum Going {
    On,
    Used,
    Over,
}

// Where a run leaves the reader: the position up to which the block was read, and the place behind what was printed.
#[derive(Clone, Copy)]
pub struct Run {
    pub reader: Reader,
    pub read_to: usize,
    pub written_to: usize,
    pub going: Going,
}

// At the start of a capture.
pub fn new() -> Reader
    ensures { (result.cutter ≡ fresh) × (kept_by result (replicate room 0) ≡ at_start) × Ready result }
{
    Reader {
        cutter: Cutter::new(),
        receiver: Receiver::new(),
        counts: Counts {
            frames: 0,
            refused: 0,
            messages: 0,
        },
    }
}

// Takes lines of a block, from a position on, until the block is used up or half of the output is full.
pub fn lines(
    reader: Reader,
    block: &[u8],
    from: usize,
    storage: &mut [u8],
    out: &mut [u8],
    table: &[u64],
) -> Run
    requires { (out_room ≤ length out.old) × (room ≤ length storage.old) × Ready reader × (table.now ≡ packed_rows) }
    ensures { Runs block.now from reader storage.old result storage.new out.new }
{
    let mut reader = reader;
    let mut read_to = from;
    let mut written_to: usize = 0;
    // No iterator goes over the lines: where one ends is known after it, and whether there is room for the next.
    while written_to <= 65536 {
        let turned = turn(reader, block, read_to, storage, out, written_to, table);
        let going = turned.going;
        match going {
            Going::On => {
                reader = turned.reader;
                read_to = turned.read_to;
                written_to = turned.written_to;
            }
            Going::Used => return turned,
            Going::Over => return turned,
        }
    }
    Run {
        reader,
        read_to,
        written_to,
        going: Going::On,
    }
}

// Takes the next line of a block, if it has one.
fn turn(
    reader: Reader,
    block: &[u8],
    read_to: usize,
    storage: &mut [u8],
    out: &mut [u8],
    written_to: usize,
    table: &[u64],
) -> Run
    requires { (out_room ≤ length out.old) × (written_to ≤ half) × (room ≤ length storage.old) × Ready reader
        × (table.now ≡ packed_rows) }
    ensures { Turned block.now read_to reader storage.old out.old written_to result
        storage.new out.new }
{
    let old = reader.cutter;
    let cut = old.next(block, read_to);
    let cutter = cut.cutter;
    let answer = cut.answer;
    match answer {
        Cutting::Within { from, to } => line(
            reader,
            cutter,
            cut.read_to,
            &block[from..to],
            storage,
            out,
            written_to,
            table,
        ),
        Cutting::Carried(count) => {
            let carry = cutter.carry;
            line(
                reader,
                cutter,
                cut.read_to,
                &carry[..count],
                storage,
                out,
                written_to,
                table,
            )
        }
        Cutting::TooLong => long_line(reader, cutter, cut.read_to, out, written_to),
        Cutting::BlockUsed => stays(reader, cutter, cut.read_to, written_to, Going::Used),
        Cutting::AllRead => stays(reader, cutter, cut.read_to, written_to, Going::Over),
    }
}

// Takes a line; the cutter goes on behind it.
fn line(
    reader: Reader,
    cutter: Cutter,
    read_to: usize,
    text: &[u8],
    storage: &mut [u8],
    out: &mut [u8],
    written_to: usize,
    table: &[u64],
) -> Run
    requires { (out_room ≤ length out.old) × (written_to ≤ half) × (room ≤ length storage.old) × OneMore reader.counts
        × (table.now ≡ packed_rows) }
    ensures { Went reader cutter read_to (line_read text.now) storage.old out.old
        written_to result storage.new out.new }
{
    let receiver = reader.receiver;
    let counts = reader.counts;
    let step = step::take(receiver, counts, text, storage, out, written_to, table);
    taken(cutter, read_to, step)
}

// Passes over a line of more than 80 bytes.
fn long_line(
    reader: Reader,
    cutter: Cutter,
    read_to: usize,
    out: &mut [u8],
    written_to: usize,
) -> Run
    requires { (out_room ≤ length out.old) × (written_to ≤ half) × OneMore reader.counts }
    ensures { WentPast reader cutter read_to out.old written_to result out.new }
{
    let receiver = reader.receiver;
    let counts = reader.counts;
    let step = step::malformed(receiver, counts, out, written_to);
    taken(cutter, read_to, step)
}

// After a line.
fn taken(cutter: Cutter, read_to: usize, step: Step) -> Run
    ensures { result ≡ after cutter read_to step }
{
    let receiver = step.receiver;
    let counts = step.counts;
    Run {
        reader: Reader {
            cutter,
            receiver,
            counts,
        },
        read_to,
        written_to: step.written_to,
        going: Going::On,
    }
}

// Without a line.
fn stays(reader: Reader, cutter: Cutter, read_to: usize, written_to: usize, going: Going) -> Run
    ensures { result ≡ stayed reader cutter read_to written_to going }
{
    let receiver = reader.receiver;
    let counts = reader.counts;
    Run {
        reader: Reader {
            cutter,
            receiver,
            counts,
        },
        read_to,
        written_to,
        going,
    }
}

// The end of the capture: a line that has no newline, then the closing line.
pub fn finish(reader: Reader, storage: &mut [u8], out: &mut [u8], table: &[u64]) -> usize
    requires { (out_room ≤ length out.old) × (room ≤ length storage.old) × Ready reader × (table.now ≡ packed_rows) }
    ensures { Wrote out.old 0 (end_text reader.cutter (kept_by reader storage.old)) out.new result }
{
    let cutter = reader.cutter;
    let receiver = reader.receiver;
    let counts = reader.counts;
    let ending = cutter.last();
    match ending {
        Ending::Carried(count) => {
            let carry = cutter.carry;
            let step = step::take(receiver, counts, &carry[..count], storage, out, 0, table);
            let counts = step.counts;
            report::put_closing(out, step.written_to, counts)
        }
        Ending::TooLong => {
            let step = step::malformed(receiver, counts, out, 0);
            let counts = step.counts;
            report::put_closing(out, step.written_to, counts)
        }
        Ending::Nothing => report::put_closing(out, 0, counts),
    }
}
