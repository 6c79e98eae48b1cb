// The capture's lines, block by block: a run over the lines of a block, and the end.
ghost use Rattle.std.specs.Prelude.{◌≡◌, ◌+◌, ◌≤◌, length};
ghost use Rattle.text.specs.Pieces.{Wrote};
ghost use Rattle.capture.specs.Stream.{whole, too_long};
ghost use Rattle.mend.specs.Reader.{half, out_room, piece_text, left_at, Turned, Runs, Finished};

use crate::report;
use capture::{Cutter, Cutting, Ending};

// The two passes: the first writes the capture, the second the report.
#[derive(Clone, Copy)]
pub enum Pass {
    Capture,
    Report,
}

// Whether a run goes on in its block, has used it up, or has read all the lines that are read.
#[derive(Clone, Copy)]
pub enum Going {
    On,
    Used,
    Over,
}

// Where a run leaves the cutter, the position up to which the block was read, and the place behind what was written.
#[derive(Clone, Copy)]
pub struct Run {
    pub cutter: Cutter,
    pub read_to: usize,
    pub written_to: usize,
    pub going: Going,
}

// Takes lines of a block, from a position on, until the block is used up or half of the output is full.
pub fn lines(pass: Pass, cutter: Cutter, block: &[u8], from: usize, out: &mut [u8]) -> Run
    requires { out_room ≤ length out.old }
    ensures { Runs pass block.now from cutter result out.new }
{
    let mut cutter = cutter;
    let mut read_to = from;
    let mut written_to: usize = 0;
    // No iterator goes over the lines: where one ends is known after it, and whether there is room for the next.
    while written_to <= 65536 {
        let turned = turn(pass, cutter, block, read_to, out, written_to);
        let going = turned.going;
        match going {
            Going::On => {
                cutter = turned.cutter;
                read_to = turned.read_to;
                written_to = turned.written_to;
            }
            Going::Used => return turned,
            Going::Over => return turned,
        }
    }
    left(cutter, read_to, written_to, Going::On)
}

// Takes the next line of a block, if it has one.
fn turn(
    pass: Pass,
    cutter: Cutter,
    block: &[u8],
    read_to: usize,
    out: &mut [u8],
    written_to: usize,
) -> Run
    requires { (out_room ≤ length out.old) × (written_to ≤ half) }
    ensures { Turned pass block.now read_to cutter out.old written_to result out.new }
{
    let cut = cutter.next(block, read_to);
    let after = cut.cutter;
    let answer = cut.answer;
    match answer {
        Cutting::Within { from, to } => {
            let end = put_whole(pass, after.lines, &block[from..to], out, written_to);
            left(after, cut.read_to, end, Going::On)
        }
        Cutting::Carried(count) => {
            let carry = after.carry;
            let end = put_whole(pass, after.lines, &carry[..count], out, written_to);
            left(after, cut.read_to, end, Going::On)
        }
        Cutting::TooLong => {
            let end = put_too_long(pass, after.lines, out, written_to);
            left(after, cut.read_to, end, Going::On)
        }
        Cutting::BlockUsed => left(after, cut.read_to, written_to, Going::Used),
        Cutting::AllRead => left(after, cut.read_to, written_to, Going::Over),
    }
}

// Where a turn leaves the run.
fn left(cutter: Cutter, read_to: usize, written_to: usize, going: Going) -> Run
    ensures { result ≡ left_at cutter read_to written_to going }
{
    Run {
        cutter,
        read_to,
        written_to,
        going,
    }
}

// What a pass writes of a line with this number.
fn put_whole(pass: Pass, number: u32, line: &[u8], out: &mut [u8], at: usize) -> usize
    requires { (at + 128 ≤ length out.old) × (length line.now ≤ 80) }
    ensures { Wrote out.old at (piece_text pass number (whole line.now)) out.new result
        × (result ≤ at + 128) }
{
    match pass {
        Pass::Capture => report::put_line(out, at, line),
        Pass::Report => report::put_report(out, at, number, line),
    }
}

// What a pass writes of a line of more than 80 bytes.
fn put_too_long(pass: Pass, number: u32, out: &mut [u8], at: usize) -> usize
    requires { at + 128 ≤ length out.old }
    ensures { Wrote out.old at (piece_text pass number too_long) out.new result × (result ≤ at + 128) }
{
    match pass {
        Pass::Capture => at,
        Pass::Report => report::put_dropped(out, at, number),
    }
}

// The end of the capture: a line that has no newline.
pub fn finish(pass: Pass, cutter: Cutter, out: &mut [u8]) -> usize
    requires { out_room ≤ length out.old }
    ensures { Finished pass cutter result out.new }
{
    let ending = cutter.last();
    match ending {
        Ending::Carried(count) => {
            let carry = cutter.carry;
            put_whole(pass, cutter.lines + 1, &carry[..count], out, 0)
        }
        Ending::TooLong => put_too_long(pass, cutter.lines + 1, out, 0),
        Ending::Nothing => 0,
    }
}
