// Captures of the bus as text, one frame a line (RULES 11.1 to 11.7): a line taken apart, the one line of a frame
// written, and a stream cut into lines.
#![tactic(auto)]

mod blocks;
mod spelling;

ghost use Rattle.std.specs.Prelude.{◌≡◌, IfSome, Ok};
ghost use Rattle.capture.specs.Promises.{TakeApart, Write, New, Next, Last, number_of_not_read};
ghost use Rattle.capture.specs.Line.{line_read};
ghost use Rattle.capture.specs.Private.{told_line};

use words::Refusal;

// A line has at most so many bytes before its newline, and so many lines are read.
pub const LONGEST_LINE: usize = 80;

pub const MOST_LINES: u32 = 1000000;

// The shortest line of a frame, the longest, and what of it is not the decimals of its gap.
const SHORTEST_LINE: usize = 39;

pub const TEXT_BYTES: usize = 43;

const KEYS_AND_DIGITS: usize = 38;

// The greatest gap, in milliseconds.
const GREATEST_GAP: u32 = 65535;

// Why a line is not that of a frame: refusal 19.
#[derive(Clone, Copy)]
pub enum NotRead {
    Malformed,
}

// Whether a line is that of a frame, or why not.
pub type Reading = Result<(), NotRead>;

// A line taken apart: the pause before its frame, the identifier and the bytes; zeros where it is malformed.
#[derive(Clone, Copy)]
pub struct Line {
    pub answer: Reading,
    pub gap: u16,
    pub id: u32,
    pub bytes: [u8; 8],
}

// The line of a frame, without its newline: the first `count` bytes. The rest are zeros.
#[derive(Clone, Copy)]
pub struct Text {
    pub bytes: [u8; TEXT_BYTES],
    pub count: usize,
}

// Cuts a stream into lines: how many it has cut, and what the blocks so far hold of a line whose end has not come.
// A length above 80 means a line that is too long, of which nothing is kept.
#[derive(Clone, Copy)]
pub struct Cutter {
    pub carry: [u8; LONGEST_LINE],
    pub length: usize,
    pub lines: u32,
}

// What comes next in a block.
#[derive(Clone, Copy)]
pub enum Cutting {
    // a line that lies in the block, from `from` to before `to`
    Within { from: usize, to: usize },
    // a line that began in an earlier block: that many bytes at the start of the returned cutter's carry
    Carried(usize),
    // a line of more than 80 bytes
    TooLong,
    // no newline is left: the next block goes on
    BlockUsed,
    // 1,000,000 lines were cut
    AllRead,
}

// The cutter afterwards, the answer, and the position up to which the block was read, at which the next call goes on.
#[derive(Clone, Copy)]
pub struct Cut {
    pub cutter: Cutter,
    pub answer: Cutting,
    pub read_to: usize,
}

// What the end of the stream ends.
#[derive(Clone, Copy)]
pub enum Ending {
    // a line that has no newline: that many bytes at the start of the cutter's carry
    Carried(usize),
    // a line of more than 80 bytes
    TooLong,
    // no line has begun, or 1,000,000 lines were cut
    Nothing,
}

impl Refusal for NotRead {
    ghost number = { number_of_not_read };

    fn refusal(self) -> u8 {
        match self {
            NotRead::Malformed => 19,
        }
    }
}

impl Cutter {
    // A cutter at the start of a stream; hand it to `next` with the first block.
    pub fn new() -> Cutter
        ensures { New result }
    {
        Cutter {
            carry: [0u8; LONGEST_LINE],
            length: 0,
            lines: 0,
        }
    }

    // Looks for the next line in a block, from position `at` on, 0 for a new block. After a line, ask again with the
    // cutter and `read_to` of the answer; after `BlockUsed`, hand the next block over from 0 on, or call `last` where
    // there is none; after `AllRead`, stop. It refuses nothing: every cutter and every position has a meaning, and how
    // a stream came in blocks makes no difference to its lines.
    pub fn next(self, block: &[u8], at: usize) -> Cut
        ensures { Next block.now at self result }
    {
        if MOST_LINES <= self.lines {
            return Cut {
                cutter: self,
                answer: Cutting::AllRead,
                read_to: at,
            };
        }
        if block.len() <= at {
            return Cut {
                cutter: self,
                answer: Cutting::BlockUsed,
                read_to: at,
            };
        }
        let end = blocks::newline(block, at);
        if end == block.len() {
            return Cut {
                cutter: blocks::carry_on(self, &block[at..]),
                answer: Cutting::BlockUsed,
                read_to: end,
            };
        }
        Cut {
            cutter: blocks::close(self, &block[at..end]),
            answer: blocks::line(self.length, at, end),
            read_to: end + 1,
        }
    }

    // The line that the end of the stream ends, once every block was used. There is none where the last byte was a
    // newline.
    pub fn last(self) -> Ending
        ensures { Last self result }
    {
        if MOST_LINES <= self.lines {
            return Ending::Nothing;
        }
        if self.length == 0 {
            return Ending::Nothing;
        }
        if LONGEST_LINE < self.length {
            return Ending::TooLong;
        }
        Ending::Carried(self.length)
    }
}

// Takes a line apart, given without its newline. `Ok` has the pause before the frame in milliseconds, the
// identifier and the eight bytes: let the pause pass first, then hear the frame. An identifier of 2^29 or more is well
// spelled, and refused where it is heard (3). Refused with 19, `Malformed`, is every line that is not the one line of a
// frame; zeros stand beside it, and no time passes.
pub fn take_apart(line: &[u8]) -> Line
    ensures { TakeApart line.now result }
{
    match spelled(line) {
        Some(sound) => sound,
        None => Line {
            answer: Err(NotRead::Malformed),
            gap: 0,
            id: 0,
            bytes: [0; 8],
        },
    }
}

// A line that is that of a frame.
fn spelled(line: &[u8]) -> Option<Line>
    ensures read { told_line result ≡ line_read line.now }
    ensures answer { IfSome result (λ sound. sound.answer ≡ Ok tt) }
{
    if !spelling::has_shape(line) {
        return None;
    }
    let width = line.len() - KEYS_AND_DIGITS;
    let gap = spelling::gap(&line[4..width + 4])?;
    let id = spelling::number(16, &line[width + 8..width + 16])?;
    let bytes = spelling::eight_bytes(&line[width + 22..])?;
    Some(Line {
        answer: Ok(()),
        gap,
        id,
        bytes,
    })
}

// Writes the one line of a frame, without its newline: the first `count` of the bytes, 39 to 43 of them. It refuses
// nothing, and `take_apart` gives the same frame back.
pub fn write(gap: u16, id: u32, bytes: [u8; 8]) -> Text
    ensures { Write gap id bytes result }
{
    let mut line = [0; TEXT_BYTES];
    let gap_end = text::put_decimal(&mut line, 0, b"gap=", gap as u64);
    let id_end = text::put_hex(&mut line, gap_end, b" id=", id as u64, 8);
    let count = text::put_bytes(&mut line, id_end, b" data=", &bytes);
    Text { bytes: line, count }
}
