// One line of the capture: what it prints, and what is kept for the next.
ghost use Rattle.std.specs.Prelude.{◌≡◌, ◌+◌, ◌≤◌, ◌<◌, length};
ghost use Rattle.words.specs.Words.{gives};
ghost use Rattle.frame.specs.Bytes.{number_of};
ghost use Rattle.frame.specs.Identifier.{source_of, dgn_of};
ghost use Rattle.message.specs.Receiver.{room};
ghost use Rattle.message.specs.Promises.{told_answer};
ghost use Rattle.catalogue.specs.Packed.{packed_rows};
ghost use Rattle.capture.specs.Line.{line_read};
ghost use Rattle.capture.specs.Promises.{frame_in};
ghost use Rattle.capture.specs.Stream.{most_lines};
ghost use Rattle.text.specs.Pieces.{Wrote};
ghost use Rattle.busread.specs.Report.{head_text, print_of, fields_text, rows_of, answer_text, counted};
ghost use Rattle.busread.specs.Step.{line_room, kept, Counting, Took, Passed};

use crate::report;
use crate::report::Counts;
use capture::Line;
use message::{Answer, Event, Receiver};
use words::Refusal;

// What an answer of the receiver prints.
#[derive(Clone, Copy)]
pub enum Print {
    Refused(u32),
    Message { sender: u8, dgn: u32 },
    Fields,
    Nothing,
}

// What is kept after a line, and the place behind what it printed.
#[derive(Clone, Copy)]
pub struct Step {
    pub receiver: Receiver,
    pub counts: Counts,
    pub written_to: usize,
}

fn print_of(answer: Answer) -> Print
    ensures { result ≡ print_of (told_answer answer) }
{
    match answer {
        Err(why) => Print::Refused(why.refusal() as u32),
        Ok(Event::NothingToDo) => Print::Fields,
        Ok(Event::Opened | Event::Stored) => Print::Nothing,
        Ok(Event::Finished { sender, dgn, .. }) => Print::Message { sender, dgn },
    }
}

// The counts with one line more.
fn count(counts: Counts, print: Print) -> Counts
    requires { (counts.frames < most_lines) × Counting counts }
    ensures { (result ≡ counted counts print) × Counting result }
{
    let frames = counts.frames + 1;
    match print {
        Print::Refused(_) => Counts {
            frames,
            refused: counts.refused + 1,
            ..counts
        },
        Print::Message { .. } => Counts {
            frames,
            messages: counts.messages + 1,
            ..counts
        },
        Print::Fields | Print::Nothing => Counts { frames, ..counts },
    }
}

// The fields of a frame, in the catalogue's order.
fn put_fields(
    out: &mut [u8],
    at: usize,
    number: u32,
    id: u32,
    bytes: [u8; 8],
    table: &[u64],
) -> usize
    requires { (at + line_room ≤ length out.old) × (table.now ≡ packed_rows) }
    ensures { Wrote out.old at
        (fields_text (head_text number (source_of id) (dgn_of id)) (number_of bytes) (rows_of (dgn_of id))) out.new result
        × (result ≤ at + line_room) }
{
    let source = (id % 256) as u8;
    let dgn = id / 256 % 131072;
    let content = frame::number_of(bytes);
    let span = catalogue::rows_in(table, dgn);
    let mut head = [0; 48];
    let size = report::put_head(&mut head, 0, number, source, dgn);
    let mut end = at;
    for i in 0..span.count {
        let Ok(row) = catalogue::row_in(table, span.start + i) else {
            return end;
        };
        let field = catalogue::classify(row, content);
        end = report::put_field(out, end, &head[..size], row, field);
    }
    end
}

// What an answer prints; a finished message is read from the storage.
fn put_answer(
    out: &mut [u8],
    at: usize,
    number: u32,
    line: Line,
    answer: Answer,
    storage: &[u8],
    table: &[u64],
) -> usize
    requires { (at + line_room ≤ length out.old) × (room ≤ length storage.now) × (table.now ≡ packed_rows) }
    ensures { Wrote out.old at (answer_text number (frame_in line) storage.now (told_answer answer))
        out.new result × (result ≤ at + line_room) }
{
    match print_of(answer) {
        Print::Refused(refusal) => report::put_refusal(out, at, number, refusal),
        Print::Message { sender, dgn } => {
            let bytes = message::message(storage, answer);
            report::put_message(out, at, number, sender, dgn, bytes)
        }
        Print::Fields => {
            let bytes = line.bytes;
            put_fields(out, at, number, line.id, bytes, table)
        }
        Print::Nothing => at,
    }
}

// A sound line: the pause, then its frame.
fn hear(
    receiver: Receiver,
    counts: Counts,
    line: Line,
    storage: &mut [u8],
    out: &mut [u8],
    written_to: usize,
    table: &[u64],
) -> Step
    requires { (written_to + line_room ≤ length out.old) × (room ≤ length storage.old) × (counts.frames < most_lines)
        × Counting counts × (table.now ≡ packed_rows) }
    ensures { Took (kept receiver storage.old counts) (gives (frame_in line)) out.old written_to result
        storage.new out.new }
{
    let paused = receiver.pause(line.gap);
    let quiet = paused.receiver;
    let bytes = line.bytes;
    let heard = quiet.hear(storage, line.id, &bytes);
    let answer = heard.answer;
    let end = put_answer(
        out,
        written_to,
        counts.frames + 1,
        line,
        answer,
        storage,
        table,
    );
    let after = heard.receiver;
    Step {
        receiver: after,
        counts: count(counts, print_of(answer)),
        written_to: end,
    }
}

// A malformed line: refusal 19, and no time passes.
pub fn malformed(receiver: Receiver, counts: Counts, out: &mut [u8], written_to: usize) -> Step
    requires { (written_to + line_room ≤ length out.old) × (counts.frames < most_lines) × Counting counts }
    ensures { Passed receiver counts out.old written_to result out.new }
{
    let end = report::put_refusal(out, written_to, counts.frames + 1, 19);
    Step {
        receiver,
        counts: count(counts, Print::Refused(19)),
        written_to: end,
    }
}

// A line, without its newline.
pub fn take(
    receiver: Receiver,
    counts: Counts,
    text: &[u8],
    storage: &mut [u8],
    out: &mut [u8],
    written_to: usize,
    table: &[u64],
) -> Step
    requires { (written_to + line_room ≤ length out.old) × (room ≤ length storage.old) × (counts.frames < most_lines)
        × Counting counts × (table.now ≡ packed_rows) }
    ensures { Took (kept receiver storage.old counts) (line_read text.now) out.old
        written_to result storage.new out.new }
{
    let line = capture::take_apart(text);
    match line.answer {
        Ok(()) => hear(receiver, counts, line, storage, out, written_to, table),
        Err(_) => malformed(receiver, counts, out, written_to),
    }
}
