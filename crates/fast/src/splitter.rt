// The splitter's parts: whether a message can be split, and the bytes of its frames.
ghost use Rattle.std.specs.Prelude.{◌≡◌, ◌≤◌, length};
ghost use Rattle.words.specs.Words.{told, number_of_answer};
ghost use Rattle.fast.specs.FastPacket.{longest, last_frame, greatest_sequence};
ghost use Rattle.fast.specs.Splitter.{refusal_in, frame_of, frame_bytes_of, first_bytes_of, later_bytes_of};
ghost use Rattle.fast.specs.Promises.{number_of_not_split};

use crate::NotSplit;
use crate::limits::{FIRST_BYTES, GREATEST_SEQUENCE, LATER_BYTES, LONGEST};
use places::packets;

// Frame `number` of a message.
#[tactic(auto, unfolding(crate::specs::Splitter::frame_of))]
pub fn frame(message: &[u8], sequence: u8, number: u32) -> Result<[u8; 8], NotSplit>
    ensures { told number_of_not_split result ≡ frame_of message.now sequence number }
{
    splittable(message.len(), sequence, number)?;
    Ok(frame_bytes(message, sequence, number as u8))
}

// Whether a message of this size has such a frame, or why not.
#[tactic(auto, unfolding(crate::specs::Splitter::refusal_in))]
fn splittable(size: usize, sequence: u8, number: u32) -> Result<(), NotSplit>
    ensures { number_of_answer number_of_not_split result ≡ refusal_in size sequence number }
{
    if GREATEST_SEQUENCE < sequence {
        return Err(NotSplit::NoCode);
    }
    if size < 1 || usize::from(LONGEST) < size {
        return Err(NotSplit::LengthNotSplit);
    }
    if ((size / 7) as u32) < number {
        return Err(NotSplit::NoSuchFrame);
    }
    Ok(())
}

// A frame's eight bytes.
#[tactic(auto, unfolding(crate::specs::Splitter::frame_bytes_of))]
fn frame_bytes(message: &[u8], sequence: u8, number: u8) -> [u8; 8]
    requires { (length message.now ≤ longest) × (sequence ≤ greatest_sequence)
        × (number ≤ last_frame (length message.now)) }
    ensures { result ≡ frame_bytes_of message.now sequence number }
{
    if number == 0 {
        return first_bytes(message, sequence);
    }
    later_bytes(message, sequence, number)
}

// Frame 0: the sequence number, the length, the message's first six bytes, and FFh for what is left.
#[tactic(auto, unfolding(crate::specs::Splitter::first_bytes_of))]
fn first_bytes(message: &[u8], sequence: u8) -> [u8; 8]
    requires { (length message.now ≤ longest) × (sequence ≤ greatest_sequence) }
    ensures { result ≡ first_bytes_of message.now sequence }
{
    packets::filled(&[32 * sequence, message.len() as u8], message)
}

// Any other frame: the sequence number and its own, its part of the message, and FFh for what is left.
#[tactic(auto, unfolding(crate::specs::Splitter::later_bytes_of))]
fn later_bytes(message: &[u8], sequence: u8, number: u8) -> [u8; 8]
    requires { (length message.now ≤ longest) × (sequence ≤ greatest_sequence) × (1 ≤ number)
        × (number ≤ last_frame (length message.now)) }
    ensures { result ≡ later_bytes_of message.now sequence number }
{
    let from = FIRST_BYTES + LATER_BYTES * (usize::from(number) - 1);
    packets::filled(&[32 * sequence + number], &message[from..])
}
