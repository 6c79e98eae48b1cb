// The splitter's parts: whether a message can be split, and the bytes of its frames.
ghost use Rattle.std.specs.Prelude.{◌≡◌, ◌≤◌, length};
ghost use Rattle.words.specs.Words.{told};
ghost use Rattle.message.specs.LongMessage.{longest, packets_of};
ghost use Rattle.message.specs.Splitter.{splits, announcement_bytes, announcement_of, packet_bytes_of, packet_of};
ghost use Rattle.message.specs.Promises.{refusal_why, number_of_not_split};

use crate::limits::{LONGEST, PACKET_BYTES, SHORTEST, TO_ALL};
use crate::{NotSplit, Unsplittable};
use frame::standard;
use places::packets;

// The announcement of a message.
#[tactic(auto, unfolding(crate::specs::Splitter::announcement_of))]
pub fn announcement(message: &[u8], dgn: u32) -> Result<[u8; 8], Unsplittable>
    ensures { told refusal_why result ≡ announcement_of message.now dgn }
{
    let count = splittable(message.len(), dgn)?;
    Ok(announcement_bytes(message.len() as u16, dgn, count))
}

// Packet `number` of a message.
#[tactic(auto, unfolding(crate::specs::Splitter::packet_of, crate::specs::Splitter::numbered))]
pub fn packet(message: &[u8], dgn: u32, number: u32) -> Result<[u8; 8], NotSplit>
    ensures { told number_of_not_split result ≡ packet_of message.now dgn number }
{
    let count = splittable(message.len(), dgn)?;
    if number == 0 || u32::from(count) < number {
        return Err(NotSplit::NoSuchPacket);
    }
    Ok(packet_bytes(message, number as u8))
}

// The number of packets of a message, or why it cannot be split.
#[tactic(auto, unfolding(crate::specs::Splitter::splits))]
fn splittable(size: usize, dgn: u32) -> Result<u8, Unsplittable>
    ensures { told refusal_why result ≡ splits size dgn }
{
    if standard::GREATEST_DGN < dgn {
        return Err(Unsplittable::NoCode);
    }
    if size < usize::from(SHORTEST) || usize::from(LONGEST) < size {
        return Err(Unsplittable::LengthNotSplit);
    }
    Ok(((size + 6) / 7) as u8)
}

// An announcement's eight bytes.
fn announcement_bytes(size: u16, dgn: u32, count: u8) -> [u8; 8]
    requires { count ≡ packets_of size }
    ensures { result ≡ announcement_bytes size dgn }
{
    let size = size.to_le_bytes();
    let dgn = frame::dgn_bytes(dgn);
    [
        TO_ALL,
        size[0],
        size[1],
        count,
        standard::UNUSED,
        dgn[0],
        dgn[1],
        dgn[2],
    ]
}

// A packet's eight bytes: its number, its part of the message, and FFh for what is left.
#[tactic(auto, unfolding(crate::specs::Splitter::packet_bytes_of))]
fn packet_bytes(message: &[u8], number: u8) -> [u8; 8]
    requires { (1 ≤ number) × (number ≤ packets_of (length message.now)) × (length message.now ≤ longest) }
    ensures { result ≡ packet_bytes_of message.now number }
{
    let from = PACKET_BYTES * (usize::from(number) - 1);
    packets::filled(&[number], &message[from..])
}
