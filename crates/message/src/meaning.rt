// What a frame that passed refusals 3 to 6 means to the receiver.
ghost use Rattle.std.specs.Prelude.{◌≡◌};
ghost use Rattle.message.specs.LongMessage.{bytes_to, announced, meant};
ghost use Rattle.message.specs.Private.{told_meant};

use crate::limits::{LONGEST, SHORTEST, TO_ALL};
use frame::standard;

#[derive(Clone, Copy)]
pub enum Meant {
    Malformed,
    Other,
    Announcement { sender: u8, size: u16, dgn: u32 },
    Packet { sender: u8, number: u8 },
}

#[tactic(auto, unfolding(crate::specs::LongMessage::meant))]
pub fn meaning_of(sender: u8, dgn: u32, bytes: [u8; 8]) -> Meant
    ensures { told_meant result ≡ meant sender dgn bytes }
{
    if dgn == standard::DATA_PACKET {
        return Meant::Packet {
            sender,
            number: bytes[0],
        };
    }
    if dgn != standard::ANNOUNCEMENT || bytes[0] != TO_ALL {
        return Meant::Other;
    }
    announced(sender, size_in(bytes), bytes[3], dgn_in(bytes))
}

// An announcement with these numbers in it.
#[tactic(auto, unfolding(crate::specs::LongMessage::announced))]
fn announced(sender: u8, size: u16, count: u8, dgn: u32) -> Meant
    ensures { told_meant result ≡ announced sender size count dgn }
{
    if size < SHORTEST
        || LONGEST < size
        || u16::from(count) != (size + 6) / 7
        || standard::GREATEST_DGN < dgn
    {
        return Meant::Malformed;
    }
    Meant::Announcement { sender, size, dgn }
}

// Bytes 1 and 2 of an announcement: the length.
#[tactic(auto, using(crate::proofs::Bytes::size_bytes))]
fn size_in(bytes: [u8; 8]) -> u16
    ensures { result ≡ bytes_to 1 2 bytes }
{
    u16::from_le_bytes([bytes[1], bytes[2]])
}

// Bytes 5 to 7 of an announcement: the DGN.
fn dgn_in(bytes: [u8; 8]) -> u32
    ensures { result ≡ bytes_to 5 7 bytes }
{
    frame::dgn_of(bytes[5], bytes[6], bytes[7])
}
