// What a frame that passed refusals 3 to 6 means to the receiver.
ghost use Rattle.std.specs.Prelude.{◌≡◌};
ghost use Rattle.fast.specs.FastPacket.{carried, begun};
ghost use Rattle.fast.specs.Private.{told_meant};

use crate::limits::LONGEST;

#[derive(Clone, Copy)]
pub enum Meant {
    Malformed,
    Begins {
        sender: u8,
        dgn: u32,
        sequence: u8,
        size: u8,
    },
    Continues {
        sender: u8,
        dgn: u32,
        sequence: u8,
        number: u8,
    },
}

// A frame of a DGN that is named: byte 0 has the sequence number in its top three bits and the frame's number in the
// low five, and frame 0 has the message's length in byte 1.
#[tactic(auto, unfolding(crate::specs::FastPacket::carried))]
pub fn meaning_of(sender: u8, dgn: u32, bytes: [u8; 8]) -> Meant
    ensures { told_meant result ≡ carried sender dgn bytes }
{
    let first = bytes[0];
    let sequence = first / 32 % 8;
    let number = first % 32;
    if number == 0 {
        return begun(sender, dgn, sequence, bytes[1]);
    }
    Meant::Continues {
        sender,
        dgn,
        sequence,
        number,
    }
}

// A frame 0 with this length in it.
#[tactic(auto, unfolding(crate::specs::FastPacket::begun))]
fn begun(sender: u8, dgn: u32, sequence: u8, size: u8) -> Meant
    ensures { told_meant result ≡ begun sender dgn sequence size }
{
    if size < 1 || LONGEST < size {
        return Meant::Malformed;
    }
    Meant::Begins {
        sender,
        dgn,
        sequence,
        size,
    }
}
