// One place: free or open, and its limits.
ghost use Rattle.std.specs.Prelude.{◌≡◌, ◌+◌};
ghost use Rattle.fast.specs.FastPacket.{pair_of};
ghost use Rattle.fast.specs.Receiver.{free_place, is_free, keeps_limits, waited};

use crate::Place;
use crate::limits::{FIRST_BYTES, GREATEST_SEQUENCE, IDLE_LIMIT, LONGEST};
use frame::standard;
use places::seats::Seat;

// A sender has one message of each DGN at a time, so that the pair says whose message a place has.
impl Seat for Place {
    ghost is_free = { is_free };

    ghost key_of = { λ p. pair_of p.sender p.dgn };

    ghost idle_after = { λ ms p. p.idle + ms };

    ghost blank = { free_place };

    ghost waited = { waited };

    fn is_free(&self) -> bool {
        self.length == 0
    }

    fn key(&self) -> u64 {
        pair_of(self.sender, self.dgn)
    }

    fn idle_after(&self, ms: u16) -> u32 {
        u32::from(self.idle) + u32::from(ms)
    }

    fn free() -> Place {
        Place {
            sender: 0,
            dgn: 0,
            sequence: 0,
            length: 0,
            expected: 0,
            idle: 0,
        }
    }

    fn waited(self, idle: u16) -> Place {
        Place { idle, ..self }
    }
}

// The pair of sender and DGN as one number.
pub fn pair_of(sender: u8, dgn: u32) -> u64
    ensures { result ≡ pair_of sender dgn }
{
    u64::from(dgn) * 256 + u64::from(sender)
}

// The limits of an open place.
#[tactic(auto, unfolding(crate::specs::Receiver::keeps_limits))]
pub fn keeps_limits(p: &Place) -> bool
    ensures { result ≡ keeps_limits p.now }
{
    p.sender <= standard::GREATEST_ADDRESS
        && p.sequence <= GREATEST_SEQUENCE
        && FIRST_BYTES < usize::from(p.length)
        && p.length <= LONGEST
        && 1 <= p.expected
        && p.expected <= p.length / 7
        && p.idle <= IDLE_LIMIT
}
