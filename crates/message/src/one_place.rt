// One place: free or open, and its rules.
ghost use Rattle.std.specs.Prelude.{◌≡◌, ◌+◌};
ghost use Rattle.message.specs.Receiver.{free_place, is_free, place_keeps_rules, waited};

use crate::Place;
use crate::limits::{IDLE_LIMIT, LONGEST, SHORTEST};
use frame::standard;
use places::seats::Seat;

// A sender has one message at a time, so that its address says whose message a place has.
impl Seat for Place {
    ghost is_free = { is_free };

    ghost key_of = { λ p. p.sender };

    ghost idle_after = { λ ms p. p.idle + ms };

    ghost blank = { free_place };

    ghost waited = { waited };

    fn is_free(&self) -> bool {
        self.length == 0
    }

    fn key(&self) -> u64 {
        u64::from(self.sender)
    }

    fn idle_after(&self, ms: u16) -> u32 {
        u32::from(self.idle) + u32::from(ms)
    }

    fn free() -> Place {
        Place {
            sender: 0,
            length: 0,
            dgn: 0,
            expected: 0,
            idle: 0,
        }
    }

    fn waited(self, idle: u16) -> Place {
        Place { idle, ..self }
    }
}

// Whether a place is all zeros, or open within its limits.
#[tactic(auto, unfolding(crate::specs::Receiver::place_keeps_rules, crate::specs::Receiver::is_zero))]
pub fn keeps_rules(p: &Place) -> bool
    ensures { result ≡ place_keeps_rules p.now }
{
    if p.is_free() {
        return *p == Place::free();
    }
    p.sender <= standard::GREATEST_ADDRESS
        && SHORTEST <= p.length
        && p.length <= LONGEST
        && p.dgn <= standard::GREATEST_DGN
        && p.idle <= IDLE_LIMIT
        && 1 <= p.expected
        && u16::from(p.expected) <= (p.length + 6) / 7
}
