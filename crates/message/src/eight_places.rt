// Frames and pauses at the eight places of a state that keeps its rules.
ghost use Rattle.std.specs.Prelude.{◌≡◌, true, List, ℕ, ◌<◌, ◌≤◌, length, get_or, set};
ghost use Rattle.message.specs.LongMessage.{meant, meaning_of};
ghost use Rattle.message.specs.Receiver.{room, free_place, keeps_rules};
ghost use Rattle.message.specs.Receiver.{hears_announcement, packet_at, carries, by_meaning, advanced};
ghost use Rattle.message.specs.Promises.{LeftBy};
ghost use Rattle.message.specs.Private.{PausedBy, Live};

use crate::limits::{IDLE_LIMIT, PACKET_BYTES, STRETCH};
use crate::meaning::Meant;
use crate::{Answer, Event, Heard, NotHeard, Paused, Place, Receiver, meaning};
use places::seats::Seat;
use places::{seats, storage};

// The state as it came, with an answer. (This and `replace` stand for fast packets too, over their own state: two lines
// each, which one for both would not shorten.)
pub fn keeps(r: Receiver, answer: Answer) -> Heard
    ensures { (result.receiver ≡ r) × (result.answer ≡ answer) }
{
    Heard {
        receiver: r,
        answer,
    }
}

// A frame. (That the state keeps its rules and the storage is long enough, three contracts below ask too: a type that
// says so would be built here and taken apart where the state and the storage change, in each of them.)
#[tactic(auto, unfolding(crate::specs::LongMessage::meaning_of))]
pub fn hear(r: Receiver, storage: &mut [u8], id: u32, bytes: &[u8]) -> Heard
    requires { (keeps_rules r.places ≡ true) × (room ≤ length storage.old) }
    ensures { LeftBy
        (by_meaning (meaning_of id bytes.now) bytes.now r.places storage.old)
        result storage.new }
{
    let checked = frame::check(id, bytes);
    match checked.verdict {
        Err(why) => keeps(r, Err(NotHeard::BadFrame(why))),
        Ok(parts) => heed(r, storage, parts.source, parts.dgn, checked.bytes),
    }
}

// A frame that passed refusals 3 to 6.
fn heed(r: Receiver, storage: &mut [u8], sender: u8, dgn: u32, bytes: [u8; 8]) -> Heard
    requires { (keeps_rules r.places ≡ true) × (room ≤ length storage.old) }
    ensures { LeftBy
        (by_meaning (meant sender dgn bytes) bytes r.places storage.old)
        result storage.new }
{
    match meaning::meaning_of(sender, dgn, bytes) {
        Meant::Malformed => keeps(r, Err(NotHeard::MalformedAnnouncement)),
        Meant::Other => keeps(r, Ok(Event::NothingToDo)),
        Meant::Announcement { sender, size, dgn } => announce(r, sender, size, dgn),
        Meant::Packet { sender, number } => packet(r, storage, sender, number, bytes),
    }
}

// A well-formed announcement.
#[tactic(auto, unfolding(crate::specs::Receiver::place_for, crate::specs::Receiver::hears_announcement))]
fn announce(r: Receiver, sender: u8, size: u16, dgn: u32) -> Heard
    ensures { (s : List ℕ) → LeftBy (hears_announcement sender size dgn r.places s) result s }
{
    match seats::place_for(&r.places, u64::from(sender)) {
        Some(at) => {
            let p = Place {
                sender,
                length: size,
                dgn,
                expected: 1,
                idle: 0,
            };
            keeps(replace(r, at, p), Ok(Event::Opened))
        }
        None => keeps(r, Err(NotHeard::NoPlaceFree)),
    }
}

// One place replaced.
fn replace(mut r: Receiver, at: usize, p: Place) -> Receiver
    requires { at < 8 }
    ensures { result.places ≡ set r.places at p }
{
    r.places[at] = p;
    r
}

// A data packet.
#[tactic(auto, unfolding(crate::specs::Receiver::carries))]
fn packet(r: Receiver, storage: &mut [u8], sender: u8, number: u8, bytes: [u8; 8]) -> Heard
    requires { (keeps_rules r.places ≡ true) × (room ≤ length storage.old) }
    ensures { LeftBy (carries sender number bytes r.places storage.old) result storage.new }
{
    match seats::open_by(&r.places, u64::from(sender)) {
        Some(at) => packet_at(r, storage, at, number, bytes),
        None => keeps(r, Err(NotHeard::NoOpenMessage)),
    }
}

// A data packet for the open message in place `at`.
#[tactic(auto, unfolding(crate::specs::Receiver::packet_at))]
fn packet_at(r: Receiver, storage: &mut [u8], at: usize, number: u8, bytes: [u8; 8]) -> Heard
    requires { (at < 8) × (room ≤ length storage.old) × Live (get_or r.places at free_place) }
    ensures { LeftBy
        (packet_at at (get_or r.places at free_place) number bytes r.places storage.old)
        result storage.new }
{
    let p = r.places[at];
    if number != p.expected {
        return keeps(
            replace(r, at, Place::free()),
            Err(NotHeard::UnexpectedPacket),
        );
    }
    let offset = PACKET_BYTES * (usize::from(number) - 1);
    let count = PACKET_BYTES.min(usize::from(p.length) - offset);
    storage::keep(storage, STRETCH, at, offset, &bytes[1..1 + count]);
    advance(r, at, p)
}

// The open message in place `at` after its expected packet.
#[tactic(auto, unfolding(crate::specs::Receiver::advanced))]
fn advance(r: Receiver, at: usize, p: Place) -> Heard
    requires { (at < 8) × Live p }
    ensures { (s : List ℕ) → LeftBy (advanced at p r.places s) result s }
{
    if u16::from(p.expected) == (p.length + 6) / 7 {
        return keeps(
            replace(r, at, Place::free()),
            Ok(Event::Finished {
                place: at,
                sender: p.sender,
                dgn: p.dgn,
                length: p.length,
            }),
        );
    }
    let next = Place {
        expected: p.expected + 1,
        idle: 0,
        ..p
    };
    keeps(replace(r, at, next), Ok(Event::Stored))
}

// A pause.
#[tactic(auto, unfolding(crate::specs::Receiver::closes, crate::specs::Receiver::idled))]
pub fn pause(mut r: Receiver, ms: u16) -> Paused
    ensures { PausedBy ms r.places result }
{
    let closed = seats::pause(&mut r.places, IDLE_LIMIT, ms);
    Paused {
        receiver: r,
        answer: Ok(closed),
    }
}
