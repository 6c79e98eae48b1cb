// Frames and pauses at the eight places of a state that keeps its rules.
ghost use Rattle.std.specs.Prelude.{◌≡◌, true, List, ℕ, ◌<◌, ◌≤◌, length, get_or};
ghost use Rattle.fast.specs.FastPacket.{meant, meaning_of};
ghost use Rattle.fast.specs.Receiver.{room, free_place, names_of, keeps_rules, placing};
ghost use Rattle.fast.specs.Receiver.{hears_first, enters_at, entered, frame_at, hears_later, by_meaning, advanced};
ghost use Rattle.fast.specs.Promises.{LeftBy};
ghost use Rattle.fast.specs.Private.{PausedBy, Live};

use crate::limits::{FIRST_BYTES, IDLE_LIMIT, LATER_BYTES, STRETCH};
use crate::meaning::Meant;
use crate::{Answer, Event, Heard, NotHeard, Paused, Place, Receiver, meaning, names, one_place};
use places::seats::Seat;
use places::{seats, storage};

// The state as it came, with an answer. (This and `replace` stand for long messages too, over their own state: two lines
// each, which one for both would not shorten.)
pub fn keeps(r: Receiver, answer: Answer) -> Heard
    ensures { (result.receiver ≡ r) × (result.answer ≡ answer) }
{
    Heard {
        receiver: r,
        answer,
    }
}

// A frame. (That the state keeps its rules and the storage is long enough, contracts below ask too: a type that says so
// would be built here and taken apart where the state and the storage change, in each of them.)
#[tactic(auto, unfolding(crate::specs::FastPacket::meaning_of))]
pub fn hear(r: Receiver, storage: &mut [u8], id: u32, bytes: &[u8]) -> Heard
    requires { (keeps_rules r ≡ true) × (room ≤ length storage.old) }
    ensures { LeftBy
        (by_meaning (meaning_of (names_of r) id bytes.now) bytes.now r storage.old)
        result storage.new }
{
    let checked = frame::check(id, bytes);
    match checked.verdict {
        Err(why) => keeps(r, Err(NotHeard::BadFrame(why))),
        Ok(parts) => heed(r, storage, parts.source, parts.dgn, checked.bytes),
    }
}

// A frame that passed refusals 3 to 6.
#[tactic(auto, unfolding(crate::specs::FastPacket::meant))]
fn heed(r: Receiver, storage: &mut [u8], sender: u8, dgn: u32, bytes: [u8; 8]) -> Heard
    requires { (keeps_rules r ≡ true) × (room ≤ length storage.old) }
    ensures { LeftBy
        (by_meaning (meant (names_of r) sender dgn bytes) bytes r storage.old)
        result storage.new }
{
    if !names::is_named(dgn, names::names_of(&r)) {
        return keeps(r, Ok(Event::NothingToDo));
    }
    match meaning::meaning_of(sender, dgn, bytes) {
        Meant::Malformed => keeps(r, Err(NotHeard::MalformedLength)),
        Meant::Begins {
            sender,
            dgn,
            sequence,
            size,
        } => {
            let p = Place {
                sender,
                dgn,
                sequence,
                length: size,
                expected: 1,
                idle: 0,
            };
            begins(r, storage, p, bytes)
        }
        Meant::Continues {
            sender,
            dgn,
            sequence,
            number,
        } => continues(
            r,
            storage,
            one_place::pair_of(sender, dgn),
            sequence,
            number,
            bytes,
        ),
    }
}

// A frame 0 whose message, in place p, takes its pair's place or else the lowest free one.
#[tactic(auto, unfolding(crate::specs::Receiver::place_for, crate::specs::Receiver::hears_first))]
fn begins(r: Receiver, storage: &mut [u8], p: Place, bytes: [u8; 8]) -> Heard
    requires { room ≤ length storage.old }
    ensures { LeftBy (hears_first p bytes r storage.old) result storage.new }
{
    match seats::place_for(&r.places, p.key()) {
        Some(at) => enters_at(r, storage, at, p, bytes),
        None => keeps(r, Err(NotHeard::NoPlaceFree)),
    }
}

// One place replaced.
fn replace(mut r: Receiver, at: usize, p: Place) -> Receiver
    requires { at < 8 }
    ensures { result ≡ placing r at p }
{
    r.places[at] = p;
    r
}

// A frame 0 in place `at`: its bytes are kept there.
fn enters_at(r: Receiver, storage: &mut [u8], at: usize, p: Place, bytes: [u8; 8]) -> Heard
    requires { (at < 8) × (room ≤ length storage.old) }
    ensures { LeftBy (enters_at at p bytes r storage.old) result storage.new }
{
    let count = FIRST_BYTES.min(usize::from(p.length));
    storage::keep(storage, STRETCH, at, 0, &bytes[2..2 + count]);
    entered(r, at, p)
}

// Where frame 0 has the whole message, it is handed over and the place is free; any other message is open.
#[tactic(auto, unfolding(crate::specs::Receiver::entered))]
fn entered(r: Receiver, at: usize, p: Place) -> Heard
    requires { at < 8 }
    ensures { (s : List ℕ) → LeftBy (entered at p r s) result s }
{
    if usize::from(p.length) <= FIRST_BYTES {
        return keeps(
            replace(r, at, Place::free()),
            Ok(Event::Finished {
                place: at,
                sender: p.sender,
                dgn: p.dgn,
                length: p.length,
            }),
        );
    }
    keeps(replace(r, at, p), Ok(Event::Opened))
}

// A frame of number 1 or more.
#[tactic(auto, unfolding(crate::specs::Receiver::hears_later))]
fn continues(
    r: Receiver,
    storage: &mut [u8],
    pair: u64,
    sequence: u8,
    number: u8,
    bytes: [u8; 8],
) -> Heard
    requires { (keeps_rules r ≡ true) × (room ≤ length storage.old) }
    ensures { LeftBy (hears_later pair sequence number bytes r storage.old) result storage.new }
{
    match seats::open_by(&r.places, pair) {
        Some(at) => frame_at(r, storage, at, sequence, number, bytes),
        None => keeps(r, Err(NotHeard::NoOpenMessage)),
    }
}

// A frame of number 1 or more for the open message in place `at`.
#[tactic(auto, unfolding(crate::specs::Receiver::frame_at))]
fn frame_at(
    r: Receiver,
    storage: &mut [u8],
    at: usize,
    sequence: u8,
    number: u8,
    bytes: [u8; 8],
) -> Heard
    requires { (at < 8) × (room ≤ length storage.old) × Live (get_or r.places at free_place) }
    ensures { LeftBy
        (frame_at at (get_or r.places at free_place) sequence number bytes r storage.old)
        result storage.new }
{
    let p = r.places[at];
    if sequence != p.sequence || number != p.expected {
        return keeps(
            replace(r, at, Place::free()),
            Err(NotHeard::UnexpectedFrame),
        );
    }
    let offset = FIRST_BYTES + LATER_BYTES * (usize::from(number) - 1);
    let count = LATER_BYTES.min(usize::from(p.length) - offset);
    storage::keep(storage, STRETCH, at, offset, &bytes[1..1 + count]);
    advance(r, at, p)
}

// The open message in place `at` after its expected frame.
#[tactic(auto, unfolding(crate::specs::Receiver::advanced))]
fn advance(r: Receiver, at: usize, p: Place) -> Heard
    requires { (at < 8) × Live p }
    ensures { (s : List ℕ) → LeftBy (advanced at p r s) result s }
{
    if p.expected == p.length / 7 {
        return keeps(
            replace(r, at, Place::free()),
            Ok(Event::Finished {
                place: at,
                sender: p.sender,
                dgn: p.dgn,
                length: p.length,
            }),
        );
    }
    let next = Place {
        expected: p.expected + 1,
        idle: 0,
        ..p
    };
    keeps(replace(r, at, next), Ok(Event::Stored))
}

// A pause.
#[tactic(auto, unfolding(crate::specs::Receiver::closes, crate::specs::Receiver::idled))]
pub fn pause(mut r: Receiver, ms: u16) -> Paused
    ensures { PausedBy ms r result }
{
    let closed = seats::pause(&mut r.places, IDLE_LIMIT, ms);
    Paused {
        receiver: r,
        answer: Ok(closed),
    }
}
