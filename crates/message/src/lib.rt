// Long messages (RULES 4 and 5): the receiver of eight senders over lent storage, and the splitter.
#![tactic(auto)]

mod eight_places;
pub mod limits;
mod meaning;
mod one_place;
mod rules;
mod splitter;

ghost use Rattle.std.specs.Prelude.{◌≡◌};
ghost use Rattle.message.specs.Promises.{New, Hear, Pause, Message, Announcement, Packet};
ghost use Rattle.message.specs.Promises.{number_of_not_heard, number_of_bad_state, refusal_why, number_of_not_split};
ghost use Rattle.message.specs.declared.NotSplit.TheVariants.{Unsplittable};

use frame::BadFrame;
use limits::{STORAGE_BYTES, STRETCH};
use places::seats::Seat;
use places::storage;
use words::Refusal;

// An open message's place: its sender, what was announced, the packet expected next, and the pauses since its last
// frame, in milliseconds. A free place is all zeros. (No Option: a caller may hand in any numbers as a state, and those
// that are no place are refused with 2, by `free_place` and `place_keeps_rules`.)
#[derive(Clone, Copy, PartialEq)]
pub struct Place {
    pub sender: u8,
    pub length: u16,
    pub dgn: u32,
    pub expected: u8,
    pub idle: u16,
}

// The receiver's state. Place p owns bytes 1785 p to 1785 p + 1784 of the storage.
#[derive(Clone, Copy)]
pub struct Receiver {
    pub places: [Place; 8],
}

// The ways in which a frame is heard. (A fast packet's `Event` differs in the type of the length: with a parameter for
// it both would be read with that parameter at each use.)
#[derive(Clone, Copy)]
pub enum Event {
    NothingToDo,
    Opened,
    Stored,
    Finished {
        place: usize,
        sender: u8,
        dgn: u32,
        length: u16,
    },
}

// Why a frame is not heard: the refusals 1 to 10.
#[derive(Clone, Copy)]
pub enum NotHeard {
    StorageTooShort,
    BrokenState,
    BadFrame(BadFrame),
    MalformedAnnouncement,
    NoPlaceFree,
    NoOpenMessage,
    UnexpectedPacket,
}

// What a frame did, or why it was not heard.
pub type Answer = Result<Event, NotHeard>;

// The state to go on with, and what the frame did. (`Heard`, `Paused` and `Split` of fast packets differ in the types of
// their fields: as one struct with two parameters each would name them at every use, and no line would go.)
#[derive(Clone, Copy)]
pub struct Heard {
    pub receiver: Receiver,
    pub answer: Answer,
}

// Why a pause does not pass: refusal 2. (Fast packets have a type of their own for it: a caller of one crate need not
// know the other's, and the wrong program `broken_state_as_1` of each changes its own number.)
#[derive(Clone, Copy)]
pub enum BadState {
    BrokenState,
}

// How many messages a pause closed, or why it did not pass.
pub type Pausing = Result<u8, BadState>;

// The state to go on with, and how many messages the pause closed.
#[derive(Clone, Copy)]
pub struct Paused {
    pub receiver: Receiver,
    pub answer: Pausing,
}

// Why a message cannot be split: a DGN above 1FFFFh has no code in the announcement (12), or the message has not 9 to
// 1785 bytes (13). The packets of any other can be numbered in a byte: 1785 bytes make 255.
#[derive(Clone, Copy)]
pub enum Unsplittable {
    NoCode,
    LengthNotSplit,
}

// The announcement is given, or why not.
pub type Announcing = Result<(), Unsplittable>;

// The announcement's eight bytes; zeros where it is refused.
#[derive(Clone, Copy)]
pub struct Announced {
    pub answer: Announcing,
    pub bytes: [u8; 8],
}

// Why a packet is not given: the message cannot be split, or it has no packet of that number (15).
#[derive(Clone, Copy)]
pub enum NotSplit {
    Unsplittable(Unsplittable),
    NoSuchPacket,
}

// A packet is given, or why not.
pub type Splitting = Result<(), NotSplit>;

// A data packet's eight bytes; zeros where it is refused.
#[derive(Clone, Copy)]
pub struct Split {
    pub answer: Splitting,
    pub bytes: [u8; 8],
}

impl Refusal for NotHeard {
    ghost number = { number_of_not_heard };

    fn refusal(self) -> u8 {
        match self {
            NotHeard::StorageTooShort => 1,
            NotHeard::BrokenState => 2,
            NotHeard::BadFrame(why) => why.refusal(),
            NotHeard::MalformedAnnouncement => 7,
            NotHeard::NoPlaceFree => 8,
            NotHeard::NoOpenMessage => 9,
            NotHeard::UnexpectedPacket => 10,
        }
    }
}

impl Refusal for BadState {
    ghost number = { number_of_bad_state };

    fn refusal(self) -> u8 {
        match self {
            BadState::BrokenState => 2,
        }
    }
}

impl Refusal for Unsplittable {
    ghost number = { refusal_why };

    fn refusal(self) -> u8 {
        match self {
            Unsplittable::NoCode => 12,
            Unsplittable::LengthNotSplit => 13,
        }
    }
}

impl Refusal for NotSplit {
    ghost number = { number_of_not_split };

    fn refusal(self) -> u8 {
        match self {
            NotSplit::Unsplittable(why) => why.refusal(),
            NotSplit::NoSuchPacket => 15,
        }
    }
}

impl From<Unsplittable> for NotSplit {
    ghost from_gives = { λ why e. e ≡ Unsplittable why };

    fn from(why: Unsplittable) -> NotSplit {
        NotSplit::Unsplittable(why)
    }
}

impl Receiver {
    // A receiver with eight free places. Refuses nothing. Lend its `hear` a storage of at least 14280 bytes, the same
    // at every call.
    pub fn new() -> Receiver
        ensures { New result }
    {
        Receiver {
            places: [Place::free(); 8],
        }
    }

    // Hears one frame. Refusals 1 to 10; only 10 changes anything: it closes that sender's message. What is heard
    // changes at most one place, and in the storage no bytes but those of that place. Go on with the receiver that is
    // answered, and read a finished message with `message` before the next frame is heard.
    #[tactic(auto, unfolding(crate::specs::Receiver::heard))]
    pub fn hear(self, storage: &mut [u8], id: u32, bytes: &[u8]) -> Heard
        ensures { Hear id bytes.now self.places storage.old result storage.new }
    {
        if storage.len() < STORAGE_BYTES {
            return eight_places::keeps(self, Err(NotHeard::StorageTooShort));
        }
        if !rules::keep_rules(self) {
            return eight_places::keeps(self, Err(NotHeard::BrokenState));
        }
        eight_places::hear(self, storage, id, bytes)
    }

    // Hears that the bus was silent for so many milliseconds: how many messages that closed, each idle for more than
    // 750 by now. Refusal 2, which changes nothing. Call it for the time between two frames before the second is heard;
    // a longer time may be given in parts, which add up.
    #[tactic(auto, unfolding(crate::specs::Receiver::paused_places, crate::specs::Receiver::paused_answer))]
    pub fn pause(self, ms: u16) -> Paused
        ensures { Pause ms self.places result }
    {
        if !rules::keep_rules(self) {
            return Paused {
                receiver: self,
                answer: Err(BadState::BrokenState),
            };
        }
        eight_places::pause(self, ms)
    }
}

// The finished message that `answer` tells of: that part of the storage, to be read before the next frame is heard.
// Refuses nothing and changes nothing: the part is empty for any other answer, for one that `hear` never gives, and for
// a storage of less than 14280 bytes.
pub fn message(storage: &[u8], answer: Answer) -> &[u8]
    ensures { Message storage.now answer result.now }
{
    if storage.len() < STORAGE_BYTES {
        return &storage[..0];
    }
    match answer {
        Ok(Event::Finished { place, length, .. }) => {
            storage::part(storage, STRETCH, place, usize::from(length))
        }
        _ => &storage[..0],
    }
}

// The announcement of a message, to be sent to all as DGN ECFFh before its packets. Refusals 12 and 13.
pub fn announcement(message: &[u8], dgn: u32) -> Announced
    ensures { Announcement message.now dgn result }
{
    let announcement = splitter::announcement(message, dgn);
    Announced {
        answer: announcement.map(|_| ()),
        bytes: announcement.unwrap_or([0; 8]),
    }
}

// Any one data packet of a message, by its number from 1, to be sent to all as DGN EBFFh. Refusals 12, 13 and 15. Byte
// 3 of the announcement says how many packets there are; send them in their order.
pub fn packet(message: &[u8], dgn: u32, number: u32) -> Split
    ensures { Packet message.now dgn number result }
{
    let packet = splitter::packet(message, dgn, number);
    Split {
        answer: packet.map(|_| ()),
        bytes: packet.unwrap_or([0; 8]),
    }
}
