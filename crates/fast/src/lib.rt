// Fast packets (RULES 12; NMEA 2000's format, as AEBus batteries send it): the receiver of eight pairs of sender and
// DGN over lent storage, and the splitter. It has its places and its storage to itself, beside those of long messages.
#![tactic(auto)]

mod eight_places;
pub mod limits;
mod meaning;
mod names;
mod one_place;
mod rules;
mod splitter;

ghost use Rattle.fast.specs.Promises.{Start, Hear, Pause, Message, FrameOf};
ghost use Rattle.fast.specs.Promises.{number_of_bad_list, number_of_not_heard, number_of_bad_state};
ghost use Rattle.fast.specs.Promises.{number_of_not_split};

use frame::BadFrame;
use limits::{DGNS, STORAGE_BYTES, STRETCH};
use places::storage;
use words::Refusal;

// An open message's place: its pair of sender and DGN, its sequence number and length, the frame expected next, and the
// pauses since its last frame, in milliseconds. A free place is all zeros. (No Option: a caller may hand in any numbers
// as a state, and those that are no place are refused with 2, by `free_place` and `place_keeps_rules`.)
#[derive(Clone, Copy, PartialEq)]
pub struct Place {
    pub sender: u8,
    pub dgn: u32,
    pub sequence: u8,
    pub length: u8,
    pub expected: u8,
    pub idle: u16,
}

// The receiver's state: the DGNs that are carried this way, `named` of them and then zeros, and the places. Place p
// owns bytes 223 p to 223 p + 222 of the storage. (Memory is fixed, so that the list has its length beside it.)
#[derive(Clone, Copy)]
pub struct Receiver {
    pub dgns: [u32; DGNS],
    pub named: usize,
    pub places: [Place; 8],
}

// Why a start names no DGN: refusal 16.
#[derive(Clone, Copy)]
pub enum BadList {
    ListMalformed,
}

// The DGNs are named, or why not.
pub type Starting = Result<(), BadList>;

// The new receiver; one that names no DGN where the start is refused.
#[derive(Clone, Copy)]
pub struct Started {
    pub receiver: Receiver,
    pub answer: Starting,
}

// The ways in which a frame is heard. (A long message's `Event` differs in the type of the length: with a parameter for
// it both would be read with that parameter at each use.)
#[derive(Clone, Copy)]
pub enum Event {
    NothingToDo,
    Opened,
    Stored,
    Finished {
        place: usize,
        sender: u8,
        dgn: u32,
        length: u8,
    },
}

// Why a frame is not heard: the refusals 1 to 10.
#[derive(Clone, Copy)]
pub enum NotHeard {
    StorageTooShort,
    BrokenState,
    BadFrame(BadFrame),
    MalformedLength,
    NoPlaceFree,
    NoOpenMessage,
    UnexpectedFrame,
}

// What a frame did, or why it was not heard.
pub type Answer = Result<Event, NotHeard>;

// The state to go on with, and what the frame did. (`Heard`, `Paused` and `Split` of long messages differ in the types
// of their fields: as one struct with two parameters each would name them at every use, and no line would go.)
#[derive(Clone, Copy)]
pub struct Heard {
    pub receiver: Receiver,
    pub answer: Answer,
}

// Why a pause does not pass: refusal 2. (Long messages have a type of their own for it: a caller of one crate need not
// know the other's, and the wrong program `broken_state_as_1` of each changes its own number.)
#[derive(Clone, Copy)]
pub enum BadState {
    BrokenState,
}

// How many messages a pause closed, or why it did not pass.
pub type Pausing = Result<u8, BadState>;

// The state to go on with, and how many messages the pause closed.
#[derive(Clone, Copy)]
pub struct Paused {
    pub receiver: Receiver,
    pub answer: Pausing,
}

// Why a frame of a message is not given: a sequence number above 7 has no code in three bits (12), the message has not 1
// to 223 bytes (13), or it has no frame of that number (15).
#[derive(Clone, Copy)]
pub enum NotSplit {
    NoCode,
    LengthNotSplit,
    NoSuchFrame,
}

// A frame of a message is given, or why not.
pub type Splitting = Result<(), NotSplit>;

// A frame's eight bytes; zeros where it is refused.
#[derive(Clone, Copy)]
pub struct Split {
    pub answer: Splitting,
    pub bytes: [u8; 8],
}

impl Refusal for BadList {
    ghost number = { number_of_bad_list };

    fn refusal(self) -> u8 {
        match self {
            BadList::ListMalformed => 16,
        }
    }
}

impl Refusal for NotHeard {
    ghost number = { number_of_not_heard };

    fn refusal(self) -> u8 {
        match self {
            NotHeard::StorageTooShort => 1,
            NotHeard::BrokenState => 2,
            NotHeard::BadFrame(why) => why.refusal(),
            NotHeard::MalformedLength => 7,
            NotHeard::NoPlaceFree => 8,
            NotHeard::NoOpenMessage => 9,
            NotHeard::UnexpectedFrame => 10,
        }
    }
}

impl Refusal for BadState {
    ghost number = { number_of_bad_state };

    fn refusal(self) -> u8 {
        match self {
            BadState::BrokenState => 2,
        }
    }
}

impl Refusal for NotSplit {
    ghost number = { number_of_not_split };

    fn refusal(self) -> u8 {
        match self {
            NotSplit::NoCode => 12,
            NotSplit::LengthNotSplit => 13,
            NotSplit::NoSuchFrame => 15,
        }
    }
}

impl Receiver {
    // A receiver with eight free places, for the DGNs of the list. Refusal 16, for a list of more than 16, with a
    // repeat, or with a DGN that is not carried this way: above 1FFFFh, ECFFh, EBFFh, and any whose upper nine bits are
    // EAh or EEh; the receiver then names no DGN. Lend its `hear` a storage of at least 1784 bytes, the same at every
    // call.
    #[tactic(auto, using(crate::proofs::Dgns::few_named))]
    pub fn start(dgns: &[u32]) -> Started
        ensures { Start dgns.now result }
    {
        if !names::well_formed(dgns) {
            return Started {
                receiver: names::naming(&dgns[..0]),
                answer: Err(BadList::ListMalformed),
            };
        }
        Started {
            receiver: names::naming(dgns),
            answer: Ok(()),
        }
    }

    // Hears one frame. Refusals 1 to 10; only 10 changes anything: it closes the message of the frame's pair. What is
    // heard changes at most one place, and in the storage no bytes but those of that place. Go on with the receiver
    // that is answered, and read a finished message with `message` before the next frame is heard.
    #[tactic(auto, unfolding(crate::specs::Receiver::heard))]
    pub fn hear(self, storage: &mut [u8], id: u32, bytes: &[u8]) -> Heard
        ensures { Hear id bytes.now self storage.old result storage.new }
    {
        if storage.len() < STORAGE_BYTES {
            return eight_places::keeps(self, Err(NotHeard::StorageTooShort));
        }
        if !rules::keep_rules(self) {
            return eight_places::keeps(self, Err(NotHeard::BrokenState));
        }
        eight_places::hear(self, storage, id, bytes)
    }

    // Hears that the bus was silent for so many milliseconds: how many messages that closed, each idle for more than
    // 750 by now. Refusal 2, which changes nothing. Call it for the time between two frames before the second is heard;
    // a longer time may be given in parts, which add up.
    #[tactic(auto, unfolding(crate::specs::Receiver::paused_state, crate::specs::Receiver::paused_answer))]
    pub fn pause(self, ms: u16) -> Paused
        ensures { Pause ms self result }
    {
        if !rules::keep_rules(self) {
            return Paused {
                receiver: self,
                answer: Err(BadState::BrokenState),
            };
        }
        eight_places::pause(self, ms)
    }
}

// The finished message that `answer` tells of: that part of the storage, to be read before the next frame is heard.
// Refuses nothing and changes nothing: the part is empty for any other answer, for one that `hear` never gives, and for
// a storage of less than 1784 bytes.
pub fn message(storage: &[u8], answer: Answer) -> &[u8]
    ensures { Message storage.now answer result.now }
{
    if storage.len() < STORAGE_BYTES {
        return &storage[..0];
    }
    match answer {
        Ok(Event::Finished { place, length, .. }) => {
            storage::part(storage, STRETCH, place, usize::from(length))
        }
        _ => &storage[..0],
    }
}

// Any one frame of a message, by its number from 0, to be sent as the message's DGN. Refusals 12, 13 and 15. A message
// has a seventh of its length, rounded down, of frames after frame 0; send them in their order, all with one sequence
// number, and the next message of the DGN with the next one.
pub fn frame_of(message: &[u8], sequence: u8, number: u32) -> Split
    ensures { FrameOf message.now sequence number result }
{
    let frame = splitter::frame(message, sequence, number);
    Split {
        answer: frame.map(|_| ()),
        bytes: frame.unwrap_or([0; 8]),
    }
}
