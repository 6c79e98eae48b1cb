// Commands by instance, requests for a DGN, and their replies (RULES 10).
#![tactic(auto)]

mod acknowledgments;
mod commands;
mod handed;
mod hosted;
mod picking;
mod place;
mod requests;

ghost use Rattle.std.specs.Prelude.{◌≡◌};
ghost use Rattle.command.specs.Promises.{Start, Route, Request, Acknowledge, number_of_not_started};
ghost use Rattle.command.specs.Promises.{number_of_not_routed, number_of_not_answered, number_of_not_acknowledged};
ghost use Rattle.command.specs.Promises.{not_routed_for, not_answered_for};

use claim::{Claim, NotHeard, Place};
use frame::{BadFrame, standard};
use words::Refusal;

// A hosted list has at most 16 entries.
pub const ENTRIES: usize = 16;

// A device that a node answers for: the DGN that commands it, the DGN of its status, its instance, and whether a
// command to instance 0 is for it too (zero-is-all).
#[derive(Clone, Copy)]
pub struct Entry {
    pub command: u32,
    pub status: u32,
    pub instance: u8,
    pub zero_is_all: bool,
}

// How requests are read. In edition one a request is for all instances of its DGN. In edition two, which has the
// acknowledgment rules of 2023, byte 3 names an instance, FFh all of them, and a NAK says of which instance it is.
#[derive(Clone, Copy)]
pub enum Edition {
    One,
    Two,
}

// A host: the hosted list, `count` entries and then entries of zeros, and the edition chosen at its start.
// The list stands with its count beside it, for the fields are public, and `PastCountIgnored` speaks of what is behind
// the count.
#[derive(Clone, Copy)]
pub struct Host {
    pub entries: [Entry; ENTRIES],
    pub count: usize,
    pub edition: Edition,
}

// Why a list is not hosted: refusal 16.
#[derive(Clone, Copy)]
pub enum NotStarted {
    ListMalformed,
}

// The list is hosted; or why not.
pub type Starting = Result<(), NotStarted>;

// The new host; one with no entry where the start is refused.
#[derive(Clone, Copy)]
pub struct Started {
    pub host: Host,
    pub answer: Starting,
}

// Positions in the hosted list, rising: `count` of them, then zeros.
// The fields are public, and `RouteRefusedKeeps` speaks of both.
#[derive(Clone, Copy)]
pub struct Positions {
    pub at: [u8; ENTRIES],
    pub count: usize,
}

// What a frame that is heard comes to as a command.
#[derive(Clone, Copy)]
pub enum Choice {
    // No command of ours.
    NothingToDo,
    // The command is for the positions beside, which may be none.
    Picked,
}

// Why a frame is not heard as a command: refusals 2, 3 to 6, 16, 18.
#[derive(Clone, Copy)]
pub enum NotRouted {
    BrokenState,
    BadFrame(BadFrame),
    ListMalformed,
    NoAddressHeld,
}

// What a frame comes to as a command, or why it is not heard.
pub type Routing = Result<Choice, NotRouted>;

#[derive(Clone, Copy)]
pub struct Routed {
    pub answer: Routing,
    pub positions: Positions,
}

// What a frame that is heard comes to as a request.
#[derive(Clone, Copy)]
pub enum Response {
    // No request, or not for us.
    NothingToDo,
    // Our claim is to be sent.
    SendClaim,
    // The positions beside support the DGN and the instance that are asked for, and each answers with its status.
    Supported,
    // No entry supports them: a NAK is to be sent.
    SendNak,
    // No entry supports them, and nothing is to be sent: the request is global, or from a node without an address.
    Unsupported,
}

// Why a frame is not heard as a request: refusals 2, 3 to 6, 16, 17, 18.
#[derive(Clone, Copy)]
pub enum NotAnswered {
    BrokenState,
    BadFrame(BadFrame),
    ListMalformed,
    DgnTooLarge,
    NoAddressHeld,
}

// What a frame comes to as a request, or why it is not heard.
pub type Requesting = Result<Response, NotAnswered>;

// The positions, and the frame to send; no frame where nothing is to be sent.
#[derive(Clone, Copy)]
pub struct Requested {
    pub answer: Requesting,
    pub positions: Positions,
    pub id: u32,
    pub bytes: [u8; 8],
}

// An acknowledgment, in the order of its bytes: its code, the instance (FFh where there is none), the node that sent
// the command or request, and the DGN of that.
#[derive(Clone, Copy)]
pub struct Acknowledgment {
    pub code: u8,
    pub instance: u8,
    pub requester: u8,
    pub dgn: u32,
}

// Why there is no acknowledgment: refusals 2, 6, 16, 17, 18.
#[derive(Clone, Copy)]
pub enum NotAcknowledged {
    BrokenState,
    RequesterNotAllowed,
    ListMalformed,
    DgnTooLarge,
    NoAddressHeld,
}

// The acknowledgment beside is to be sent; or why there is none.
pub type Acknowledging = Result<(), NotAcknowledged>;

// The frame to send; no frame where it is refused.
#[derive(Clone, Copy)]
pub struct Acknowledged {
    pub answer: Acknowledging,
    pub id: u32,
    pub bytes: [u8; 8],
}

impl Refusal for NotStarted {
    ghost number = { number_of_not_started };

    fn refusal(self) -> u8 {
        match self {
            NotStarted::ListMalformed => 16,
        }
    }
}

impl Refusal for NotRouted {
    ghost number = { number_of_not_routed };

    fn refusal(self) -> u8 {
        match self {
            NotRouted::BrokenState => 2,
            NotRouted::BadFrame(why) => why.refusal(),
            NotRouted::ListMalformed => 16,
            NotRouted::NoAddressHeld => 18,
        }
    }
}

impl From<NotHeard> for NotRouted {
    ghost from_gives = { λ why answer. answer ≡ not_routed_for why };

    fn from(why: NotHeard) -> NotRouted {
        match why {
            NotHeard::BrokenState => NotRouted::BrokenState,
            NotHeard::BadFrame(why) => NotRouted::BadFrame(why),
            NotHeard::ListMalformed => NotRouted::ListMalformed,
        }
    }
}

impl Refusal for NotAnswered {
    ghost number = { number_of_not_answered };

    fn refusal(self) -> u8 {
        match self {
            NotAnswered::BrokenState => 2,
            NotAnswered::BadFrame(why) => why.refusal(),
            NotAnswered::ListMalformed => 16,
            NotAnswered::DgnTooLarge => 17,
            NotAnswered::NoAddressHeld => 18,
        }
    }
}

impl From<NotHeard> for NotAnswered {
    ghost from_gives = { λ why answer. answer ≡ not_answered_for why };

    fn from(why: NotHeard) -> NotAnswered {
        match why {
            NotHeard::BrokenState => NotAnswered::BrokenState,
            NotHeard::BadFrame(why) => NotAnswered::BadFrame(why),
            NotHeard::ListMalformed => NotAnswered::ListMalformed,
        }
    }
}

impl Refusal for NotAcknowledged {
    ghost number = { number_of_not_acknowledged };

    fn refusal(self) -> u8 {
        match self {
            NotAcknowledged::BrokenState => 2,
            NotAcknowledged::RequesterNotAllowed => 6,
            NotAcknowledged::ListMalformed => 16,
            NotAcknowledged::DgnTooLarge => 17,
            NotAcknowledged::NoAddressHeld => 18,
        }
    }
}

impl Host {
    // Hosts the first `count` entries; the host reads requests by this edition. Refusal 16 where the list is malformed:
    // then the host has no entry. Keep the host and hand it each frame, by `route` and by `request`; neither changes
    // it.
    pub fn start(entries: [Entry; ENTRIES], count: usize, edition: Edition) -> Started
        ensures { Start entries count edition result }
    {
        let host = Host {
            entries,
            count,
            edition,
        };
        if !hosted::well_formed(host) {
            return Started {
                host: hosted::empty(edition),
                answer: Err(NotStarted::ListMalformed),
            };
        }
        Started {
            host: hosted::begun(host),
            answer: Ok(()), // hosted
        }
    }

    // Hears a frame as a command: which entries of the hosted list it is for, in rising order, perhaps none. Refusals
    // 2, 3 to 6, 16, and 18 for a command of ours while no address is held. It changes nothing. Do what the command
    // says, and answer with `acknowledge` where the sender is to know.
    pub fn route(self, claim: Claim, id: u32, bytes: &[u8]) -> Routed
        ensures { Route id bytes.now self claim result }
    {
        match handed::hand_in(self, claim, id, bytes) {
            Ok(handed) => commands::route(
                self,
                place::of(claim),
                handed.parts.dgn,
                handed.bytes[0],
            ),
            Err(why) => commands::bare(Err(NotRouted::from(why))),
        }
    }

    // Hears a frame as a request for a DGN: our claim to send, the entries whose status to send, or a NAK to send; the
    // frame stands beside the answer. Refusals 2, 3 to 6, 16, 17 where the DGN asked for has more than 17 bits, 18
    // where no address is held. It changes nothing.
    pub fn request(self, claim: Claim, id: u32, bytes: &[u8]) -> Requested
        ensures { Request id bytes.now self claim result }
    {
        match handed::hand_in(self, claim, id, bytes) {
            Ok(handed) => requests::answer(self, claim, handed.parts, handed.bytes),
            Err(why) => requests::bare(Err(NotAnswered::from(why))),
        }
    }
}

// Forms the acknowledgment of a command or request, from our address to the node that sent it; the frame to send stands
// beside the answer. Refusals 2, 6 where the requester is no address, 16, 17 where the DGN has more than 17 bits, 18
// where no address is held.
pub fn acknowledge(claim: Claim, reply: Acknowledgment) -> Acknowledged
    ensures { Acknowledge claim reply result }
{
    if !claim.keeps_rules() {
        return acknowledgments::bare(Err(NotAcknowledged::BrokenState));
    }
    if standard::GREATEST_ADDRESS < reply.requester {
        return acknowledgments::bare(Err(NotAcknowledged::RequesterNotAllowed));
    }
    if !claim.holds_list() {
        return acknowledgments::bare(Err(NotAcknowledged::ListMalformed));
    }
    if standard::GREATEST_DGN < reply.dgn {
        return acknowledgments::bare(Err(NotAcknowledged::DgnTooLarge));
    }
    match place::of(claim) {
        Place::Held(from) => Acknowledged {
            answer: Ok(()),
            id: acknowledgments::id_of(from, reply.requester),
            bytes: acknowledgments::bytes_of(reply),
        },
        Place::Claiming(_) => acknowledgments::bare(Err(NotAcknowledged::NoAddressHeld)),
        Place::Silent => acknowledgments::bare(Err(NotAcknowledged::NoAddressHeld)),
    }
}
