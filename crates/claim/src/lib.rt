// Claiming an address (RULES 8): the candidate list, the contest of NAMEs, the wait until an address is held.
#![tactic(auto)]

mod contest;
mod list;
mod state;

ghost use Rattle.std.specs.Prelude.{◌≡◌};
ghost use Rattle.claim.specs.Promises.{Start, Hear, Pause, Stands, OurClaim, KeepsRules, HoldsList};
ghost use Rattle.claim.specs.Promises.{number_of_not_started, number_of_not_heard, number_of_bad_state};
ghost use Rattle.claim.specs.declared.NotHeard.TheVariants.{BadFrame};

use frame::{BadFrame, standard};
use words::Refusal;

// A candidate list has at most 16 addresses.
pub const CANDIDATES: usize = 16;

// An address is held after 250 ms.
pub const HELD_AFTER: u16 = 250;

// A claim's state: the NAME, the candidate list (`candidates` addresses, then zeros), the position in it of the address
// that is claimed or held, the milliseconds waited there, up to 250, whether all addresses are lost, and how many
// addresses were given up since the start: one for each contest that was lost. A contest that is won gives up nothing.
// The list stands with its count beside it, for the fields are public, and the laws (`SameNode`, `Counts`) speak of
// them. `silent` is a flag: a state that is silent after a wait can be handed in, and is refused with 2.
#[derive(Clone, Copy)]
pub struct Claim {
    pub name: u64,
    pub list: [u8; CANDIDATES],
    pub candidates: usize,
    pub position: usize,
    pub wait: u16,
    pub silent: bool,
    pub losses: usize,
}

// Why a claim is not started: refusal 16.
#[derive(Clone, Copy)]
pub enum NotStarted {
    ListMalformed,
}

// Started: our claim is to be sent; or why not.
pub type Starting = Result<(), NotStarted>;

// The new state, and the frame to send. Where the start is refused, the state is of zeros, and there is no frame.
#[derive(Clone, Copy)]
pub struct Started {
    pub claim: Claim,
    pub answer: Starting,
    pub id: u32,
    pub bytes: [u8; 8],
}

// What a frame that is heard leads to.
#[derive(Clone, Copy)]
pub enum Reaction {
    // No claim at our address, or we are silent.
    NothingToDo,
    // A claim at our address with our own NAME.
    OwnName,
    // A higher NAME: our claim is to be sent once more.
    SendClaimAgain,
    // A lower NAME: we go on to the next address, and our claim of it is to be sent.
    SendNextClaim,
    // A lower NAME, and no address is left: we are silent, and our claim is to be sent from 254.
    SendCannotClaim,
}

// Why a frame is not heard: refusals 2, 3 to 6, and 16.
#[derive(Clone, Copy)]
pub enum NotHeard {
    BrokenState,
    BadFrame(BadFrame),
    ListMalformed,
}

// What a frame heard leads to, or why it is not heard.
pub type Hearing = Result<Reaction, NotHeard>;

// The state, and the frame to send; no frame where nothing is to be sent.
#[derive(Clone, Copy)]
pub struct Heard {
    pub claim: Claim,
    pub answer: Hearing,
    pub id: u32,
    pub bytes: [u8; 8],
}

// Why a state is refused that is handed in with no frame: refusals 2 and 16.
#[derive(Clone, Copy)]
pub enum BadState {
    BrokenState,
    ListMalformed,
}

// Waited; or why not.
pub type Pausing = Result<(), BadState>;

#[derive(Clone, Copy)]
pub struct Paused {
    pub claim: Claim,
    pub answer: Pausing,
}

// Where a claim stands, and at which address.
#[derive(Clone, Copy)]
pub enum Place {
    Held(u8),
    Claiming(u8),
    Silent,
}

// Where a claim stands, or why that is not told.
pub type Standing = Result<Place, BadState>;

// The frame beside is our claim; or why there is none.
pub type Sending = Result<(), BadState>;

// The frame of our claim; no frame where the state is refused.
#[derive(Clone, Copy)]
pub struct ClaimFrame {
    pub answer: Sending,
    pub id: u32,
    pub bytes: [u8; 8],
}

impl Refusal for NotStarted {
    ghost number = { number_of_not_started };

    fn refusal(self) -> u8 {
        match self {
            NotStarted::ListMalformed => 16,
        }
    }
}

impl Refusal for NotHeard {
    ghost number = { number_of_not_heard };

    fn refusal(self) -> u8 {
        match self {
            NotHeard::BrokenState => 2,
            NotHeard::BadFrame(why) => why.refusal(),
            NotHeard::ListMalformed => 16,
        }
    }
}

impl From<BadFrame> for NotHeard {
    ghost from_gives = { λ why answer. answer ≡ BadFrame why };

    fn from(why: BadFrame) -> NotHeard {
        NotHeard::BadFrame(why)
    }
}

impl Refusal for BadState {
    ghost number = { number_of_bad_state };

    fn refusal(self) -> u8 {
        match self {
            BadState::BrokenState => 2,
            BadState::ListMalformed => 16,
        }
    }
}

impl Claim {
    // Claims the first address of a list of 1 to 16, no two alike and none above 253; refusal 16 for any other list.
    // Keep the state, send the frame, and hand the state to `hear` with every frame that comes and to `pause` with the
    // time that passes; `stands` tells when the address is held.
    pub fn start(name: u64, list: &[u8]) -> Started
        ensures { Start name list.now result }
    {
        if !list::well_formed(list) {
            return Started {
                claim: state::blank(),
                answer: Err(NotStarted::ListMalformed),
                id: standard::NO_FRAME,
                bytes: [0; 8],
            };
        }
        let claim = Claim {
            name,
            list: list::filled(list),
            candidates: list.len(),
            position: 0,
            wait: 0,
            silent: false,
            losses: 0,
        };
        Started {
            claim,
            answer: Ok(()), // started
            id: state::claim_id(claim),
            bytes: frame::bytes_of(name),
        }
    }

    // Hears one frame. Refusals 2, 3 to 6 and 16 change nothing. A claim at our address with a lower NAME moves us on
    // to the next address of the list, and where none is left it silences us; either way one more address is given up.
    // Nothing else that is heard changes the state. Keep the state that is handed back, and where the answer begins
    // with `Send`, send the frame beside it.
    pub fn hear(self, id: u32, bytes: &[u8]) -> Heard
        ensures { Hear id bytes.now self result }
    {
        let answer = contest::answer_to(self, id, bytes);
        let Ok(reaction) = answer else {
            return contest::keeps(self, answer);
        };
        match reaction {
            Reaction::SendClaimAgain => contest::sends(self, answer),
            Reaction::SendNextClaim => contest::sends(state::at_next(self), answer),
            Reaction::SendCannotClaim => contest::sends(state::fallen(self), answer),
            Reaction::NothingToDo | Reaction::OwnName => contest::keeps(self, answer),
        }
    }

    // Passes so many milliseconds since the start or the last pause; the wait stops at 250, and silent does not wait.
    // Refusals 2 and 16 change nothing. Keep the state that is handed back.
    pub fn pause(self, ms: u16) -> Paused
        ensures { Pause ms self result }
    {
        let answer = state::sound(self);
        let claim = match answer {
            Ok(()) => state::waited(self, ms),
            Err(_) => self,
        };
        Paused { claim, answer }
    }

    // Tells where the claim stands, and at which address: held, once the pauses since it was claimed have come to 250
    // ms; claiming until then; or silent, for good. Refusals 2 and 16. Changes nothing.
    pub fn stands(self) -> Standing
        ensures { Stands self result }
    {
        state::sound(self)?;
        Ok(state::stand(self))
    }

    // Tells the frame of our claim, from the address that we claim or hold, or from 254 when silent. Refusals 2 and 16
    // tell no frame. Changes nothing: send the frame where our claim is asked for.
    pub fn our_claim(self) -> ClaimFrame
        ensures { OurClaim self result }
    {
        match state::sound(self) {
            Ok(()) => ClaimFrame {
                answer: Ok(()),
                id: state::claim_id(self),
                bytes: frame::bytes_of(self.name),
            },
            Err(why) => ClaimFrame {
                answer: Err(why),
                id: standard::NO_FRAME,
                bytes: [0; 8],
            },
        }
    }

    // Tells whether the state keeps its rules. One that does not is refused with 2 by `hear`, `pause`, `stands` and
    // `our_claim`. What `start` gave without a refusal, and what `hear` and `pause` made of it, always keeps them. The
    // addresses given up are those before the position, and all of them when silent.
    #[tactic(auto, unfolding(crate::specs::Claim::keeps_rules))]
    pub fn keeps_rules(self) -> bool
        ensures { KeepsRules self result }
    {
        self.position < self.candidates
            && self.wait <= HELD_AFTER
            && state::rests(self)
            && self.losses == state::given_up(self)
    }

    // Tells whether the list that the state holds is well formed. Where it is not, the same calls refuse with 16,
    // unless a lower number applies.
    #[tactic(auto, unfolding(crate::specs::Claim::holds_list))]
    pub fn holds_list(self) -> bool
        ensures { HoldsList self result }
    {
        self.candidates <= CANDIDATES && list::well_formed(&self.list[..self.candidates])
    }
}
