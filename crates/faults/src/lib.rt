// Faults broadcast as DM_RV (RULES 14): the fields of a DM_RV, its service point number, and a sender of up to 32
// active faults.
#![tactic(auto)]

pub mod names;
mod place;
mod requests;
mod rows;
mod rules;
mod searches;
mod sending;
mod service_point;

ghost use Rattle.std.specs.Prelude.{◌≡◌};
ghost use Rattle.catalogue.specs.Table.{nth};
ghost use Rattle.faults.specs.Rows.{rows};
ghost use Rattle.faults.specs.Promises.{PackedRows, RowAt, ReadField, WriteField, ReadServicePoint};
ghost use Rattle.faults.specs.Promises.{WriteServicePoint, Start, Add, Clear, Step, Request, Reply};
ghost use Rattle.faults.specs.Promises.{number_of_not_added, number_of_not_cleared, number_of_not_stepped};
ghost use Rattle.faults.specs.Promises.{number_of_not_heard};

use catalogue::{Looked, NotRead, Reading, Row, Value, Writing};
use claim::{BadState, Claim, Place};
use command::Host;
use frame::BadFrame;
use words::Refusal;

// DM_RV.
pub const DM_RV: u32 = 0x1FECA;

// A sender has places for 32 active faults.
pub const PLACES: usize = 32;

// A sender is stepped every 50 ms.
pub const STEP: u16 = 50;

// A place. It is empty, all zeros, or an active fault: the eight bytes of its DM_RV, its period in milliseconds, the
// milliseconds until it is due, and, once it is due, for how many steps it has been passed over since, up to 31. (It is
// no `Option`: a state with bytes in an empty place is refused, `place_keeps_rules`.)
#[derive(Clone, Copy)]
pub struct Fault {
    pub bytes: [u8; 8],
    pub period: u16,
    pub until_due: u16,
    pub age: u8,
}

// A sender: its places, and the DM_RV that it answers when no fault is active, of which bytes 2 to 5 are not used.
#[derive(Clone, Copy)]
pub struct Sender {
    pub faults: [Fault; PLACES],
    pub no_fault: [u8; 8],
}

// Why a fault is not added: refusals 2, 20, 21.
#[derive(Clone, Copy)]
pub enum NotAdded {
    BrokenState,
    NoPlace,
    PeriodNotAllowed,
}

// The place of the new fault, or why there is none.
pub type Adding = Result<usize, NotAdded>;

#[derive(Clone, Copy)]
pub struct Added {
    pub sender: Sender,
    pub answer: Adding,
}

// Why a fault is not cleared: refusals 2, 22.
#[derive(Clone, Copy)]
pub enum NotCleared {
    BrokenState,
    NoSuchFault,
}

// The fault is active no more, or why not.
pub type Clearing = Result<(), NotCleared>;

#[derive(Clone, Copy)]
pub struct Cleared {
    pub sender: Sender,
    pub answer: Clearing,
}

// Why a step is not made: refusals 2, 16, 18.
#[derive(Clone, Copy)]
pub enum NotStepped {
    BrokenState,
    ListMalformed,
    NoAddressHeld,
}

// The place whose DM_RV is to be sent, or none where no fault is due; or why the step is not made.
pub type Stepping = Result<Option<usize>, NotStepped>;

// The state, and the frame to send; no frame where nothing is to be sent.
#[derive(Clone, Copy)]
pub struct Stepped {
    pub sender: Sender,
    pub answer: Stepping,
    pub id: u32,
    pub bytes: [u8; 8],
}

// What a frame comes to as a request for DM_RV.
#[derive(Clone, Copy)]
pub enum Response {
    // No request for DM_RV, or not for us.
    NothingToDo,
    // The frame beside is to be sent.
    Send,
}

// Why a frame is not heard: refusals 2, 3 to 6, 16, 17, 18.
#[derive(Clone, Copy)]
pub enum NotHeard {
    BrokenState,
    BadFrame(BadFrame),
    ListMalformed,
    DgnTooLarge,
    NoAddressHeld,
}

// What a frame comes to, or why it is not heard.
pub type Requesting = Result<Response, NotHeard>;

// The state as it was, and the frame to send; no frame where nothing is to be sent.
#[derive(Clone, Copy)]
pub struct Requested {
    pub sender: Sender,
    pub answer: Requesting,
    pub id: u32,
    pub bytes: [u8; 8],
}

// What a node with a sender and a host makes of a frame: what the sender says, and what the host says where the sender
// has nothing to do. Where the sender answers or refuses, there is nothing to do for the host.
#[derive(Clone, Copy)]
pub struct Replied {
    pub faults: Requested,
    pub host: command::Requested,
}

// A service point number of 19 bits; or refusals 3 to 6, or 11: the frame is no DM_RV.
pub type ServicePoint = Result<u32, NotRead>;

impl Refusal for NotAdded {
    ghost number = { number_of_not_added };

    fn refusal(self) -> u8 {
        match self {
            NotAdded::BrokenState => 2,
            NotAdded::NoPlace => 20,
            NotAdded::PeriodNotAllowed => 21,
        }
    }
}

impl Refusal for NotCleared {
    ghost number = { number_of_not_cleared };

    fn refusal(self) -> u8 {
        match self {
            NotCleared::BrokenState => 2,
            NotCleared::NoSuchFault => 22,
        }
    }
}

impl Refusal for NotStepped {
    ghost number = { number_of_not_stepped };

    fn refusal(self) -> u8 {
        match self {
            NotStepped::BrokenState => 2,
            NotStepped::ListMalformed => 16,
            NotStepped::NoAddressHeld => 18,
        }
    }
}

impl Refusal for NotHeard {
    ghost number = { number_of_not_heard };

    fn refusal(self) -> u8 {
        match self {
            NotHeard::BrokenState => 2,
            NotHeard::BadFrame(why) => why.refusal(),
            NotHeard::ListMalformed => 16,
            NotHeard::DgnTooLarge => 17,
            NotHeard::NoAddressHeld => 18,
        }
    }
}

// The rows of DM_RV as a table of packed rows, for a program that holds it and lends it to the catalogue's calls.
pub fn packed_rows() -> [u64; rows::COUNT]
    ensures { PackedRows result }
{
    rows::ROWS
}

// The row of DM_RV with this number, from 0, as `names` has them; refusal 11 where there is none.
pub fn row_at(n: usize) -> Looked
    ensures { RowAt n result }
{
    let table = packed_rows();
    catalogue::row_in(&table, n)
}

// Reads the field, class and code, of the row with this number from a DM_RV. Refusals 3 to 6 of the frame; then 11
// where there is no such row, or the frame is no DM_RV. (Compiled into its callers: most name the row, as those of the
// service point do, and what is asked of that row is then known beforehand.)
#[inline(always)]
pub fn read(n: usize, id: u32, bytes: &[u8]) -> Reading
    ensures { ReadField n id bytes.now result }
{
    catalogue::read_row(nth(n), id, bytes)
}

// Writes a value into the field of the row with this number of a DM_RV, and alters no other bit. Refusals as of `read`,
// then 12 where the value has no code; a refusal alters no bit.
pub fn write(n: usize, id: u32, bytes: &mut [u8], value: Value) -> Writing
    ensures { WriteField n id bytes.old value result bytes.new }
{
    catalogue::write_row(nth(n), id, bytes, value)
}

// Reads the service point number of a DM_RV, 19 bits of three rows. Refusals 3 to 6, then 11 where the frame is no
// DM_RV.
pub fn read_service_point(id: u32, bytes: &[u8]) -> ServicePoint
    ensures { ReadServicePoint id bytes.now result }
{
    let high = read(names::SERVICE_POINT_HIGH, id, bytes)?;
    let middle = read(names::SERVICE_POINT_MIDDLE, id, bytes)?;
    let low = read(names::SERVICE_POINT_LOW, id, bytes)?;
    Ok(service_point::join(high.code, middle.code, low.code))
}

// Writes a service point number into a DM_RV, and alters no other bit. Refusals as of `read_service_point`, then 12
// where the number has more than 19 bits; a refusal alters no bit.
pub fn write_service_point(id: u32, bytes: &mut [u8], number: u32) -> Writing
    ensures { WriteServicePoint id bytes.old number result bytes.new }
{
    read_service_point(id, bytes)?;
    service_point::write(id, bytes, number)
}

impl Sender {
    // A sender with no active fault. Until one is added, it answers these bytes, with FFh in bytes 2 to 5. Call `step`
    // every 50 ms from then on, and hand each frame to `reply`, or to `request` where there is no host.
    pub fn start(no_fault: [u8; 8]) -> Sender
        ensures { Start no_fault result }
    {
        Sender {
            faults: [place::empty(); PLACES],
            no_fault,
        }
    }

    // Makes a fault active, in the lowest empty place: the bytes of its DM_RV, and its period, 100 to 1,000 ms in
    // multiples of 50. It is due from the next step on. Keep the place that is answered, for `clear`. Refusals 2, 20
    // where all 32 places are taken, 21 where the period is another; they change nothing.
    pub fn add(self, bytes: [u8; 8], period: u16) -> Added
        ensures { Add bytes period self result }
    {
        if !rules::keep_rules(self) {
            return Added {
                sender: self,
                answer: Err(NotAdded::BrokenState),
            };
        }
        match searches::lowest_empty(self) {
            Some(at) => sending::add(self, at, bytes, period),
            None => Added {
                sender: self,
                answer: Err(NotAdded::NoPlace),
            },
        }
    }

    // Ends the fault in a place, which is empty then. Refusals 2, and 22 where no fault is active there; they change
    // nothing.
    pub fn clear(self, place: usize) -> Cleared
        ensures { Clear place self result }
    {
        if !rules::keep_rules(self) {
            return Cleared {
                sender: self,
                answer: Err(NotCleared::BrokenState),
            };
        }
        if !searches::is_active_at(self, place) {
            return Cleared {
                sender: self,
                answer: Err(NotCleared::NoSuchFault),
            };
        }
        Cleared {
            sender: sending::replace(self, place, place::empty()),
            answer: Ok(()),
        }
    }

    // 50 ms have passed: of the faults that are due the one that waits longest, or the lowest of several places, is to
    // be sent, and its frame stands beside the answer; it is due again a period later. Refusals 2, 16, 18. A step that
    // is refused is none: no time passes.
    pub fn step(self, claim: Claim) -> Stepped
        ensures { Step claim self result }
    {
        if !rules::keep_rules(self) {
            return sending::bare(self, Err(NotStepped::BrokenState));
        }
        match claim.stands() {
            Ok(Place::Held(address)) => sending::step(self, address),
            Ok(Place::Claiming(_)) => sending::bare(self, Err(NotStepped::NoAddressHeld)),
            Ok(Place::Silent) => sending::bare(self, Err(NotStepped::NoAddressHeld)),
            Err(BadState::BrokenState) => sending::bare(self, Err(NotStepped::BrokenState)),
            Err(BadState::ListMalformed) => sending::bare(self, Err(NotStepped::ListMalformed)),
        }
    }

    // Hears a frame: a request for DM_RV gets the fault in the lowest active place, or the DM_RV of no fault; the frame
    // to send stands beside the answer. Refusals 2, 3 to 6, 16, 17, 18. It changes nothing: no fault is due earlier or
    // later.
    pub fn request(self, claim: Claim, id: u32, bytes: &[u8]) -> Requested
        ensures { Request id bytes.now claim self result }
    {
        if !rules::keep_rules(self) || !claim.keeps_rules() {
            return requests::bare(self, Err(NotHeard::BrokenState));
        }
        let checked = frame::check(id, bytes);
        match checked.verdict {
            Err(why) => requests::bare(self, Err(NotHeard::BadFrame(why))),
            Ok(parts) => requests::heard(self, claim, parts.dgn, checked.bytes),
        }
    }

    // Hears a frame for a node that has a host too: a request for DM_RV is the sender's, and the host hears every frame
    // in which the sender has nothing to do. Else the host would refuse on the bus what the sender answers. Both
    // answers stand side by side, with their refusals, as `request` of each has them; it changes nothing.
    pub fn reply(self, host: Host, claim: Claim, id: u32, bytes: &[u8]) -> Replied
        ensures { Reply id bytes.now host claim self result }
    {
        let faults = self.request(claim, id, bytes);
        match faults.answer {
            Ok(Response::NothingToDo) => Replied {
                faults,
                host: host.request(claim, id, bytes),
            },
            Ok(Response::Send) => requests::without_host(faults),
            Err(_) => requests::without_host(faults),
        }
    }
}

// The row with this number; past the end one that lies in no frame.
fn nth(n: usize) -> Row
    ensures { result ≡ nth rows n }
{
    match row_at(n) {
        Ok(row) => row,
        Err(_) => Row::default(),
    }
}
