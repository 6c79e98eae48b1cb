// A request for DM_RV.
ghost use Rattle.std.specs.Prelude.{◌≡◌, ◌<◌, get_or};
ghost use Rattle.words.specs.Words.{given◌then◌, gives};
ghost use Rattle.claim.specs.Claim.{held, silent};
ghost use Rattle.faults.specs.Fault.{no_fault};
ghost use Rattle.faults.specs.Requests.{is_for_us, meant_by, answer_at, none_active, reply_bytes, sends, heard_of};
ghost use Rattle.faults.specs.Sender.{dm_rv_frame};
ghost use Rattle.faults.specs.Promises.{RequestedBy};
ghost use Rattle.faults.specs.Private.{told_meant, bare_requested, answered_by, without_host};

use crate::{DM_RV, NotHeard, Replied, Requested, Requesting, Response, Sender, searches, sending};
use claim::{BadState, Claim, Place};
use command::Positions;
use frame::standard;

// What a sound frame asks for: the DM_RV of a destination, or anything else.
type Meant = Result<Option<u8>, NotHeard>;

// A frame EAxxh asks for the DGN in its bytes 0 to 2.
fn meant_by(dgn: u32, bytes: [u8; 8]) -> Meant
    ensures { told_meant result ≡ meant_by dgn bytes }
{
    if frame::catalogue_form(dgn) != standard::REQUEST {
        return Ok(None);
    }
    let asked = frame::dgn_of(bytes[0], bytes[1], bytes[2]);
    if standard::GREATEST_DGN < asked {
        return Err(NotHeard::DgnTooLarge);
    }
    if asked != DM_RV {
        return Ok(None);
    }
    Ok(Some((dgn % 256) as u8))
}

// A sound frame.
pub fn heard(s: Sender, claim: Claim, dgn: u32, bytes: [u8; 8]) -> Requested
    ensures { RequestedBy (heard_of dgn bytes claim s) s result }
{
    match claim.stands() {
        Err(BadState::BrokenState) => bare(s, Err(NotHeard::BrokenState)),
        Err(BadState::ListMalformed) => bare(s, Err(NotHeard::ListMalformed)),
        Ok(Place::Held(address)) => at_address(s, address, meant_by(dgn, bytes)),
        Ok(Place::Claiming(_)) => nowhere(s, meant_by(dgn, bytes)),
        Ok(Place::Silent) => nowhere(s, meant_by(dgn, bytes)),
    }
}

// A frame heard at the address that we hold.
fn at_address(s: Sender, address: u8, meant: Meant) -> Requested
    ensures { RequestedBy (given told_meant meant then λ m. answer_at (held address) m s) s result }
{
    match meant {
        Err(why) => bare(s, Err(why)),
        Ok(None) => bare(s, Ok(Response::NothingToDo)),
        Ok(Some(destination)) => {
            if !is_for_us(destination, address) {
                return bare(s, Ok(Response::NothingToDo));
            }
            send(s, address)
        }
    }
}

// A frame heard without an address.
fn nowhere(s: Sender, meant: Meant) -> Requested
    ensures { RequestedBy (given told_meant meant then λ m. answer_at silent m s) s result }
{
    match meant {
        Err(why) => bare(s, Err(why)),
        Ok(None) => bare(s, Ok(Response::NothingToDo)),
        Ok(Some(destination)) => {
            if destination != standard::EVERYONE {
                return bare(s, Ok(Response::NothingToDo));
            }
            bare(s, Err(NotHeard::NoAddressHeld))
        }
    }
}

// Whether a destination is everyone or our address.
#[tactic(auto, unfolding(crate::specs::Requests::is_for_us))]
fn is_for_us(destination: u8, address: u8) -> bool
    ensures { result ≡ is_for_us destination address }
{
    destination == standard::EVERYONE || destination == address
}

// The DM_RV that answers a request, from our address.
fn send(s: Sender, address: u8) -> Requested
    ensures { RequestedBy (gives (sends (dm_rv_frame address (reply_bytes s)))) s result }
{
    let bytes = reply_bytes(s);
    answered(s, sending::id_from(address), bytes)
}

// The state as it was, and the frame to send.
fn answered(sender: Sender, id: u32, bytes: [u8; 8]) -> Requested
    ensures { result ≡ answered_by sender id bytes }
{
    Requested {
        sender,
        answer: Ok(Response::Send),
        id,
        bytes,
    }
}

// The bytes of the lowest active place, or those of no fault.
fn reply_bytes(s: Sender) -> [u8; 8]
    ensures { result ≡ reply_bytes s }
{
    match searches::lowest_active(s) {
        Some(at) => bytes_at(s, at),
        None => none_active(s),
    }
}

fn bytes_at(s: Sender, at: usize) -> [u8; 8]
    requires { at < 32 }
    ensures { result ≡ (get_or s.faults at no_fault).bytes }
{
    s.faults[at].bytes
}

// The DM_RV of no fault: bytes 2 to 5 are FFh.
fn none_active(s: Sender) -> [u8; 8]
    ensures { result ≡ none_active s.no_fault }
{
    let bytes = s.no_fault;
    [
        bytes[0],
        bytes[1],
        standard::UNUSED,
        standard::UNUSED,
        standard::UNUSED,
        standard::UNUSED,
        bytes[6],
        bytes[7],
    ]
}

// An answer with no frame beside it.
pub fn bare(s: Sender, answer: Requesting) -> Requested
    ensures { result ≡ bare_requested s answer }
{
    Requested {
        sender: s,
        answer,
        id: standard::NO_FRAME,
        bytes: [0; 8],
    }
}

// What the sender says, with nothing to do for the host.
pub fn without_host(faults: Requested) -> Replied
    ensures { result ≡ without_host faults }
{
    Replied {
        faults,
        host: command::Requested {
            answer: Ok(command::Response::NothingToDo),
            positions: Positions {
                at: [0; 16],
                count: 0,
            },
            id: standard::NO_FRAME,
            bytes: [0; 8],
        },
    }
}
