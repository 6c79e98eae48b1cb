// A request for a DGN: what is replied to it.
ghost use Rattle.std.specs.Prelude.{◌≡◌, true, ◌≤◌};
ghost use Rattle.words.specs.Words.{gives};
ghost use Rattle.claim.specs.Claim.{claim_frame};
ghost use Rattle.claim.specs.Promises.{is_sound, stands_at};
ghost use Rattle.command.specs.Hosted.{hosted};
ghost use Rattle.command.specs.Positions.{positions_where, filled};
ghost use Rattle.command.specs.Acknowledgment.{acknowledgment_frame};
ghost use Rattle.command.specs.Requests.{instance_asked, asked_of, is_of_instance, supports, is_our_address, is_ours};
ghost use Rattle.command.specs.Requests.{nak_to, claims, nak, status_of, reply_of, answer_of};
ghost use Rattle.command.specs.Promises.{RequestedBy};
ghost use Rattle.command.specs.Private.{asked_by, bare_requested};

use crate::{
    Acknowledgment, Edition, Entry, Host, NotAnswered, Positions, Requested, Requesting, Response,
    acknowledgments, picking, place,
};
use claim::{Claim, Place};
use frame::{Parts, standard};

// The code of a NAK.
const NAK: u8 = 1;

// The instance of a request for all instances.
const ALL_INSTANCES: u8 = 0xFF;

// A request as the frame that it came in has it.
#[derive(Clone, Copy)]
struct Asked {
    destination: u8,
    source: u8,
    dgn: u32,
    instance: u8,
}

// A sound frame.
pub fn answer(host: Host, claim: Claim, parts: Parts, bytes: [u8; 8]) -> Requested
    requires { (is_sound claim ≡ true) × (host.count ≤ 16) }
    ensures { RequestedBy (answer_of host.edition parts bytes (hosted host) claim) result }
{
    if frame::catalogue_form(parts.dgn) != standard::REQUEST {
        return bare(Ok(Response::NothingToDo));
    }
    let asked = asked_of(host.edition, parts, bytes);
    if standard::GREATEST_DGN < asked.dgn {
        return bare(Err(NotAnswered::DgnTooLarge));
    }
    reply(host, claim, asked)
}

// The request in a frame EAxxh, with its DGN in bytes 0 to 2.
fn asked_of(edition: Edition, parts: Parts, bytes: [u8; 8]) -> Asked
    ensures { asked_by result ≡ asked_of edition parts bytes }
{
    let dgn = frame::dgn_of(bytes[0], bytes[1], bytes[2]);
    let instance = instance_asked(edition, bytes);
    Asked {
        destination: (parts.dgn % 256) as u8,
        source: parts.source,
        dgn,
        instance,
    }
}

// The instance that is asked for: byte 3 names it in edition two alone.
#[tactic(auto, unfolding(crate::specs::Requests::instance_asked))]
fn instance_asked(edition: Edition, bytes: [u8; 8]) -> u8
    ensures { result ≡ instance_asked edition bytes }
{
    match edition {
        Edition::One => ALL_INSTANCES,
        Edition::Two => bytes[3],
    }
}

// A request for a DGN of 17 bits.
fn reply(host: Host, claim: Claim, asked: Asked) -> Requested
    requires { (is_sound claim ≡ true) × (host.count ≤ 16) }
    ensures { RequestedBy (reply_of (asked_by asked) (hosted host) claim) result }
{
    let place = place::of(claim);
    if !is_ours(asked, place) {
        return bare(Ok(Response::NothingToDo));
    }
    if asked.dgn == standard::ADDRESS_CLAIMED {
        return our_claim(claim);
    }
    match place {
        Place::Held(from) => status(host, from, asked),
        Place::Claiming(_) => bare(Err(NotAnswered::NoAddressHeld)),
        Place::Silent => bare(Err(NotAnswered::NoAddressHeld)),
    }
}

#[tactic(auto, unfolding(crate::specs::Requests::is_ours))]
fn is_ours(asked: Asked, place: Place) -> bool
    ensures { result ≡ is_ours (asked_by asked) (stands_at place) }
{
    asked.destination == standard::EVERYONE || is_our_address(asked, place)
}

// The address that we claim is ours for EE00h only.
#[tactic(auto, unfolding(crate::specs::Requests::is_our_address))]
fn is_our_address(asked: Asked, place: Place) -> bool
    ensures { result ≡ is_our_address (asked_by asked) (stands_at place) }
{
    match place {
        Place::Held(address) => asked.destination == address,
        Place::Claiming(address) => {
            asked.dgn == standard::ADDRESS_CLAIMED && asked.destination == address
        }
        Place::Silent => false,
    }
}

// The frame of our claim.
fn our_claim(claim: Claim) -> Requested
    requires { is_sound claim ≡ true }
    ensures { RequestedBy (gives (claims (claim_frame claim))) result }
{
    let ours = claim.our_claim();
    let bytes = ours.bytes;
    Requested {
        answer: Ok(Response::SendClaim),
        positions: picking::none(),
        id: ours.id,
        bytes,
    }
}

// A request for any other DGN, heard at the address that we hold.
fn status(host: Host, address: u8, asked: Asked) -> Requested
    requires { host.count ≤ 16 }
    ensures { RequestedBy (gives (status_of (asked_by asked) (hosted host) address)) result }
{
    let positions = supporting(host, asked);
    if 0 < positions.count {
        return Requested {
            answer: Ok(Response::Supported),
            positions,
            id: standard::NO_FRAME,
            bytes: [0; 8],
        };
    }
    if asked.destination == standard::EVERYONE {
        return bare(Ok(Response::Unsupported));
    }
    if asked.source == standard::NO_ADDRESS {
        return bare(Ok(Response::Unsupported));
    }
    nak(address, asked)
}

// The positions of the entries that support a request.
fn supporting(host: Host, asked: Asked) -> Positions
    requires { host.count ≤ 16 }
    ensures { result ≡ filled (positions_where (supports (asked_by asked)) (hosted host)) }
{
    picking::pick(
        host,
        |e|
            ensures { result ≡ supports (asked_by asked) e }
        { supports(asked, e) },
    )
}

// The acknowledgment that no entry supports the request, with the instance that was asked for.
fn nak(address: u8, asked: Asked) -> Requested
    ensures { RequestedBy (gives (nak (acknowledgment_frame address (nak_to (asked_by asked))))) result }
{
    let reply = Acknowledgment {
        code: NAK,
        instance: asked.instance,
        requester: asked.source,
        dgn: asked.dgn,
    };
    Requested {
        answer: Ok(Response::SendNak),
        positions: picking::none(),
        id: acknowledgments::id_of(address, asked.source),
        bytes: acknowledgments::bytes_of(reply),
    }
}

// Whether an entry supports a request: its status is asked for, and its instance or all of them.
#[tactic(auto, unfolding(crate::specs::Requests::supports))]
fn supports(asked: Asked, e: Entry) -> bool
    ensures { result ≡ supports (asked_by asked) e }
{
    e.status == asked.dgn && is_of_instance(e, asked.instance)
}

// Whether an entry is of the instance that is asked for, which may be all of them.
fn is_of_instance(e: Entry, instance: u8) -> bool
    ensures { result ≡ is_of_instance instance e }
{
    instance == ALL_INSTANCES || e.instance == instance
}

// An answer with no positions and no frame beside it.
pub fn bare(answer: Requesting) -> Requested
    ensures { result ≡ bare_requested answer }
{
    Requested {
        answer,
        positions: picking::none(),
        id: standard::NO_FRAME,
        bytes: [0; 8],
    }
}
