// What becomes of a sender's places, and the frame of a DM_RV.
ghost use Rattle.std.specs.Prelude.{◌≡◌, ◌<◌};
ghost use Rattle.words.specs.Words.{gives};
ghost use Rattle.faults.specs.Sender.{dm_rv_id, replacing, added_at, passed_all, held_step};
ghost use Rattle.faults.specs.Promises.{AddedBy, SteppedBy};
ghost use Rattle.faults.specs.Private.{sent_at, bare_stepped};

use crate::{Added, DM_RV, Fault, NotAdded, Sender, Stepped, Stepping, place, searches};
use frame::standard;

// The identifier of a DM_RV without its source: priority 6.
const DM_RV_ID: u32 = 6 * 0x4000000 + DM_RV * 256;

// The identifier of a DM_RV from our address.
pub fn id_from(address: u8) -> u32
    ensures { result ≡ dm_rv_id address }
{
    DM_RV_ID + u32::from(address)
}

// One place replaced.
pub fn replace(s: Sender, at: usize, f: Fault) -> Sender
    requires { at < 32 }
    ensures { result ≡ replacing s at f }
{
    let mut t = s;
    t.faults[at] = f;
    t
}

// A new fault for an empty place.
pub fn add(s: Sender, at: usize, bytes: [u8; 8], period: u16) -> Added
    requires { at < 32 }
    ensures { AddedBy (added_at at period) bytes period s result }
{
    if !place::is_allowed(period) {
        return Added {
            sender: s,
            answer: Err(NotAdded::PeriodNotAllowed),
        };
    }
    Added {
        sender: replace(s, at, place::added(bytes, period)),
        answer: Ok(at),
    }
}

// 50 ms pass for every place.
fn all_passed(s: Sender) -> Sender
    ensures { result ≡ passed_all s }
{
    let mut faults = s.faults;
    for f in &mut faults {
        *f = place::passed(*f);
    }
    Sender { faults, ..s }
}

// A step while we hold this address.
pub fn step(s: Sender, address: u8) -> Stepped
    ensures { SteppedBy (gives (held_step address s)) s result }
{
    let later = all_passed(s);
    match searches::chosen(later) {
        Some(at) => send(later, at, address),
        None => bare(later, Ok(None)),
    }
}

// The DM_RV of a place, which is due again a period later.
fn send(s: Sender, at: usize, address: u8) -> Stepped
    requires { at < 32 }
    ensures { result ≡ sent_at at address s }
{
    let f = s.faults[at];
    let bytes = f.bytes;
    Stepped {
        sender: replace(s, at, place::sent(f)),
        answer: Ok(Some(at)),
        id: id_from(address),
        bytes,
    }
}

// An answer with no frame beside it.
pub fn bare(sender: Sender, answer: Stepping) -> Stepped
    ensures { result ≡ bare_stepped sender answer }
{
    Stepped {
        sender,
        answer,
        id: standard::NO_FRAME,
        bytes: [0; 8],
    }
}
