// A claim's state: the steps that change it, the frame of its claim, where it stands.
// That the position is one of the array is asked for, and stands in no type: the state is public and goes by value, and
// one that breaks its rules is handed back as it came (`HearRefusedKeeps`).
ghost use Rattle.std.specs.Prelude.{◌≡◌, true, ◌≤◌, ◌<◌, if◌then◌else◌};
ghost use Rattle.words.specs.Words.{◌=?◌, ◌and◌};
ghost use Rattle.claim.specs.Claim.{losses_at, claim_source, claim_id, stand_of, at_next, fallen, pause};
ghost use Rattle.claim.specs.Promises.{blank, sound_of, told_pausing, stands_at};

use crate::{BadState, CANDIDATES, Claim, HELD_AFTER, Place};
use frame::standard;

// The identifier of a claim without its source: priority 6, DGN EEFFh.
const CLAIM_ID: u32 = 6 * 0x4000000 + standard::CLAIM * 256;

// The all-zero state, beside a refused start.
pub fn blank() -> Claim
    ensures { result ≡ blank }
{
    Claim {
        name: 0,
        list: [0; CANDIDATES],
        candidates: 0,
        position: 0,
        wait: 0,
        silent: false,
        losses: 0,
    }
}

// How many addresses are given up where the claim stands: those before its position, and all of them when silent.
pub fn given_up(claim: Claim) -> usize
    ensures { result ≡ losses_at claim }
{
    if claim.silent {
        claim.candidates
    } else {
        claim.position
    }
}

// Whether it is at rest where it is silent: at no position, with no wait.
pub fn rests(claim: Claim) -> bool
    ensures { result ≡ (if claim.silent then (claim.position =? 0) and (claim.wait =? 0) else true) }
{
    !claim.silent || claim.position == 0 && claim.wait == 0
}

// Why a state is refused that is handed in with no frame.
#[tactic(auto, unfolding(crate::specs::Promises::sound_of))]
pub fn sound(claim: Claim) -> Result<(), BadState>
    ensures { told_pausing result ≡ sound_of claim }
{
    if !claim.keeps_rules() {
        return Err(BadState::BrokenState);
    }
    if !claim.holds_list() {
        return Err(BadState::ListMalformed);
    }
    Ok(())
}

// The next address of the list, claimed; the one before it is given up.
pub fn at_next(claim: Claim) -> Claim
    requires position_bound { claim.position < 16 }
    requires losses_bound { claim.losses ≤ 16 }
    ensures { result ≡ at_next claim }
{
    Claim {
        position: claim.position + 1,
        wait: 0, // it begins anew
        silent: false,
        losses: claim.losses + 1, // the address before it
        ..claim
    }
}

// No address is left: the last one is given up too.
pub fn fallen(claim: Claim) -> Claim
    requires { claim.losses ≤ 16 }
    ensures { result ≡ fallen claim }
{
    Claim {
        position: 0, // in no list any more
        wait: 0,
        silent: true,
        losses: claim.losses + 1, // the last address too
        ..claim
    }
}

// After a pause: the wait stops at 250, long before a sum of 16 bits would.
#[tactic(auto, unfolding(crate::specs::Claim::pause))]
pub fn waited(claim: Claim, ms: u16) -> Claim
    ensures { result ≡ pause ms claim }
{
    if claim.silent {
        return claim;
    }
    Claim {
        wait: claim.wait.saturating_add(ms).min(HELD_AFTER),
        ..claim
    }
}

// The source of our claim: the address, or 254 when silent.
#[tactic(auto, unfolding(crate::specs::Claim::claim_source))]
fn claim_source(claim: Claim) -> u8
    requires { claim.position < 16 }
    ensures { result ≡ claim_source claim }
{
    if claim.silent {
        standard::NO_ADDRESS
    } else {
        claim.list[claim.position]
    }
}

// The identifier of our claim.
#[tactic(auto, unfolding(crate::specs::Claim::claim_id))]
pub fn claim_id(claim: Claim) -> u32
    requires { claim.position < 16 }
    ensures { result ≡ claim_id claim }
{
    CLAIM_ID + u32::from(claim_source(claim))
}

#[tactic(auto, unfolding(crate::specs::Claim::stand_of))]
pub fn stand(claim: Claim) -> Place
    requires { claim.position < 16 }
    ensures { stands_at result ≡ stand_of claim }
{
    if claim.silent {
        return Place::Silent;
    }
    let address = claim.list[claim.position];
    if claim.wait == HELD_AFTER {
        Place::Held(address)
    } else {
        Place::Claiming(address)
    }
}
