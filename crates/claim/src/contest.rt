// The contest of NAMEs: what a frame heard leads to.
ghost use Rattle.std.specs.Prelude.{◌≡◌, ◌<◌};
ghost use Rattle.frame.specs.Standard.{no_frame};
ghost use Rattle.claim.specs.Claim.{claim_id, claim_bytes, lost_by, outcome_of};
ghost use Rattle.claim.specs.Promises.{outcome_in, told_hearing, heard_of};
ghost use Rattle.claim.specs.Private.{met_of};

use crate::{Claim, Heard, Hearing, NotHeard, Reaction, state};
use frame::{Parts, standard};

// The answer to a frame: 2, then 3 to 6, then 16, then what it leads to.
pub fn answer_to(claim: Claim, id: u32, bytes: &[u8]) -> Hearing
    ensures { told_hearing result ≡ heard_of id bytes.now claim }
{
    if !claim.keeps_rules() {
        return Err(NotHeard::BrokenState);
    }
    let checked = frame::check(id, bytes);
    let parts = checked.verdict?;
    meet(claim, parts, checked.bytes)
}

// A sound frame, heard by a state that keeps its rules.
fn meet(claim: Claim, parts: Parts, bytes: [u8; 8]) -> Hearing
    requires { claim.position < claim.candidates }
    ensures { told_hearing result ≡ met_of parts bytes claim }
{
    if !claim.holds_list() {
        return Err(NotHeard::ListMalformed);
    }
    if parts.dgn != standard::CLAIM {
        return Ok(Reaction::NothingToDo);
    }
    Ok(reaction(claim, parts.source, frame::number_of(bytes)))
}

// A claim heard from a source, with its NAME.
#[tactic(auto, unfolding(crate::specs::Claim::outcome_of))]
fn reaction(claim: Claim, source: u8, name: u64) -> Reaction
    requires { claim.position < 16 }
    ensures { outcome_in result ≡ outcome_of source name claim }
{
    if claim.silent || source != claim.list[claim.position] {
        return Reaction::NothingToDo;
    }
    if name < claim.name {
        return lost(claim);
    }
    if claim.name < name {
        return Reaction::SendClaimAgain;
    }
    Reaction::OwnName
}

#[tactic(auto, unfolding(crate::specs::Claim::lost_by))]
fn lost(claim: Claim) -> Reaction
    requires { claim.position < 16 }
    ensures { outcome_in result ≡ lost_by claim }
{
    if claim.position + 1 < claim.candidates {
        Reaction::SendNextClaim
    } else {
        Reaction::SendCannotClaim
    }
}

// A state whose claim is to be sent with an answer.
#[tactic(auto, unfolding(crate::specs::Claim::claim_bytes))]
pub fn sends(claim: Claim, answer: Hearing) -> Heard
    requires { claim.position < 16 }
    ensures { result ≡ record { claim = claim; answer = answer; id = claim_id claim; bytes = claim_bytes claim } }
{
    Heard {
        claim,
        answer,
        id: state::claim_id(claim),
        bytes: frame::bytes_of(claim.name),
    }
}

// A state beside an answer with which nothing is to be sent.
pub fn keeps(claim: Claim, answer: Hearing) -> Heard
    ensures { result ≡ record { claim = claim; answer = answer; id = no_frame.id; bytes = no_frame.bytes } }
{
    Heard {
        claim,
        answer, // as it came
        id: standard::NO_FRAME,
        bytes: [0; 8],
    }
}
