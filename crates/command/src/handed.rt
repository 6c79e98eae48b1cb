// What is handed in with a frame: 2, then 3 to 6, then 16.
ghost use Rattle.std.specs.Prelude.{◌≡◌};
ghost use Rattle.words.specs.Words.{told};
ghost use Rattle.claim.specs.Promises.{number_of_not_heard};
ghost use Rattle.command.specs.Private.{handed_of};

use crate::{Host, hosted};
use claim::{Claim, NotHeard};
use frame::Parts;

// A sound frame beside two lists that are well formed: its parts and its bytes.
#[derive(Clone, Copy)]
pub struct Handed {
    pub parts: Parts,
    pub bytes: [u8; 8],
}

pub fn hand_in(host: Host, claim: Claim, id: u32, bytes: &[u8]) -> Result<Handed, NotHeard>
    ensures { told number_of_not_heard result ≡ handed_of id bytes.now host claim }
{
    if !claim.keeps_rules() {
        return Err(NotHeard::BrokenState);
    }
    let checked = frame::check(id, bytes);
    let parts = checked.verdict?;
    if !claim.holds_list() {
        return Err(NotHeard::ListMalformed);
    }
    if !hosted::well_formed(host) {
        return Err(NotHeard::ListMalformed);
    }
    let bytes = checked.bytes;
    Ok(Handed { parts, bytes })
}
