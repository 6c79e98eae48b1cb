// Where a sound claim stands.
ghost use Rattle.std.specs.Prelude.{◌≡◌, true};
ghost use Rattle.claim.specs.Claim.{stand_of};
ghost use Rattle.claim.specs.Promises.{is_sound, stands_at};

use claim::{Claim, Place};

pub fn of(claim: Claim) -> Place
    requires { is_sound claim ≡ true }
    ensures { stands_at result ≡ stand_of claim }
{
    claim.stands().unwrap()
}
