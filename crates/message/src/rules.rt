// The rules that a state handed in has to keep.
ghost use Rattle.std.specs.Prelude.{◌≡◌};
ghost use Rattle.words.specs.Lists.{every};
ghost use Rattle.message.specs.Receiver.{place_keeps_rules, keeps_rules};

use crate::{Place, Receiver, one_place};
use places::seats;

// Whether each place keeps its own, and no sender is open in two.
#[tactic(auto, unfolding(crate::specs::Receiver::keeps_rules))]
pub fn keep_rules(r: Receiver) -> bool
    ensures { result ≡ keeps_rules r.places }
{
    each_keeps_rules(&r.places) && seats::one_each(&r.places)
}

fn each_keeps_rules(places: &[Place]) -> bool
    ensures { result ≡ every place_keeps_rules places.now }
{
    places.iter().all(|p| one_place::keeps_rules(p))
}
