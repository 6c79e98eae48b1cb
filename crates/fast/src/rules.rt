// The rules that a state handed in has to keep.
ghost use Rattle.std.specs.Prelude.{◌≡◌, ◌≤◌};
ghost use Rattle.words.specs.Lists.{every};
ghost use Rattle.fast.specs.Names.{most_named};
ghost use Rattle.fast.specs.Receiver.{names_of, holds_names, place_keeps_rules, keeps_rules};

use crate::limits::DGNS;
use crate::{Place, Receiver, names, one_place};
use places::seats;
use places::seats::Seat;

// Whether it holds names, each place keeps its own rules, and no pair is open in two.
#[tactic(auto, unfolding(crate::specs::Receiver::keeps_rules, crate::specs::Receiver::holds_names))]
pub fn keep_rules(r: Receiver) -> bool
    ensures { result ≡ keeps_rules r }
{
    holds_names(&r) && each_keeps_rules(&r) && seats::one_each(&r.places)
}

// Whether the held list of DGNs is one that a start takes.
#[tactic(auto, unfolding(crate::specs::Receiver::holds_names))]
fn holds_names(r: &Receiver) -> bool
    ensures { result ≡ holds_names r.now }
{
    r.named <= DGNS && names::well_formed(names::names_of(r))
}

// Whether each place keeps its own rules.
fn each_keeps_rules(r: &Receiver) -> bool
    requires { r.now.named ≤ most_named }
    ensures { result ≡ every (place_keeps_rules (names_of r.now)) r.now.places }
{
    let names = names::names_of(r);
    r.places.iter().all(|p| place_keeps_rules(names, p))
}

// Whether a place is all zeros, or open for a DGN that is named, within its limits.
#[tactic(auto, unfolding(crate::specs::Receiver::place_keeps_rules, crate::specs::Receiver::is_zero))]
fn place_keeps_rules(names: &[u32], p: &Place) -> bool
    ensures { result ≡ place_keeps_rules names.now p.now }
{
    if p.is_free() {
        return *p == Place::free();
    }
    names::is_named(p.dgn, names) && one_place::keeps_limits(p)
}
