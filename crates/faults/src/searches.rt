// Places that are looked for.
ghost use Rattle.std.specs.Prelude.{◌≡◌};
ghost use Rattle.words.specs.Lists.{first};
ghost use Rattle.faults.specs.Fault.{is_empty, is_active};
ghost use Rattle.faults.specs.Sender.{is_active_at, longer, longest_due, is_chosen, chosen};

use crate::{Fault, PLACES, Sender, place};

// The lowest empty place.
pub fn lowest_empty(s: Sender) -> Option<usize>
    ensures { result ≡ first is_empty s.faults }
{
    s.faults.iter().position(|f| f.period == 0)
}

// The lowest place with an active fault.
pub fn lowest_active(s: Sender) -> Option<usize>
    ensures { result ≡ first is_active s.faults }
{
    s.faults.iter().position(|f| f.period != 0)
}

// Whether there is such a place, and a fault is active in it.
pub fn is_active_at(s: Sender, at: usize) -> bool
    ensures { result ≡ is_active_at at s }
{
    at < PLACES && s.faults[at].period != 0
}

// The greater of an age and a fault's, if it is due.
#[tactic(auto, unfolding(crate::specs::Sender::longer))]
fn longer(f: Fault, longest: u8) -> u8
    ensures { result ≡ longer f longest }
{
    if place::is_due(f) && longest < f.age {
        f.age
    } else {
        longest
    }
}

// The age of the fault that has been due longest; 0 where none is due.
fn longest_due(s: Sender) -> u8
    ensures { result ≡ longest_due s.faults }
{
    let mut longest = 0;
    for f in &s.faults {
        longest = longer(*f, longest);
    }
    longest
}

// Whether a fault is due and of this age.
fn is_chosen(f: Fault, age: u8) -> bool
    ensures { result ≡ is_chosen age f }
{
    place::is_due(f) && f.age == age
}

// The place whose fault has been due longest; of several the lowest.
#[tactic(auto, unfolding(crate::specs::Sender::chosen))]
pub fn chosen(s: Sender) -> Option<usize>
    ensures { result ≡ chosen s.faults }
{
    let age = longest_due(s);
    s.faults.iter().position(|f| is_chosen(*f, age))
}
