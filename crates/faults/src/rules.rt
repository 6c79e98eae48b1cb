// The rules that a sender's state has to keep.
ghost use Rattle.std.specs.Prelude.{◌≡◌};
ghost use Rattle.faults.specs.Sender.{keeps_rules};

use crate::{Sender, place};

// Whether each place keeps its rules.
#[tactic(auto, unfolding(crate::specs::Sender::keeps_rules))]
pub fn keep_rules(s: Sender) -> bool
    ensures { result ≡ keeps_rules s }
{
    s.faults.iter().all(|f| place::keeps_rules(*f))
}
