// The positions of the entries that a frame asks for, in one loop for commands and requests.
// That a host has at most 16 entries is asked for, and stands in no type: hosts are public, and one with more is
// refused (`LowestWins`).
ghost use Rattle.std.specs.Prelude.{◌≡◌, [], ◌<◌, ◌≤◌};
ghost use Rattle.command.specs.Positions.{filled};
ghost use Rattle.command.specs.Private.{added, Picks};

use crate::{ENTRIES, Entry, Host, Positions};

// The positions of the entries that pass a test.
pub fn pick<F: Fn(Entry) -> bool>(host: Host, passes: F) -> Positions
    requires few { host.count ≤ 16 }
    requires callable { F.IsAlwaysCallable passes }
    ensures { Picks (F.post passes) host result }
{
    let mut picked = none();
    for (i, e) in host.entries[..host.count].iter().enumerate() {
        if passes(*e) {
            picked = added(picked, i as u8);
        }
    }
    picked
}

#[tactic(auto, unfolding(crate::specs::Positions::filled))]
pub fn none() -> Positions
    ensures { result ≡ filled [] }
{
    Positions {
        at: [0; ENTRIES],
        count: 0,
    }
}

fn added(p: Positions, i: u8) -> Positions
    requires { p.count < 16 }
    ensures { result ≡ added i p }
{
    let mut at = p.at;
    at[p.count] = i;
    Positions {
        at,
        count: p.count + 1,
    }
}
