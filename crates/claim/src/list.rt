// The candidate list: 1 to 16 addresses, no two alike and none above 253.
ghost use Rattle.std.specs.Prelude.{◌≡◌, ◌≤◌, length};
ghost use Rattle.words.specs.Words.{◌=?◌};
ghost use Rattle.words.specs.Lists.{any, every, no_two};
ghost use Rattle.claim.specs.Candidates.{is_address, is_well_formed, padded};

use crate::CANDIDATES;
use frame::standard;

#[tactic(auto, unfolding(crate::specs::Candidates::is_well_formed))]
pub fn well_formed(list: &[u8]) -> bool
    ensures { result ≡ is_well_formed list.now }
{
    1 <= list.len() && list.len() <= CANDIDATES && addresses(list) && distinct(list)
}

fn addresses(list: &[u8]) -> bool
    ensures { result ≡ every is_address list.now }
{
    list.iter().all(|a| *a <= standard::GREATEST_ADDRESS)
}

fn distinct(list: &[u8]) -> bool
    ensures { result ≡ no_two ◌=?◌ list.now }
{
    let mut rest = list;
    while let Some((a, after)) = rest.split_first() {
        if repeats(*a, after) {
            return false;
        }
        rest = after;
    }
    true
}

// Whether an address stands again among those after it.
fn repeats(a: u8, after: &[u8]) -> bool
    ensures { result ≡ any (◌=?◌ a) after.now }
{
    after.contains(&a)
}

// The list filled up with zeros.
#[tactic(auto, unfolding(crate::specs::Candidates::padded))]
pub fn filled(list: &[u8]) -> [u8; CANDIDATES]
    requires { length list.now ≤ 16 }
    ensures { result ≡ padded list.now }
{
    let mut out = [0; CANDIDATES];
    out[..list.len()].copy_from_slice(list);
    out
}
