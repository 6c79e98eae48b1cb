// The DGNs that are carried as fast packets: at most 16, all different, and none that is carried otherwise.
ghost use Rattle.std.specs.Prelude.{◌≡◌, ◌≤◌, length};
ghost use Rattle.words.specs.Words.{◌=?◌};
ghost use Rattle.words.specs.Lists.{every, no_two};
ghost use Rattle.fast.specs.Names.{most_named, may_be_named, is_named, is_well_formed};
ghost use Rattle.fast.specs.Receiver.{names_of};
ghost use Rattle.fast.specs.Promises.{naming};

use crate::limits::DGNS;
use crate::{Place, Receiver};
use frame::standard;
use places::seats::Seat;

#[tactic(auto, unfolding(crate::specs::Names::is_well_formed))]
pub fn well_formed(names: &[u32]) -> bool
    ensures { result ≡ is_well_formed names.now }
{
    names.len() <= DGNS && each_may_be_named(names) && none_twice(names)
}

fn each_may_be_named(names: &[u32]) -> bool
    ensures { result ≡ every may_be_named names.now }
{
    names.iter().all(|dgn| may_be_named(*dgn))
}

// Whether a DGN has no other way to be carried: long messages have ECFFh and EBFFh, and EAxxh and EExxh, requests and
// address claims, are single frames that a node without an address may send.
#[tactic(auto, unfolding(crate::specs::Names::may_be_named))]
fn may_be_named(dgn: u32) -> bool
    ensures { result ≡ may_be_named dgn }
{
    let upper = dgn / 256 % 512;
    dgn <= standard::GREATEST_DGN
        && dgn != standard::ANNOUNCEMENT
        && dgn != standard::DATA_PACKET
        && upper != standard::REQUEST / 256
        && upper != standard::CLAIM / 256
}

fn none_twice(names: &[u32]) -> bool
    ensures { result ≡ no_two ◌=?◌ names.now }
{
    let mut rest = names;
    while let Some((dgn, others)) = rest.split_first() {
        if is_named(*dgn, others) {
            return false;
        }
        rest = others;
    }
    true
}

// Whether a DGN stands in the list.
pub fn is_named(dgn: u32, names: &[u32]) -> bool
    ensures { result ≡ is_named dgn names.now }
{
    names.contains(&dgn)
}

// The DGNs that a receiver names.
pub fn names_of(r: &Receiver) -> &[u32]
    requires { r.now.named ≤ most_named }
    ensures { result.now ≡ names_of r.now }
{
    &r.dgns[..r.named]
}

// A receiver with eight free places that names these DGNs.
pub fn naming(dgns: &[u32]) -> Receiver
    requires { length dgns.now ≤ most_named }
    ensures { result ≡ naming dgns.now }
{
    let mut held = [0; DGNS];
    held[..dgns.len()].copy_from_slice(dgns);
    Receiver {
        dgns: held,
        named: dgns.len(),
        places: [Place::free(); 8],
    }
}
