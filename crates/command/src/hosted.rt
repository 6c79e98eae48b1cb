// The hosted list: whether it is well formed, and the host that keeps it.
ghost use Rattle.std.specs.Prelude.{◌≡◌, ◌≤◌};
ghost use Rattle.words.specs.Lists.{any, every, no_two};
ghost use Rattle.command.specs.Hosted.{is_hosted_dgn, is_entry, is_same_pair, is_well_formed, blank_entry, begun};
ghost use Rattle.command.specs.Hosted.{empty};

use crate::{ENTRIES, Edition, Entry, Host};
use frame::standard;

// An instance is 1 to 250.
const LOWEST_INSTANCE: u8 = 1;

const GREATEST_INSTANCE: u8 = 250;

#[tactic(auto, unfolding(crate::specs::Hosted::is_well_formed))]
pub fn well_formed(host: Host) -> bool
    ensures { result ≡ is_well_formed host }
{
    host.count <= ENTRIES
        && are_entries(&host.entries[..host.count])
        && no_pair_repeats(&host.entries[..host.count])
}

fn are_entries(entries: &[Entry]) -> bool
    ensures { result ≡ every is_entry entries.now }
{
    entries.iter().all(|e| is_entry(*e))
}

#[tactic(auto, unfolding(crate::specs::Hosted::is_entry))]
fn is_entry(e: Entry) -> bool
    ensures { result ≡ is_entry e }
{
    is_hosted_dgn(e.command)
        && is_hosted_dgn(e.status)
        && LOWEST_INSTANCE <= e.instance
        && e.instance <= GREATEST_INSTANCE
}

#[tactic(auto, unfolding(crate::specs::Hosted::is_hosted_dgn))]
fn is_hosted_dgn(dgn: u32) -> bool
    ensures { result ≡ is_hosted_dgn dgn }
{
    dgn <= standard::GREATEST_DGN && frame::catalogue_form(dgn) == dgn
}

fn no_pair_repeats(entries: &[Entry]) -> bool
    ensures { result ≡ no_two is_same_pair entries.now }
{
    let mut rest = entries;
    while let Some((e, others)) = rest.split_first() {
        if is_repeated(*e, others) {
            return false;
        }
        rest = others;
    }
    true
}

// Whether the pair of an entry stands again among others.
fn is_repeated(e: Entry, others: &[Entry]) -> bool
    ensures { result ≡ any (is_same_pair e) others.now }
{
    others.iter().any(|f| is_same_pair(e, *f))
}

#[tactic(auto, unfolding(crate::specs::Hosted::is_same_pair))]
fn is_same_pair(e: Entry, f: Entry) -> bool
    ensures { result ≡ is_same_pair e f }
{
    e.command == f.command && e.instance == f.instance
}

fn blank() -> Entry
    ensures { result ≡ blank_entry }
{
    Entry {
        command: 0,
        status: 0,
        instance: 0,
        zero_is_all: false,
    }
}

// The host with no entry.
pub fn empty(edition: Edition) -> Host
    ensures { result ≡ empty edition }
{
    Host {
        entries: [blank(); ENTRIES],
        count: 0,
        edition,
    }
}

// The host with entries of zeros after its own.
#[tactic(auto, unfolding(crate::specs::Hosted::begun))]
pub fn begun(host: Host) -> Host
    requires { host.count ≤ 16 }
    ensures { result ≡ begun host }
{
    let mut entries = host.entries;
    entries[host.count..].fill(blank());
    Host { entries, ..host }
}
