// A command: the entries that it is for.
ghost use Rattle.std.specs.Prelude.{◌≡◌, ◌≤◌, if◌then◌else◌};
ghost use Rattle.words.specs.Words.{gives};
ghost use Rattle.words.specs.Lists.{any};
ghost use Rattle.frame.specs.Identifier.{catalogue_form};
ghost use Rattle.frame.specs.Promises.{destined};
ghost use Rattle.claim.specs.Promises.{stands_at};
ghost use Rattle.command.specs.Hosted.{hosted};
ghost use Rattle.command.specs.Positions.{positions_where, filled};
ghost use Rattle.command.specs.Commands.{has_command, is_elsewhere, is_meant, is_named, nothing_to_do};
ghost use Rattle.command.specs.Commands.{picks, route_of};
ghost use Rattle.command.specs.Promises.{RoutedBy};
ghost use Rattle.command.specs.Private.{bare_routed};

use crate::{Choice, Entry, Host, NotRouted, Positions, Routed, Routing, picking};
use claim::Place;
use frame::Destination;

// A sound frame with this DGN and byte 0.
pub fn route(host: Host, place: Place, dgn: u32, instance: u8) -> Routed
    requires { host.count ≤ 16 }
    ensures { RoutedBy (route_of dgn instance (hosted host) (stands_at place)) result }
{
    if !is_hosted(host, frame::catalogue_form(dgn)) {
        return bare(Ok(Choice::NothingToDo));
    }
    match place {
        Place::Held(address) => picked(host, address, dgn, instance),
        Place::Claiming(_) => bare(Err(NotRouted::NoAddressHeld)),
        Place::Silent => bare(Err(NotRouted::NoAddressHeld)),
    }
}

// Whether the list has an entry with this command DGN.
fn is_hosted(host: Host, dgn: u32) -> bool
    requires { host.count ≤ 16 }
    ensures { result ≡ any (has_command dgn) (hosted host) }
{
    host.entries[..host.count].iter().any(|e| e.command == dgn)
}

// A hosted command, heard at the address that we hold.
fn picked(host: Host, address: u8, dgn: u32, instance: u8) -> Routed
    requires { host.count ≤ 16 }
    ensures { RoutedBy
        (if is_elsewhere (destined dgn) address then gives nothing_to_do
        else gives (picks (positions_where (is_meant (catalogue_form dgn) instance) (hosted host)))) result }
{
    if is_elsewhere(frame::destination_of(dgn), address) {
        return bare(Ok(Choice::NothingToDo));
    }
    let form = frame::catalogue_form(dgn);
    Routed {
        answer: Ok(Choice::Picked),
        positions: meant(host, form, instance),
    }
}

// The positions of the entries that a command is for.
fn meant(host: Host, dgn: u32, instance: u8) -> Positions
    requires { host.count ≤ 16 }
    ensures { result ≡ filled (positions_where (is_meant dgn instance) (hosted host)) }
{
    picking::pick(
        host,
        |e|
            ensures { result ≡ is_meant dgn instance e }
        { is_meant(dgn, instance, e) },
    )
}

#[tactic(auto, unfolding(crate::specs::Commands::is_elsewhere))]
fn is_elsewhere(destination: Destination, address: u8) -> bool
    ensures { result ≡ is_elsewhere destination address }
{
    match destination {
        Destination::NotAddressed => false,
        Destination::All => false,
        Destination::One(to) => to != address,
    }
}

// Whether a command is for an entry: zero is for the marked ones only.
#[tactic(auto, unfolding(crate::specs::Commands::is_meant))]
fn is_meant(dgn: u32, instance: u8, e: Entry) -> bool
    ensures { result ≡ is_meant dgn instance e }
{
    e.command == dgn && is_named(instance, e)
}

fn is_named(instance: u8, e: Entry) -> bool
    ensures { result ≡ is_named instance e }
{
    if instance == 0 {
        e.zero_is_all
    } else {
        e.instance == instance
    }
}

// An answer with no positions beside it.
pub fn bare(answer: Routing) -> Routed
    ensures { result ≡ bare_routed answer }
{
    Routed {
        answer,
        positions: picking::none(),
    }
}
