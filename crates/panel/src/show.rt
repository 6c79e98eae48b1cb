// What the panel prints: a line for each thing that changes, for each refusal, and for each frame that it would send.
use crate::state::{Charger, Missing, Panel, Shown, Slide, Tank};
use crate::{names, state};
use rvc::claims::{Claim, Place};
use rvc::{Refusal, texts};
use streams::Streams;

// The whole panel.
pub fn show_panel(panel: Panel, streams: &mut Streams) {
    say(b"panel\n", streams);
    let claim = panel.claim;
    show_standing(claim, streams);
    let nodes = panel.nodes;
    names::show_nodes(nodes, streams);
    for (position, tank) in panel.tanks.iter().enumerate() {
        show_tank(position as u64, *tank, streams);
    }
    for (position, charger) in panel.chargers.iter().enumerate() {
        show_charger(position as u64 + 1, *charger, streams);
    }
    for (position, slide) in panel.slides.iter().enumerate() {
        show_slide(position as u64 + 1, *slide, streams);
    }
}

// Where the panel stands, and how many addresses it has given up since its start.
pub fn show_standing(claim: Claim, streams: &mut Streams) {
    match claim.stands() {
        Ok(Place::Held(address)) => show_address(address, b" held", claim.losses, streams),
        Ok(Place::Claiming(address)) => show_address(address, b" claimed", claim.losses, streams),
        Ok(Place::Silent) => show_losses(b"no address", claim.losses, streams),
        Err(why) => refused(why.refusal(), streams),
    }
}

fn show_address(address: u8, standing: &[u8], losses: usize, streams: &mut Streams) {
    say(b"address ", streams);
    hex(address as u64, 2, streams);
    show_losses(standing, losses, streams);
}

fn show_losses(standing: &[u8], losses: usize, streams: &mut Streams) {
    say(standing, streams);
    say(b", ", streams);
    decimal(losses as u64, streams);
    say(b" given up\n", streams);
}

// A node, by its address and its NAME.
pub fn show_name(address: u8, name: u64, streams: &mut Streams) {
    say(b"node ", streams);
    hex(address as u64, 2, streams);
    say(b": NAME ", streams);
    end_name(name, streams);
}

// Who challenges the node at an address.
pub fn show_challenger(address: u8, name: u64, streams: &mut Streams) {
    say(b"node ", streams);
    hex(address as u64, 2, streams);
    say(b": challenged by NAME ", streams);
    end_name(name, streams);
}

// The end of a line with a NAME.
fn end_name(name: u64, streams: &mut Streams) {
    hex(name, 16, streams);
    say(b"\n", streams);
}

pub fn show_tank(instance: u64, tank: Option<Tank>, streams: &mut Streams) {
    say(b"tank ", streams);
    decimal(instance, streams);
    let Some(tank) = tank else {
        say(b": not heard\n", streams);
        return;
    };
    say(b": ", streams);
    show_count(tank.level, streams);
    say(b" of ", streams);
    show_count(tank.resolution, streams);
    end_value(tank.silence, streams);
}

pub fn show_charger(instance: u64, charger: Option<Charger>, streams: &mut Streams) {
    say(b"charger ", streams);
    decimal(instance, streams);
    let Some(charger) = charger else {
        say(b": not heard\n", streams);
        return;
    };
    say(b": voltage ", streams);
    show_twentieths(charger.voltage, b" V", streams);
    say(b", current ", streams);
    show_twentieths(charger.current, b" A", streams);
    say(b", state ", streams);
    show_count(charger.state, streams);
    end_value(charger.silence, streams);
}

pub fn show_slide(instance: u64, slide: Option<Slide>, streams: &mut Streams) {
    say(b"slide ", streams);
    decimal(instance, streams);
    let Some(slide) = slide else {
        say(b": not heard\n", streams);
        return;
    };
    say(b": lock ", streams);
    show_lock(slide.lock, streams);
    say(b"\n", streams);
}

// The end of a value's line, which says so where the value is stale.
fn end_value(silence: u32, streams: &mut Streams) {
    if state::is_stale(silence) {
        say(b", stale", streams);
    }
    say(b"\n", streams);
}

// The text of a product identification, its bytes as they are (3.2.8).
pub fn show_product(sender: u8, text: &[u8], streams: &mut Streams) {
    say(b"product of ", streams);
    hex(sender as u64, 2, streams);
    say(b": ", streams);
    say(text, streams);
    say(b"\n", streams);
}

// A frame that the panel would send, as a line of a recording.
pub fn send(id: u32, bytes: [u8; 8], streams: &mut Streams) {
    let line = rvc::captures::write(0, id, bytes);
    let text = line.bytes;
    let count = line.count;
    say(b"send ", streams);
    say(&text[..count], streams);
    say(b"\n", streams);
}

// The number of a refusal; 0 is none, and says nothing.
pub fn refused(number: u8, streams: &mut Streams) {
    if number == 0 {
        return;
    }
    say(b"refused ", streams);
    decimal(number as u64, streams);
    say(b"\n", streams);
}

// A whole number.
fn show_count(shown: Shown, streams: &mut Streams) {
    match shown {
        Ok(number) => {
            sign(number, streams);
            decimal(number.unsigned_abs(), streams);
        }
        Err(missing) => show_missing(missing, streams),
    }
}

// A number of twentieths, exactly: two decimals.
fn show_twentieths(shown: Shown, unit: &[u8], streams: &mut Streams) {
    match shown {
        Ok(number) => {
            sign(number, streams);
            let twentieths = number.unsigned_abs();
            decimal(twentieths / 20, streams);
            say(b".", streams);
            two_digits(twentieths % 20 * 5, streams);
            say(unit, streams);
        }
        Err(missing) => show_missing(missing, streams),
    }
}

// A lock's status, in 000's words. A sensor in error is no position of the lock.
fn show_lock(shown: Shown, streams: &mut Streams) {
    match shown {
        Ok(0) => say(b"secured", streams),
        Ok(1) => say(b"not secured", streams),
        Ok(_) => show_count(shown, streams),
        Err(Missing::OutOfRange) => say(b"error", streams),
        Err(missing) => show_missing(missing, streams),
    }
}

fn show_missing(missing: Missing, streams: &mut Streams) {
    match missing {
        Missing::NoData => say(b"no data", streams),
        Missing::OutOfRange => say(b"out of range", streams),
        Missing::Reserved => say(b"reserved", streams),
        Missing::Refused(number) => {
            say(b"refused ", streams);
            decimal(number as u64, streams);
        }
    }
}

fn sign(number: i64, streams: &mut Streams) {
    if number < 0 {
        say(b"-", streams);
    }
}

fn two_digits(number: u64, streams: &mut Streams) {
    decimal(number / 10, streams);
    decimal(number % 10, streams);
}

fn decimal(number: u64, streams: &mut Streams) {
    let mut digits = [0u8; 20];
    let end = texts::put_decimal(&mut digits, 0, b"", number);
    say(&digits[..end], streams);
}

// The last digits of a number, sixteen at most, in capitals as in a recording.
fn hex(number: u64, count: usize, streams: &mut Streams) {
    let mut digits = [0u8; 16];
    let end = texts::put_hex(&mut digits, 0, b"", number, count);
    say(&digits[..end], streams);
}

pub fn say(text: &[u8], streams: &mut Streams) {
    streams.write(text);
}
