// What the panel answers for two tanks whose senders are wired to the panel itself: requests for their status, and
// commands.
use crate::{own_faults, show};
use rvc::Refusal;
use rvc::claims::{Claim, Place};
use rvc::commands::{Acknowledgment, Choice, Edition, Entry, Host, Positions, Requested, Response};
use rvc::diagnostics::Sender;
use rvc::fields::dgns::{TANK_CALIBRATION_COMMAND, TANK_STATUS};
use rvc::fields::names::tank_status;
use rvc::fields::{Row, Value};
use streams::Streams;

// What the sender of a wired tank says, in quarters.
#[derive(Clone, Copy)]
struct Wired {
    instance: i64,
    level: Value,
}

// Hosts the second fresh water and the second gray waste tank (6.28.2), by the acknowledgment rules of 2023.
pub fn start(streams: &mut Streams) -> Host {
    let none = entry(0, 0, 0);
    let fresh = entry(TANK_CALIBRATION_COMMAND, TANK_STATUS, 16);
    let gray = entry(TANK_CALIBRATION_COMMAND, TANK_STATUS, 18);
    let mut entries = [none; 16];
    entries[0] = fresh;
    entries[1] = gray;
    let started = Host::start(entries, 2, Edition::Two);
    show::refused(started.answer.refusal(), streams);
    started.host
}

fn entry(command: u32, status: u32, instance: u8) -> Entry {
    Entry {
        command,
        status,
        instance,
        zero_is_all: false,
    }
}

// A request for a DGN: one for DM_RV is the sender's, and any other the host's.
pub fn answer_request(
    sender: Sender,
    host: Host,
    claim: Claim,
    id: u32,
    bytes: [u8; 8],
    streams: &mut Streams,
) {
    let replied = sender.reply(host, claim, id, &bytes);
    let of_faults = replied.faults;
    let of_host = replied.host;
    own_faults::answer_request(of_faults, streams);
    answer_by_host(claim, of_host, streams);
}

// What the host says: our claim, our statuses or a NAK.
fn answer_by_host(claim: Claim, requested: Requested, streams: &mut Streams) {
    let to_send = requested.bytes;
    match requested.answer {
        Ok(Response::NothingToDo | Response::Unsupported) => {}
        Ok(Response::SendClaim | Response::SendNak) => show::send(requested.id, to_send, streams),
        Ok(Response::Supported) => send_statuses(claim, requested.positions, streams),
        Err(why) => show::refused(why.refusal(), streams),
    }
}

// A calibration of a wired tank: the panel cannot do it, and says so (6.28.3). No tank is marked zero-is-all, so that a
// command is for one tank at most, the instance in byte 0.
pub fn answer_command(
    host: Host,
    claim: Claim,
    source: u8,
    id: u32,
    bytes: [u8; 8],
    streams: &mut Streams,
) {
    let routed = host.route(claim, id, &bytes);
    match routed.answer {
        Ok(Choice::NothingToDo) => {}
        Ok(Choice::Picked) => {
            if 0 < routed.positions.count {
                send_nak(claim, source, bytes[0], streams);
            }
        }
        Err(why) => show::refused(why.refusal(), streams),
    }
}

// Code 1 of Table 7.5: the command will not be executed.
fn send_nak(claim: Claim, requester: u8, instance: u8, streams: &mut Streams) {
    let reply = Acknowledgment {
        code: 1,
        instance,
        requester,
        dgn: TANK_CALIBRATION_COMMAND,
    };
    let formed = rvc::commands::acknowledge(claim, reply);
    let bytes = formed.bytes;
    match formed.answer {
        Ok(()) => show::send(formed.id, bytes, streams),
        Err(why) => show::refused(why.refusal(), streams),
    }
}

// Statuses are sent from a held address only; without one the request is refused already.
fn send_statuses(claim: Claim, positions: Positions, streams: &mut Streams) {
    if let Ok(Place::Held(address)) = claim.stands() {
        send_each(address, positions, streams);
    }
}

// One frame for each tank, and no long message (6.28.2).
fn send_each(address: u8, positions: Positions, streams: &mut Streams) {
    for position in positions.at.iter().take(positions.count) {
        send_status(address, *position, streams);
    }
}

// The status of a wired tank, with priority 6 (6.28.2).
fn send_status(address: u8, position: u8, streams: &mut Streams) {
    match rvc::identifiers::form(6, TANK_STATUS, address) {
        Ok(id) => show::send(id, status(id, sender_says(position), streams), streams),
        Err(why) => show::refused(why.refusal(), streams),
    }
}

// What the senders say now: the fresh water tank is half full, and the gray one's sender is not connected.
fn sender_says(position: u8) -> Wired {
    if position == 0 {
        return Wired {
            instance: 16,
            level: Value::Scaled(2),
        };
    }
    Wired {
        instance: 18,
        level: Value::NoData,
    }
}

// A status begins as FFh, no data, and takes the fields that are known.
fn status(id: u32, tank: Wired, streams: &mut Streams) -> [u8; 8] {
    let level = tank.level;
    let bytes = write(
        [0xFFu8; 8],
        tank_status::INSTANCE,
        id,
        Value::Scaled(tank.instance),
        streams,
    );
    let bytes = write(bytes, tank_status::RELATIVE_LEVEL, id, level, streams);
    write(
        bytes,
        tank_status::RESOLUTION,
        id,
        Value::Scaled(4),
        streams,
    )
}

// A row's field of our status.
fn write(bytes: [u8; 8], row: Row, id: u32, value: Value, streams: &mut Streams) -> [u8; 8] {
    let mut bytes = bytes;
    let answer = rvc::fields::write_row(row, id, &mut bytes, value);
    show::refused(answer.refusal(), streams);
    bytes
}
