// The panel's own fault: one of the two tanks that are wired to it (replies.rt) gives no data. The panel broadcasts
// this once a second as DM_RV (3.2.5), and answers it to a request.
use crate::show;
use rvc::Refusal;
use rvc::claims::Claim;
use rvc::diagnostics::{DM_RV, NotStepped, Requested, Response, STEP, Sender, names};
use rvc::fields::Value;
use streams::Streams;

// The panel's part for tanks is a water and waste tank system (Table 7.2): its default source address, in byte 1.
const TANK_SYSTEM: u8 = 72;

// A fault that harms nothing is sent once in 1,000 ms (3.2.5.1).
const PERIOD: u16 = 1000;

// The identifier by which the fields of a DM_RV are written. Any source will do: the sender puts our address there.
const DM_RV_ID: u32 = 6 * 0x4000000 + DM_RV * 256;

// The service point of one device among several (Table 3.2.5.5): 01h in the high part, that it is a fault of one
// instance; the instance in the middle part, here 18, the second gray waste tank; and 0 in the low part of three bits.
const SECOND_GRAY_TANK: u32 = 1 * 2048 + 18 * 8;

// Table 3.2.5.8: open circuit.
const OPEN_CIRCUIT: i64 = 5;

// The sender of our faults, and the milliseconds since its last step, 0 to 49.
#[derive(Clone, Copy)]
pub struct Faults {
    pub sender: Sender,
    pub since_step: u16,
}

// A sender with one active fault.
pub fn start(streams: &mut Streams) -> Faults {
    let started = Sender::start(no_fault());
    let added = started.add(open_circuit(no_fault(), streams), PERIOD);
    let answer = added.answer;
    show::refused(answer.refusal(), streams);
    let sender = added.sender;
    Faults {
        sender,
        since_step: 0,
    }
}

// The DM_RV of no fault: byte 0 says on and active (3.2.5.2), and that neither lamp is lit.
fn no_fault() -> [u8; 8] {
    [0x05, TANK_SYSTEM, 0xFF, 0xFF, 0xFF, 0xFF, 0xFF, 0xFF]
}

// The fault takes the yellow lamp (3.2.5.3), its service point and its failure mode. The other fields stay.
fn open_circuit(bytes: [u8; 8], streams: &mut Streams) -> [u8; 8] {
    let bytes = write(bytes, names::YELLOW_LAMP_STATUS, 1, streams);
    let bytes = write_service_point(bytes, SECOND_GRAY_TANK, streams);
    write(bytes, names::FAILURE_MODE, OPEN_CIRCUIT, streams)
}

// A row's field of our DM_RV.
fn write(bytes: [u8; 8], row: usize, number: i64, streams: &mut Streams) -> [u8; 8] {
    let mut bytes = bytes;
    let answer = rvc::diagnostics::write(row, DM_RV_ID, &mut bytes, Value::Scaled(number));
    show::refused(answer.refusal(), streams);
    bytes
}

// The service point of our DM_RV, which stands in three rows.
fn write_service_point(bytes: [u8; 8], number: u32, streams: &mut Streams) -> [u8; 8] {
    let mut bytes = bytes;
    let answer = rvc::diagnostics::write_service_point(DM_RV_ID, &mut bytes, number);
    show::refused(answer.refusal(), streams);
    bytes
}

// Time passes for the sender, in steps of 50 ms. What is left of a pause is counted on in the next.
pub fn pause(faults: Faults, claim: Claim, gap: u16, streams: &mut Streams) -> Faults {
    let waited = faults.since_step as u32 + gap as u32;
    let sender = take_steps(faults.sender, claim, waited / STEP as u32, streams);
    Faults {
        sender,
        since_step: (waited % STEP as u32) as u16,
    }
}

// Step after step: a pause has 1,311 at most.
fn take_steps(sender: Sender, claim: Claim, steps: u32, streams: &mut Streams) -> Sender {
    let mut sender = sender;
    for _ in 0..steps {
        sender = take_step(sender, claim, streams);
    }
    sender
}

// A step: a fault that is due is sent. While we hold no address the step is refused, and nothing is said of it.
fn take_step(sender: Sender, claim: Claim, streams: &mut Streams) -> Sender {
    let stepped = sender.step(claim);
    let to_send = stepped.bytes;
    match stepped.answer {
        Ok(Some(_)) => show::send(stepped.id, to_send, streams),
        Ok(None) | Err(NotStepped::NoAddressHeld) => {}
        Err(why) => show::refused(why.refusal(), streams),
    }
    stepped.sender
}

// What the sender says to a request for DM_RV: the fault, as it is broadcast.
pub fn answer_request(requested: Requested, streams: &mut Streams) {
    let to_send = requested.bytes;
    match requested.answer {
        Ok(Response::NothingToDo) => {}
        Ok(Response::Send) => show::send(requested.id, to_send, streams),
        Err(why) => show::refused(why.refusal(), streams),
    }
}
