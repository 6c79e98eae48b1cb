// What the panel keeps, and how the status of a tank, a charger or a slide changes it.
use crate::own_faults::Faults;
use crate::show;
use rvc::Refusal;
use rvc::claims::Claim;
use rvc::commands::Host;
use rvc::fields::dgns::{CHARGER_STATUS, SLIDE_STATUS, TANK_STATUS};
use rvc::fields::names::{charger_status, slide_status, tank_status};
use rvc::fields::{Row, Value};
use rvc::messages::Receiver;
use rvc::node_table::{Node, RECORDS};
use streams::Streams;

// A value is stale once it was not heard for so many milliseconds.
const STALE_AFTER: u32 = 5000;

// Why a field shows no number.
#[derive(Clone, Copy, PartialEq)]
pub enum Missing {
    NoData,
    OutOfRange,
    Reserved,
    // the field could not be read: the refusal's number
    Refused(u8),
}

// What a field shows: a number of its steps, or why it has none.
pub type Shown = Result<i64, Missing>;

// A tank is filled to `level` parts of `resolution`. Its silence is the milliseconds since it was heard, counted until
// they make it stale.
#[derive(Clone, Copy)]
pub struct Tank {
    pub silence: u32,
    pub level: Shown,
    pub resolution: Shown,
}

// Voltage and current are in twentieths of a volt and of an ampere. Its silence is counted as a tank's.
#[derive(Clone, Copy)]
pub struct Charger {
    pub silence: u32,
    pub voltage: Shown,
    pub current: Shown,
    pub state: Shown,
}

// Whether the slide's lock is secured: 0 if it is, 1 if it is not. A slide speaks when something changes (6.14.1), so
// its silence makes nothing stale.
#[derive(Clone, Copy, PartialEq)]
pub struct Slide {
    pub lock: Shown,
}

// Tanks 0 to 3 (fresh, black, gray, LPG), chargers 1 and 2, and the slides of rooms 1 to 4; none stands where nothing
// was heard.
#[derive(Clone, Copy)]
pub struct Panel {
    pub claim: Claim,
    pub nodes: [Node; RECORDS],
    pub host: Host,
    pub faults: Faults,
    pub receiver: Receiver,
    pub tanks: [Option<Tank>; 4],
    pub chargers: [Option<Charger>; 2],
    pub slides: [Option<Slide>; 4],
}

// A panel that has heard no tank, no charger and no slide.
pub fn new(claim: Claim, nodes: [Node; RECORDS], host: Host, faults: Faults) -> Panel {
    Panel {
        claim,
        nodes,
        host,
        faults,
        receiver: Receiver::new(),
        tanks: [None; 4],
        chargers: [None; 2],
        slides: [None; 4],
    }
}

// A tank's status: it is kept for the tank that it names, and shown if it changes anything.
pub fn hear_tank(
    tanks: [Option<Tank>; 4],
    dgn: u32,
    id: u32,
    bytes: [u8; 8],
    streams: &mut Streams,
) -> [Option<Tank>; 4] {
    if dgn != TANK_STATUS {
        return tanks;
    }
    let instance = instance_of(tank_status::INSTANCE, id, bytes, streams);
    if 3 < instance {
        return tanks;
    }
    let position = instance as usize;
    let new = read_tank(id, bytes);
    if !shows_tank(tanks[position], new) {
        show::show_tank(instance, Some(new), streams);
    }
    let mut tanks = tanks;
    tanks[position] = Some(new);
    tanks
}

// A charger's status, likewise; instance 0 is invalid (6.20.8).
pub fn hear_charger(
    chargers: [Option<Charger>; 2],
    dgn: u32,
    id: u32,
    bytes: [u8; 8],
    streams: &mut Streams,
) -> [Option<Charger>; 2] {
    if dgn != CHARGER_STATUS {
        return chargers;
    }
    let instance = instance_of(charger_status::INSTANCE, id, bytes, streams);
    if instance == 0 || 2 < instance {
        return chargers;
    }
    let position = instance as usize - 1;
    let new = read_charger(id, bytes);
    if !shows_charger(chargers[position], new) {
        show::show_charger(instance, Some(new), streams);
    }
    let mut chargers = chargers;
    chargers[position] = Some(new);
    chargers
}

// A slide's status, likewise; rooms are counted from 1 (6.14.1).
pub fn hear_slide(
    slides: [Option<Slide>; 4],
    dgn: u32,
    id: u32,
    bytes: [u8; 8],
    streams: &mut Streams,
) -> [Option<Slide>; 4] {
    if dgn != SLIDE_STATUS {
        return slides;
    }
    let instance = instance_of(slide_status::INSTANCE, id, bytes, streams);
    if instance == 0 || 4 < instance {
        return slides;
    }
    let position = instance as usize - 1;
    let new = Some(read_slide(id, bytes));
    if slides[position] != new {
        show::show_slide(instance, new, streams);
    }
    let mut slides = slides;
    slides[position] = new;
    slides
}

// Time passes for the tanks, and one that it makes stale is shown.
pub fn pause_tanks(tanks: [Option<Tank>; 4], gap: u16, streams: &mut Streams) -> [Option<Tank>; 4] {
    [
        pause_tank(0, tanks[0], gap, streams),
        pause_tank(1, tanks[1], gap, streams),
        pause_tank(2, tanks[2], gap, streams),
        pause_tank(3, tanks[3], gap, streams),
    ]
}

fn pause_tank(instance: u64, tank: Option<Tank>, gap: u16, streams: &mut Streams) -> Option<Tank> {
    let tank = tank?;
    let paused = Tank {
        silence: waited(tank.silence, gap),
        ..tank
    };
    if is_stale(tank.silence) != is_stale(paused.silence) {
        show::show_tank(instance, Some(paused), streams);
    }
    Some(paused)
}

// Time passes for the chargers, likewise.
pub fn pause_chargers(
    chargers: [Option<Charger>; 2],
    gap: u16,
    streams: &mut Streams,
) -> [Option<Charger>; 2] {
    [
        pause_charger(1, chargers[0], gap, streams),
        pause_charger(2, chargers[1], gap, streams),
    ]
}

fn pause_charger(
    instance: u64,
    charger: Option<Charger>,
    gap: u16,
    streams: &mut Streams,
) -> Option<Charger> {
    let charger = charger?;
    let paused = Charger {
        silence: waited(charger.silence, gap),
        ..charger
    };
    if is_stale(charger.silence) != is_stale(paused.silence) {
        show::show_charger(instance, Some(paused), streams);
    }
    Some(paused)
}

// A silence after a pause: what is stale stays so, and is not counted on.
fn waited(silence: u32, gap: u16) -> u32 {
    if STALE_AFTER <= silence {
        return silence;
    }
    silence + gap as u32
}

pub fn is_stale(silence: u32) -> bool {
    STALE_AFTER <= silence
}

fn read_tank(id: u32, bytes: [u8; 8]) -> Tank {
    Tank {
        silence: 0,
        level: read(tank_status::RELATIVE_LEVEL, id, bytes),
        resolution: read(tank_status::RESOLUTION, id, bytes),
    }
}

fn read_charger(id: u32, bytes: [u8; 8]) -> Charger {
    Charger {
        silence: 0,
        voltage: read(charger_status::CHARGE_VOLTAGE, id, bytes),
        current: read(charger_status::CHARGE_CURRENT, id, bytes),
        state: read(charger_status::OPERATING_STATE, id, bytes),
    }
}

fn read_slide(id: u32, bytes: [u8; 8]) -> Slide {
    Slide {
        lock: read(slide_status::LOCK_STATUS, id, bytes),
    }
}

// The instance that a status names; FFh, which is none, where it cannot be read.
fn instance_of(row: Row, id: u32, bytes: [u8; 8], streams: &mut Streams) -> u64 {
    let reading = rvc::fields::read_row(row, id, &bytes);
    show::refused(reading.refusal(), streams);
    match reading {
        Ok(field) => field.code,
        Err(_) => 0xFF,
    }
}

// A row's field of a frame.
fn read(row: Row, id: u32, bytes: [u8; 8]) -> Shown {
    match rvc::fields::read_row_scaled(row, id, &bytes) {
        Ok(value) => shown_of(value),
        Err(why) => Err(Missing::Refused(why.refusal())),
    }
}

fn shown_of(value: Value) -> Shown {
    match value {
        Value::Scaled(number) => Ok(number),
        Value::NoData => Err(Missing::NoData),
        Value::OutOfRange => Err(Missing::OutOfRange),
        Value::Reserved => Err(Missing::Reserved),
    }
}

// Whether a status shows what the panel shows already; a stale value that is heard again is shown anew.
fn shows_tank(old: Option<Tank>, new: Tank) -> bool {
    match old {
        Some(old) => {
            !is_stale(old.silence) && old.level == new.level && old.resolution == new.resolution
        }
        None => false,
    }
}

fn shows_charger(old: Option<Charger>, new: Charger) -> bool {
    match old {
        Some(old) => {
            !is_stale(old.silence)
                && old.voltage == new.voltage
                && old.current == new.current
                && old.state == new.state
        }
        None => false,
    }
}
