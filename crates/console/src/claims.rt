// The words of crate `claim`: one claim.
use crate::notes::{field, field_as, get, get_as, put, put_all};
use crate::{frames, notes, say};
use claim::{BadState, CANDIDATES, Claim, Hearing, NotHeard, Place, Reaction};
use streams::Streams;
use words::Refusal;

pub fn call(n: usize, notes: &mut [u64], bytes: &[u8], streams: &mut Streams) {
    match n {
        0 => start(notes, bytes, streams),
        1 => hear(notes, bytes, streams),
        2 => pause(notes, streams),
        3 => stands(notes, streams),
        4 => our_claim(notes, streams),
        5 => truth(claim(notes).keeps_rules(), streams),
        6 => truth(claim(notes).holds_list(), streams),
        _ => {}
    }
}

pub fn truth(answer: bool, streams: &mut Streams) {
    say::number(b"?\n", u64::from(answer), streams);
}

fn start(notes: &mut [u64], bytes: &[u8], streams: &mut Streams) {
    let started = Claim::start(get(notes, notes::FIRST), bytes);
    keep(notes, started.claim);
    match started.answer {
        Ok(()) => say::text(b"SendClaim", streams),
        Err(_) => say::text(b"ListMalformed", streams),
    }
    say::frame(notes, started.id, started.bytes, streams);
    end(
        notes,
        notes::CLAIM_STARTING,
        started.answer.refusal(),
        streams,
    );
}

// The end of an answer, and the claim.
fn end(notes: &mut [u64], kind: usize, refusal: u8, streams: &mut Streams) {
    say::end(notes, kind, refusal, streams);
    show(notes, streams);
}

fn hear(notes: &mut [u64], bytes: &[u8], streams: &mut Streams) {
    let heard = claim(notes).hear(get_as(notes, notes::FIRST), bytes);
    keep(notes, heard.claim);
    tell(notes, heard.answer, streams);
    say::frame(notes, heard.id, heard.bytes, streams);
    end(notes, notes::CLAIM_HEARING, heard.answer.refusal(), streams);
}

fn tell(notes: &mut [u64], answer: Hearing, streams: &mut Streams) {
    match answer {
        Ok(Reaction::NothingToDo) => say::text(b"NothingToDo", streams),
        Ok(Reaction::OwnName) => say::text(b"OwnName", streams),
        Ok(Reaction::SendClaimAgain) => say::text(b"SendClaimAgain", streams),
        Ok(Reaction::SendNextClaim) => say::text(b"SendNextClaim", streams),
        Ok(Reaction::SendCannotClaim) => say::text(b"SendCannotClaim", streams),
        Err(NotHeard::BrokenState) => say::text(b"BrokenState", streams),
        Err(NotHeard::BadFrame(why)) => frames::bad_frame(notes, why, streams),
        Err(NotHeard::ListMalformed) => say::text(b"ListMalformed", streams),
    }
}

fn pause(notes: &mut [u64], streams: &mut Streams) {
    let paused = claim(notes).pause(get_as(notes, notes::FIRST));
    keep(notes, paused.claim);
    match paused.answer {
        Ok(()) => say::text(b"Waited", streams),
        Err(why) => bad_state(why, streams),
    }
    end(
        notes,
        notes::CLAIM_PAUSING,
        paused.answer.refusal(),
        streams,
    );
}

fn stands(notes: &mut [u64], streams: &mut Streams) {
    let answer = claim(notes).stands();
    match answer {
        Ok(Place::Held(address)) => say::number(b"Held %", u64::from(address), streams),
        Ok(Place::Claiming(address)) => say::number(b"Claiming %", u64::from(address), streams),
        Ok(Place::Silent) => say::text(b"Silent", streams),
        Err(why) => bad_state(why, streams),
    }
    say::end(notes, notes::CLAIM_STANDING, answer.refusal(), streams);
}

fn our_claim(notes: &mut [u64], streams: &mut Streams) {
    let ours = claim(notes).our_claim();
    match ours.answer {
        Ok(()) => say::text(b"Frame", streams),
        Err(why) => bad_state(why, streams),
    }
    say::frame(notes, ours.id, ours.bytes, streams);
    say::end(notes, notes::CLAIM_SENDING, ours.answer.refusal(), streams);
}

// Why a claim is refused that is handed in with no frame.
fn bad_state(why: BadState, streams: &mut Streams) {
    match why {
        BadState::BrokenState => say::text(b"BrokenState", streams),
        BadState::ListMalformed => say::text(b"ListMalformed", streams),
    }
}

// The claim of the notes. At first it is of NAME 0 without candidates: no call takes it.
pub fn claim(notes: &[u64]) -> Claim {
    Claim {
        name: get(notes, notes::CLAIM),
        list: list(notes),
        candidates: field(notes, notes::CLAIM, 1) as usize,
        position: field(notes, notes::CLAIM, 2) as usize,
        wait: field_as(notes, notes::CLAIM, 3),
        silent: field(notes, notes::CLAIM, 4) != 0,
        losses: field(notes, notes::CLAIM, 5) as usize,
    }
}

fn list(notes: &[u64]) -> [u8; CANDIDATES] {
    let mut list = [0u8; CANDIDATES];
    for (i, address) in list.iter_mut().enumerate() {
        *address = field_as(notes, notes::CLAIM_LIST, i);
    }
    list
}

// Notes the claim.
fn keep(notes: &mut [u64], claim: Claim) {
    let fields = [
        claim.name,
        claim.candidates as u64,
        claim.position as u64,
        u64::from(claim.wait),
        u64::from(claim.silent),
        claim.losses as u64,
    ];
    put_all(notes, notes::CLAIM, &fields);
    for (i, address) in claim.list.iter().enumerate() {
        put(
            notes,
            notes::CLAIM_LIST.wrapping_add(i),
            u64::from(*address),
        );
    }
}

pub fn show(notes: &[u64], streams: &mut Streams) {
    say::form(b"  claim.name=@", notes, notes::CLAIM, streams);
    say::bytes(b" claim.list=", &list(notes), streams);
    say::form(
        b" candidates=# position=# wait=# silent=? losses=#\n",
        notes,
        notes::CLAIM + 1,
        streams,
    );
}
