// One place of a sender: the rules of a fault, and what time makes of it.
ghost use Rattle.std.specs.Prelude.{◌≡◌};
ghost use Rattle.faults.specs.Fault.{is_allowed, no_fault, is_zero, place_keeps_rules, is_due, older, sooner, passed};
ghost use Rattle.faults.specs.Fault.{added, sent};

use crate::{Fault, STEP};

// Periods, in milliseconds.
const SHORTEST: u16 = 100;

const LONGEST: u16 = 1000;

// Where an age stops.
const OLDEST: u8 = 31;

// Whether a period is one of 100 to 1,000 ms, in multiples of 50.
#[tactic(auto, unfolding(crate::specs::Fault::is_allowed))]
pub fn is_allowed(period: u16) -> bool
    ensures { result ≡ is_allowed period }
{
    SHORTEST <= period && period <= LONGEST && period % STEP == 0
}

// An empty place.
pub fn empty() -> Fault
    ensures { result ≡ no_fault }
{
    Fault {
        bytes: [0u8; 8],
        period: 0,
        until_due: 0,
        age: 0,
    }
}

// Whether a place is all zeros.
#[tactic(auto, unfolding(crate::specs::Fault::is_zero))]
fn is_zero(f: Fault) -> bool
    ensures { result ≡ is_zero f }
{
    frame::number_of(f.bytes) == 0 && f.until_due == 0 && f.age == 0 && f.period == 0
}

// Whether a place keeps its rules.
#[tactic(auto, unfolding(crate::specs::Fault::place_keeps_rules))]
pub fn keeps_rules(f: Fault) -> bool
    ensures { result ≡ place_keeps_rules f }
{
    if f.period == 0 {
        return is_zero(f);
    }
    is_allowed(f.period) && f.until_due <= f.period && (f.until_due == 0 || f.age == 0)
}

// Whether a fault is due.
pub fn is_due(f: Fault) -> bool
    ensures { result ≡ is_due f }
{
    f.period != 0 && f.until_due == 0
}

// One step older; the age stops at 31.
fn older(age: u8) -> u8
    ensures { result ≡ older age }
{
    age.saturating_add(1).min(OLDEST)
}

// One step sooner.
fn sooner(until_due: u16) -> u16
    ensures { result ≡ sooner until_due }
{
    until_due.saturating_sub(STEP)
}

// What a step's time makes of a place: a fault that was due is one step older, any other is due one step sooner.
#[tactic(auto, unfolding(crate::specs::Fault::passed))]
pub fn passed(f: Fault) -> Fault
    ensures { result ≡ passed f }
{
    if f.period == 0 {
        f
    } else if f.until_due == 0 {
        Fault {
            until_due: 0,
            age: older(f.age),
            ..f
        }
    } else {
        Fault {
            until_due: sooner(f.until_due),
            age: 0,
            ..f
        }
    }
}

// A new fault is due from the next step on.
pub fn added(bytes: [u8; 8], period: u16) -> Fault
    ensures { result ≡ added bytes period }
{
    Fault {
        bytes,
        period,
        until_due: STEP,
        age: 0,
    }
}

// A fault that is sent is due a period later.
pub fn sent(f: Fault) -> Fault
    ensures { result ≡ sent f }
{
    Fault {
        until_due: f.period,
        age: 0,
        ..f
    }
}
