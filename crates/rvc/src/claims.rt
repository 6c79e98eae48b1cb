// RULES 8: `Claim::start`, `hear`, `pause`, `stands`, `our_claim`, `keeps_rules` and `holds_list`, and `refusal`, the
// number of a refusal.
pub use claim::{
    BadState, CANDIDATES, Claim, ClaimFrame, HELD_AFTER, Heard, Hearing, NotHeard, NotStarted,
    Paused, Pausing, Place, Reaction, Sending, Standing, Started, Starting,
};
