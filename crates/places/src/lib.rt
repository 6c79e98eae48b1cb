// The places of a receiver of several senders at once, for every packet format (RULES 13.5): definitions in specs/,
// laws in proofs/, and the code that the receivers of all formats share.
#![tactic(auto)]

mod bytes;
pub mod packets;
pub mod seats;
pub mod storage;
