// The library as its users see it: every public call and type, a module for each part of RULES, fast packets beside
// long messages. A method goes with its type.
#![tactic(auto)]

// RULES 2.1: `refusal`, the number of a refusal, and of every answer.
pub use words::Refusal;

// RULES 3: identifiers taken apart and formed, frames checked, bytes as one number.
pub mod identifiers;

// RULES 4 and 5: the receiver with `Receiver::new`, `hear` and `pause`, the finished message, and the splitter.
pub mod messages;

// RULES 12, fast packets: the receiver with `Receiver::start`, `hear` and `pause`, the finished message, and the
// splitter.
pub mod fast_packets;

// RULES 6 and 7: rows, classes, fields read and written; `dgns` has the names of the DGNs.
pub mod fields;

// RULES 8: `Claim::start`, `hear`, `pause`, `stands`, `our_claim`, `keeps_rules` and `holds_list`.
pub mod claims;

// RULES 9: claims heard into a lent table, and an address looked up.
pub mod node_table;

// RULES 10: `Host::start`, `route` and `request`, and the acknowledgment.
pub mod commands;

// RULES 14: the fields of DM_RV, and the sender with `Sender::start`, `add`, `clear`, `step`, `request` and `reply`.
pub mod diagnostics;

// RULES 11: a line taken apart and written, and a stream cut into lines by `Cutter::new`, `next` and `last`.
pub mod captures;

// RULES 11.17: words, numbers and bytes put as text into lent bytes.
pub mod texts;
