// RULES 10: `Host::start`, `route` and `request`, the acknowledgment, and `refusal`, the number of a refusal.
pub use command::{
    Acknowledged, Acknowledging, Acknowledgment, Choice, ENTRIES, Edition, Entry, Host,
    NotAcknowledged, NotAnswered, NotRouted, NotStarted, Positions, Requested, Requesting,
    Response, Routed, Routing, Started, Starting, acknowledge,
};
