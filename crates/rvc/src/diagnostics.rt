// RULES 14: DM_RV, its fields and its service point number; the sender with `Sender::start`, `add`, `clear`, `step`,
// `request` and `reply`; `refusal`, the number of a refusal; `names` has the numbers of the rows.
pub use faults::{
    Added, Adding, Cleared, Clearing, DM_RV, Fault, NotAdded, NotCleared, NotHeard, NotStepped,
    PLACES, Replied, Requested, Requesting, Response, STEP, Sender, ServicePoint, Stepped,
    Stepping, names, packed_rows, read, read_service_point, row_at, write, write_service_point,
};
