// RULES 9: a table to start from, claims heard into a lent table, time passed, an address looked up, a NAME's address
// and an address's challenger found.
pub use nodes::{
    BadTable, Challenger, Effect, FoundAddress, FoundChallenger, Hearing, LookedUp, Node, NotHeard,
    Pausing, RECORDS, TAKES_AFTER, empty, find_address, find_challenger, hear, look_up, pause,
};
