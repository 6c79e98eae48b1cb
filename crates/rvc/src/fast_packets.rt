// RULES 12, fast packets: the receiver with `Receiver::start`, `hear` and `pause`, the finished message, and the
// splitter.
pub use fast::{
    Answer, BadList, BadState, Event, Heard, NotHeard, NotSplit, Paused, Pausing, Place, Receiver,
    Split, Splitting, Started, Starting, frame_of, limits, message,
};
