// RULES 4 and 5: the receiver with `Receiver::new`, `hear` and `pause`, the finished message, and the splitter.
pub use message::{
    Announced, Announcing, Answer, BadState, Event, Heard, NotHeard, NotSplit, Paused, Pausing,
    Place, Receiver, Split, Splitting, Unsplittable, announcement, limits, message, packet,
};
