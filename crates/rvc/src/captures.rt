// RULES 11: a line taken apart and written, and a stream cut into lines by `Cutter::new`, `next` and `last`.
pub use capture::{
    Cut, Cutter, Cutting, Ending, LONGEST_LINE, Line, MOST_LINES, NotRead, Reading, TEXT_BYTES,
    Text, take_apart, write,
};
