// The limits of fast packets (NMEA 2000's format; AEBus, 003, 3.3), and of the receiver.

// A message has 1 to 223 bytes: six in frame 0 and seven in each of 31 others.
pub const LONGEST: u8 = 223;

pub const FIRST_BYTES: usize = 6;

pub const LATER_BYTES: usize = 7;

// A sequence number has three bits.
pub const GREATEST_SEQUENCE: u8 = 7;

// A message whose frames pause for longer, in milliseconds, is closed.
pub const IDLE_LIMIT: u16 = 750;

// A caller names at most so many DGNs.
pub const DGNS: usize = 16;

// The receiver's places, and the storage bytes that each owns.
pub const PLACES: usize = places::storage::PLACES;

pub const STRETCH: usize = 223;

// The storage that a receiver is lent has at least so many bytes.
pub const STORAGE_BYTES: usize = 1784;
