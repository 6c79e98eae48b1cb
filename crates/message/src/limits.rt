// The limits of long messages (J1939-21's broadcast transfer), and of the receiver.

// The lengths of a long message, in bytes.
pub const SHORTEST: u16 = 9;

pub const LONGEST: u16 = 1785;

// A packet carries seven bytes of its message.
pub const PACKET_BYTES: usize = 7;

// A message whose frames pause for longer, in milliseconds, is closed.
pub const IDLE_LIMIT: u16 = 750;

// Byte 0 of an announcement to all.
pub const TO_ALL: u8 = 32;

// The receiver's places, and the storage bytes that each owns.
pub const PLACES: usize = places::storage::PLACES;

pub const STRETCH: usize = 1785;

// The storage that a receiver is lent has at least so many bytes.
pub const STORAGE_BYTES: usize = 14280;
