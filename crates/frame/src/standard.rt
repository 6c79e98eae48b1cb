// Numbers that the standard fixes (000, 3.2 and 3.3; J1939-21; J1939-81).

// A node has an address up to 253; 254 is the source of a node that has none; 255 is everyone, and nobody's source.
pub const GREATEST_ADDRESS: u8 = 253;

pub const NO_ADDRESS: u8 = 254;

pub const EVERYONE: u8 = 255;

// Identifiers have 29 bits, DGNs 17, priorities 3.
pub const IDENTIFIERS: u32 = 0x20000000;

pub const GREATEST_DGN: u32 = 0x1FFFF;

pub const LOWEST_PRIORITY: u8 = 7;

// The acknowledgment is E8xxh and the request EAxxh, xx the destination.
pub const ACKNOWLEDGMENT: u32 = 0xE800;

pub const REQUEST: u32 = 0xEA00;

// A long message to all: its announcement and its data packets.
pub const ANNOUNCEMENT: u32 = 0xECFF;

pub const DATA_PACKET: u32 = 0xEBFF;

// An address claim to all; a request names the claim by EE00h.
pub const CLAIM: u32 = 0xEEFF;

pub const ADDRESS_CLAIMED: u32 = 0xEE00;

// The byte that fills what is not used, and says that there is no instance.
pub const UNUSED: u8 = 0xFF;

// The identifier that stands where nothing is to be sent. It has more than 29 bits, so `check` refuses it.
pub const NO_FRAME: u32 = 0xFFFFFFFF;
