// The numbers of the rows of DM_RV, by their names in the standard (000, Table 3.2.5.1b).

// 00b OFF, 01b ON.
pub const OPERATING_STATUS_ON: usize = 0;

// 00b standby, 01b active.
pub const OPERATING_STATUS_ACTIVE: usize = 1;

pub const YELLOW_LAMP_STATUS: usize = 2;

pub const RED_LAMP_STATUS: usize = 3;

pub const DEFAULT_SOURCE_ADDRESS: usize = 4;

// The service point number stands in three rows; `read_service_point` reads it as one number.
pub const SERVICE_POINT_HIGH: usize = 5;

pub const SERVICE_POINT_MIDDLE: usize = 6;

pub const FAILURE_MODE: usize = 7;

pub const SERVICE_POINT_LOW: usize = 8;

pub const OCCURRENCE_COUNT: usize = 9;

pub const DEFAULT_SOURCE_ADDRESS_EXTENSION: usize = 10;

pub const BANK_SELECT: usize = 11;
