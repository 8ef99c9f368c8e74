// Where the parts of a frame stand, and how many bytes they have.

// The address stands at the front.
pub const COMMAND: usize = 4;

pub const DATA: usize = 5;

// A frame without data, as a request is.
pub const BARE_BYTES: usize = 7;

// The data: four numbers of four bytes; two, two and three; two and seven.
pub const TARIFF_BYTES: usize = 4;

pub const VOLTAGE_BYTES: usize = 2;

pub const CURRENT_BYTES: usize = 2;

pub const POWER_BYTES: usize = 3;

pub const FREQUENCY_BYTES: usize = 2;
