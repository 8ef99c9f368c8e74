// Where the parts of a frame stand, and how many bytes a frame has.
pub const ADDRESS: usize = 0;

pub const FUNCTION: usize = 1;

pub const PARAMETER: usize = 2;

// Of a reply.
pub const RESULT: usize = 3;

// Of a change, a zeroing, and a command about a level.
pub const DETAIL: usize = 3;

// Of a read.
pub const OFFSET: usize = 3;

pub const TARIFF: usize = 4;

pub const READ_DETAIL: usize = 5;

// Where the data of a reply or a change begin, and a password.
pub const DATA: usize = 4;

// The fewest and the most bytes of a frame. A lent output for a reply has at least the most.
pub const SHORTEST: usize = 4;

pub const LONGEST: usize = 64;

// The CRC's own bytes.
pub const CRC_BYTES: usize = 2;

// A read request.
pub const READ_BYTES: usize = 8;

// A frame without data: a refusal, a zeroing, a lock.
pub const BARE_BYTES: usize = 6;

// A command with a password.
pub const UNLOCK_BYTES: usize = 14;

// A reply about a slice.
pub const SLICE_REPLY: usize = 14;
