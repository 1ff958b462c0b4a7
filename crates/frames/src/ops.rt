// The counter's ops: the number that stands first in a frame and in its answer.

pub const OPEN: u8 = 1;

pub const OFFERS: u8 = 2;

pub const INSERT: u8 = 3;

pub const REMOVE: u8 = 4;

pub const KEEP: u8 = 5;

pub const RESTORE: u8 = 6;

pub const REPORT: u8 = 7;

// What stands there in the answer to a line that is malformed, whatever its op.
pub const NONE: u8 = 255;
