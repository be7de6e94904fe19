//! Numbers of answers.

/// What was asked is done.
pub const DONE: u32 = 0;

/// The core is closed. Nothing has changed.
pub const CLOSED: u32 = 1;

/// A machine has 1 to 8 cores, or 1 to 64 where it is given its limits.
pub const NOT_CORES: u32 = 2;

/// Memory was refused. Nothing has changed.
pub const NO_MEMORY: u32 = 3;

/// There is no room for all that is to be written. Nothing has changed.
pub const NO_ROOM: u32 = 4;

/// A core other than 0 is asked for a program of more than 4,096 instructions. Nothing has changed.
pub const TOO_LONG: u32 = 5;

/// The core has stopped for good: what came from another core can't be read, or fits no phase of the protocol.
pub const STOPPED: u32 = 6;

/// The core can't count on: a number or a stamp would be too great.
pub const SPENT: u32 = 7;

/// There is nothing to do.
pub const IDLE: u32 = 8;

/// A core that is to be opened is open. Nothing has changed.
pub const OPEN: u32 = 9;

/// The number is none of a set of rights. Nothing has changed.
pub const BAD_RIGHTS: u32 = 10;

/// No filter of this id is listed. Nothing has changed.
pub const NO_FILTER: u32 = 11;

/// The cores aren't all those of one machine, in the order of their numbers. Nothing has changed.
pub const NOT_MACHINE: u32 = 12;

/// The limits are 0 or too great, or a share is above its total. Nothing has changed.
pub const BAD_LIMITS: u32 = 13;

/// A core that would have to answer is closed. Nothing has changed, except that a turn may have moved lines.
pub const PEER_CLOSED: u32 = 15;
