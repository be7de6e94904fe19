//! Numbers of answers that several functions share. Each numbers its own faults from 1.

/// The program is accepted, the text is read, or all of it is written.
pub const DONE: u32 = 0;

/// The text is longer than the assembler takes: 2^32 bytes or more.
pub const TOO_LARGE: u32 = 253;

/// The caller's room is too small. None of it was written.
pub const NO_ROOM: u32 = 254;

/// Memory ran out. None of the caller's room was written.
pub const NO_MEMORY: u32 = 255;
