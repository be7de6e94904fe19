//! How many cores there can be.

/// The most cores that there can be, core 0 included.
pub const MOST_CORES: u16 = 64;

/// The most cores of a machine that isn't given its limits, core 0 included.
pub const DEFAULT_MOST_CORES: u16 = 8;
