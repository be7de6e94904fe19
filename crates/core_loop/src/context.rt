//! Which core does an event, and when.

use std::alloc::Global;

/// A core's number, how many cores there are, the stamp of its last event, and the core whose request it began last.
#[derive(Clone, Copy)]
pub(crate) struct Context {
    pub(crate) alloc: Global,
    pub(crate) number: u16,
    pub(crate) cores: u16,
    pub(crate) clock: u64,
    pub(crate) begun_last: u16,
}
