//! How a script is read.

use seq::Shared;

/// The bytes of the files, and whether the script is for threads.
#[derive(Clone, Copy)]
pub(crate) struct Settings<'a> {
    pub files: &'a [Shared<u8>],
    pub threads: bool,
}
