//! What an engine writes to.

ghost use Rattle.std.specs.Prelude.{◌≡◌, ◌≢◌, [], false};

use crate::remembering::remembered;
use ghost_log::Log;
use std::io::{ErrorKind, Write};

/// A writer, with a list of what was written, which only proofs read, and a record of whether a write failed. Only `write` writes
/// them.
pub struct Sink<W> {
    inner: W,
    /// The bytes that the writer took.
    written: Log<u8>,
    /// Whether a write failed, other than by an interruption.
    failed: bool,
}

// By hand, so that the proofs of its owners have one call and not a drop of each part.
impl<W: Drop> Drop for Sink<W> {
    fn drop(self) {
        let Sink {
            inner: _,
            written: _,
            failed: _,
        } = self;
    }
}

impl<W> Sink<W> {
    /// A sink to which nothing was written.
    pub fn new(inner: W) -> Sink<W>
        ensures inner { result.inner ≡ inner }
        ensures written { result.written.items ≡ [] }
        ensures good { result.failed ≡ false }
    {
        Sink {
            inner,
            written: Log::new(),
            failed: false,
        }
    }

    /// The writer.
    pub fn inner(&self) -> &W
        ensures { result.now ≡ self.now.inner }
    {
        &self.inner
    }
}

impl<W: Write> Sink<W> {
    ghost use Rattle.engine_io.specs.Devices.{HasWritten};

    /// Writes bytes of the front, and says how many, or `None` where it failed. An interrupted write is tried again. No write
    /// follows one that failed.
    pub fn write(&mut self, bytes: &[u8]) -> Option<usize>
        requires good { self.old.failed ≡ false }
        requires some { bytes.now ≢ [] }
        ensures { HasWritten W.contents self.old self.new bytes.now result }
    {
        for _ in 0..u64::MAX {
            match self.inner.write(bytes) {
                Ok(0) => break,
                Ok(count) => {
                    self.written = remembered(&self.written, &bytes[..count]);
                    return Some(count);
                }
                Err(error) => {
                    if error.kind() != ErrorKind::Interrupted {
                        break;
                    }
                }
            }
        }
        self.failed = true;
        None
    }
}
