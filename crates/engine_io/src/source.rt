//! What an engine reads from.

ghost use Rattle.std.specs.Prelude.{◌≡◌, [], ◌+◌, ◌<◌, ◌^◌, length, true, false};

use crate::remembering::remembered;
use ghost_log::Log;
use std::io::{ErrorKind, Read};

/// A reader, with a list of what was got, which only proofs read, and a record of what came of its reads. Only `read` writes them.
pub struct Source<R> {
    inner: R,
    /// The bytes that the reads gave.
    got: Log<u8>,
    /// How many reads are left.
    left: u64,
    /// How many bytes the reads gave.
    taken: u64,
    /// Whether a read met the end.
    ended: bool,
    /// Whether a read failed, other than by an interruption.
    failed: bool,
}

// By hand, so that the proofs of its owners have one call and not a drop of each part.
impl<R: Drop> Drop for Source<R> {
    fn drop(self) {
        let Source {
            inner: _,
            got: _,
            left: _,
            taken: _,
            ended: _,
            failed: _,
        } = self;
    }
}

/// What came of a read.
#[derive(Clone, Copy, PartialEq, Eq, Debug)]
pub enum Got {
    /// So many bytes.
    Bytes(usize),
    /// The end of the input.
    End,
    /// Nothing, since it was interrupted. It may be tried again.
    Again,
    /// Nothing, since it failed.
    Failed,
}

impl<R> Source<R> {
    ghost use Rattle.engine_io.specs.Devices.{IsFresh};

    /// A source of which nothing was read, with so many reads at most.
    pub fn new(inner: R, reads: u64) -> Source<R>
        ensures inner { result.inner ≡ inner }
        ensures got { result.got.items ≡ [] }
        ensures fresh { IsFresh result reads }
    {
        Source {
            inner,
            got: Log::new(),
            left: reads,
            taken: 0,
            ended: false,
            failed: false,
        }
    }

    /// The reader.
    pub fn inner(&self) -> &R
        ensures { result.now ≡ self.now.inner }
    {
        &self.inner
    }

    /// How many reads are left.
    pub fn left(&self) -> u64
        ensures { result ≡ self.now.left }
    {
        self.left
    }

    /// How many bytes the reads gave.
    pub fn taken(&self) -> u64
        ensures { result ≡ self.now.taken }
    {
        self.taken
    }

    /// Whether a read failed, other than by an interruption.
    pub fn has_failed(&self) -> bool
        ensures { result ≡ self.now.failed }
    {
        self.failed
    }
}

impl<R: Read> Source<R> {
    ghost use Rattle.engine_io.specs.Devices.{HasRead};

    /// Reads once. No read follows one that failed, nor one that met the end.
    pub fn read(&mut self, buffer: &mut [u8]) -> Got
        requires good { self.old.failed ≡ false }
        requires open { self.old.ended ≡ false }
        requires left { 0 < self.old.left }
        requires room { 0 < length buffer.old }
        requires short { self.old.taken + length buffer.old < 2 ^ 64 }
        ensures { HasRead R.remaining self.old self.new buffer.new result }
    {
        self.left -= 1;
        match self.inner.read(buffer) {
            Ok(0) => {
                self.ended = true;
                Got::End
            }
            Ok(count) => {
                self.taken += count as u64;
                self.got = remembered(&self.got, &buffer[..count]);
                Got::Bytes(count)
            }
            Err(error) => {
                if error.kind() == ErrorKind::Interrupted {
                    return Got::Again;
                }
                self.failed = true;
                Got::Failed
            }
        }
    }
}
