//! Readers and writers that give or take little at a time, fail when they are told to, or have too much.

use std::io;
use std::io::{ErrorKind, Read, Write};

/// A reader that has some bytes and then some marks `#`, gives at most `step` bytes a read, and fails at one of its
/// reads: 0 for none.
#[derive(Drop)]
pub struct Pieces<'a> {
    bytes: &'a [u8],
    marks: usize,
    step: usize,
    pub reads: usize,
    fails_at: usize,
}

impl<'a> Pieces<'a> {
    pub fn new(bytes: &'a [u8], step: usize, fails_at: usize) -> Pieces<'a> {
        Pieces {
            bytes,
            marks: 0,
            step,
            reads: 0,
            fails_at,
        }
    }

    /// This many marks.
    pub fn of_marks(marks: usize) -> Pieces<'a> {
        Pieces {
            bytes: &[],
            marks,
            step: usize::MAX,
            reads: 0,
            fails_at: 0,
        }
    }
}

impl Read for Pieces<'_> {
    fn read(&mut self, buf: &mut [u8]) -> io::Result<usize> {
        self.reads = self.reads.saturating_add(1);
        if self.reads == self.fails_at {
            return Err(io::Error::from(ErrorKind::PermissionDenied));
        }
        if self.bytes.is_empty() {
            let count = self.marks.min(buf.len());
            buf[..count].fill(b'#');
            self.marks -= count;
            return Ok(count);
        }
        let count = self.step.min(self.bytes.len()).min(buf.len());
        buf[..count].copy_from_slice(&self.bytes[..count]);
        self.bytes = &self.bytes[count..];
        Ok(count)
    }
}

/// A writer that takes one byte a write, and fails at one of its writes: 0 for none.
#[derive(Drop)]
pub struct Taker {
    pub taken: usize,
    writes: usize,
    fails_at: usize,
}

impl Taker {
    pub fn new(fails_at: usize) -> Taker {
        Taker {
            taken: 0,
            writes: 0,
            fails_at,
        }
    }
}

impl Write for Taker {
    fn write(&mut self, buf: &[u8]) -> io::Result<usize> {
        self.writes = self.writes.saturating_add(1);
        if self.writes == self.fails_at {
            return Err(io::Error::from(ErrorKind::PermissionDenied));
        }
        let count = buf.len().min(1);
        self.taken = self.taken.saturating_add(count);
        Ok(count)
    }

    fn flush(&mut self) -> io::Result<()> {
        Ok(())
    }
}
