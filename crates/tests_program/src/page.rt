//! A writer that takes no memory.

ghost use Rattle.std.specs.Prelude.{◌≤◌};

use std::io;
use std::io::{ErrorKind, Write};

/// How many bytes are taken at most.
const ROOM: usize = 4096;

/// What was written.
#[derive(Drop)]
pub struct Page {
    bytes: [u8; ROOM],
    used: usize,
    ghost within: { used ≤ 4096 },
}

impl Page {
    pub fn new() -> Page {
        Page {
            bytes: [0; ROOM],
            used: 0,
        }
    }

    pub fn as_slice(&self) -> &[u8] {
        &self.bytes[..self.used]
    }
}

impl Write for Page {
    fn write(&mut self, buf: &[u8]) -> io::Result<usize> {
        if buf.len() > ROOM - self.used {
            return Err(io::Error::from(ErrorKind::WriteZero));
        }
        let end = self.used + buf.len();
        self.bytes[self.used..end].copy_from_slice(buf);
        self.used = end;
        Ok(buf.len())
    }

    fn flush(&mut self) -> io::Result<()> {
        Ok(())
    }
}
