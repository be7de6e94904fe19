//! The input and standard output, each of which keeps why it failed.

use std::alloc::{AllocError, Global};
use std::fs::File;
use std::io::{self, ErrorKind, Read, Stdin, Stdout, Write};

/// How many bytes of its front an input keeps.
const FRONT: usize = 4;

/// What to say where standard input could not be read.
pub const NOT_READ: &str = "standard input can't be read";

/// Where an input is.
#[derive(Drop)]
enum Place {
    /// Standard input.
    Standard(Stdin),
    /// A file, in its place.
    Named(File),
}

/// The input, its first bytes, and why its last failed read failed.
#[derive(Drop)]
pub struct FileInput {
    place: Place,
    front: [u8; FRONT],
    /// How many of the first bytes were read.
    filled: usize,
    /// How many of the first bytes were looked at and are still to be given.
    waiting: usize,
    fault: Option<ErrorKind>,
}

impl FileInput {
    ghost use Rattle.std.specs.Prelude.{IfOk};
    ghost use Rattle.std.specs.Counts.{IsPrefixLen};

    /// Standard input, of which nothing has been read.
    pub fn standard(stdin: Stdin) -> FileInput {
        FileInput::new(Place::Standard(stdin))
    }

    /// A file, of which nothing has been read.
    pub fn named(file: File) -> FileInput {
        FileInput::new(Place::Named(file))
    }

    fn new(place: Place) -> FileInput {
        FileInput {
            place,
            front: [0; FRONT],
            filled: 0,
            waiting: 0,
            fault: None,
        }
    }

    /// Looks at the first bytes, which reads give all the same.
    pub fn look(&mut self) {
        let mut block = [0u8; 1];
        for _turn in 0..FRONT {
            match self.read_device(&mut block) {
                Ok(0) | Err(_) => break,
                Ok(_) => {}
            }
        }
        self.waiting = self.filled;
    }

    /// What to say where it is standard input and could not be read, by why.
    pub fn complaint(&self) -> &'static str {
        match self.fault {
            Some(ErrorKind::IsADirectory) => "standard input is a directory",
            Some(_) => NOT_READ,
            None => "an input can't be read",
        }
    }

    /// The first four bytes, where so many were read.
    pub fn front(&self) -> Option<[u8; FRONT]> {
        if self.filled < FRONT {
            return None;
        }
        Some(self.front)
    }

    /// Whether it begins as a savefile or as pcapng does.
    pub fn is_capture(&self) -> bool {
        match self.front() {
            Some(front) => matches!(
                u32::from_be_bytes(front),
                0xa1b2_c3d4 | 0xd4c3_b2a1 | 0xa1b2_3c4d | 0x4d3c_b2a1 | 0x0a0d_0d0a
            ),
            None => false,
        }
    }

    /// Reads from the device.
    fn read_device(&mut self, buffer: &mut [u8]) -> io::Result<usize>
        ensures { IfOk result (λ n. IsPrefixLen n buffer.new) }
    {
        let answer = match &mut self.place {
            Place::Standard(stdin) => stdin.read(buffer),
            Place::Named(file) => file.read(buffer),
        };
        match &answer {
            Ok(count) => {
                if let Some(bytes) = buffer.get(..*count) {
                    self.keep(bytes);
                }
            }
            Err(error) => self.fault = Some(error.kind()),
        }
        answer
    }

    /// Keeps those of some bytes that are among the first ones.
    fn keep(&mut self, bytes: &[u8]) {
        for byte in bytes {
            if self.filled >= FRONT {
                return;
            }
            self.front[self.filled] = *byte;
            self.filled += 1;
        }
    }
}

impl Read for FileInput {
    fn read(&mut self, buffer: &mut [u8]) -> io::Result<usize> {
        if self.waiting == 0 {
            return self.read_device(buffer);
        }
        let front = self.front;
        let start = self.filled.saturating_sub(self.waiting);
        let mut rest = front.get(start..self.filled).unwrap_or(&[]);
        let answer = rest.read(buffer);
        if let Ok(count) = &answer {
            self.waiting = self.waiting.saturating_sub(*count);
        }
        answer
    }
}

/// How many bytes the header of a savefile has.
const SAVEFILE_HEADER: u64 = 24;

/// Standard output: whether nobody reads it any more, how much was written, and what its lines begin with.
#[derive(Drop)]
pub struct Output<'a> {
    inner: Stdout,
    closed: bool,
    /// How many bytes were written, up to 2^64 - 1.
    written: u64,
    /// The name that each line begins with, if any does.
    name: Option<&'a str>,
    /// Whether what comes next begins a line.
    begins: bool,
    /// Whether a line began with a number above 0, as those of accepted packets do.
    accepted: bool,
    alloc: Global,
}

impl<'a> Output<'a> {
    /// Standard output, to which nothing has been written. Each line begins with this name and a colon, if there is one.
    pub fn new(alloc: Global, inner: Stdout, name: Option<&'a str>) -> Output<'a> {
        Output {
            inner,
            closed: false,
            written: 0,
            name,
            begins: true,
            accepted: false,
            alloc,
        }
    }

    /// Whether anything was written.
    pub fn is_used(&self) -> bool {
        self.written > 0
    }

    /// Whether just the header of a savefile was written.
    pub fn is_header(&self) -> bool {
        self.written == SAVEFILE_HEADER
    }

    /// Whether a write failed since nobody reads the output any more.
    pub fn is_closed(&self) -> bool {
        self.closed
    }

    /// Whether a line began with a number above 0: the verdict on an accepted packet, or how many were accepted.
    pub fn has_accepted(&self) -> bool {
        self.accepted
    }

    /// Notes what lines begin with in some bytes that were written.
    fn note(&mut self, bytes: &[u8]) {
        for byte in bytes {
            if self.begins && matches!(byte, b'1'..=b'9') {
                self.accepted = true;
            }
            self.begins = *byte == b'\n';
        }
    }

    /// These bytes, with the name before each line that begins in them.
    fn named(&self, name: &str, bytes: &[u8]) -> Result<Vec<u8>, AllocError> {
        let mut text = Vec::new(self.alloc);
        let mut begins = self.begins;
        for byte in bytes {
            if begins {
                text.extend_from_slice(name.as_bytes())?;
                text.push(b':')?;
            }
            text.push(*byte)?;
            begins = *byte == b'\n';
        }
        Ok(text)
    }

    /// Notes that these bytes were written.
    fn wrote(&mut self, bytes: &[u8]) {
        self.written = self.written.saturating_add(bytes.len() as u64);
        self.note(bytes);
    }

    /// Writes bytes, with the name before each line that begins in them.
    fn write_named(&mut self, name: &str, bytes: &[u8]) -> io::Result<()> {
        let text = self.named(name, bytes)?;
        match self.inner.write_all(text.as_slice()) {
            Ok(()) => {
                self.wrote(bytes);
                Ok(())
            }
            Err(error) => {
                self.closed = error.kind() == ErrorKind::BrokenPipe;
                Err(error)
            }
        }
    }
}

impl Write for Output<'_> {
    fn write(&mut self, bytes: &[u8]) -> io::Result<usize> {
        if let Some(name) = self.name {
            self.write_named(name, bytes)?;
            return Ok(bytes.len());
        }
        let answer = self.inner.write(bytes);
        match &answer {
            Ok(count) => {
                if let Some(written) = bytes.get(..*count) {
                    self.wrote(written);
                }
            }
            Err(error) => self.closed = error.kind() == ErrorKind::BrokenPipe,
        }
        answer
    }

    fn flush(&mut self) -> io::Result<()> {
        self.inner.flush()
    }
}
