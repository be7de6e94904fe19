//! What a source and a sink record: a failing, an interrupted and a short reader and writer.

use crate::facts::{equal, holds};
use engine_io::{EngineFault, Got, Sink, Source, read_bounded, write_bytes};
use std::io;
use std::io::{ErrorKind, Read, Write};

/// A device that answers so to one call after the other: a number of bytes, 0 for the end, or how it fails.
#[derive(Drop)]
struct Script<'a> {
    answers: &'a [Result<usize, ErrorKind>],
    calls: usize,
}

impl<'a> Script<'a> {
    fn new(answers: &'a [Result<usize, ErrorKind>]) -> Script<'a> {
        Script { answers, calls: 0 }
    }

    fn next(&mut self) -> io::Result<usize> {
        let answer = self.answers.get(self.calls).copied().unwrap_or(Ok(0));
        self.calls = self.calls.saturating_add(1);
        answer.map_err(io::Error::from)
    }
}

impl Read for Script<'_> {
    fn read(&mut self, buf: &mut [u8]) -> io::Result<usize> {
        let count = self.next()?.min(buf.len());
        buf[..count].fill(7);
        Ok(count)
    }
}

impl Write for Script<'_> {
    fn write(&mut self, buf: &[u8]) -> io::Result<usize> {
        Ok(self.next()?.min(buf.len()))
    }

    fn flush(&mut self) -> io::Result<()> {
        Ok(())
    }
}

const INTERRUPTED: Result<usize, ErrorKind> = Err(ErrorKind::Interrupted);

const REFUSED: Result<usize, ErrorKind> = Err(ErrorKind::PermissionDenied);

#[test]
fn a_read_is_recorded(rt: HostRuntime) {
    let rows = [
        (Ok(3), Got::Bytes(3), 3, false),
        (Ok(0), Got::End, 0, false),
        (INTERRUPTED, Got::Again, 0, false),
        (REFUSED, Got::Failed, 0, true),
    ];
    for (answer, want, taken, failed) in rows {
        let answers = [answer];
        let mut source = Source::new(Script::new(&answers), 5);
        let got = source.read(&mut [0; 4]);
        holds(&rt, got == want);
        let shown = (source.left(), source.taken(), source.has_failed());
        equal(&rt, shown, (4, taken, failed));
        equal(&rt, source.inner().calls, 1);
    }
}

#[test]
fn nothing_is_read_after_a_failed_read(rt: HostRuntime) {
    let answers = [Ok(2), INTERRUPTED, REFUSED, Ok(2)];
    let mut source = Source::new(Script::new(&answers), 9);
    let fault = read_bounded(rt.alloc(), &mut source, 99).err();
    equal(&rt, fault, Some(EngineFault::ReadFailed));
    equal(&rt, source.inner().calls, 3);
}

#[test]
fn a_write_goes_on_until_it_fails(rt: HostRuntime) {
    let rows = [
        ([Ok(2), INTERRUPTED, Ok(1), Ok(9)], Ok(()), 4),
        (
            [Ok(2), REFUSED, Ok(9), Ok(9)],
            Err(EngineFault::WriteFailed),
            2,
        ),
        (
            [INTERRUPTED, Ok(0), Ok(9), Ok(9)],
            Err(EngineFault::WriteFailed),
            2,
        ),
    ];
    for (answers, want, calls) in rows {
        let mut sink = Sink::new(Script::new(&answers));
        let answer = write_bytes(&mut sink, b"abcdef");
        equal(&rt, answer, want);
        equal(&rt, sink.inner().calls, calls);
    }
}
