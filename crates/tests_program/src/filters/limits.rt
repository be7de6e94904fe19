//! What bounds a reading of an input.

use crate::devices::Pieces;
use crate::facts::{equal, equal_at};
use engine_io::{EngineFault, Input, Source, read_bounded};
use std::alloc::Global;
use std::io;
use std::io::{ErrorKind, Read};
use std::process::Abort;

/// Whether so many bytes are read whole, at most `bytes` in at most `reads` reads, or are too many.
fn read_within(
    rt: &impl Abort,
    alloc: Global,
    length: usize,
    bytes: u32,
    reads: u64,
) -> Result<bool, EngineFault> {
    let mut source = Source::new(Pieces::new(&[7; 5][..length.min(5)], 1, 0), reads);
    match read_bounded(alloc, &mut source, u64::from(bytes))? {
        Input::Whole(held) => {
            equal(rt, held.len(), length);
            Ok(true)
        }
        Input::TooLong => Ok(false),
    }
}

#[test]
fn reading_stops_at_its_limits(rt: HostRuntime) {
    let rows: [(usize, u32, u64, Result<bool, EngineFault>); 5] = [
        (5, 4, 99, Ok(false)),
        (3, 9, 3, Err(EngineFault::ReadFailed)),
        (2, 9, 3, Ok(true)),
        (4, 4, 5, Ok(true)),
        (0, 0, 0, Err(EngineFault::ReadFailed)),
    ];
    for (length, bytes, reads, want) in rows {
        let got = read_within(&rt, rt.alloc(), length, bytes, reads);
        equal_at(&rt, got, want, &length);
    }
}

/// A reader whose first read is interrupted.
#[derive(Drop)]
struct Interrupted<'a> {
    inner: Pieces<'a>,
    told: bool,
}

impl Read for Interrupted<'_> {
    fn read(&mut self, buf: &mut [u8]) -> io::Result<usize> {
        if self.told {
            return self.inner.read(buf);
        }
        self.told = true;
        Err(io::Error::from(ErrorKind::Interrupted))
    }
}

#[test]
fn an_interrupted_read_is_tried_again_and_counts(rt: HostRuntime) {
    for (reads, whole) in [(3, false), (4, true)] {
        let reader = Interrupted {
            inner: Pieces::new(&[7; 2], 1, 0),
            told: false,
        };
        let answer = read_bounded(rt.alloc(), &mut Source::new(reader, reads), 9);
        equal(&rt, answer.is_ok(), whole);
    }
}
