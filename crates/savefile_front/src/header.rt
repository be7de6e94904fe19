//! The header of a capture that comes in pieces.

ghost use Rattle.std.specs.Prelude.{◌≤◌, IfOk, MatchResult, length};
ghost use Rattle.pcap_reader.specs.Savefile.{HasNoHeader, IsHeader};

use pcap_reader::{CaptureFault, Header, read_capture};
use std::alloc::{AllocError, Global};

/// The length of a file's header.
pub const FILE_HEADER: usize = 24;

/// What the header of a file says that begins with these bytes, or what is wrong with it: at first that it isn't whole.
pub fn header_of(alloc: Global, bytes: &[u8]) -> Result<Result<Header, CaptureFault>, AllocError>
    requires { length bytes.now ≤ FILE_HEADER }
    ensures { IfOk result (λ answer. MatchResult answer (IsHeader bytes.now) (HasNoHeader bytes.now)) }
{
    match read_capture(alloc, bytes) {
        Ok(capture) => Ok(Ok(capture.header)),
        Err(stop) => match stop.fault {
            CaptureFault::NoMemory => Err(AllocError),
            fault => Ok(Err(fault)),
        },
    }
}
