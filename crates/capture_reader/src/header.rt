//! The header of a savefile that comes in pieces.

ghost use Rattle.std.specs.Prelude.{◌≤◌, ◌≡◌, ◌⊎◌, IfOk, IfErr, MatchOption, length};
ghost use Rattle.pcap_reader.specs.Savefile.{HasNoHeader, IsHeader, IsLasting};

use pcap_reader::{CaptureFault, Header};
use savefile_front::FILE_HEADER;
use std::alloc::Global;

/// What the header of a file says that begins with these bytes, once they are all of it.
pub(crate) fn header_of(alloc: Global, bytes: &[u8]) -> Result<Option<Header>, CaptureFault>
    requires { length bytes.now ≤ FILE_HEADER }
    ensures found { IfOk result (λ found. MatchOption found (HasNoHeader bytes.now CaptureFault.TruncatedHeader) (IsHeader bytes.now)) }
    ensures fault { IfErr result (λ fault. (fault ≡ CaptureFault.NoMemory) ⊎ (IsLasting fault × HasNoHeader bytes.now fault)) }
{
    match savefile_front::header_of(alloc, bytes) {
        Ok(Ok(header)) => Ok(Some(header)),
        Ok(Err(CaptureFault::TruncatedHeader)) => Ok(None),
        Ok(Err(fault)) => Err(fault),
        Err(_) => Err(CaptureFault::NoMemory),
    }
}
