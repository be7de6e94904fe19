//! What a capture holds, and what can be wrong with one.

ghost use Rattle.std.specs.Prelude.{◌≡◌};

use seq::Seq;
use std::alloc::{AllocError, AllocFailed};
use thiserror::Error;

/// The captured bytes of a packet, in order.
pub type Bytes = Seq<u8>;

/// A packet as a record of a capture holds it.
#[derive(Clone, Debug, Drop, PartialEq, Eq)]
pub struct CapturedPacket {
    /// The bytes that were captured, from the packet's first byte on.
    pub bytes: Bytes,
    /// The packet's length in bytes when it was seen. More than were captured where the capture
    /// cut it off; nothing relates the two otherwise.
    pub original: u32,
}

/// What the header of a capture says.
#[derive(Clone, Copy, Debug, PartialEq, Eq)]
pub struct Header {
    /// Whether the numbers of the capture are big-endian, and not little-endian.
    pub big: bool,
    /// Whether the fractions of the timestamps are nanoseconds, and not microseconds.
    pub nano: bool,
    /// The most bytes that were to be captured of a packet. Any number is taken, and no record is
    /// refused for it.
    pub snaplen: u32,
    /// The link type of the packets, as 1 for Ethernet. Any number is taken.
    pub network: u32,
}

/// The packets of a capture, in order.
pub type Packets = Seq<CapturedPacket>;

/// A whole capture.
#[derive(Debug, Drop)]
pub struct Capture {
    pub header: Header,
    pub packets: Packets,
}

/// Why a capture ends early.
#[derive(Clone, Copy, Debug, PartialEq, Eq, Error)]
pub enum CaptureFault {
    /// The first four bytes are none of the four magic numbers.
    #[error("the first four bytes are no magic number")]
    BadMagic,
    /// The version isn't 2.4.
    #[error("the version is not 2.4")]
    BadVersion,
    /// The bytes end within the header of 24 bytes, or before it.
    #[error("the capture ends within its header")]
    TruncatedHeader,
    /// The bytes end within a record: its header of 16 bytes or its captured bytes. The offset is
    /// the place in the file of the first byte of the record's header.
    #[error("the capture ends within the record at byte {0}")]
    TruncatedRecord(u64),
    /// A record says that more than 262,144 bytes were captured. The offset is the place in the
    /// file of the first byte of the record's header.
    #[error("the record at byte {0} has more than 262,144 bytes")]
    TooLong(u64),
    /// Memory was refused.
    #[error("out of memory")]
    NoMemory,
}

impl From<AllocError> for CaptureFault {
    ghost use Rattle.pcap_reader.specs.declared.capture.CaptureFault.TheVariants.{NoMemory};

    ghost from_gives = { λ _ f. f ≡ NoMemory };

    fn from(_error: AllocError) -> CaptureFault {
        CaptureFault::NoMemory
    }
}

impl<T: Drop> From<AllocFailed<T>> for CaptureFault {
    ghost use Rattle.pcap_reader.specs.declared.capture.CaptureFault.TheVariants.{NoMemory};

    ghost from_gives = { λ _ f. f ≡ NoMemory };

    fn from(_error: AllocFailed<T>) -> CaptureFault {
        CaptureFault::NoMemory
    }
}

/// A capture that ends at a fault, and what stands before it.
#[derive(Debug, Drop, Error)]
#[error("{fault}")]
pub struct Stop {
    /// What the header says, where there is a whole one.
    pub header: Option<Header>,
    /// The packets of the whole records before the fault.
    pub before: Packets,
    pub fault: CaptureFault,
}
