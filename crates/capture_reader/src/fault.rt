//! Why a capture ends early.

ghost use Rattle.std.specs.Prelude.{◌≡◌};
ghost use Rattle.capture_reader.specs.Faults.{is_refusal};

use std::alloc::AllocError;
use thiserror::Error;

/// Why a capture ends early: a fault of its format, or that memory was refused while it was read.
#[derive(Clone, Copy, Debug, PartialEq, Eq, Error)]
pub enum ReadFault {
    /// Of a savefile.
    #[error(transparent)]
    Savefile(pcap_reader::CaptureFault),
    /// Of a capture in pcapng.
    #[error(transparent)]
    Pcapng(pcapng_reader::CaptureFault),
}

impl ReadFault {
    /// Whether memory was refused, and nothing is wrong with the capture so far.
    pub fn is_refusal(self) -> bool
        ensures { result ≡ is_refusal self }
    {
        matches!(
            self,
            ReadFault::Savefile(pcap_reader::CaptureFault::NoMemory)
                | ReadFault::Pcapng(pcapng_reader::CaptureFault::NoMemory)
        )
    }
}

impl From<pcap_reader::CaptureFault> for ReadFault {
    ghost use Rattle.capture_reader.specs.declared.fault.ReadFault.TheVariants.{Savefile};

    ghost from_gives = { λ e f. f ≡ Savefile e };

    fn from(fault: pcap_reader::CaptureFault) -> ReadFault {
        ReadFault::Savefile(fault)
    }
}

impl From<pcapng_reader::CaptureFault> for ReadFault {
    ghost use Rattle.capture_reader.specs.declared.fault.ReadFault.TheVariants.{Pcapng};

    ghost from_gives = { λ e f. f ≡ Pcapng e };

    fn from(fault: pcapng_reader::CaptureFault) -> ReadFault {
        ReadFault::Pcapng(fault)
    }
}

impl From<AllocError> for ReadFault {
    ghost use Rattle.pcap_reader.specs.declared.capture.CaptureFault.TheVariants.{NoMemory};
    ghost use Rattle.capture_reader.specs.declared.fault.ReadFault.TheVariants.{Savefile};

    ghost from_gives = { λ _ f. f ≡ Savefile NoMemory };

    fn from(_error: AllocError) -> ReadFault {
        ReadFault::Savefile(pcap_reader::CaptureFault::NoMemory)
    }
}
