//! What the monitors of a multikernel say to each other to agree on changes of a table that each core has a replica of, and
//! those messages as bytes (Baumann and others, "The Multikernel", SOSP 2009: agreement by two-phase commit).
//!
//! Numbers are little-endian, and nothing follows a message's last byte. A number without a width is one byte. The stamp is
//! the clock of the core that sends.
//!
//! | Message | Bytes |
//! |---|---|
//! | Prepare | 1, stamp u64, txn u64, operation |
//! | Vote | 2, stamp u64, txn u64, vote: 0 Yes, 1 Budget, 2 NoMemory |
//! | Commit, Abort, Ack | 3, 4, 5, each with stamp u64, txn u64 |
//! | Submit | 6, stamp u64, operation |
//! | Reply | 7, stamp u64, decision |
//!
//! | Decision | Bytes |
//! |---|---|
//! | Committed | 0, version u64, made: 0 Nothing, 1 Cap, 2 Filter; after 1 and 2 the id u32 |
//! | Refused | 1, core u16, why: 0 Budget, 1 NoMemory, 2 a rule; after 2 the number of the rule |
//!
//! The rules are numbered NoCap 1, NotHolder 2, NoRight 3, RightsExceed 4, EndpointTaken 5, CapsFull 6, IdsSpent 7,
//! NoFilter 11, NotOwner 12, TableFull 13, FilterIdsSpent 14, BadProgram 17, VersionsSpent 18, DomainFull 19; after 17 stand
//! the number of the verifier's refusal, 1 to 10, and its place u16.
//!
//! | Operation | Bytes |
//! |---|---|
//! | Create | 1, domain u16, endpoint u16 |
//! | Mint | 2, domain u16, cap u32, to u16, rights: 1 R, 2 M, 3 Rm |
//! | Revoke, DropCap | 3, 4, each with domain u16, cap u32 |
//! | Install | 5, domain u16, cap u32, program |
//! | Remove | 6, domain u16, filter u32 |
//! | Replace | 7, domain u16, filter u32, program |
//!
//! A program is its count u16, at most 4096, and eight bytes for each instruction.
#![tactic(auto)]

mod fault;
mod loaded;
mod message;
mod reading;
mod short;
mod writing;

pub use fault::DecodeFault;
pub use filter_table::{Decision, Load, Veto, Vote};
pub use loaded::{Carrier, CodedProgram, Loaded};
pub use message::Message;
pub use reading::{decode, decode_in_place};
pub use short::{ShortBytes, short_bytes};
pub use writing::encode;
