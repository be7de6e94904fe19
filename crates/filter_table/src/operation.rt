//! Operations on the table, and what becomes of them on one replica.

use bpf_insn::Insn;
use endpoint_caps::Rights;
use seq::Shared;
use thiserror::Error;

/// A program that may not be verified. An equal one takes no memory.
pub type Program = Shared<Insn>;

/// An operation on the table, asked for by a domain. Refusals are looked for in the order given, after VersionsSpent.
#[derive(Clone, Drop)]
pub enum Op {
    /// A capability of the endpoint with all rights, held by the domain. Refused as EndpointTaken, CapsFull,
    /// DomainFull (the domain made its share of the capabilities), IdsSpent.
    Create {
        domain: u16,
        endpoint: u16,
    },
    /// A capability of the same endpoint as `cap`, held by `to`. Refused as NoCap, NotHolder, NoRight (`cap` lacks Mint),
    /// RightsExceed, CapsFull, DomainFull (as in `Create`: the new one counts for `domain`, not for `to`), IdsSpent.
    Mint {
        domain: u16,
        cap: u32,
        to: u16,
        rights: Rights,
    },
    /// All that was minted from the capability goes. Refused as NoCap, NotHolder.
    Revoke {
        domain: u16,
        cap: u32,
    },
    /// The capability goes, and all that was minted from it. Refused as NoCap, NotHolder.
    DropCap {
        domain: u16,
        cap: u32,
    },
    /// A filter for the endpoint of the capability, last in order. Refused as NoCap, NotHolder, NoRight (it lacks Receive),
    /// TableFull, DomainFull (of the domain's filters, or of their instructions with the program's), FilterIdsSpent, Budget,
    /// BadProgram.
    Install {
        domain: u16,
        cap: u32,
        program: Program,
    },
    /// The filter goes. Refused as NoFilter, NotOwner.
    Remove {
        domain: u16,
        filter: u32,
    },
    /// The filter gets another program, and keeps all else. Refused as NoFilter, NotOwner, NoCap, NotHolder, NoRight (its
    /// capability lacks Receive), DomainFull (of the domain's instructions) and Budget (the new program counts in place of the old
    /// in both), BadProgram.
    Replace {
        domain: u16,
        filter: u32,
        program: Program,
    },
}

/// The rule that an operation breaks.
#[derive(Clone, Copy, PartialEq, Eq, Debug, Drop, Error)]
pub enum OpFault {
    /// No capability of that id is held.
    #[error("no capability of that id is held")]
    NoCap,
    /// Another domain holds the capability.
    #[error("another domain holds the capability")]
    NotHolder,
    /// The capability lacks the right.
    #[error("the capability lacks the right")]
    NoRight,
    /// The rights asked for are not within those of the capability.
    #[error("the rights are not within those of the capability")]
    RightsExceed,
    /// A capability of that endpoint is held.
    #[error("a capability of that endpoint is held")]
    EndpointTaken,
    /// As many capabilities are held as the machine's limits allow.
    #[error("as many capabilities are held as may be")]
    CapsFull,
    /// The last id of a capability has been given out.
    #[error("the last id of a capability has been given out")]
    IdsSpent,
    /// No filter of that id is listed.
    #[error("no filter of that id is listed")]
    NoFilter,
    /// Another domain owns the filter.
    #[error("another domain owns the filter")]
    NotOwner,
    /// As many filters are listed as the machine's limits allow.
    #[error("as many filters are listed as may be")]
    TableFull,
    /// The domain has as much as the machine's limits allow to one: of capabilities that it made, of filters, or of instructions.
    #[error("the domain has as much as one may have")]
    DomainFull,
    /// The last id of a filter has been given out.
    #[error("the last id of a filter has been given out")]
    FilterIdsSpent,
    /// The verifier refuses the program, by the rule of this number and at this place (0 where no single place is at fault).
    #[error("the verifier refuses the program, by rule {rule} at instruction {pc}")]
    BadProgram { rule: u8, pc: u16 },
    /// The last version has been reached.
    #[error("the last version has been reached")]
    VersionsSpent,
}

/// Why an operation is not staged.
#[derive(Clone, Copy, PartialEq, Eq, Debug, Drop, Error)]
pub enum StageFault {
    /// Another operation is staged.
    #[error("another operation is staged")]
    AlreadyStaged,
    /// It breaks a rule, which every replica of the table says of it.
    #[error(transparent)]
    Rule(OpFault),
    /// The instructions of the filters would exceed this replica's budget.
    #[error("the instructions of the filters would exceed the budget")]
    Budget,
    /// There was no memory. No test but the verifier's search for unwritten words was left.
    #[error("out of memory")]
    NoMemory,
}

/// What a committed operation made.
#[derive(Clone, Copy, PartialEq, Eq, Debug)]
pub enum Made {
    /// The capability of this id.
    Cap(u32),
    /// The filter of this id.
    Filter(u32),
    /// Nothing that has an id.
    Nothing,
}
