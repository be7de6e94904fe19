//! Capabilities over endpoints: who may receive at an endpoint, and who may hand that right on to others.
//!
//! Capabilities are derived and revoked as in Dennis and Van Horn, "Programming Semantics for Multiprogrammed
//! Computations" (1966), and in seL4 (Reference Manual, "Capability derivation").
#![tactic(auto)]

ghost use Rattle.std.specs.Prelude.{◌≡◌, ◌<◌, IfSome, None, Some};
ghost use Rattle.endpoint_caps.specs.Capabilities.{has_right, is_within};

use std::marker::Model;
use thiserror::Error;

mod limits;
mod table;

pub use limits::{CapLimits, MOST_LISTED};
pub use table::Caps;

/// What a capability lets its holder do.
#[derive(Clone, Copy, PartialEq, Eq, Debug)]
pub enum Rights {
    /// Receive packets at the endpoint.
    R,
    /// Mint further capabilities of the endpoint.
    M,
    /// Both.
    Rm,
}

impl Rights {
    /// Whether the right is among these.
    pub fn has(self, right: Right) -> bool
        ensures { result ≡ has_right self right }
    {
        match (self, right) {
            (Rights::Rm, _) | (Rights::R, Right::Receive) | (Rights::M, Right::Mint) => true,
            (Rights::R, Right::Mint) | (Rights::M, Right::Receive) => false,
        }
    }

    /// Whether each of these rights is one of the others.
    pub fn is_within(self, others: Rights) -> bool
        ensures { result ≡ is_within self others }
    {
        match self {
            Rights::R => others.has(Right::Receive),
            Rights::M => others.has(Right::Mint),
            Rights::Rm => others.has(Right::Receive) && others.has(Right::Mint),
        }
    }
}

/// One thing that a capability may be asked for.
#[derive(Clone, Copy, PartialEq, Eq, Debug)]
pub enum Right {
    /// Receive packets at the endpoint.
    Receive,
    /// Mint further capabilities of the endpoint.
    Mint,
}

/// The id of the capability that one was minted from, if it was. It takes four bytes: the last number is no id.
#[derive(Clone, Copy, PartialEq, Eq, Debug)]
pub struct Parent {
    word: u32,
}

impl Model for Parent {
    ghost use Rattle.std.specs.Prelude.{◌==◌, if◌then◌else◌, ℕ, Option, None, Some, unwrap_or};

    ghost Value = { Option ℕ };

    ghost view = { λ parent. if parent.word == 4294967295 then None else Some parent.word };

    ghost inverse = { λ id. record { word = unwrap_or id 4294967295 } };
}

impl Parent {
    /// None.
    pub const NONE: Parent = Parent { word: u32::MAX };

    /// This capability, or none. The last number is none too.
    pub fn new(id: Option<u32>) -> Parent
        ensures same { IfSome id (λ n. n < 4294967295) → result ≡ id }
        ensures last_is_none { id ≡ Some 4294967295 → result ≡ None }
    {
        Parent {
            word: id.unwrap_or(u32::MAX),
        }
    }

    /// Its id, if there is one.
    pub fn id(self) -> Option<u32>
        ensures { result ≡ self }
    {
        if self.word == u32::MAX {
            None
        } else {
            Some(self.word)
        }
    }
}

/// A capability.
#[derive(Clone, Copy, PartialEq, Eq, Debug)]
pub struct Cap {
    /// Its number, which no other capability ever has.
    pub id: u32,
    /// The endpoint whose packets it is about.
    pub endpoint: u16,
    /// The domain that holds it.
    pub holder: u16,
    /// What the holder may do.
    pub rights: Rights,
    /// The capability that it was minted from, if it was.
    pub parent: Parent,
}

/// Why an operation on capabilities is refused.
#[derive(Clone, Copy, PartialEq, Eq, Debug, Drop, Error)]
pub enum CapFault {
    /// No capability of that id is held.
    #[error("no capability of that id is held")]
    NoCap,
    /// Another domain holds it.
    #[error("another domain holds the capability")]
    NotHolder,
    /// It lacks the right that is asked for.
    #[error("the capability lacks the right")]
    NoRight,
    /// The rights asked for are not within its own.
    #[error("the rights are not within those of the capability")]
    RightsExceed,
    /// A capability of that endpoint is held.
    #[error("a capability of that endpoint is held")]
    EndpointTaken,
    /// As many capabilities are held as may be.
    #[error("as many capabilities are held as may be")]
    CapsFull,
    /// As many capabilities count for the domain as may.
    #[error("as many capabilities count for the domain as may")]
    DomainFull,
    /// The last id has been given out.
    #[error("the last id of a capability has been given out")]
    IdsSpent,
    /// There was no memory.
    #[error("out of memory")]
    NoMemory,
}
