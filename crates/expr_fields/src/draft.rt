//! Conditions that are being written.

ghost use Rattle.std.specs.Prelude.{◌≡◌, ◌++◌, ◌∷◌, [], OnOk};
ghost use Rattle.expr_meaning.specs.Questions as spec;
ghost use Rattle.expr_fields.specs.Parts.{parts_of};

use bpf_insn::{Size, Test};
use filter_cond::{Check, Cond, Load, Part};
use std::alloc::{AllocFailed, Global};

/// The number of a byte.
pub(crate) fn byte(at: u32) -> Load
    ensures { result ≡ spec.byte at }
{
    Load::At {
        size: Size::Byte,
        at,
    }
}

/// The number of two bytes.
pub(crate) fn half(at: u32) -> Load
    ensures { result ≡ spec.half at }
{
    Load::At {
        size: Size::Half,
        at,
    }
}

/// The number of four bytes.
pub(crate) fn word(at: u32) -> Load
    ensures { result ≡ spec.word at }
{
    Load::At {
        size: Size::Word,
        at,
    }
}

/// The parts of a condition so far.
#[derive(Drop)]
pub struct Draft {
    pub parts: Vec<Part>,
}

impl Draft {
    pub fn new(alloc: Global) -> Draft
        ensures { result.parts.items ≡ [] }
    {
        Draft {
            parts: Vec::new(alloc),
        }
    }

    /// The condition whose parts these are; it has no calculations.
    pub fn finish(self, alloc: Global) -> Cond
        ensures calculations { result.calculations.items ≡ [] }
        ensures parts { result.parts.items ≡ self.parts.items }
    {
        let Draft { parts } = self;
        Cond {
            calculations: Vec::new(alloc),
            parts,
        }
    }

    pub fn push(&mut self, part: Part) -> Result<(), AllocFailed<Part>>
        ensures { OnOk result (self.new.parts.items ≡ self.old.parts.items ++ part ∷ []) }
    {
        self.parts.push(part)
    }

    pub fn is(&mut self, load: Load, value: u32) -> Result<(), AllocFailed<Part>>
        ensures { OnOk result (self.new.parts.items ≡ self.old.parts.items ++ parts_of (spec.is load value)) }
    {
        self.push(Part::Is(Check {
            load,
            mask: None,
            test: Test::Equal,
            value,
        }))
    }

    pub fn either(&mut self, load: Load, first: u32, second: u32) -> Result<(), AllocFailed<Part>>
        ensures { OnOk result (self.new.parts.items ≡ self.old.parts.items ++ parts_of (spec.either load first second)) }
    {
        self.is(load, first)?;
        self.is(load, second)?;
        self.push(Part::Or)
    }

    pub fn at_least(&mut self, load: Load, value: u32) -> Result<(), AllocFailed<Part>>
        ensures { OnOk result (self.new.parts.items ≡ self.old.parts.items ++ parts_of (spec.at_least load value)) }
    {
        self.push(Part::Is(Check {
            load,
            mask: None,
            test: Test::GreaterOrEqual,
            value,
        }))
    }

    pub fn at_most(&mut self, load: Load, value: u32) -> Result<(), AllocFailed<Part>>
        ensures { OnOk result (self.new.parts.items ≡ self.old.parts.items ++ parts_of (spec.at_most load value)) }
    {
        self.push(Part::Is(Check {
            load,
            mask: None,
            test: Test::Greater,
            value,
        }))?;
        self.push(Part::Not)
    }

    /// The bits of the mask are those of the value.
    pub fn bits(&mut self, load: Load, mask: u32, value: u32) -> Result<(), AllocFailed<Part>>
        ensures { OnOk result (self.new.parts.items ≡ self.old.parts.items ++ parts_of (spec.bits load mask value)) }
    {
        self.push(Part::Is(Check {
            load,
            mask: Some(mask),
            test: Test::Equal,
            value,
        }))
    }
}
