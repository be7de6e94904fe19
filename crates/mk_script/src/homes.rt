//! The cores at which the requests of domains enter.

ghost use Rattle.std.specs.Prelude.{◌≡◌, ◌==◌, ℕ, if◌then◌else◌, OnOk};

use std::alloc::{AllocError, Global};
use std::collections::BTreeMap;

/// The domains that have a home core, and the core of each. Another domain's is core 0.
#[derive(Drop)]
pub(crate) struct Homes {
    cores: BTreeMap<u16, u16>,
}

impl Homes {
    ghost use Rattle.mk_script.specs.Homes.{home_in};

    pub(crate) fn new(alloc: Global) -> Self
        ensures { (domain : ℕ) → home_in result domain ≡ 0 }
    {
        Homes {
            cores: BTreeMap::new(alloc),
        }
    }

    /// Gives a domain a home core.
    pub(crate) fn put(&mut self, domain: u16, core: u16) -> Result<(), AllocError>
        ensures { OnOk result ((other : ℕ) → home_in self.new other ≡ (if domain == other then core else home_in self.old other)) }
    {
        self.cores.insert(domain, core)?;
        Ok(())
    }

    /// The home core of a domain.
    pub(crate) fn get(&self, domain: u16) -> u16
        ensures { result ≡ home_in self.now domain }
    {
        self.cores.get(&domain).copied().unwrap_or(0)
    }
}
