//! The limits of a machine.
ghost use Rattle.std.specs.Prelude.{◌≡◌, ◌<◌, ◌≤◌, ◌⊎◌, MatchOption};
ghost use Rattle.endpoint_caps.specs.declared.limits.TheConstants.{MOST_LISTED};

use endpoint_caps::{CapLimits, MOST_LISTED};
use std::marker::Model;

/// How much a machine may list, of all domains together and of each. Every core has the same limits from boot on.
#[derive(Clone, Copy, PartialEq, Eq, Debug)]
pub struct Limits {
    caps: CapLimits,
    filters: u32,
    domain_filters: u32,
    domain_insns: u32,
}

impl Model for Limits {
    ghost use Rattle.std.specs.Prelude.{◌≤◌};
    ghost use Rattle.endpoint_caps.specs.declared.limits.TheConstants.{MOST_LISTED};
    ghost use Rattle.filter_table.specs.Limits.{TableLimits};

    ghost Value = { TableLimits };

    ghost view = { λ a. record { caps = a.caps; filters = a.filters; domain_filters = a.domain_filters; domain_insns = a.domain_insns } };

    ghost inverse = { λ limits. record { caps = limits.caps; filters = limits.filters; domain_filters = limits.domain_filters; domain_insns = limits.domain_insns } };

    ghost invariant = { λ a. (1 ≤ a.domain_filters) × (a.domain_filters ≤ a.filters) × (a.filters ≤ MOST_LISTED) };
}

impl Limits {
    /// 1,024 capabilities and 1,024 filters, all of which one domain may have. A domain's instructions have no limit but each
    /// core's budget.
    pub const DEFAULT: Limits = Limits {
        caps: CapLimits::DEFAULT,
        filters: 1024,
        domain_filters: 1024,
        domain_insns: u32::MAX,
    };

    /// At most `filters` filters, of which one domain may own `domain_filters`, with `domain_insns` instructions together. None
    /// where `filters` is above `MOST_LISTED`, or `domain_filters` is 0 or above `filters`.
    pub fn new(
        caps: CapLimits,
        filters: u32,
        domain_filters: u32,
        domain_insns: u32,
    ) -> Option<Limits>
        ensures { MatchOption result ((MOST_LISTED < filters) ⊎ (domain_filters ≡ 0) ⊎ (filters < domain_filters)) (λ limits. limits ≡ record { caps = caps; filters = filters; domain_filters = domain_filters; domain_insns = domain_insns }) }
    {
        if filters > MOST_LISTED || domain_filters == 0 || domain_filters > filters {
            return None;
        }
        Some(Limits {
            caps,
            filters,
            domain_filters,
            domain_insns,
        })
    }

    /// How many capabilities may be held.
    pub fn caps(self) -> CapLimits
        ensures { result ≡ self.caps }
    {
        self.caps
    }

    /// How many filters may be listed.
    pub fn filters(self) -> u32
        ensures is { result ≡ self.filters }
        ensures most { result ≤ MOST_LISTED }
    {
        self.filters
    }

    /// How many of them may be owned by one domain.
    pub fn domain_filters(self) -> u32
        ensures is { result ≡ self.domain_filters }
        ensures total { result ≤ self.filters }
    {
        self.domain_filters
    }

    /// How many instructions the filters of one domain may have together.
    pub fn domain_insns(self) -> u32
        ensures { result ≡ self.domain_insns }
    {
        self.domain_insns
    }
}
