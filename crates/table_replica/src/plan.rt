//! What a staged operation will do.
ghost use Rattle.std.specs.Prelude.{◌≡◌, IfOk};
ghost use Rattle.table_replica.specs.Plans.{change_of, caps_after, IsReady};

use crate::shares::NewShare;
use crate::{Made, Op};
use endpoint_caps::{CapLimits, Caps, Rights};
use std::alloc::AllocError;
use std::snapshot::Snapshot;

/// What an operation does to the capabilities.
#[derive(Clone, Copy, Drop)]
pub(crate) enum CapChange {
    Nothing,
    Create {
        domain: u16,
        endpoint: u16,
    },
    Mint {
        domain: u16,
        cap: u32,
        to: u16,
        rights: Rights,
    },
    Revoke {
        cap: u32,
    },
    DropCap {
        cap: u32,
    },
}

/// What a staged operation will do to the table. What it does to the filters is planned with these.
#[derive(Drop)]
pub(crate) struct Plan {
    pub(crate) caps: CapChange,
    /// Of the domain whose filters it changes, if it changes any.
    pub(crate) share: Option<NewShare>,
    /// The instructions of all filters after it.
    pub(crate) instructions: u32,
    pub(crate) next_filter: u32,
    pub(crate) made: Made,
    pub(crate) op: Snapshot<Op>,
}

/// Makes the capabilities ready for an operation within the limits. They stay, whatever the result.
pub(crate) fn prepare_caps(
    caps: &mut Caps,
    limits: CapLimits,
    op: &Op,
) -> Result<CapChange, AllocError>
    ensures table { caps.new.table ≡ caps.old.table }
    ensures change { IfOk result (λ change. change ≡ change_of op.now) }
    ensures ready { IfOk result (λ change. IsReady caps.new change) }
{
    match op {
        Op::Create { domain, endpoint } => prepare_create(caps, limits, *domain, *endpoint),
        Op::Mint {
            domain,
            cap,
            to,
            rights,
        } => prepare_mint(caps, limits, *domain, *cap, *to, *rights),
        Op::Revoke { cap, .. } => Ok(CapChange::Revoke { cap: *cap }),
        Op::DropCap { cap, .. } => Ok(CapChange::DropCap { cap: *cap }),
        Op::Install { .. } | Op::Remove { .. } | Op::Replace { .. } => Ok(CapChange::Nothing),
    }
}

fn prepare_create(
    caps: &mut Caps,
    limits: CapLimits,
    domain: u16,
    endpoint: u16,
) -> Result<CapChange, AllocError>
    ensures table { caps.new.table ≡ caps.old.table }
    ensures change { IfOk result (λ change. change ≡ CapChange.Create domain endpoint) }
    ensures ready { IfOk result (λ change. IsReady caps.new change) }
{
    match caps.prepare_create(limits, domain, endpoint) {
        Ok(()) => Ok(CapChange::Create { domain, endpoint }),
        Err(_) => Err(AllocError),
    }
}

fn prepare_mint(
    caps: &mut Caps,
    limits: CapLimits,
    domain: u16,
    cap: u32,
    to: u16,
    rights: Rights,
) -> Result<CapChange, AllocError>
    ensures table { caps.new.table ≡ caps.old.table }
    ensures change { IfOk result (λ change. change ≡ CapChange.Mint domain cap to rights) }
    ensures ready { IfOk result (λ change. IsReady caps.new change) }
{
    match caps.prepare_mint(limits, domain, cap, rights) {
        Ok(()) => Ok(CapChange::Mint {
            domain,
            cap,
            to,
            rights,
        }),
        Err(_) => Err(AllocError),
    }
}

/// Changes the capabilities, which are ready for it. Takes no memory.
pub(crate) fn change_caps(caps: &mut Caps, change: CapChange)
    requires { IsReady caps.old change }
    ensures { caps.new.table ≡ caps_after caps.old.table change }
{
    match change {
        CapChange::Nothing => {}
        CapChange::Create { domain, endpoint } => {
            caps.perform_create(domain, endpoint);
        }
        CapChange::Mint {
            domain,
            cap,
            to,
            rights,
        } => {
            caps.perform_mint(domain, cap, to, rights);
        }
        CapChange::Revoke { cap } => caps.perform_revoke(cap),
        CapChange::DropCap { cap } => caps.perform_drop(cap),
    }
}
