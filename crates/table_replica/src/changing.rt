//! What an operation does to the filters.
ghost use Rattle.std.specs.Prelude.{◌≡◌, ◌==◌, ◌||◌, ℕ, None, is_some, IfOk, OnOk, OnErr};
ghost use Rattle.endpoint_caps.specs.Capabilities.{cap_at, revoked, dropped, is_under};
ghost use Rattle.chunked.specs.Maps.{value_at};
ghost use Rattle.filter_table.specs.Tables.{endpoint_of, program_of};
ghost use Rattle.installed_filters.specs.Installed.{AreHeldBy};
ghost use Rattle.table_replica.specs.Changing.{IsNext, MayChange, StandUnder};

use crate::Op;
use crate::boxed::BoxedFilters;
use chunked::Sorted;
use endpoint_caps::Caps;
use filter_verify::Verified;
use std::alloc::{AllocError, Global};

/// Plans what an operation does to the filters under these capabilities; `id` is that of the next filter. The filters stay, whatever
/// the result.
pub(crate) fn prepare_filters(
    alloc: Global,
    filters: &mut BoxedFilters,
    caps: &Caps,
    id: u32,
    op: &Op,
    program: Option<Verified>,
) -> Result<(), AllocError>
    requires free { filters.old.next ≡ None }
    requires held { AreHeldBy caps.now.table.held filters.old.now }
    requires program { program ≡ program_of op.now }
    requires may { MayChange id filters.old.now op.now }
    ensures now { filters.new.now ≡ filters.old.now }
    ensures planned { OnOk result (IsNext caps.now.table id filters.old.now op.now filters.new.next) }
    ensures free { OnErr result (filters.new.next ≡ None) }
{
    match op {
        Op::Create { .. } | Op::Mint { .. } => Ok(()),
        Op::Revoke { cap, .. } => prepare_revoke(alloc, filters, caps, *cap),
        Op::DropCap { cap, .. } => prepare_drop(alloc, filters, caps, *cap),
        Op::Install { domain, cap, .. } => match program {
            Some(program) => {
                let endpoint = endpoint_of(caps, *cap);
                filters.prepare_install(alloc, id, *domain, *cap, endpoint, &program)
            }
            None => unreachable!(),
        },
        Op::Remove { filter, .. } => filters.prepare_remove(alloc, *filter),
        Op::Replace { filter, .. } => match program {
            Some(program) => filters.prepare_replace(alloc, *filter, &program),
            None => unreachable!(),
        },
    }
}

/// The endpoint of a capability; 0 where it isn't held.
fn endpoint_of(caps: &Caps, cap: u32) -> u16
    ensures { result ≡ endpoint_of (cap_at caps.now.table.held cap) }
{
    match caps.get(cap) {
        Some(cap) => cap.endpoint,
        None => 0,
    }
}

/// Plans that the capabilities that were minted from one are not held any more.
#[inline(never)]
fn prepare_revoke(
    alloc: Global,
    filters: &mut BoxedFilters,
    caps: &Caps,
    cap: u32,
) -> Result<(), AllocError>
    requires free { filters.old.next ≡ None }
    requires held { AreHeldBy caps.now.table.held filters.old.now }
    ensures now { filters.new.now ≡ filters.old.now }
    ensures planned { OnOk result (StandUnder (revoked caps.now.table cap).held filters.old.now filters.new.next) }
    ensures free { OnErr result (filters.new.next ≡ None) }
{
    let gone = revoked_with(alloc, caps, cap)?;
    filters.prepare_lapse(alloc, &gone)
}

/// The same of these and the one.
#[inline(never)]
fn prepare_drop(
    alloc: Global,
    filters: &mut BoxedFilters,
    caps: &Caps,
    cap: u32,
) -> Result<(), AllocError>
    requires free { filters.old.next ≡ None }
    requires held { AreHeldBy caps.now.table.held filters.old.now }
    ensures now { filters.new.now ≡ filters.old.now }
    ensures planned { OnOk result (StandUnder (dropped caps.now.table cap).held filters.old.now filters.new.next) }
    ensures free { OnErr result (filters.new.next ≡ None) }
{
    let gone = dropped_with(alloc, caps, cap)?;
    filters.prepare_lapse(alloc, &gone)
}

/// The ids of the capabilities that were minted from one.
// Not in line: what it needs of the stack is free again before the filters are planned.
#[inline(never)]
fn revoked_with(alloc: Global, caps: &Caps, cap: u32) -> Result<Sorted<()>, AllocError>
    ensures { IfOk result (λ ids. (id : ℕ) → is_some (value_at ids.entries id) ≡ is_under caps.now.table.held cap id) }
{
    caps.revoked_ids(alloc, cap)
}

/// The same of these and the one.
#[inline(never)]
fn dropped_with(alloc: Global, caps: &Caps, cap: u32) -> Result<Sorted<()>, AllocError>
    ensures { IfOk result (λ ids. (id : ℕ) → is_some (value_at ids.entries id) ≡ ((id == cap) || is_under caps.now.table.held cap id)) }
{
    caps.dropped_ids(alloc, cap)
}
