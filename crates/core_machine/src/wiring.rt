//! The rings between core 0 and each other core.

ghost use Rattle.std.specs.Prelude.{◌≡◌, ◌≢◌, ◌<◌, ◌≤◌, ℕ, suc, None, IfOk};
ghost use Rattle.core_links.specs.RingSlots.{own_of, places_of, link_to, ring_view, AreJoinedLinks};
ghost use Rattle.core_links.specs.Flows.{HoldLines};
ghost use Rattle.core_loop.specs.Standing.{IsSilent};
ghost use Rattle.core_machine.specs.Wiring.{AreSilent, IsWiring};

use core_loop::RingLinks;
use std::alloc::{AllocError, Global};
use ump_ring::ring;

/// The lines of a ring.
const RING_LINES: usize = 64;

/// The links of another core, joined to those of core 0 by two rings.
fn join_peer(
    alloc: Global,
    first: &mut RingLinks,
    peer: u16,
    cores: u16,
) -> Result<RingLinks, AllocError>
    requires peer { (0 < peer) × (peer < cores) }
    requires first { (own_of first.old ≡ 0) × (places_of first.old ≡ cores) }
    requires once { link_to first.old peer ≡ None }
    ensures place { (own_of first.new ≡ own_of first.old) × (places_of first.new ≡ places_of first.old) }
    ensures others { (p : ℕ) → p ≢ peer → link_to first.new p ≡ link_to first.old p }
    ensures silent { IfOk result (λ links. IsSilent (ring_view first.new peer) × AreSilent links) }
    ensures joined { IfOk result (λ links. (own_of links ≡ peer) × AreJoinedLinks first.new links) }
    ensures holds { IfOk result (λ links. HoldLines first.new links) }
    ensures no_other { IfOk result (λ links. (entry : ℕ) → link_to links (suc entry) ≡ None) }
{
    let (to_peer, from_first) = ring(alloc, RING_LINES)?;
    let (to_first, from_peer) = ring(alloc, RING_LINES)?;
    // Core 0 is its one peer.
    let mut links = RingLinks::new(alloc, peer, 1)?;
    let (bell, its_bell) = (first.bell()?, links.bell()?);
    first.join(peer, to_peer, from_peer, its_bell);
    links.join(0, to_first, from_first, bell);
    Ok(links)
}

/// The links of so many cores, in the order of their numbers: core 0 and each other core are joined by two rings.
// Not in line: what it needs of the stack is free again before the cores are made.
#[inline(never)]
pub(crate) fn wire(alloc: Global, cores: u16) -> Result<Vec<RingLinks>, AllocError>
    requires { 0 < cores }
    ensures { IfOk result (λ links. IsWiring cores links.items) }
{
    let mut first = RingLinks::new(alloc, 0, cores)?;
    let mut links = Vec::with_capacity(alloc, usize::from(cores))?;
    for peer in 1..cores {
        links.push(join_peer(alloc, &mut first, peer, cores)?)?;
    }
    links.insert(0, first)?;
    Ok(links)
}
