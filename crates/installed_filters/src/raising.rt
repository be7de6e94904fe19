//! Lists of what endpoints keep of a packet, in order of endpoint.
ghost use Rattle.std.specs.Prelude.{◌≡◌, ◌+◌, ◌<◌, ◌≤◌, ℕ, IsTrue, Some, length, slice_get, take, OnOk, MatchOption};
ghost use Rattle.std.specs.List.{All};
ghost use Rattle.filter_table.specs.Tables.{IsIncreasing};
ghost use Rattle.filter_table.specs.declared.delivery.Kept.{Kept as GhostKept};
ghost use Rattle.filter_table.specs.Raising.{at_endpoint, raised};

use filter_table::Kept;
use std::alloc::AllocError;

/// Sees that an endpoint keeps at least so many bytes.
pub(crate) fn raise_within(
    kept: &mut Vec<Kept>,
    endpoint: u16,
    bytes: u32,
) -> Result<(), AllocError>
    requires { IsIncreasing kept.old.items }
    ensures { OnOk result (kept.new.items ≡ raised kept.old.items endpoint bytes) }
{
    // Mostly it comes last, and none has to make room for it.
    if is_past(kept, endpoint) {
        kept.push(Kept {
            endpoint,
            kept: bytes,
        })?;
        return Ok(());
    }
    raise_inside(kept, endpoint, bytes)
}

/// The same wherever the endpoint belongs.
// Not in line, so that the loops over hits have the registers for themselves.
#[inline(never)]
fn raise_inside(kept: &mut Vec<Kept>, endpoint: u16, bytes: u32) -> Result<(), AllocError>
    requires { IsIncreasing kept.old.items }
    ensures { OnOk result (kept.new.items ≡ raised kept.old.items endpoint bytes) }
{
    let place = place_for(kept, endpoint);
    match kept_there(kept, place, endpoint) {
        Some(old) => {
            let most = old.max(bytes);
            kept[place] = Kept {
                endpoint,
                kept: most,
            };
            Ok(())
        }
        None => {
            let keeps = Kept {
                endpoint,
                kept: bytes,
            };
            kept.insert(place, keeps)?;
            Ok(())
        }
    }
}

/// Whether an endpoint comes after all of a list in order of endpoints.
fn is_past(kept: &[Kept], endpoint: u16) -> bool
    requires { IsIncreasing kept.now }
    ensures { IsTrue result → (i : ℕ) (one : GhostKept) → slice_get kept.now i ≡ Some one → one.endpoint < endpoint }
{
    if kept.is_empty() {
        return true;
    }
    kept[kept.len() - 1].endpoint < endpoint
}

/// The place of an endpoint in a list in order of endpoints.
fn place_for(kept: &[Kept], endpoint: u16) -> usize
    ensures within { result ≤ length kept.now }
    ensures below { (i : ℕ) (one : GhostKept) → i < result → slice_get kept.now i ≡ Some one → one.endpoint < endpoint }
    ensures above { (one : GhostKept) → slice_get kept.now result ≡ Some one → endpoint ≤ one.endpoint }
{
    for place in 0..kept.len() {
        if kept[place].endpoint >= endpoint {
            return place;
        }
    }
    kept.len()
}

/// How many bytes are kept at a place, if it is the endpoint's.
fn kept_there(kept: &[Kept], place: usize, endpoint: u16) -> Option<u32>
    ensures { MatchOption result ((one : GhostKept) → slice_get kept.now place ≡ Some one → one.endpoint ≡ endpoint → ⊥) (λ old. slice_get kept.now place ≡ Some (at_endpoint endpoint old)) }
{
    if place >= kept.len() {
        return None;
    }
    if kept[place].endpoint == endpoint {
        Some(kept[place].kept)
    } else {
        None
    }
}

/// Sees that an endpoint keeps at least so many bytes, where none of the first so many of a list comes after it. Gives how many
/// there are then.
pub(crate) fn raise(kept: &mut [Kept], count: usize, endpoint: u16, bytes: u32) -> usize
    requires room { count < length kept.old }
    requires increasing { IsIncreasing (take count kept.old) }
    requires last { All (λ other. other.endpoint ≤ endpoint) (take count kept.old) }
    ensures most { result ≤ count + 1 }
    ensures raised { take result kept.new ≡ raised (take count kept.old) endpoint bytes }
{
    if count > 0 {
        // Each field is read alone: a read of what was just written in parts would wait for all of them.
        if kept[count - 1].endpoint == endpoint {
            let most = kept[count - 1].kept.max(bytes);
            kept[count - 1] = Kept {
                endpoint,
                kept: most,
            };
            return count;
        }
    }
    kept[count] = Kept {
        endpoint,
        kept: bytes,
    };
    count + 1
}
