//! What is used again from packet to packet.
ghost use Rattle.std.specs.Prelude.{◌≡◌, [], OnOk};
ghost use Rattle.installed_filters.specs.Receiving.{kept_by};

use filter_group::Lists;
use filter_table::Kept;
use std::alloc::{AllocError, Global};

/// The endpoints that get a packet. Most packets have one or none: these are told with no list, so that they stay in registers.
#[derive(Clone, Copy)]
pub enum Receivers {
    Nobody,
    One(Kept),
    /// Those that the workspace has.
    Listed,
}

/// Lists that are used again from packet to packet, so that a receipt takes no memory once they are long enough.
pub struct Workspace {
    pub(crate) lists: Lists,
    /// The verdict of each number, where a packet reaches most of the table.
    pub(crate) verdicts: Vec<u32>,
    /// Each endpoint that a packet reaches, with a verdict, where these are neither few nor most of the table.
    pub(crate) raises: Vec<Kept>,
    /// The endpoints that get the packet, once it is received and they are listed.
    pub kept: Vec<Kept>,
}

// By hand, so that the proofs of its owners have one call and not a drop of each part.
impl Drop for Workspace {
    fn drop(self) {
        let Workspace {
            lists: _,
            verdicts: _,
            raises: _,
            kept: _,
        } = self;
    }
}

impl Workspace {
    /// Empty lists. Takes no memory.
    pub fn new(alloc: Global) -> Workspace
        ensures { result.kept.items ≡ [] }
    {
        Workspace {
            lists: Lists::new(alloc),
            verdicts: Vec::new(alloc),
            raises: Vec::new(alloc),
            kept: Vec::new(alloc),
        }
    }

    /// Puts the endpoints that were told of a packet into the list. Takes memory only where the list was never as long.
    pub fn list(&mut self, found: Receivers) -> Result<(), AllocError>
        ensures { OnOk result (self.new.kept.items ≡ kept_by found self.old.kept.items) }
    {
        match found {
            Receivers::Nobody => self.kept.clear(),
            Receivers::One(kept) => {
                self.kept.clear();
                self.kept.push(kept)?;
            }
            Receivers::Listed => {}
        }
        Ok(())
    }

    /// The endpoints that get the packet.
    pub fn into_kept(self) -> Vec<Kept>
        ensures { result.items ≡ self.kept.items }
    {
        let Workspace {
            lists: _,
            verdicts: _,
            raises: _,
            kept,
        } = self;
        kept
    }
}
