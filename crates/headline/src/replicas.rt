//! The replicas of a machine's cores.

ghost use Rattle.std.specs.Prelude.{◌≡◌, slice_get};
ghost use Rattle.std.specs.Option.{option_copied};
ghost use Rattle.headline.specs.Shown.{replicas_of_cores};

use core_loop::{Core, RingLinks};
use std::marker::Model;
use table_replica::Replica;
use world_core::World;

/// What has the replicas of a machine.
#[derive(Drop)]
pub(crate) enum Holder {
    /// All cores as one value.
    World(World),
    /// Each core by itself.
    Cores(Vec<Core<RingLinks>>),
}

/// The replicas of a machine's cores, in the order of the cores, core 0's first.
pub struct Replicas {
    pub(crate) holder: Holder,
}

// By hand, so that the proofs of its owners have one call and not a drop of each part.
impl Drop for Replicas {
    fn drop(self) {
        let Replicas { holder: _ } = self;
    }
}

impl Model for Replicas {
    ghost use Rattle.std.specs.Prelude.{List};
    ghost use Rattle.table_replica.specs.Shown.{ReplicaState};
    ghost use Rattle.headline.specs.Shown.{replicas_of_holder};

    ghost Value = { List ReplicaState };

    ghost view = { λ r. replicas_of_holder r.holder };
}

impl Replicas {
    /// The replica of a core, if there is such a core.
    pub fn get(&self, core: u16) -> Option<&Replica>
        ensures { option_copied result ≡ slice_get self.now core }
    {
        match &self.holder {
            Holder::World(world) => world.replica(core),
            Holder::Cores(cores) => replica_at(cores, core),
        }
    }
}

/// The replica of the core in this place.
fn replica_at(cores: &[Core<RingLinks>], core: u16) -> Option<&Replica>
    ensures { option_copied result ≡ slice_get (replicas_of_cores cores.now) core }
{
    Some(cores.get(usize::from(core))?.replica())
}
