//! The name of a machine, which tells its cores from those of others.

ghost use Rattle.std.specs.Prelude.{◌≡◌, map};
ghost use Rattle.mkdemux_cores.specs.Booting.{cores_of};
ghost use Rattle.mkdemux_cores.specs.Naming.{named};

use crate::handle::CoreHandle;
use std::alloc::Global;

/// Gives the machine of these cores a name. The cores of one machine get one name, and no other machine that is open has it.
#[unsafe(no_mangle)]
pub extern "C" fn mkdemux_name_cores(alloc: Global, cores: &mut [CoreHandle], name: u64)
    ensures { cores_of cores.new ≡ map (named name) (cores_of cores.old) }
{
    name_all(alloc, cores, name);
}

/// Gives each of these cores the name of its machine.
fn name_all(alloc: Global, cores: &mut [CoreHandle], name: u64)
    ensures { cores_of cores.new ≡ map (named name) (cores_of cores.old) }
{
    let Some((core, rest)) = cores.split_first_mut() else {
        return;
    };
    name_one(alloc, core, name);
    name_all(alloc, rest, name);
}

/// Gives a core the name of its machine, if it is open.
fn name_one(alloc: Global, core: &mut CoreHandle, name: u64)
    ensures { core.new.core ≡ named name core.old.core }
{
    let Some(mut open) = core.take(alloc) else {
        return;
    };
    open.name_machine(name);
    core.put(open);
}
