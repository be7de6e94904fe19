//! A core as a struct of one pointer.

ghost use Rattle.std.specs.Prelude.{Option};
ghost use Rattle.std.specs.Coded.{coded_option};
ghost use Rattle.core_machine.specs.Machines.{RingCore};
ghost use Rattle.mkdemux_cores.specs.Owning.{core_row};

use crate::loose::Loose;
use core_loop::{Core, RingLinks};
use std::alloc::Global;
use std::marker::Model;
use std::mem;

/// What a handle points to, as C sees it.
#[repr(C)]
pub struct Opaque {
    first: u8,
}

/// A core on the heap, or nothing, which is the null pointer. Who holds the struct owns the core. Dropped, it forgets a core that it
/// still has: `take` it first.
#[repr(C)]
#[derive(Drop)]
pub struct CoreHandle {
    at: *mut Opaque,
    pub ghost core: { Option RingCore } by { coded_option core_row.coded },
}

impl Model for CoreHandle {
    ghost use Rattle.mkdemux_cores.specs.Owning.{owns_some, core_row};

    ghost also_owns = { λ h. owns_some core_row h.at h.core };
}

impl CoreHandle {
    ghost use Rattle.std.specs.Prelude.{◌≡◌, Some, None, MatchOption, IsSome, IsTrue, ◌↔◌};

    /// A handle without a core.
    pub fn closed() -> CoreHandle
        ensures { result.core ≡ None }
    {
        CoreHandle {
            at: std::ptr::null_mut(),
        }
    }

    /// The core, which the handle has from now on.
    fn of(core: Loose<Core<RingLinks>, Global>) -> CoreHandle
        ensures { result.core ≡ Some core.value }
    {
        let Loose { at, alloc: _ } = core;
        CoreHandle {
            at: at as *mut Opaque,
        }
    }

    /// The core that the handle had, if it had one.
    fn into_loose(self, alloc: Global) -> Option<Loose<Core<RingLinks>, Global>>
        ensures { MatchOption result (self.core ≡ None) (λ loose. self.core ≡ Some loose.value) }
    {
        let CoreHandle { at } = self;
        if at.is_null() {
            None
        } else {
            Some(Loose {
                at: at as *mut Core<RingLinks>,
                alloc,
            })
        }
    }

    /// The core, if there is one, which the handle has no more.
    pub fn take(&mut self, alloc: Global) -> Option<Box<Core<RingLinks>>>
        ensures core { MatchOption result (self.old.core ≡ None) (λ core. self.old.core ≡ Some core.value) }
        ensures closed { self.new.core ≡ None }
    {
        let handle = mem::replace(self, CoreHandle::closed());
        match handle.into_loose(alloc) {
            Some(core) => Some(core.into_box()),
            None => None,
        }
    }

    /// The core is the handle's, which had none.
    pub fn put(&mut self, core: Box<Core<RingLinks>>)
        requires { self.old.core ≡ None }
        ensures { self.new.core ≡ Some core.value }
    {
        *self = CoreHandle::of(Loose::of(core));
    }

    /// Whether the handle has a core.
    pub fn is_open(&mut self, alloc: Global) -> bool
        ensures open { IsTrue result ↔ IsSome self.old.core }
        ensures same { self.new.core ≡ self.old.core }
    {
        match self.take(alloc) {
            Some(core) => {
                self.put(core);
                true
            }
            None => false,
        }
    }
}

unsafe impl Send for CoreHandle {}
