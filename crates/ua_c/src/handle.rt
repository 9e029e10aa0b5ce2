//! What C holds: a box, as its pointer.

ghost use Rattle.std.specs.Prelude.{◌≡◌, Some, None, MatchOption};
ghost use Rattle.std.specs.Coded.{coded_option};
ghost use Rattle.std.specs.declared.option.Option.{Option as Maybe};
ghost use Rattle.ua_c.specs.contracts.holding.Holding.{the_row as holding_row};
ghost use Rattle.ua_c.specs.declared.holding.Holding.{Holding as Held};

use crate::holding::Holding;
use crate::loose::Loose;
use std::alloc::Global;
use std::marker::Model;
use std::ptr::null_mut;

/// A handle: for C a struct of one pointer that C never reads, null if nothing is held.
#[repr(C)]
pub struct UaHandle {
    at: *mut u8,
    alloc: Global,
    ghost value: { Maybe Held } by { coded_option holding_row.coded },
}

impl Model for UaHandle {
    ghost use Rattle.std.specs.contracts.impls.GlobalAllocator.TheImpl.{ghosts as heap};
    ghost use Rattle.ua_c.specs.contracts.holding.Holding.{the_row as holding_row};
    ghost use Rattle.ua_c.specs.Held.{held};

    ghost also_owns = { λ h. held (heap.dealloc_token h.alloc) holding_row h.at h.value };
}

/// The handle of nodes, for C a type of its own.
pub type UaNodes = UaHandle;

/// The handle of a connection, for C a type of its own.
pub type UaConnection = UaHandle;

impl UaHandle {
    fn empty(alloc: Global) -> UaHandle
        ensures { result.value ≡ None }
    {
        UaHandle {
            at: null_mut(),
            alloc,
        }
    }

    fn seal(loose: Loose<Holding, Global>) -> UaHandle
        ensures { result.value ≡ Some loose.value }
    {
        let Loose { at, alloc } = loose;
        UaHandle {
            at: at as *mut u8,
            alloc,
        }
    }

    fn unseal(self) -> Option<Loose<Holding, Global>>
        ensures { MatchOption result (self.value ≡ None) (λ loose. self.value ≡ Some loose.value) }
    {
        let UaHandle { at, alloc } = self;
        if at.is_null() {
            None
        } else {
            Some(Loose {
                at: at as *mut Holding,
                alloc,
            })
        }
    }

    /// The handle of a box.
    pub(crate) fn of(value: Box<Holding>) -> UaHandle
        ensures { result.value ≡ Some value.value }
    {
        UaHandle::seal(Loose::of(value))
    }

    fn into_box(self) -> Option<Box<Holding>>
        ensures { MatchOption result (self.value ≡ None) (λ b. self.value ≡ Some b.value) }
    {
        match self.unseal() {
            Some(loose) => Some(loose.into_box()),
            None => None,
        }
    }

    /// Takes what is held out of the handle.
    pub(crate) fn take(&mut self, alloc: Global) -> Option<Box<Holding>>
        ensures taken { MatchOption result (self.old.value ≡ None) (λ b. self.old.value ≡ Some b.value) }
        ensures left { self.new.value ≡ None }
    {
        std::mem::replace(self, UaHandle::empty(alloc)).into_box()
    }
}

impl Drop for UaHandle {
    fn drop(self) {
        drop(self.into_box())
    }
}

/// Drops what a handle holds, which then holds nothing.
#[unsafe(no_mangle)]
pub extern "C" fn ua_free(alloc: Global, h: &mut UaHandle)
    ensures { h.new.value ≡ None }
{
    drop(h.take(alloc))
}
