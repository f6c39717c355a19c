//! The pointer of a handle, as a caller in C keeps it.
ghost use Rattle.std.specs.Prelude.{◌≡◌, true, false, Bool};
ghost use Rattle.ist_handles.specs.declared.held.Held.{Held as Kept};

use crate::held::Held;
use crate::raw_boxes::RawBox;
use std::alloc::Global;
use std::marker::Model;
use std::ptr::null_mut;

/// The pointer of a box, or null. Its type names nothing of the tree, since a caller in C knows none of that.
///
/// Contracts see whether there is a box, and the value in it.
#[repr(C)]
#[derive(Drop)]
pub struct Opaque {
    at: *mut u8,
    alloc: Global,
    pub ghost full: { Bool },
    pub ghost value: { Kept },
}

impl Model for Opaque {
    ghost use Rattle.std.specs.contracts.impls.GlobalAllocator.TheImpl.{ghosts};
    ghost use Rattle.ist_handles.specs.contracts.held.Held.{the_row};
    ghost use Rattle.ist_handles.specs.Owning.{held_if};

    ghost also_owns = { λ o. held_if (ghosts.dealloc_token o.alloc) the_row o.full o.at o.value };
}

impl Opaque {
    pub(crate) fn empty(alloc: Global) -> Opaque
        ensures { result.full ≡ false }
    {
        Opaque {
            at: null_mut(),
            alloc,
        }
    }

    pub(crate) fn of(raw: RawBox<Held, Global>) -> Opaque
        ensures { (result.full ≡ true) × (result.value ≡ raw.value) }
    {
        let RawBox { at, alloc } = raw;
        Opaque {
            at: at as *mut u8,
            alloc,
        }
    }

    pub(crate) fn into_raw_box(self) -> RawBox<Held, Global>
        requires { self.full ≡ true }
        ensures { result.value ≡ self.value }
    {
        let Opaque { at, alloc } = self;
        RawBox {
            at: at as *mut Held,
            alloc,
        }
    }
}

// The value in the box can be sent to another thread, and so can the right to free the box.
unsafe impl Send for Opaque {}
