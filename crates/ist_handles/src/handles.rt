//! Handles.
ghost use Rattle.std.specs.Prelude.{◌≡◌, true, false, IfSome, IsSome, ◌↔◌};

use crate::held::Held;
use crate::opaques::Opaque;
use crate::raw_boxes::RawBox;
use std::alloc::Global;
use std::mem;

/// What a caller in C keeps. An empty one is all zeros.
#[repr(C)]
#[derive(Drop)]
pub struct Handle {
    pub full: bool,
    pub opaque: Opaque,
    pub ghost agree: { opaque.full ≡ full },
}

impl Handle {
    /// Returns an empty handle.
    pub fn empty(alloc: Global) -> Handle
        ensures empty { result.full ≡ false }
    {
        Handle {
            full: false,
            opaque: Opaque::empty(alloc),
        }
    }

    /// Returns a handle that holds the value of the box.
    pub fn of(held: Box<Held, Global>) -> Handle
        ensures full { result.full ≡ true }
        ensures value { result.opaque.value ≡ held.value }
    {
        Handle {
            full: true,
            opaque: Opaque::of(RawBox::of(held)),
        }
    }

    /// Takes out what the handle holds, and leaves it empty.
    pub fn open(&mut self, alloc: Global) -> Option<Box<Held, Global>>
        ensures empty { self.new.full ≡ false }
        ensures some { IsSome result ↔ (self.old.full ≡ true) }
        ensures value { IfSome result (λ held. held.value ≡ self.old.opaque.value) }
    {
        if !self.full {
            return None;
        }
        let Handle { full: _, opaque } = mem::replace(self, Handle::empty(alloc));
        Some(opaque.into_raw_box().into_box())
    }
}
