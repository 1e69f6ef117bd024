// What a handle of C leads to.
ghost use Rattle.std.specs.Prelude.{◌≡◌, Some, None, Option, IsSome};
ghost use Rattle.eb_c.specs.declared.held.Held.{Held};
ghost use Rattle.eb_c.specs.Sealing.{held_coded, sealed_owns};

use crate::held::Held;
use crate::parts::Parts;
use std::alloc::Global;
use std::marker::Model;
use std::ptr;

/// A box of what is held, whose type names nothing that can't cross to C; or nothing.
#[repr(C)]
#[derive(Drop)]
pub struct Sealed {
    at: *mut u8,
    alloc: Global,
    pub ghost held: { Option Held } by { held_coded },
}

impl Model for Sealed {
    ghost also_owns = { λ s. sealed_owns s.alloc s.at s.held };
}

impl Sealed {
    // A seal of nothing.
    pub(crate) fn empty(alloc: Global) -> Sealed
        ensures { result.held ≡ None }
    {
        Sealed {
            at: ptr::null_mut(),
            alloc,
        }
    }

    // A seal of what these parts own.
    pub(crate) fn of_parts(parts: Parts<Held, Global>) -> Sealed
        ensures { result.held ≡ Some parts.value }
    {
        let Parts { ptr, alloc } = parts;
        Sealed {
            at: ptr as *mut u8,
            alloc,
        }
    }

    // The parts of what the seal owns.
    pub(crate) fn into_parts(self) -> Parts<Held, Global>
        requires { IsSome self.held }
        ensures { self.held ≡ Some result.value }
    {
        let Sealed { at, alloc } = self;
        Parts {
            ptr: at as *mut Held,
            alloc,
        }
    }
}

unsafe impl Send for Sealed {}
