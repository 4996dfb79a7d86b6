//! A device that a pointer owns.

ghost use Rattle.std.specs.Prelude.{◌≡◌, Some, None, Option};
ghost use Rattle.std.specs.Global.{Global};
ghost use Rattle.bafokun.specs.declared.held.Held.{Held};
ghost use Rattle.bafokun.specs.Seals.{seal_coded, seal_owns};

use crate::held::Held;
use crate::parts::Parts;
use std::alloc::Global;
use std::marker::Model;
use std::ptr::null_mut;

/// A box of a device as a pointer of a type that C has, or null. Dropping it frees nothing.
#[repr(C)]
#[derive(Drop)]
pub struct Seal {
    at: *mut u8,
    ghost alloc: { Global },
    pub ghost value: { Option Held } by { seal_coded },
}

impl Model for Seal {
    ghost also_owns = { λ s. seal_owns s.alloc s.at s.value };
}

impl Seal {
    ghost use Rattle.std.specs.Borrow.{sem};
    ghost use Rattle.bafokun.specs.Lent.{LendsHeld};

    /// The seal of a box.
    pub(crate) fn of_parts(parts: Parts<Held, Global>) -> Seal
        ensures { result.value ≡ Some parts.value }
    {
        let Parts { ptr, alloc: _ } = parts;
        Seal { at: ptr as *mut u8 }
    }

    /// The box again. There has to be one.
    pub(crate) fn into_parts(self, alloc: Global) -> Parts<Held, Global>
        requires { self.value ≡ None → ⊥ }
        ensures { Some result.value ≡ self.value }
    {
        let Seal { at } = self;
        Parts {
            ptr: at as *mut Held,
            alloc,
        }
    }

    /// The seal of no box: null.
    pub(crate) fn none(alloc: Global) -> Seal
        ensures { result.value ≡ None }
    {
        let _ = alloc;
        Seal { at: null_mut() }
    }

    /// The device, where it is. There has to be one.
    #[inline(always)]
    pub(crate) fn held_mut(&mut self) -> &mut Held
        requires { self.old.value ≡ None → ⊥ }
        ensures* writes_back { sem 𝓛 (LendsHeld self.entry result) }
        ensures value { self.old.value ≡ Some result.now }
    {
        unsafe { &mut *(self.at as *mut Held) }
    }
}
