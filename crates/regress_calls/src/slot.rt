//! What a caller in C holds of the library.
ghost use Rattle.std.specs.Prelude.{◌≡◌, Option, None, Some, option_map};
ghost use Rattle.regress_calls.specs.Slots.{slot_owns};
ghost use Rattle.std.specs.Coded.{coded_option};
ghost use Rattle.regress_calls.specs.contracts.held.Held.{the_row as held_row};
ghost use Rattle.regress_calls.specs.declared.held.Held.{Held as HeldValue};

mod parts;

use crate::held::Held;
use parts::Parts;
use std::alloc::Global;
use std::marker::Model;
use std::ptr::null_mut;

/// What a caller in C holds of the library: a pointer, which is null where nothing is held.
#[repr(C)]
pub struct Slot {
    ptr: *mut u8,
    pub ghost held: { Option HeldValue } by { coded_option held_row.coded },
}

impl Model for Slot {
    ghost also_owns = { λ s. slot_owns s.ptr s.held };
}

impl Slot {
    /// A slot that holds nothing.
    pub fn empty() -> Slot
        ensures { result.held ≡ None }
    {
        Slot { ptr: null_mut() }
    }

    /// A slot that holds a box.
    pub fn of(held: Box<Held>) -> Slot
        ensures { result.held ≡ Some held.value }
    {
        Slot::of_parts(Parts::of(held))
    }

    /// The box that is held.
    pub fn into_box(self, alloc: Global) -> Option<Box<Held>>
        ensures { option_map (λ b. b.value) result ≡ self.held }
    {
        match self.into_parts(alloc) {
            Some(parts) => Some(parts.into_box()),
            None => None,
        }
    }

    /// Takes what is held, and leaves nothing.
    pub fn take(&mut self, alloc: Global) -> Option<Box<Held>>
        ensures taken { option_map (λ b. b.value) result ≡ self.old.held }
        ensures left { self.new.held ≡ None }
    {
        std::mem::replace(self, Slot::empty()).into_box(alloc)
    }

    /// Holds a box, and frees what was held.
    pub fn put(&mut self, alloc: Global, held: Box<Held>)
        ensures { self.new.held ≡ Some held.value }
    {
        drop(std::mem::replace(self, Slot::of(held)).into_box(alloc));
    }

    fn of_parts(parts: Parts<Held, Global>) -> Slot
        ensures { result.held ≡ Some parts.value }
    {
        let Parts { ptr, alloc: _ } = parts;
        Slot {
            ptr: ptr as *mut u8,
        }
    }

    fn into_parts(self, alloc: Global) -> Option<Parts<Held, Global>>
        ensures { option_map (λ p. p.value) result ≡ self.held }
    {
        let Slot { ptr } = self;
        if ptr.is_null() {
            None
        } else {
            Some(Parts {
                ptr: ptr as *mut Held,
                alloc,
            })
        }
    }
}

// What is held may go to another thread.
unsafe impl Send for Slot {}
