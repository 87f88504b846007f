//! The heap block by which C holds a switch.

ghost use Rattle.std.specs.Prelude.{◌≡◌, Option, None, Some, true, is_some};
ghost use Rattle.switch_c.specs.declared.instance.Instance.{Instance};

use crate::instance::Instance;
use std::alloc::Global;
use std::marker::Model;
use std::ptr::null_mut;

/// The address of an instance on the heap, which it owns; or any address, owning nothing. Dropping it frees no
/// memory, so a block that owns an instance must be made a box first.
#[repr(C)]
#[derive(Drop)]
pub struct Block {
    at: *mut u8,
    ghost instance: { Option Instance },
}

impl Model for Block {
    ghost use Rattle.switch_c.specs.Blocks.{holds};

    ghost also_owns = { λ b. holds b.at b.instance };
}

impl Block {
    /// Creates a block that owns nothing.
    pub(crate) fn empty() -> Block
        ensures { result.instance ≡ None }
    {
        Block { at: null_mut() }
    }

    /// Creates a block that owns the instance of `boxed`.
    pub(crate) fn of(boxed: Box<Instance>) -> Block
        ensures { result.instance ≡ Some boxed.value }
    {
        let at = Box::into_raw(boxed);
        Block { at: at as *mut u8 }
    }

    /// Returns the box of the instance that the block owns. The block must own one.
    pub(crate) fn into_box(self, alloc: Global) -> Box<Instance>
        requires { is_some self.instance ≡ true }
        ensures { self.instance ≡ Some result.value }
    {
        let Block { at } = self;
        unsafe { Box::from_raw(alloc, at as *mut Instance) }
    }
}
