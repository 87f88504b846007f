//! The handle by which C holds a switch.

ghost use Rattle.std.specs.Prelude.{◌≡◌, None, Some};
ghost use Rattle.std.specs.Option.{MatchOption};
ghost use Rattle.switch_c.specs.Answers.{IsHandle};

use crate::block::Block;
use crate::instance::Instance;
use std::alloc::Global;
use std::mem;

/// What C holds of a switch. A handle that is zero holds none.
#[repr(C)]
#[derive(Drop)]
pub struct Handle {
    pub(crate) block: Block,
    pub(crate) held: u32,
}

impl Handle {
    // Creates a handle that holds a switch.
    fn of(instance: Box<Instance>) -> Handle
        ensures some { result.block.instance ≡ Some instance.value }
        ensures held { result.held ≡ 1 }
    {
        Handle {
            block: Block::of(instance),
            held: 1,
        }
    }

    /// Takes the switch out, if the handle holds one. It then holds none.
    pub fn take(&mut self, alloc: Global) -> Option<Box<Instance>>
        requires { IsHandle self.old.held self.old.block.instance }
        ensures taken { MatchOption result (self.old.block.instance ≡ None) (λ instance. self.old.block.instance ≡ Some instance.value) }
        ensures left { self.new.block.instance ≡ None }
        ensures handle { IsHandle self.new.held self.new.block.instance }
    {
        let Handle { block, held } = mem::replace(
            self,
            Handle {
                block: Block::empty(),
                held: 0,
            },
        );
        if held == 0 {
            None
        } else {
            Some(block.into_box(alloc))
        }
    }

    /// Puts a switch in. The handle must hold none, because a switch that it held would never be
    /// freed.
    pub fn put(&mut self, instance: Box<Instance>)
        requires { self.old.block.instance ≡ None }
        ensures put { self.new.block.instance ≡ Some instance.value }
        ensures handle { IsHandle self.new.held self.new.block.instance }
    {
        *self = Handle::of(instance);
    }
}
