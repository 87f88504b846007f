//! The effort that is left for finding better rows.

/// The number of steps that are left. A step examines a channel or a switch. So the search ends in a large fabric, and
/// repairs the same tables in the same way each time.
#[derive(Clone, Copy)]
pub struct Effort {
    left: u64,
}

impl Effort {
    /// Creates an effort of `steps` steps.
    pub fn of(steps: u64) -> Effort {
        Effort { left: steps }
    }

    /// Takes `steps` steps, or all that are left.
    pub fn spend(&mut self, steps: u32) {
        self.left = self.left.saturating_sub(u64::from(steps));
    }

    /// Reports whether no step is left.
    pub fn is_spent(self) -> bool {
        self.left == 0
    }
}
