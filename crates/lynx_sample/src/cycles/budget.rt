//! Steps that are left.

/// How many steps may still be taken.
#[derive(Clone, Copy)]
pub(crate) struct Budget {
    left: u64,
}

impl Budget {
    pub(crate) fn new(steps: u64) -> Budget {
        Budget { left: steps }
    }

    /// Takes so many steps, or all that are left.
    pub(crate) fn take(&mut self, steps: u64) {
        self.left = self.left.saturating_sub(steps);
    }

    /// How many of so many steps were taken.
    pub(crate) fn taken_of(&self, steps: u64) -> u64 {
        steps.saturating_sub(self.left)
    }

    pub(crate) fn is_spent(&self) -> bool {
        self.left == 0
    }
}
