ghost use Rattle.std.specs.Prelude.{◌≡◌};
ghost use Rattle.coverage_db.specs.Windows.{window_cmp};

use std::cmp::Ordering;

/// What was scored of a dump: its steps after one time and before another.
#[derive(Clone, Copy)]
pub struct Window {
    /// The time before the first step.
    pub first: u64,
    /// The time after the last step: greater than the first, and below 2 ^ 63.
    pub last: u64,
}

impl Window {
    /// By the first time, and then by the last.
    pub fn compare(&self, other: &Window) -> Ordering
        ensures { result ≡ window_cmp self.now other.now }
    {
        self.first
            .cmp(&other.first)
            .then(self.last.cmp(&other.last))
    }
}
