//! Numbers that look random, the same in each run.

ghost use Rattle.std.specs.Prelude.{◌≡◌, ◌⊎◌, ◌<◌};

/// A linear congruential generator (Knuth, The Art of Computer Programming, volume 2, 3.3.4, table 1, line 26).
#[derive(Drop)]
pub(crate) struct Random {
    state: u64,
}

impl Random {
    pub(crate) fn new(seed: u64) -> Random {
        Random { state: seed }
    }

    /// A number of 31 bits.
    pub(crate) fn number(&mut self) -> u64 {
        self.state = self
            .state
            .wrapping_mul(6364136223846793005)
            .wrapping_add(1442695040888963407);
        self.state >> 33
    }

    /// A number below this one, 0 if there is no such number.
    pub(crate) fn below(&mut self, end: usize) -> usize
        ensures { result ≡ 0 ⊎ result < end }
    {
        if end == 0 {
            0
        } else {
            (self.number() % end as u64) as usize
        }
    }
}
