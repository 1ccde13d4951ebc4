//! Numbers and vectors that look random, the same in each run.
ghost use Rattle.std.specs.Prelude.{◌≤◌};

use crate::memories::plain::common;
use four_state::Four;
use known_state::Known;

/// A linear congruential generator (Knuth, The Art of Computer Programming, volume 2, 3.3.4, table 1, line 26).
#[derive(Drop)]
pub(crate) struct Random {
    state: u64,
}

impl Random {
    pub(crate) fn new(seed: u64) -> Random {
        Random { state: seed }
    }

    /// A number of 32 bits.
    pub(crate) fn number(&mut self) -> u64 {
        self.state = self
            .state
            .wrapping_mul(6364136223846793005)
            .wrapping_add(1442695040888963407);
        self.state >> 32
    }

    /// Whether one of so many equal chances came.
    pub(crate) fn chance(&mut self, of: u64) -> bool {
        of != 0 && self.number() % of == 0
    }

    /// A vector of at most 32 bits that differ from 0, some of which are not known.
    pub(crate) fn known(&mut self, width: u8, signed: bool, blame: u32) -> Known
        requires at_least { 1 ≤ width }
        requires at_most { width ≤ 128 }
    {
        let ones = self.number();
        let strange = self.number() & self.number() & self.number();
        let unsure = self.number() & self.number();
        let value = Four::make(128, false, ones as u128, strange as u128).extend(width, signed);
        let changed = ones ^ unsure;
        let other = Four::make(128, false, changed as u128, strange as u128).extend(width, signed);
        common(&Known::whole(value), &Known::whole(other), blame)
    }
}
