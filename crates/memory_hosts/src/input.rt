ghost use Rattle.std.specs.Prelude.{◌≡◌, ◌≢◌, ◌≤◌, [], ◌++◌, length, take, IfOk};

use cov_host::NoMemory;
use std::alloc::Global;
use std::marker::Model;

/// A file that is being read, as a copy made when it was opened. Contracts see the bytes that are left.
#[derive(Drop)]
pub(crate) struct Input {
    bytes: Vec<u8>,
    at: usize,
}

impl Model for Input {
    ghost use Rattle.std.specs.Prelude.{ℕ, ◌≤◌, List, drop, length};

    ghost Value = { List ℕ };

    ghost view = { λ input. drop input.at input.bytes.items };

    ghost invariant = { λ input. input.at ≤ length input.bytes.items };
}

impl Input {
    /// A copy, to be read from its first byte.
    pub(crate) fn open(alloc: Global, bytes: &[u8]) -> Result<Self, NoMemory>
        ensures { IfOk result (λ input. input ≡ bytes.now) }
    {
        Ok(Input {
            bytes: bytes.to_vec(alloc)?,
            at: 0,
        })
    }

    /// Moves the next bytes into the front of the piece, as many as there are and fit, and says how many.
    pub(crate) fn read(&mut self, piece: &mut [u8]) -> usize
        ensures within { result ≤ length piece.new }
        ensures bytes { self.old ≡ take result piece.new ++ self.new }
        ensures none_at_end { result ≡ 0 → piece.new ≢ [] → self.old ≡ [] }
    {
        let left = &self.bytes[self.at..];
        let count = left.len().min(piece.len());
        piece[..count].copy_from_slice(&left[..count]);
        self.at += count;
        count
    }
}
