ghost use Rattle.std.specs.Prelude.{◌≡◌, ◌<◌, ◌≤◌, ◌+◌, ◌^◌, ℕ, IfOk, length, slice_index_or};
ghost use Rattle.number_tables.specs.Tables.{AreApart, IsNumberOf, no_slot};

use crate::Slot;
use crate::ranges::room_for;
use crate::rows::{Row, lay_out, write_numbers};
use cov_host::NoMemory;
use std::alloc::Global;

/// Numbers by row and column. Each row has room for its columns from the least to the greatest, so it is meant for rows
/// whose columns are close together.
pub struct NumberTable {
    rows: Vec<Row>,
    numbers: Vec<u32>,
}

// Written out so that a crate which lets one go does not prove again how each of its parts is let go.
impl Drop for NumberTable {
    fn drop(self) {
        let NumberTable {
            rows: _,
            numbers: _,
        } = self;
    }
}

impl NumberTable {
    /// The table in which the slots have the numbers from `first` on, in their order.
    pub fn new(alloc: Global, slots: &[Slot], first: u32) -> Result<Self, NoMemory>
        requires apart { AreApart slots.now }
        requires fits { first + length slots.now ≤ 2 ^ 32 }
        ensures { IfOk result (λ table. (k : ℕ) → k < length slots.now → IsNumberOf table (slice_index_or slots.now k no_slot) (first + k)) }
    {
        let ranges = room_for(alloc, slots)?;
        let (rows, total) = lay_out(alloc, ranges.as_slice())?;
        let mut numbers = vec![in alloc; 0u32; total]?;
        write_numbers(numbers.as_mut_slice(), rows.as_slice(), slots, first);
        Ok(NumberTable { rows, numbers })
    }

    /// The number of a slot that has one; 0 for some of the others. It takes constant time and no memory.
    pub fn number(&self, slot: Slot) -> u32
        ensures { (number : ℕ) → IsNumberOf self.now slot number → result ≡ number }
    {
        match self.rows.get(slot.row as usize) {
            Some(row) => self.number_at(row.place(slot.column)),
            None => 0,
        }
    }

    /// The number at a place, 0 past the last.
    fn number_at(&self, place: usize) -> u32
        ensures { result ≡ slice_index_or self.now.numbers.items place 0 }
    {
        match self.numbers.get(place) {
            Some(number) => *number,
            None => 0,
        }
    }
}
