//! The rows of a table, one after the other.

ghost use Rattle.std.specs.Prelude.{◌≡◌, ◌<◌, ◌≤◌, ◌+◌, ◌-◌, ◌^◌, ℕ, IfOk, length, min, slice_index_or};
ghost use Rattle.std.specs.List.{All};
ghost use Rattle.number_tables.specs.Tables.{laid_out, no_slot, place_in, place_of, whole_width};
ghost use Rattle.number_tables.specs.declared.slot.Slot.{Slot as TheSlot};

use crate::Slot;
use crate::ranges::Range;
use cov_host::NoMemory;
use std::alloc::Global;

/// Where the numbers of a row are.
#[derive(Clone, Copy)]
pub(crate) struct Row {
    /// The least column that has a number.
    pub(crate) least: usize,
    /// The place of its number.
    pub(crate) start: usize,
}

/// The rows with these ranges of columns, and how many numbers they have in all.
pub(crate) fn lay_out(alloc: Global, ranges: &[Range]) -> Result<(Vec<Row>, usize), NoMemory>
    ensures rows { IfOk result (λ laid. laid.0.items ≡ laid_out 0 ranges.now) }
    ensures total { IfOk result (λ laid. laid.1 ≡ whole_width ranges.now) }
{
    let mut rows = Vec::new(alloc);
    let mut start: usize = 0;
    for range in ranges {
        rows.push(Row {
            least: range.least,
            start,
        })?;
        start = sum(start, range.width()?)?;
    }
    Ok((rows, start))
}

/// The sum of two numbers. One past what a number holds is want of memory.
fn sum(a: usize, b: usize) -> Result<usize, NoMemory>
    ensures { IfOk result (λ sum. sum ≡ a + b) }
{
    match a.checked_add(b) {
        Some(sum) => Ok(sum),
        None => Err(NoMemory),
    }
}

impl Row {
    /// The place of the number in a column, or the greatest number where the place is past it.
    pub(crate) fn place(self, column: usize) -> usize
        ensures { result ≡ min (place_in self column) (2 ^ 64 - 1) }
    {
        self.start.saturating_add(column.saturating_sub(self.least))
    }
}

/// Writes the numbers of the slots, in their order, from `first` on.
pub(crate) fn write_numbers(numbers: &mut [u32], rows: &[Row], slots: &[Slot], first: u32)
    requires rows { All (λ (slot : TheSlot). slot.row < length rows.now) slots.now }
    requires inside { All (λ slot. place_of rows.now slot < length numbers.old) slots.now }
    requires apart { (j k : ℕ) → j < length slots.now → k < length slots.now → place_of rows.now (slice_index_or slots.now j no_slot) ≡ place_of rows.now (slice_index_or slots.now k no_slot) → j ≡ k }
    requires fits { first + length slots.now ≤ 2 ^ 32 }
    ensures { (k : ℕ) → k < length slots.now → slice_index_or numbers.new (place_of rows.now (slice_index_or slots.now k no_slot)) 0 ≡ first + k }
{
    for (number, slot) in slots.iter().enumerate() {
        let place = rows[slot.row as usize].place(slot.column);
        numbers[place] = first + number as u32;
    }
}
