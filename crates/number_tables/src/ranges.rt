//! The columns that the rows of a table have room for.

ghost use Rattle.std.specs.Prelude.{◌≡◌, ◌<◌, ◌++◌, ◌∷◌, [], List, IfOk, length};
ghost use Rattle.std.specs.List.{All};
ghost use Rattle.number_tables.specs.Tables.{HasRoom, wider, width_of};
ghost use Rattle.number_tables.specs.declared.slot.Slot.{Slot as TheSlot};

use crate::Slot;
use cov_host::NoMemory;
use std::alloc::Global;

/// The columns of a row, from the least to the greatest. There is no column where the least is greater.
#[derive(Clone, Copy)]
pub(crate) struct Range {
    pub(crate) least: usize,
    pub(crate) greatest: usize,
}

/// The range of a row without columns.
const NO_COLUMNS: Range = Range {
    least: usize::MAX,
    greatest: 0,
};

impl Range {
    /// The range with one column more, and all between.
    fn with(self, column: usize) -> Self
        ensures { result ≡ wider self column }
    {
        Range {
            least: self.least.min(column),
            greatest: self.greatest.max(column),
        }
    }

    /// How many columns there are. More than a number counts are want of memory.
    pub(crate) fn width(self) -> Result<usize, NoMemory>
        ensures { IfOk result (λ width. width ≡ width_of self) }
    {
        if self.least > self.greatest {
            return Ok(0);
        }
        match (self.greatest - self.least).checked_add(1) {
            Some(width) => Ok(width),
            None => Err(NoMemory),
        }
    }
}

/// Room for slots: for each row up to the greatest, the range of its columns.
pub(crate) fn room_for(alloc: Global, slots: &[Slot]) -> Result<Vec<Range>, NoMemory>
    ensures { IfOk result (λ ranges. All (HasRoom ranges.items) slots.now) }
{
    let mut ranges = vec![in alloc; NO_COLUMNS; row_count(slots)]?;
    make_room(ranges.as_mut_slice(), slots);
    Ok(ranges)
}

/// One more than the greatest row, 0 without slots.
fn row_count(slots: &[Slot]) -> usize
    ensures { All (λ (slot : TheSlot). slot.row < result) slots.now }
{
    let mut count: usize = 0;
    for slot in slots {
        count = count.max(slot.row as usize + 1);
    }
    count
}

/// Widens the ranges of the rows until there is room for each slot.
fn make_room(ranges: &mut [Range], slots: &[Slot])
    requires { All (λ (slot : TheSlot). slot.row < length ranges.old) slots.now }
    ensures { All (HasRoom ranges.new) slots.now }
{
    for slot in slots {
        add_slot(ranges, *slot);
    }
}

/// Widens the range of the slot's row until there is room for it.
fn add_slot(ranges: &mut [Range], slot: Slot)
    requires { slot.row < length ranges.old }
    ensures { (slots : List TheSlot) → All (HasRoom ranges.old) slots → All (HasRoom ranges.new) (slots ++ slot ∷ []) }
{
    let row = slot.row as usize;
    ranges[row] = ranges[row].with(slot.column);
}
