ghost use Rattle.std.specs.Prelude.{◌≡◌, ◌<◌, ◌≤◌, IfOk, length, map, slice_range};
ghost use Rattle.index_sets.specs.Rows.{row_at};

use cov_host::NoMemory;
use std::alloc::Global;
use std::marker::Model;

/// Lists of items, by the number of the list, that lie one after the other in one vector.
pub struct Rows<T> {
    /// Where each row begins in `items`, and where the last one ends.
    starts: Vec<usize>,
    items: Vec<T>,
}

// Written out so that a crate which lets one go does not prove again how each of its parts is let go.
impl<T: Drop> Drop for Rows<T> {
    fn drop(self) {
        let Rows {
            starts: _,
            items: _,
        } = self;
    }
}

impl<T> Model for Rows<T> {
    ghost use Rattle.std.specs.Prelude.{List, length};
    ghost use Rattle.index_sets.specs.Rows.{AreStarts, rows_of};

    ghost Value = { List (List T) };

    ghost view = { λ r. rows_of r.items.items r.starts.items };

    ghost invariant = { λ r. AreStarts (length r.items.items) r.starts.items };
}

impl<T: Copy> Rows<T> {
    /// The rows with the items of these lists.
    pub fn from_lists(alloc: Global, lists: &[Vec<T>]) -> Result<Self, NoMemory>
        ensures { IfOk result (λ rows. rows ≡ map (λ list. list.items) lists.now) }
    {
        let mut starts = Vec::new(alloc);
        let mut items = Vec::new(alloc);
        starts.push(0)?;
        for list in lists {
            items.extend_from_slice(list.as_slice())?;
            starts.push(items.len())?;
        }
        Ok(Rows { starts, items })
    }

    /// The items of a row.
    pub fn row(&self, row: usize) -> &[T]
        requires { row < length self.now }
        ensures { result.now ≡ row_at self.now row }
    {
        let from = self.starts[row];
        let to = self.starts[row + 1];
        part(self.items.as_slice(), from, to)
    }
}

/// The items from a place up to another.
fn part<T>(items: &[T], from: usize, to: usize) -> &[T]
    requires rising { from ≤ to }
    requires within { to ≤ length items.now }
    ensures { result.now ≡ slice_range items.now from to }
{
    &items[from..to]
}
