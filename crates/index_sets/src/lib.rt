//! Sets of numbers below a bound, and lists of items that lie one after the other in one vector.
//!
//! An [`IndexSet`] keeps its members in the order in which they were put in: contracts see it as that list and the
//! bound. It is emptied, asked and added to in constant time; after [`IndexSet::new`] it takes no memory. [`Rows`]
//! keeps lists and gives each back by its number. The calls are proved to do to these lists what their names say.
#![tactic(auto)]

mod index_set;
mod rows;

pub use index_set::IndexSet;
pub use rows::Rows;
