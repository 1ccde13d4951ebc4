//! The parameters and the declared names of a module, with their faults (IEEE 1364-2001 clauses 3 and 12).
//!
//! [`check_constants`] gives the parameters of a module under overrides, each visible to those after it, and
//! [`check_declarations`] its declared names, each once, with ranges within their limits. Both are proved to give
//! exactly those of the definition, and to report exactly the faults of ranges, values, names that are declared again
//! and the port list.
#![tactic(auto)]

mod constants;
mod declaration;
mod declarations;
mod items;
mod others;
mod parameters;
mod range;

pub use constants::{BoundParam, Constants, Override, check_constants};
pub use declaration::{Declaration, Sort, is_same_range};
pub use declarations::{Declarations, check_declarations};
pub use range::constant_value;
