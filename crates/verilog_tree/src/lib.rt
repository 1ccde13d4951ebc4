//! The trees of modules as they are written: expressions, statements, items and modules, each with the place of its
//! first token.
//!
//! The types are [`Module`], [`Item`], [`Statement`] and [`Expr`]; `specs/Tree.antt` has the trees that contracts
//! see. Each constructor is proved to give the tree of its name, [`Depth`] the depth of an expression, and a copy of
//! a range to be equal to it. The form of a tree is in a box, since each crate that may drop a tree proves its drop
//! again.
#![tactic(auto)]

mod copy;
mod depth;
mod expr;
mod item;
mod module;
mod statement;

pub use depth::Depth;
pub use expr::{Expr, ExprForm};
pub use item::{Declared, Given, Item, ItemForm, Named, One, Param, Range, When};
pub use module::{Module, Modules};
pub use statement::{Arm, For, Statement, StatementForm};
