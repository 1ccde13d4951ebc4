//! The size of a text: how many parts it has, and the bytes of its names.
//!
//! [`Room`] is how much more text may be gone through. Each of its calls is proved to take the size of what it is given,
//! as `specs/Sizes.antt` says it.
#![tactic(auto)]

ghost use Rattle.std.specs.Prelude.{◌≡◌};
ghost use Rattle.tree_sizes.specs.Example.{added, looped};
ghost use Rattle.tree_sizes.specs.Sizes.{size, statement_size};

mod items;
mod room;
mod statements;

pub use room::Room;

/// A name of two bytes counts three, and a sum or a statement one more than what is in it.
pub fn sizes_example()
    ensures sum { size added ≡ 5 }
    ensures statement { statement_size looped ≡ 29 }
{}
