//! What a select is taken of.

ghost use Rattle.std.specs.Prelude.{◌≡◌, IfSome};
ghost use Rattle.std.specs.Option.{option_copied};
ghost use Rattle.verilog_tree.specs.View.{expr_view};
ghost use Rattle.elab_const.specs.Meaning as meaning;
ghost use Rattle.elab_const.specs.Meaning.{IsShape};
ghost use Rattle.elab_const.specs.Scope.{IsEntry, look_up};

use crate::names::Names;
use crate::{Entry, Shape};
use verilog_tree::{Expr, ExprForm};

/// The shape of what an index names: a word of a memory, or one bit.
pub(crate) fn select_shape(names: &Names, of: &Expr) -> Shape
    ensures value { result ≡ meaning.select_shape (look_up names.now) (expr_view of.now) }
    ensures within { IsShape result }
{
    match &*of.form {
        ExprForm::Name(name) => indexed_shape(names.get(name)),
        _ => Shape::one_bit(),
    }
}

/// The width and sign of a select, by what its name means.
fn indexed_shape(entry: Option<&Entry>) -> Shape
    requires { IfSome entry (λ e. IsEntry e.now) }
    ensures value { result ≡ meaning.indexed_shape (option_copied entry.entry) }
    ensures within { IsShape result }
{
    match entry {
        Some(Entry::Memory { width, signed, .. }) => Shape {
            width: *width,
            signed: *signed,
        },
        _ => Shape::one_bit(),
    }
}

/// Whether the indexes of the bits fall from left to right.
pub(crate) fn falls(names: &Names, of: &Expr) -> bool
    ensures { result ≡ meaning.falls (look_up names.now) (expr_view of.now) }
{
    match &*of.form {
        ExprForm::Name(name) => signal_falls(names.get(name)),
        ExprForm::Bit { of, .. } => match &*of.form {
            ExprForm::Name(name) => word_falls(names.get(name)),
            _ => true,
        },
        _ => true,
    }
}

/// Whether the indexes of a signal's bits fall from left to right.
fn signal_falls(entry: Option<&Entry>) -> bool
    ensures { result ≡ meaning.signal_falls (option_copied entry.entry) }
{
    match entry {
        Some(
            Entry::Signal {
                high,
                low,
                ranged,
                ..
            },
        ) => !*ranged || *low <= *high,
        _ => true,
    }
}

/// Whether the indexes of the bits of a memory's words fall from left to right.
fn word_falls(entry: Option<&Entry>) -> bool
    ensures { result ≡ meaning.word_falls (option_copied entry.entry) }
{
    match entry {
        Some(
            Entry::Memory {
                high,
                low,
                ranged,
                ..
            },
        ) => !*ranged || *low <= *high,
        _ => true,
    }
}
