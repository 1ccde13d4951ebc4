//! Terms that mention no signal and no memory.

ghost use Rattle.std.specs.Prelude.{◌≡◌, map};
ghost use Rattle.design_model.specs.Mentions as spec;
ghost use Rattle.design_model.specs.View.{term_view, terms_of};

use design_model::{Form, Term};

/// Whether a term mentions no signal and no memory.
#[cycle(constants)]
pub(crate) fn is_constant(term: &Term) -> bool
    ensures { result ≡ spec.is_constant (term_view term.now) }
{
    match &*term.form {
        Form::Number(_) => true,
        Form::Signal(_) | Form::Word { .. } => false,
        Form::Bit { of, index } => is_constant(of) && is_constant(index),
        Form::Part { of, high, low } => is_constant(of) && is_constant(high) && is_constant(low),
        Form::Slide {
            of,
            base,
            width,
            ..
        } => is_constant(of) && is_constant(base) && is_constant(width),
        Form::Unary(_, operand) | Form::Sign(_, operand) => is_constant(operand),
        Form::Binary(_, left, right) => is_constant(left) && is_constant(right),
        Form::Choice { test, yes, no } => is_constant(test) && is_constant(yes) && is_constant(no),
        Form::Concat(parts) => are_constant(parts),
        Form::Repeat(count, parts) => is_constant(count) && are_constant(parts),
    }
}

/// Whether no term of them mentions one.
#[cycle(constants)]
fn are_constant(parts: &[Term]) -> bool
    ensures { result ≡ spec.are_constant (terms_of (map term_view parts.now)) }
{
    for part in parts {
        if !is_constant(part) {
            return false;
        }
    }
    true
}
