//! Terms without counted nodes.

ghost use Rattle.std.specs.Prelude.{◌≡◌, IfOk, map};
ghost use Rattle.design_model.specs.View.{term_view, terms_of};
ghost use Rattle.flat_design.specs.Processes as spec;

use cov_host::NoMemory;
use design_model::{Form, Term};
use elab_build::Around;
use elab_const::Shape;
use std::alloc::Global;

/// Copies of the terms without counted nodes.
#[cycle(uncounted)]
fn all_uncounted(alloc: Global, terms: &[Term]) -> Result<Vec<Term>, NoMemory>
    ensures { IfOk result (λ copy. terms_of (map term_view copy.items) ≡ spec.all_uncounted (terms_of (map term_view terms.now))) }
{
    let mut all = Vec::new(alloc);
    for term in terms {
        all.push(uncounted(alloc, term)?)?;
    }
    Ok(all)
}

/// A copy of the term without counted nodes.
#[cycle(uncounted)]
pub(crate) fn uncounted(alloc: Global, term: &Term) -> Result<Term, NoMemory>
    ensures { IfOk result (λ copy. term_view copy ≡ spec.uncounted (term_view term.now)) }
{
    let around = around(term);
    match &*term.form {
        Form::Number(value) => around.number(alloc, *value),
        Form::Signal(signal) => around.signal(alloc, *signal),
        Form::Word { memory, index } => around.word(alloc, *memory, uncounted(alloc, index)?),
        Form::Bit { of, index } => {
            around.bit(alloc, uncounted(alloc, of)?, uncounted(alloc, index)?)
        }
        Form::Part { of, high, low } => {
            let of = uncounted(alloc, of)?;
            around.part(alloc, of, uncounted(alloc, high)?, uncounted(alloc, low)?)
        }
        Form::Slide {
            of,
            base,
            width,
            up,
        } => {
            let of = uncounted(alloc, of)?;
            let base = uncounted(alloc, base)?;
            around.slide(alloc, of, base, uncounted(alloc, width)?, *up)
        }
        Form::Unary(op, a) => around.unary(alloc, None, *op, uncounted(alloc, a)?),
        Form::Binary(op, a, b) => {
            let a = uncounted(alloc, a)?;
            around.binary(alloc, None, *op, a, uncounted(alloc, b)?)
        }
        Form::Choice { test, yes, no } => {
            let test = uncounted(alloc, test)?;
            around.choice(alloc, test, uncounted(alloc, yes)?, uncounted(alloc, no)?)
        }
        Form::Concat(parts) => around.concat(alloc, all_uncounted(alloc, parts)?),
        Form::Repeat(count, parts) => {
            let count = uncounted(alloc, count)?;
            around.repeat(alloc, count, all_uncounted(alloc, parts)?)
        }
        Form::Sign(signed, a) => around.sign(alloc, *signed, uncounted(alloc, a)?),
    }
}

/// Where a term is written, and its width and sign.
fn around(term: &Term) -> Around
    ensures { result ≡ record { place = term.now.place; shape = record { width = term.now.width; signed = term.now.signed } } }
{
    Around {
        place: term.place,
        shape: Shape {
            width: term.width,
            signed: term.signed,
        },
    }
}
