//! Copies of terms.

ghost use Rattle.std.specs.Prelude.{◌≡◌, IfOk, map};
ghost use Rattle.design_model.specs.Tree as t;
ghost use Rattle.design_model.specs.View.{term_view};
ghost use Rattle.process_copies.specs.Views.{head_of};

use cov_host::NoMemory;
use design_model::{Form, Term};
use std::alloc::Global;

/// A copy of the term.
#[cycle(terms)]
pub(crate) fn copy_term(alloc: Global, term: &Term) -> Result<Term, NoMemory>
    ensures { IfOk result (λ copy. term_view copy ≡ term_view term.now) }
{
    let room = room_like(alloc, term)?;
    match &*term.form {
        Form::Number(value) => Ok(filled(room, Form::Number(*value))),
        Form::Signal(signal) => Ok(filled(room, Form::Signal(*signal))),
        Form::Word { memory, index } => copy_word(alloc, room, *memory, index),
        Form::Bit { of, index } => copy_bit(alloc, room, of, index),
        Form::Part { of, high, low } => copy_part(alloc, room, of, high, low),
        Form::Slide {
            of,
            base,
            width,
            up,
        } => copy_slide(alloc, room, of, base, width, *up),
        Form::Unary(op, a) => Ok(filled(room, Form::Unary(*op, copy_term(alloc, a)?))),
        Form::Binary(op, a, b) => {
            let a = copy_term(alloc, a)?;
            Ok(filled(room, Form::Binary(*op, a, copy_term(alloc, b)?)))
        }
        Form::Choice { test, yes, no } => copy_choice(alloc, room, test, yes, no),
        Form::Concat(parts) => Ok(filled(room, Form::Concat(copy_terms(alloc, parts)?))),
        Form::Repeat(count, parts) => {
            let count = copy_term(alloc, count)?;
            Ok(filled(room, Form::Repeat(count, copy_terms(alloc, parts)?)))
        }
        Form::Sign(signed, a) => Ok(filled(room, Form::Sign(*signed, copy_term(alloc, a)?))),
    }
}

/// Copies of the terms.
#[cycle(terms)]
pub(crate) fn copy_terms(alloc: Global, terms: &[Term]) -> Result<Vec<Term>, NoMemory>
    ensures { IfOk result (λ copy. map term_view copy.items ≡ map term_view terms.now) }
{
    let mut copies = Vec::with_capacity(alloc, terms.len())?;
    for term in terms {
        copies.push(copy_term(alloc, term)?)?;
    }
    Ok(copies)
}

/// A word of a memory in the room of its copy.
#[cycle(terms)]
fn copy_word(alloc: Global, room: Term, memory: u32, index: &Term) -> Result<Term, NoMemory>
    ensures { IfOk result (λ copy. term_view copy ≡ t.word (head_of room) memory (term_view index.now)) }
{
    let index = copy_term(alloc, index)?;
    Ok(filled(room, Form::Word { memory, index }))
}

/// A copy of `of[index]`.
#[cycle(terms)]
fn copy_bit(alloc: Global, room: Term, of: &Term, index: &Term) -> Result<Term, NoMemory>
    ensures { IfOk result (λ copy. term_view copy ≡ t.bit (head_of room) (term_view of.now) (term_view index.now)) }
{
    let of = copy_term(alloc, of)?;
    let index = copy_term(alloc, index)?;
    Ok(filled(room, Form::Bit { of, index }))
}

/// A copy of `of[high:low]`.
#[cycle(terms)]
fn copy_part(
    alloc: Global,
    room: Term,
    of: &Term,
    high: &Term,
    low: &Term,
) -> Result<Term, NoMemory>
    ensures { IfOk result (λ copy. term_view copy ≡ t.part (head_of room) (term_view of.now) (term_view high.now) (term_view low.now)) }
{
    let of = copy_term(alloc, of)?;
    let high = copy_term(alloc, high)?;
    let low = copy_term(alloc, low)?;
    Ok(filled(room, Form::Part { of, high, low }))
}

/// A copy of `of[base +: width]`, or where `up` is false `of[base -: width]`.
#[cycle(terms)]
fn copy_slide(
    alloc: Global,
    room: Term,
    of: &Term,
    base: &Term,
    width: &Term,
    up: bool,
) -> Result<Term, NoMemory>
    ensures { IfOk result (λ copy. term_view copy ≡ t.slide (head_of room) (term_view of.now) (term_view base.now) (term_view width.now) up) }
{
    let of = copy_term(alloc, of)?;
    let base = copy_term(alloc, base)?;
    let width = copy_term(alloc, width)?;
    let form = Form::Slide {
        of,
        base,
        width,
        up,
    };
    Ok(filled(room, form))
}

/// A copy of `test ? yes : no`.
#[cycle(terms)]
fn copy_choice(
    alloc: Global,
    room: Term,
    test: &Term,
    yes: &Term,
    no: &Term,
) -> Result<Term, NoMemory>
    ensures { IfOk result (λ copy. term_view copy ≡ t.choice (head_of room) (term_view test.now) (term_view yes.now) (term_view no.now)) }
{
    let test = copy_term(alloc, test)?;
    let yes = copy_term(alloc, yes)?;
    let no = copy_term(alloc, no)?;
    Ok(filled(room, Form::Choice { test, yes, no }))
}

/// A term like another in all but its form, whose box is there and is still to be filled. It is allocated before the
/// boxes of the parts, so that a term lies before its parts.
fn room_like(alloc: Global, term: &Term) -> Result<Term, NoMemory>
    ensures { IfOk result (λ room. head_of room ≡ head_of term.now) }
{
    Ok(Term {
        place: term.place,
        width: term.width,
        signed: term.signed,
        node: term.node,
        form: Box::new(alloc, Form::Signal(0))?,
    })
}

/// The term with this form in its box.
fn filled(room: Term, form: Form) -> Term
    ensures head { head_of result ≡ head_of room }
    ensures form { result.form.value ≡ form }
{
    let mut term = room;
    *term.form = form;
    term
}
