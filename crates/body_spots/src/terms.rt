#![tactic(auto, using(crate::proofs::Hits::hits_then, crate::proofs::Hits::hits_none))]
//! The spots of terms.

ghost use Rattle.std.specs.Prelude.{◌≡◌, ◌++◌, map};
ghost use Rattle.design_model.specs.View.{design_view, term_view, terms_of};
ghost use Rattle.value_store.specs.body_replay.Contract.{term_spots, terms_spots};
ghost use Rattle.value_store.specs.body_replay.Replay.{hit};
ghost use Rattle.term_replay.specs.Noted.{Adds};
ghost use Rattle.body_spots.specs.Spots.{inner_spots};

use crate::nodes::note_node;
use crate::words::note_words;
use design_model::{Design, Form, Term};
use term_replay::{Access, Notes};

/// Notes the spots of a term.
#[cycle(terms)]
pub(crate) fn note_term<N: Notes>(design: &Design, term: &Term, notes: &mut N)
    ensures { Adds N.noted notes.old (map hit (term_spots (design_view design.now) (term_view term.now))) notes.new }
{
    note_inner(design, term, notes);
    note_node(term, notes);
}

/// Notes the spots of a term except the cases of its own node.
#[cycle(terms)]
fn note_inner<N: Notes>(design: &Design, term: &Term, notes: &mut N)
    ensures { Adds N.noted notes.old (map hit (inner_spots (design_view design.now) (term_view term.now))) notes.new }
{
    match &*term.form {
        Form::Number(_) | Form::Signal(_) => {}
        Form::Word { memory, index } => {
            note_term(design, index, notes);
            note_words(Access::Read, design, *memory, notes);
        }
        Form::Bit { of, index } => note_two(design, index, of, notes),
        Form::Part { of, high, low } => note_three(design, high, low, of, notes),
        Form::Slide {
            of,
            base,
            width,
            ..
        } => note_three(design, base, width, of, notes),
        Form::Unary(_, a) | Form::Sign(_, a) => note_term(design, a, notes),
        Form::Binary(_, a, b) => note_two(design, a, b, notes),
        Form::Choice { test, yes, no } => note_three(design, test, yes, no, notes),
        Form::Concat(parts) => note_terms(design, parts, notes),
        Form::Repeat(count, parts) => {
            note_term(design, count, notes);
            note_terms(design, parts, notes);
        }
    }
}

/// Notes the spots of two terms.
#[cycle(terms)]
fn note_two<N: Notes>(design: &Design, a: &Term, b: &Term, notes: &mut N)
    ensures { Adds N.noted notes.old (map hit (term_spots (design_view design.now) (term_view a.now) ++ term_spots (design_view design.now) (term_view b.now))) notes.new }
{
    note_term(design, a, notes);
    note_term(design, b, notes);
}

/// Notes the spots of three terms.
#[cycle(terms)]
fn note_three<N: Notes>(design: &Design, a: &Term, b: &Term, c: &Term, notes: &mut N)
    ensures { Adds N.noted notes.old (map hit (term_spots (design_view design.now) (term_view a.now) ++ term_spots (design_view design.now) (term_view b.now) ++ term_spots (design_view design.now) (term_view c.now))) notes.new }
{
    note_term(design, a, notes);
    note_term(design, b, notes);
    note_term(design, c, notes);
}

/// Notes the spots of terms.
#[cycle(terms)]
pub(crate) fn note_terms<N: Notes>(design: &Design, terms: &[Term], notes: &mut N)
    ensures { Adds N.noted notes.old (map hit (terms_spots (design_view design.now) (terms_of (map term_view terms.now)))) notes.new }
{
    for term in terms {
        note_term(design, term, notes);
    }
}
