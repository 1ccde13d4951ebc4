#![tactic(auto, using(crate::proofs::Taking::names_then, crate::proofs::Taking::names_none))]
//! What terms mention.

ghost use Rattle.std.specs.Prelude.{◌++◌, ◌∷◌, [], map};
ghost use Rattle.design_model.specs.View.{term_view, terms_of};
ghost use Rattle.process_names.specs.Names.{all_term_names, term_names};
ghost use Rattle.body_names.specs.Taken.{TakesNames};

use crate::Names;
use design_model::{Form, Term};

/// Names what a term mentions, an index before what it indexes.
#[cycle(terms)]
pub(crate) fn name_term<N: Names>(term: &Term, names: &mut N)
    requires { N.ready names.old }
    ensures ready { N.ready names.new }
    ensures named { TakesNames N.named names.old (term_names (term_view term.now)) names.new }
{
    match &*term.form {
        Form::Number(_) => {}
        Form::Signal(signal) => names.name(*signal),
        Form::Word { memory, index } => {
            name_term(index, names);
            names.name(*memory);
        }
        Form::Bit { of, index } => name_two(index, of, names),
        Form::Part { of, high, low } => name_three(high, low, of, names),
        Form::Slide {
            of,
            base,
            width,
            ..
        } => name_three(base, width, of, names),
        Form::Unary(_, a) | Form::Sign(_, a) => name_term(a, names),
        Form::Binary(_, a, b) => name_two(a, b, names),
        Form::Choice { test, yes, no } => name_three(test, yes, no, names),
        Form::Concat(parts) => name_terms(parts, names),
        Form::Repeat(count, parts) => {
            name_term(count, names);
            name_terms(parts, names);
        }
    }
}

/// Names what two terms mention.
#[cycle(terms)]
fn name_two<N: Names>(a: &Term, b: &Term, names: &mut N)
    requires { N.ready names.old }
    ensures ready { N.ready names.new }
    ensures named { TakesNames N.named names.old (term_names (term_view a.now) ++ term_names (term_view b.now)) names.new }
{
    name_term(a, names);
    name_term(b, names);
}

/// Names what three terms mention.
#[cycle(terms)]
fn name_three<N: Names>(a: &Term, b: &Term, c: &Term, names: &mut N)
    requires { N.ready names.old }
    ensures ready { N.ready names.new }
    ensures named { TakesNames N.named names.old (term_names (term_view a.now) ++ term_names (term_view b.now) ++ term_names (term_view c.now)) names.new }
{
    name_term(a, names);
    name_term(b, names);
    name_term(c, names);
}

/// Names what terms mention.
#[cycle(terms)]
pub(crate) fn name_terms<N: Names>(terms: &[Term], names: &mut N)
    requires { N.ready names.old }
    ensures ready { N.ready names.new }
    ensures named { TakesNames N.named names.old (all_term_names (terms_of (map term_view terms.now))) names.new }
{
    for term in terms {
        name_term(term, names);
    }
}
