//! The numbers of line points and counted nodes.

ghost use Rattle.std.specs.Prelude.{◌≡◌, ◌+◌, ◌<◌, ◌^◌};
ghost use Rattle.flat_design.specs.Numbering.{one_if};
ghost use Rattle.flat_design.specs.Terms.{number_if, counted_as};
ghost use Rattle.design_model.specs.View.{term_view};

use design_model::Term;

/// The next number.
pub fn take(next: &mut u32) -> u32
    requires { next.old + 1 < 2 ^ 32 }
    ensures value { result ≡ next.old }
    ensures counted { next.new ≡ next.old + 1 }
{
    let number = *next;
    *next += 1;
    number
}

/// The next number, where the test holds.
pub(crate) fn take_if(test: bool, next: &mut u32) -> Option<u32>
    requires { next.old + one_if test < 2 ^ 32 }
    ensures value { result ≡ number_if test next.old }
    ensures counted { next.new ≡ next.old + one_if test }
{
    if test { Some(take(next)) } else { None }
}

/// A term with this number as a counted node.
pub(crate) fn with_node(node: u32, term: Term) -> Term
    ensures { term_view result ≡ counted_as node (term_view term) }
{
    Term {
        node: Some(node),
        ..term
    }
}
