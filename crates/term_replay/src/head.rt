ghost use Rattle.std.specs.Prelude.{◌≡◌};

use design_model::{Place, Term};

/// What a term has beside its form.
#[derive(Clone, Copy)]
pub struct TermHead {
    /// Of its first token.
    pub place: Place,
    /// The width that its context gives it (IEEE 1364-2001, clause 4.4), from 1 to 128.
    pub width: u8,
    /// The sign that its context gives it (IEEE 1364-2001, clause 4.5).
    pub signed: bool,
    /// Its number as a counted node.
    pub node: Option<u32>,
}

impl TermHead {
    /// What the term has.
    pub fn of(term: &Term) -> Self
        ensures { result ≡ record { place = term.now.place; width = term.now.width; signed = term.now.signed; node = term.now.node } }
    {
        TermHead {
            place: term.place,
            width: term.width,
            signed: term.signed,
            node: term.node,
        }
    }
}
