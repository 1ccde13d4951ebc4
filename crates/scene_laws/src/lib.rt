//! Laws of the terms that the run of a body evaluates: what scenes have in common that bodies do not distinguish, and that each
//! term is in its context.
#![tactic(auto)]

ghost use Rattle.scene_laws.specs.Laws.{InContexts, JoinsAlike, TermsAlike};

pub use body_calls::{
    Access, Bodies, Lvalue, Notes, Progress, Reads, Spot, TermHead, evaluate, fitted, note_words,
};

/// The terms of a body do not distinguish scenes that differ only in the blames of signals of which all bits are sure, and each
/// of them has the width and the sign that its context gives it (IEEE 1364-2001, clauses 4.4 and 4.5). The two branches of
/// an undecided test are joined as the definition of a run joins them.
pub fn terms_law()
    ensures alike { TermsAlike }
    ensures contexts { InContexts }
    ensures joins { JoinsAlike }
{}
