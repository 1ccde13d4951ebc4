//! The dump of a selfrun, and what it says of the design; there is no code.
//!
//! The text that the generator makes is a dump (`specs/Entries.antt`, [`text_law`]), and the design is bound in it ([`bound_law`]). At
//! each time it says what the generator computes ([`says_law`]).
#![tactic(auto)]

ghost use Rattle.selfrun_dump.specs.Laws.{BoundLaw, SaysLaw, TextLaw, TimesLaw};

/// The text of a selfrun is its dump.
pub fn text_law()
    ensures { TextLaw }
{}

/// It has two times for each step, and one more.
pub fn times_law()
    ensures { TimesLaw }
{}

/// The instance is there, and each signal has a value before the second time.
pub fn bound_law()
    ensures { BoundLaw }
{}

/// It says of the design what the generator computes.
pub fn says_law()
    ensures { SaysLaw }
{}
