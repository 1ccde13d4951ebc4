//! The design of a selfrun: what the text of `selfrun_files` represents. There is no code.
//!
//! [`source_law`] states that the text has tokens, that these spell modules, and that the flat design of these modules is
//! `selfrun` of `specs/Selfrun.antt`. All of it is computed from the definitions of the language. [`code_law`] states that
//! a design of the code is seen as this one.
#![tactic(auto)]

ghost use Rattle.selfrun_design.specs.Source.{HasCode, StandsForSelfrun};

/// The text represents the design.
pub fn source_law()
    ensures { StandsForSelfrun }
{}

/// A design of the code is seen as the design.
pub fn code_law()
    ensures { HasCode }
{}
