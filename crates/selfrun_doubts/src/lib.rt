//! In the dump of a selfrun each word that is read is clear, and nothing is in doubt; there is no code.
//!
//! Each edge of the clock finds the block clean, and the first 16 steps write the 16 words one after the other. So each word is clear
//! once it was written ([`words_law`]), no word is read before, and no point of the design is in doubt at any time ([`certain_law`]).
#![tactic(auto)]

ghost use Rattle.selfrun_doubts.specs.Certain.{CertainLaw};
ghost use Rattle.selfrun_doubts.specs.Words.{WordsLaw};

/// Each word is clear once it was written, with the value that the generator computes.
pub fn words_law()
    ensures { WordsLaw }
{}

/// At no time is anything in doubt for a point of the design.
pub fn certain_law()
    ensures { CertainLaw }
{}
