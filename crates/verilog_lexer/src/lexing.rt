ghost use Rattle.std.specs.Prelude.{◌≡◌, ◌+◌, ◌<◌, ◌≤◌, Ok, IfOk, IfErr};
ghost use Rattle.verilog_lexer.specs.Answer.{IsFault};
ghost use Rattle.verilog_lexer.specs.Reading.{tokens_of};
ghost use Rattle.verilog_lexer.specs.TokenView.{lexemes};

use crate::reader::Reader;
use crate::{Defines, LexFault, Sources, Tokens};
use std::alloc::Global;
use std::marker::Brand;
use std::sync::ledger::{Blank, Ledger};
use step_counts::Steps;

/// The tokens of sources under defines (IEEE 1364-2001 clauses 2 and 19). The roots are read one after the other as
/// one list of tokens, and macros carry over. Each source is read once from left to right, for each time that it is
/// named. The fault is the first one.
pub fn lex<'a>(
    alloc: Global,
    sources: &'a Sources,
    defines: &'a Defines,
) -> Result<Tokens<'a>, LexFault>
    ensures tokens { IfOk result (λ tokens. tokens_of sources.now defines.now ≡ Ok (lexemes tokens)) }
    ensures fault { IfErr result (IsFault (tokens_of sources.now defines.now)) }
{
    lex_uncounted::<Brand>(alloc, sources, defines, Blank::new(1))
}

/// The same tokens, whose steps nobody counts.
fn lex_uncounted<'a, L: Ledger>(
    alloc: Global,
    sources: &'a Sources,
    defines: &'a Defines,
    blank: Blank,
) -> Result<Tokens<'a>, LexFault>
    requires name { blank.name ≡ L.name }
    requires parts { blank.parts ≡ L.parts }
    requires some { 0 < blank.parts }
    ensures tokens { IfOk result (λ tokens. tokens_of sources.now defines.now ≡ Ok (lexemes tokens)) }
    ensures fault { IfErr result (IsFault (tokens_of sources.now defines.now)) }
{
    let mut steps = Steps::<L>::new(blank);
    lex_counted(alloc, sources, defines, &mut steps)
}

/// The same tokens, with their steps counted: one for each piece that is read, and one for each end of a text. Together they
/// are at most the most bytes of sources, the most sources, and the most bytes that are put in for uses of macros and for
/// inclusions.
pub fn lex_counted<'a, L: Ledger>(
    alloc: Global,
    sources: &'a Sources,
    defines: &'a Defines,
    steps: &mut Steps<L>,
) -> Result<Tokens<'a>, LexFault>
    ensures tokens { IfOk result (λ tokens. tokens_of sources.now defines.now ≡ Ok (lexemes tokens)) }
    ensures fault { IfErr result (IsFault (tokens_of sources.now defines.now)) }
    ensures cost { steps.new ≤ steps.old + (67108864 + 256 + 134217728) }
{
    let mut reader = Reader::new(alloc, sources, defines)?;
    for place in 0..sources.len() {
        reader.read_source(place, steps)?;
    }
    Ok(Tokens::from_vec(reader.into_tokens()))
}
