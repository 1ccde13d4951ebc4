//! The lawful designs of sources, for tests and measurements.
//!
//! [`design_of`] lexes, parses and elaborates sources. It gives a design that is proved to be lawful, or None where
//! the sources are refused or memory runs out.
#![tactic(auto)]

ghost use Rattle.std.specs.Prelude.{IfSome};
ghost use Rattle.design_model.specs.Lawful.{IsLawfulDesign};
ghost use Rattle.design_model.specs.View.{design_view};

use design_model::Design;
use elaborator::elaborate;
use std::alloc::Global;
use verilog_lexer::{Defines, Sources, lex};
use verilog_parser::parse;

/// The design of sources under a top, None where they are refused or memory runs out.
pub fn design_of(alloc: Global, sources: &Sources, top: &str) -> Option<Design>
    ensures { IfSome result (λ design. IsLawfulDesign (design_view design)) }
{
    let defines = Defines::new(alloc);
    match lex(alloc, sources, &defines) {
        Ok(tokens) => match parse(alloc, &tokens) {
            Ok(modules) => match elaborate(alloc, &modules, top) {
                Ok(design) => Some(design),
                Err(_) => None,
            },
            Err(_) => None,
        },
        Err(_) => None,
    }
}
