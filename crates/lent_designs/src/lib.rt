//! Lends the lawful design of a source, for tests: the caller never owns the design, so that only this crate has to prove
//! that it may be dropped.
#![tactic(auto)]

ghost use Rattle.design_model.specs.Lawful.{IsLawfulDesign};
ghost use Rattle.design_model.specs.View.{design_view};

use cov_host::{Bytes, NoMemory};
use design_model::Design;
use std::alloc::Global;
use text_designs::design_of;
use verilog_lexer::Sources;

/// What is done with a design that is lent.
pub trait DesignUser {
    /// Uses a design.
    fn take(&mut self, alloc: Global, design: &Design)
        requires { IsLawfulDesign (design_view design.now) };
}

/// Lends the design of a source whose top module is `m`. The answer is whether there is one: not where the source is refused
/// or memory runs out.
pub fn lend_design<U: DesignUser>(alloc: Global, text: &[u8], user: &mut U) -> bool {
    let Ok(sources) = sources_of(alloc, text) else {
        return false;
    };
    match design_of(alloc, &sources, "m") {
        Some(design) => {
            user.take(alloc, &design);
            true
        }
        None => false,
    }
}

/// The one source. It is called `m.v`.
fn sources_of(alloc: Global, text: &[u8]) -> Result<Sources, NoMemory> {
    let mut sources = Sources::new(alloc);
    let bytes = Bytes::from_vec(Vec::from_slice(alloc, text)?);
    match sources.add_root("m.v", bytes) {
        Ok(_) => Ok(sources),
        Err(_) => Err(NoMemory),
    }
}
