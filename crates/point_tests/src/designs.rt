//! The designs of sources.

ghost use Rattle.std.specs.Prelude.{◌≡◌, [], IfOk, IfSome};
ghost use Rattle.design_model.specs.Lawful.{IsLawfulDesign};
ghost use Rattle.design_model.specs.View.{design_view};

use cov_host::{Bytes, NoMemory, Words};
use design_model::Design;
use state_machines::States;
use std::alloc::Global;
use verilog_lexer::Sources;

/// A source: its name and its text.
pub(crate) type Source = (&'static str, &'static str);

/// A state machine: a module, a variable, and the names of its states.
pub(crate) type Machine = (&'static str, &'static str, &'static [&'static str]);

/// The machines as they are named.
pub(crate) fn states_of(alloc: Global, machines: &[Machine]) -> Result<States, NoMemory>
    ensures { IfOk result (λ states. states.drawn ≡ []) }
{
    let mut states = States::new(alloc);
    'machines: for (module_name, variable, names) in machines {
        let names = words_of(alloc, names)?;
        states.add(module_name, variable, &names)?;
    }
    Ok(states)
}

fn words_of(alloc: Global, names: &[&'static str]) -> Result<Words, NoMemory> {
    let mut words = Words::new(alloc);
    for name in names {
        words.push(name)?;
    }
    Ok(words)
}

/// The design that sources represent under a top.
pub(crate) fn design_of(alloc: Global, texts: &[Source], top: &str) -> Option<Design>
    ensures { IfSome result (λ design. IsLawfulDesign (design_view design)) }
{
    let sources = sources_of(alloc, texts)?;
    text_designs::design_of(alloc, &sources, top)
}

/// The sources, each read by itself.
fn sources_of(alloc: Global, texts: &[Source]) -> Option<Sources> {
    let mut sources = Sources::new(alloc);
    for (name, text) in texts {
        let bytes = bytes_of(alloc, text).ok()?;
        sources.add_root(name, bytes).ok()?;
    }
    Some(sources)
}

/// The bytes of a text.
fn bytes_of(alloc: Global, text: &str) -> Result<Bytes, NoMemory> {
    Ok(Bytes::from_vec(Vec::from_slice(alloc, text.as_bytes())?))
}
