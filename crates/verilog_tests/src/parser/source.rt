//! Sources that are read by themselves.
use cov_host::{Bytes, NoMemory, Sequence};
use std::alloc::Global;
use verilog_lexer::{Defines, Sources, lex};
use verilog_parser::{ParseFault, parse};
use verilog_tree::Module;

/// The parts of a text, one after the other.
pub(crate) fn joined(alloc: Global, parts: &[&str]) -> Result<Bytes, NoMemory> {
    let mut all = Bytes::new(alloc);
    for part in parts {
        all.extend_from_slice(part.as_bytes())?;
    }
    Ok(all)
}

/// The modules of a source, or its fault. There is no result if it cannot be lexed.
pub(crate) fn parsed(alloc: Global, source: Bytes) -> Option<Result<Sequence<Module>, ParseFault>> {
    let mut sources = Sources::new(alloc);
    sources.add_root("m.v", source).ok()?;
    let defines = Defines::new(alloc);
    let tokens = lex(alloc, &sources, &defines).ok()?;
    Some(parse(alloc, &tokens))
}

/// The modules of a source that has no fault.
pub(crate) fn modules_of(alloc: Global, source: Bytes) -> Option<Sequence<Module>> {
    parsed(alloc, source)?.ok()
}

/// The fault of a source that has one.
pub(crate) fn fault_of(alloc: Global, source: Bytes) -> Option<ParseFault> {
    parsed(alloc, source)?.err()
}
