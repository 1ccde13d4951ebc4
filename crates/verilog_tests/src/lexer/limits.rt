//! The limits of sources.
use crate::lexer::sources::{add, gives, of_bytes, refuses};
use cov_host::{Bytes, NoMemory, Text};
use std::alloc::Global;
use verilog_lexer::{Defines, LexFault, LexKind, Sources};

/// The name of a macro: so many letters.
pub(crate) fn push_name(text: &mut Text, letters: usize) -> Result<(), NoMemory> {
    for _ in 0..letters {
        text.push(b'x')?;
    }
    Ok(())
}

/// A macro of so many letters with this text before the next name.
pub(crate) fn push_macro(text: &mut Text, letters: usize, body: &str) -> Result<(), NoMemory> {
    text.extend_from_slice(b"`define ")?;
    push_name(text, letters)?;
    text.extend_from_slice(body.as_bytes())
}

/// So many macros, each of which names the next, and a use of the first.
fn nested_macros(alloc: Global, count: usize) -> Result<Bytes, NoMemory> {
    let mut text = Text::new(alloc);
    for letters in 1..count {
        push_macro(&mut text, letters, " `")?;
        push_name(&mut text, letters)?;
        text.extend_from_slice(b"x\n")?;
    }
    push_macro(
        &mut text,
        count,
        " 3\nmodule m(input [`x:0] a);\nendmodule\n",
    )?;
    Ok(text)
}

/// Whether macros that are nested so deep are used.
fn uses_nested(alloc: Global, count: usize) -> Option<bool> {
    let sources = of_bytes(alloc, nested_macros(alloc, count).ok()?)?;
    let defines = Defines::new(alloc);
    Some(gives(
        alloc,
        &sources,
        &defines,
        "module`m`(`input`[`3`:`0`]`a`)`;`endmodule",
    ))
}

/// Whether macros that are nested so deep are refused at a line.
fn refuses_nested(alloc: Global, count: usize, line: u32) -> Option<bool> {
    let sources = of_bytes(alloc, nested_macros(alloc, count).ok()?)?;
    Some(refuses(alloc, &sources, LexKind::MacroDepth, (1, line, 17), ""))
}

#[test]
fn macros_nest_64_deep(rt: HostRuntime) {
    // example cases macros-64-deep and macros-65-deep
    assert!(rt; uses_nested(rt.alloc(), 64) == Some(true));
    assert!(rt; refuses_nested(rt.alloc(), 65, 66) == Some(true));
}

/// A module with an input of so many letters.
fn long_name(alloc: Global, letters: usize) -> Result<Bytes, NoMemory> {
    let mut text = Text::new(alloc);
    text.extend_from_slice(b"module m(input ")?;
    push_name(&mut text, letters)?;
    text.extend_from_slice(b");\nendmodule\n")?;
    Ok(text)
}

/// Whether a name of 256 bytes is refused after its last one.
fn refuses_long_name(alloc: Global) -> Option<bool> {
    let sources = of_bytes(alloc, long_name(alloc, 256).ok()?)?;
    Some(refuses(alloc, &sources, LexKind::BadByte, (1, 1, 271), ""))
}

#[test]
fn an_identifier_has_255_bytes(rt: HostRuntime) {
    // example case identifier-of-256-bytes
    assert!(rt; refuses_long_name(rt.alloc()) == Some(true));
}

/// Whether the file was not added, by this kind of fault, which names it.
fn is_not_added(added: Result<(), LexFault>, wanted: LexKind) -> bool {
    match added {
        Err(
            LexFault::At {
                kind,
                place: None,
                detail: Some(name),
            },
        ) => { kind == wanted && name.as_slice() == b"m.v".as_slice() }
        _ => false,
    }
}

/// A source of so many blanks.
fn blanks(alloc: Global, count: usize) -> Option<Bytes> {
    Some(Bytes::from_vec(vec![in alloc; b' '; count].ok()?))
}

/// So many sources of so many blanks each.
fn blank_sources(alloc: Global, files: usize, count: usize) -> Option<Sources> {
    let mut sources = Sources::new(alloc);
    for _ in 0..files {
        let bytes = blanks(alloc, count)?;
        if !add(&mut sources, "m.v", bytes, true) {
            return None;
        }
    }
    Some(sources)
}

/// Whether a source of `last` blanks is refused after so many sources of `count` blanks each.
fn refuses_after(
    alloc: Global,
    files: usize,
    count: usize,
    last: usize,
    kind: LexKind,
) -> Option<bool> {
    let mut sources = blank_sources(alloc, files, count)?;
    let bytes = blanks(alloc, last)?;
    Some(is_not_added(sources.add_root("m.v", bytes), kind))
}

#[test]
fn no_source_is_added_past_the_limit(rt: HostRuntime) {
    // example case too-many-sources
    assert!(rt; refuses_after(rt.alloc(), 256, 0, 0, LexKind::TooManySources) == Some(true));
}

#[test]
fn sources_are_no_longer_than_the_most(rt: HostRuntime) {
    // example case sources-too-long
    assert!(rt;
        refuses_after(rt.alloc(), 255, 262_145, 262_145, LexKind::SourcesTooLong) == Some(true)
    );
}

#[test]
fn a_source_past_both_limits_is_one_too_many(rt: HostRuntime) {
    let alloc = rt.alloc();
    assert!(rt; refuses_after(alloc, 256, 0, 67_108_865, LexKind::TooManySources) == Some(true));
    assert!(rt; refuses_after(alloc, 255, 0, 67_108_865, LexKind::SourcesTooLong) == Some(true));
}
