//! The limit of what is put in for uses of macros and for inclusions: 134,217,728 bytes, where each text counts its bytes
//! and 8 more.
use crate::lexer::limits::{push_macro, push_name};
use crate::lexer::sources::{add, of_bytes, one_root, refuses};
use cov_host::{Bytes, NoMemory, Text};
use std::alloc::Global;
use verilog_lexer::{LexKind, Sources};

/// Adds so many blanks.
fn push_blanks(text: &mut Text, blanks: usize) -> Result<(), NoMemory> {
    for _ in 0..blanks {
        text.push(b' ')?;
    }
    Ok(())
}

/// So many blanks between two texts.
fn stretched(alloc: Global, first: &str, blanks: usize, last: &str) -> Result<Bytes, NoMemory> {
    let mut text = Text::new(alloc);
    text.extend_from_slice(first.as_bytes())?;
    push_blanks(&mut text, blanks)?;
    text.extend_from_slice(last.as_bytes())?;
    Ok(text)
}

/// Whether the use of a macro that uses itself before so many blanks has such a fault.
fn refuses_own_use(alloc: Global, blanks: usize, kind: LexKind) -> Option<bool> {
    let text = stretched(alloc, "`define s`s", blanks, "\n`s\n").ok()?;
    let sources = of_bytes(alloc, text)?;
    Some(refuses(alloc, &sources, kind, (1, 2, 1), ""))
}

#[test]
fn nested_uses_fill_the_room(rt: HostRuntime) {
    // 64 texts of 2,097,144 bytes and 8 more
    assert!(rt; refuses_own_use(rt.alloc(), 2_097_142, LexKind::MacroDepth) == Some(true));
    assert!(rt; refuses_own_use(rt.alloc(), 2_097_143, LexKind::ExpansionTooLong) == Some(true));
}

/// A root that includes a file, which includes itself before so many blanks.
fn own_include(alloc: Global, blanks: usize) -> Option<Sources> {
    let text = stretched(alloc, "`include \"x.vh\"", blanks, "").ok()?;
    let mut sources = one_root(alloc, "`include \"x.vh\"\n")?;
    if add(&mut sources, "x.vh", text, false) {
        Some(sources)
    } else {
        None
    }
}

/// Whether that has such a fault.
fn refuses_own_include(alloc: Global, blanks: usize, kind: LexKind) -> Option<bool> {
    let sources = own_include(alloc, blanks)?;
    Some(refuses(alloc, &sources, kind, (2, 1, 1), ""))
}

#[test]
fn nested_includes_fill_the_room(rt: HostRuntime) {
    // 64 files of 2,097,144 bytes and 8 more
    assert!(rt; refuses_own_include(rt.alloc(), 2_097_129, LexKind::MacroDepth) == Some(true));
    assert!(rt;
        refuses_own_include(rt.alloc(), 2_097_130, LexKind::ExpansionTooLong) == Some(true)
    );
}

/// A macro of a comment of 65,528 bytes, 2,048 uses of it, and a last line.
fn full_room(alloc: Global, last: &str) -> Result<Bytes, NoMemory> {
    let mut text = stretched(alloc, "`define s/*", 65_524, "*/\n")?;
    for _ in 0..2048 {
        text.extend_from_slice(b"`s\n")?;
    }
    text.extend_from_slice(last.as_bytes())?;
    Ok(text)
}

/// Whether the last line has such a fault with this detail.
fn refuses_last(alloc: Global, last: &str, kind: LexKind, detail: &str) -> Option<bool> {
    let sources = of_bytes(alloc, full_room(alloc, last).ok()?)?;
    Some(refuses(alloc, &sources, kind, (1, 2050, 1), detail))
}

#[test]
fn no_use_fits_in_a_full_room(rt: HostRuntime) {
    // 2,048 texts of 65,528 bytes and 8 more, as in the example case macro-of-comments
    assert!(rt; refuses_last(rt.alloc(), "`s\n", LexKind::ExpansionTooLong, "") == Some(true));
}

#[test]
fn what_is_missing_is_reported_first(rt: HostRuntime) {
    let alloc = rt.alloc();
    let include = "`include \"y.vh\"\n";
    assert!(rt; refuses_last(alloc, "`t\n", LexKind::UnknownMacro, "t") == Some(true));
    assert!(rt; refuses_last(alloc, include, LexKind::IncludeMissing, "y.vh") == Some(true));
}

/// So many macros, the first of 65,520 blanks and each other one of two uses of that before it, and a use of the last.
fn doubling(alloc: Global, macros: usize) -> Result<Bytes, NoMemory> {
    let mut text = stretched(alloc, "`define x ", 65_519, "\n")?;
    for letters in 1..macros {
        push_macro(&mut text, letters, "x `")?;
        push_name(&mut text, letters)?;
        text.extend_from_slice(b" `")?;
        push_name(&mut text, letters)?;
        text.push(b'\n')?;
    }
    text.push(b'`')?;
    push_name(&mut text, macros)?;
    text.push(b'\n')?;
    Ok(text)
}

/// Whether such macros are refused at the use, which is on this line.
fn refuses_doubling(alloc: Global, macros: usize, line: u32) -> Option<bool> {
    let sources = of_bytes(alloc, doubling(alloc, macros).ok()?)?;
    Some(refuses(alloc, &sources, LexKind::ExpansionTooLong, (1, line, 1), ""))
}

#[test]
fn macros_that_double_are_refused_at_the_use(rt: HostRuntime) {
    // example case doubling-macros
    assert!(rt; refuses_doubling(rt.alloc(), 64, 65) == Some(true));
}
