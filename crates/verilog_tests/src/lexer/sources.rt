//! Sources, their tokens and their faults.
use cov_host::{Bytes, Name, Place};
use std::alloc::Global;
use verilog_lexer::{Defines, LexFault, LexKind, Sources, TokenKind, Tokens, lex};

/// A name, a text, and whether it is read by itself or only where it is included.
pub(crate) type File = (&'static str, &'static str, bool);

/// Adds a file, and says whether it was added.
pub(crate) fn add(sources: &mut Sources, name: &str, bytes: Bytes, root: bool) -> bool {
    if root {
        sources.add_root(name, bytes).is_ok()
    } else {
        sources.add_include(name, bytes).is_ok()
    }
}

/// The bytes of a text.
fn bytes_of(alloc: Global, text: &str) -> Option<Bytes> {
    Some(Bytes::from_vec(text.as_bytes().to_vec(alloc).ok()?))
}

/// Sources with one root.
pub(crate) fn one_root(alloc: Global, text: &str) -> Option<Sources> {
    let bytes = bytes_of(alloc, text)?;
    of_bytes(alloc, bytes)
}

/// The same of bytes.
pub(crate) fn of_bytes(alloc: Global, bytes: Bytes) -> Option<Sources> {
    let mut sources = Sources::new(alloc);
    if add(&mut sources, "m.v", bytes, true) {
        Some(sources)
    } else {
        None
    }
}

/// The sources of these files.
pub(crate) fn sources_of(alloc: Global, files: &[File]) -> Option<Sources> {
    let mut sources = Sources::new(alloc);
    for (name, text, root) in files {
        let bytes = bytes_of(alloc, text)?;
        if !add(&mut sources, name, bytes, *root) {
            return None;
        }
    }
    Some(sources)
}

/// The letter of a kind.
fn letter(kind: TokenKind) -> u8 {
    match kind {
        TokenKind::Identifier => b'I',
        TokenKind::Keyword => b'K',
        TokenKind::System => b'S',
        TokenKind::Decimal => b'D',
        TokenKind::Based => b'B',
        TokenKind::Quoted => b'Q',
        TokenKind::Operator => b'O',
    }
}

/// Whether the letters of all kinds are these.
pub(crate) fn has_kinds(tokens: &Tokens<'_>, kinds: &str) -> bool {
    let tokens = tokens.as_slice();
    let kinds = kinds.as_bytes();
    tokens.len() == kinds.len()
        && tokens
            .iter()
            .zip(kinds.iter())
            .all(|(token, kind)| letter(token.kind) == *kind)
}

/// Whether all texts are these, with grave accents between.
pub(crate) fn has_texts(tokens: &Tokens<'_>, texts: &str) -> bool {
    let mut rest = texts.as_bytes();
    for token in tokens.as_slice() {
        let Some(behind) = rest.strip_prefix(token.text) else {
            return false;
        };
        rest = behind.strip_prefix(b"`").unwrap_or(behind);
    }
    rest.is_empty()
}

/// Whether the sources have tokens with these texts.
pub(crate) fn gives(alloc: Global, sources: &Sources, defines: &Defines, texts: &str) -> bool {
    match lex(alloc, sources, defines) {
        Ok(tokens) => has_texts(&tokens, texts),
        Err(_) => false,
    }
}

/// The fault of the sources.
fn fault_of(alloc: Global, sources: &Sources) -> Option<LexFault> {
    match lex(alloc, sources, &Defines::new(alloc)) {
        Ok(_) => None,
        Err(fault) => Some(fault),
    }
}

/// Whether the detail is this text, or is missing where the text is empty.
fn is_detail(detail: Option<Name>, text: &str) -> bool {
    match detail {
        Some(name) => name.as_slice() == text.as_bytes(),
        None => text.is_empty(),
    }
}

/// Whether the sources have a fault of this kind, at this place and with this detail.
pub(crate) fn refuses(
    alloc: Global,
    sources: &Sources,
    wanted: LexKind,
    at: (u32, u32, u32),
    text: &str,
) -> bool {
    let (source, line, column) = at;
    match fault_of(alloc, sources) {
        Some(
            LexFault::At {
                kind,
                place,
                detail,
            },
        ) => {
            kind == wanted
                && place
                    == Some(Place {
                        source,
                        line,
                        column,
                    })
                && is_detail(detail, text)
        }
        _ => false,
    }
}
