//! Sources of several files, and macros of the call.
use crate::lexer::sources::{File, gives, one_root, refuses, sources_of};
use cov_host::Place;
use std::alloc::Global;
use verilog_lexer::{Defines, LexKind, Sources, Tokens, lex};

/// A root that uses a macro of the command line and includes a file twice.
const INCLUDING: &[File] = &[
    ("m.v", "`W a\n `include \"x.vh\" b\n`include \"x.vh\"", true),
    ("x.vh", "c\n d", false),
];

/// The places of its tokens: source, line and column.
const PLACES: &[(u32, u32, u32)] = &[
    (1, 1, 1),
    (1, 1, 1),
    (1, 1, 4),
    (2, 1, 1),
    (2, 2, 2),
    (1, 2, 18),
    (2, 1, 1),
    (2, 2, 2),
];

fn is_at(place: Place, at: (u32, u32, u32)) -> bool {
    (place.source, place.line, place.column) == at
}

/// Whether the tokens are at these places.
fn have_places(tokens: &Tokens<'_>, places: &[(u32, u32, u32)]) -> bool {
    tokens.len() == places.len()
        && tokens
            .as_slice()
            .iter()
            .zip(places.iter())
            .all(|(token, at)| is_at(token.place, *at))
}

/// The macros of a call, each with its text.
fn defines_of(alloc: Global, macros: &[(&str, &str)]) -> Option<Defines> {
    let mut defines = Defines::new(alloc);
    for (name, text) in macros {
        defines.add(name, text).ok()?;
    }
    Some(defines)
}

fn has_places(alloc: Global, sources: &Sources, defines: &Defines) -> bool {
    match lex(alloc, sources, defines) {
        Ok(tokens) => have_places(&tokens, PLACES),
        Err(_) => false,
    }
}

/// Whether the files have their names by their numbers.
fn has_names(sources: &Sources) -> bool {
    sources.name(0).is_none()
        && sources.name(1) == Some("m.v")
        && sources.name(2) == Some("x.vh")
        && sources.name(3).is_none()
}

/// Whether the tokens of the files have their texts and places.
fn places_tokens(alloc: Global) -> Option<bool> {
    let sources = sources_of(alloc, INCLUDING)?;
    let defines = defines_of(alloc, &[("W", "no"), ("W", "x y")])?;
    Some(
        gives(alloc, &sources, &defines, "x`y`a`c`d`b`c`d")
            && has_places(alloc, &sources, &defines)
            && has_names(&sources),
    )
}

#[test]
fn tokens_stand_in_their_files(rt: HostRuntime) {
    assert!(rt; places_tokens(rt.alloc()) == Some(true));
}

/// Files, the kind of the fault in one of them, and its place.
const REFUSALS: &[(&[File], LexKind, (u32, u32, u32))] = &[
    // example case condition-closes-in-other-file
    (
        &[
            ("m.v", "`ifdef NO\n`else\n`include \"x.vh\"\n", true),
            ("x.vh", "`endif\n", false),
        ],
        LexKind::OpenCondition,
        (2, 1, 1),
    ),
    // example case condition-open-in-included-file
    (
        &[
            (
                "m.v",
                "`include \"x.vh\"\nmodule m(input a);\nendmodule\n`endif\n",
                true,
            ),
            ("x.vh", "`ifdef NO\n", false),
        ],
        LexKind::OpenCondition,
        (2, 2, 1),
    ),
    // example case fault-in-file-of-folder
    (
        &[
            (
                "m.v",
                "`include \"x.vh\"\nmodule m(input a);\nendmodule\n",
                true,
            ),
            ("x.vh", "\\\n", false),
        ],
        LexKind::BadByte,
        (2, 1, 1),
    ),
    // example case fault-in-second-source
    (
        &[
            ("a.v", "module m(input a);\nendmodule\n", true),
            ("b.v", "\n  \\\n", true),
        ],
        LexKind::BadByte,
        (2, 2, 3),
    ),
    // example case include-that-includes-itself
    (
        &[
            (
                "m.v",
                "`include \"a.vh\"\nmodule m(input a);\nendmodule\n",
                true,
            ),
            ("a.vh", "`include \"a.vh\"\n", false),
        ],
        LexKind::MacroDepth,
        (2, 1, 1),
    ),
];

fn refuses_files(alloc: Global, files: &[File], kind: LexKind, at: (u32, u32, u32)) -> bool {
    match sources_of(alloc, files) {
        Some(sources) => refuses(alloc, &sources, kind, at, ""),
        None => false,
    }
}

#[test]
fn faults_stand_in_their_files(rt: HostRuntime) {
    for (files, kind, at) in REFUSALS {
        assert!(rt; refuses_files(rt.alloc(), files, *kind, *at));
    }
}

/// Files, and the texts of their tokens.
const ONE_TEXT: &[(&[File], &str)] = &[
    // example cases module-split-over-two-sources and define-carries-over-to-next-source
    (
        &[
            ("a.v", "`define NAME a\nmodule m(\n", true),
            ("m.v", "input `NAME);\nendmodule\n", true),
        ],
        "module`m`(`input`a`)`;`endmodule",
    ),
    // example case include-within-include
    (
        &[
            (
                "m.v",
                "`include \"b.vh\"\n`include \"a.vh\"\nmodule m(input [`TOP:0] a);",
                true,
            ),
            ("b.vh", "`include \"c.vh\"\n", false),
            ("c.vh", "`define TOP 3\n", false),
            ("a.vh", "\n", false),
        ],
        "module`m`(`input`[`3`:`0`]`a`)`;",
    ),
    // example case includes-after-all-roots
    (
        &[
            ("a.v", "`include \"x.vh\"\n", true),
            ("m.v", "module m(input [`TOP:0] a);", true),
            ("x.vh", "`define TOP 3\n", false),
        ],
        "module`m`(`input`[`3`:`0`]`a`)`;",
    ),
    // example case include-left-out-is-not-opened
    (
        &[("m.v", "`ifdef NO\n`include \"none.vh\"\n`endif\nm", true)],
        "m",
    ),
];

fn gives_files(alloc: Global, files: &[File], texts: &str) -> bool {
    match sources_of(alloc, files) {
        Some(sources) => gives(alloc, &sources, &Defines::new(alloc), texts),
        None => false,
    }
}

#[test]
fn files_are_one_text(rt: HostRuntime) {
    for (files, texts) in ONE_TEXT {
        assert!(rt; gives_files(rt.alloc(), files, texts));
    }
}

/// Macros of the command line.
const DEFINES: &[(&str, &str)] = &[("TOP", "1"), ("TOP", "3"), ("R", "3:0"), ("SLIM", "")];

/// A source that uses them.
const USES: &str = "`ifdef WIDE\njunk\n`endif\n`ifdef SLIM\n[`TOP:0] [`R] `SLIM\n`endif\n";

/// Whether the macros of the call are used.
fn uses_defines(alloc: Global) -> Option<bool> {
    let defines = defines_of(alloc, DEFINES)?;
    let sources = one_root(alloc, USES)?;
    Some(gives(alloc, &sources, &defines, "[`3`:`0`]`[`3`:`0`]"))
}

#[test]
fn defines_of_the_call_count(rt: HostRuntime) {
    // example cases define-by-word-later-replaces, define-by-word-with-expression and define-by-word-in-condition
    assert!(rt; uses_defines(rt.alloc()) == Some(true));
}
