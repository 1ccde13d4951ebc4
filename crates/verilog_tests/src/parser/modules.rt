//! The trees of sources.
use crate::parser::cases::{CASES, EXPRESSIONS};
use crate::parser::show::Shown;
use crate::parser::source::{joined, modules_of};
use cov_host::{Bytes, NoMemory, Sequence};
use std::alloc::Global;
use verilog_tree::Module;

/// Whether the modules are these, as a text.
fn are(alloc: Global, modules: &Sequence<Module>, tree: &str) -> bool {
    let mut shown = Shown::new(alloc);
    for module in modules.as_slice() {
        shown.module(module);
    }
    shown.is(tree)
}

/// Whether the parts of a source give this tree.
fn gives(alloc: Global, parts: &[&str], tree: &str) -> bool {
    let Ok(source) = joined(alloc, parts) else {
        return false;
    };
    match modules_of(alloc, source) {
        Some(modules) => are(alloc, &modules, tree),
        None => false,
    }
}

#[test]
fn modules_of_sources(rt: HostRuntime) {
    for case in CASES {
        assert!(rt;
            gives(rt.alloc(), &[case.source], case.tree),
            "{}",
            case.source
        );
    }
}

/// Whether the assignment of an expression has this tree on its right.
fn is_expression(alloc: Global, source: &str, tree: &str) -> bool {
    let mut wanted = String::new(alloc);
    let is_made = wanted.push_str("m ( )\n@11 (assign y ").is_ok()
        && wanted.push_str(tree).is_ok()
        && wanted.push_str(")\n").is_ok();
    let parts = ["module m; assign y = ", source, "; endmodule"];
    is_made && gives(alloc, &parts, wanted.as_str())
}

#[test]
fn expressions_of_sources(rt: HostRuntime) {
    for case in EXPRESSIONS {
        assert!(rt;
            is_expression(rt.alloc(), case.source, case.tree),
            "{}",
            case.source
        );
    }
}

/// Appends an item of 24 tokens and 1,042 bytes.
fn push_item(source: &mut Bytes) -> Result<(), NoMemory> {
    for part in &["assign ", "[7:4] = {", ", ", "[3]} + 8'hf0 * (", " - "] {
        source.extend_from_slice(part.as_bytes())?;
        source.extend_from_slice(&[b'n'; 200])?;
    }
    source.extend_from_slice(b");\n")
}

/// A module of a thousand such items.
fn long_source(alloc: Global) -> Result<Bytes, NoMemory> {
    let mut source = joined(alloc, &["module m;\n"])?;
    for _ in 0..1_000 {
        push_item(&mut source)?;
    }
    source.extend_from_slice(b"endmodule\n")?;
    Ok(source)
}

/// Whether there is one module with a thousand items.
fn has_all_items(alloc: Global, source: Bytes) -> bool {
    source.len() >= 1_000_000
        && match modules_of(alloc, source) {
            Some(modules) => match modules.as_slice() {
                [module] => module.items.as_slice().len() == 1_000,
                _ => false,
            },
            None => false,
        }
}

#[test]
fn a_megabyte_of_items(rt: HostRuntime) {
    assert!(rt;
        match long_source(rt.alloc()) {
            Ok(source) => has_all_items(rt.alloc(), source),
            Err(_) => false,
        }
    );
}
