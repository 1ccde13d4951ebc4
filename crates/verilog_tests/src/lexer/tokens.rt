//! The tokens and the faults of short sources.
use crate::lexer::cases::{CASES, Case, REFUSALS, Refusal};
use crate::lexer::sources::{has_kinds, has_texts, one_root, refuses};
use std::alloc::Global;
use verilog_lexer::{Defines, Sources, lex};

fn has_tokens(alloc: Global, sources: &Sources, case: &Case) -> bool {
    match lex(alloc, sources, &Defines::new(alloc)) {
        Ok(tokens) => has_kinds(&tokens, case.kinds) && has_texts(&tokens, case.texts),
        Err(_) => false,
    }
}

fn is_case(alloc: Global, case: &Case) -> bool {
    match one_root(alloc, case.source) {
        Some(sources) => has_tokens(alloc, &sources, case),
        None => false,
    }
}

fn is_refused(alloc: Global, refusal: &Refusal) -> bool {
    let at = (1, refusal.line, refusal.column);
    match one_root(alloc, refusal.source) {
        Some(sources) => refuses(alloc, &sources, refusal.kind, at, refusal.detail),
        None => false,
    }
}

#[test]
fn tokens_of_sources(rt: HostRuntime) {
    for case in CASES {
        assert!(rt; is_case(rt.alloc(), case), "{}", case.source);
    }
}

#[test]
fn faults_of_sources(rt: HostRuntime) {
    for refusal in REFUSALS {
        assert!(rt; is_refused(rt.alloc(), refusal), "{}", refusal.source);
    }
}
