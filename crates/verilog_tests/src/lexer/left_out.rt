//! Long lines that a condition leaves out.
use crate::lexer::sources::{gives, of_bytes};
use cov_host::{Bytes, NoMemory, Text};
use std::alloc::Global;
use verilog_lexer::Defines;

/// A line of so many quotes that is left out, none of which is closed, since each except the first is after a backslash.
/// On the line the condition ends, and two names follow.
fn open_quotes(alloc: Global, quotes: usize) -> Result<Bytes, NoMemory> {
    let mut text = Text::new(alloc);
    text.extend_from_slice(b"`ifdef A\n\"")?;
    for _ in 1..quotes {
        text.extend_from_slice(b"\\\"")?;
    }
    text.extend_from_slice(b" `endif x\ny\n")?;
    Ok(text)
}

/// Whether the directive after so many quotes is read.
fn passes_over_quotes(alloc: Global, quotes: usize) -> Option<bool> {
    let sources = of_bytes(alloc, open_quotes(alloc, quotes).ok()?)?;
    Some(gives(alloc, &sources, &Defines::new(alloc), "x`y"))
}

#[test]
fn open_quotes_are_passed_over_at_once(rt: HostRuntime) {
    // the time goes with the number of quotes, and not with its square; example case open-quotes-left-out
    assert!(rt; passes_over_quotes(rt.alloc(), 1) == Some(true));
    assert!(rt; passes_over_quotes(rt.alloc(), 4) == Some(true));
    assert!(rt; passes_over_quotes(rt.alloc(), 400_000) == Some(true));
}
