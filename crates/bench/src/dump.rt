//! Reads a dump in pieces of 65,536 bytes, to be measured from outside.

use crate::Figures;
use std::alloc::Global;
use std::fs;
use std::rt::Files;
use vcd_reader::{Body, Fed, Header, Item};

/// How many bytes are read at a time.
const PIECE: usize = 65_536;

/// How many times and changes a body says.
#[derive(Clone, Copy)]
struct Counts {
    times: u64,
    changes: u64,
}

/// Reads the dump of a file. The figures are how many times and changes it says.
pub(crate) fn measure(rt: &(impl AllocGlobal + Files), path: &str) -> Option<Figures> {
    let dump = fs::read(rt, path).ok()?;
    let counts = counts_of(rt.alloc(), dump.as_slice())?;
    Some([u128::from(counts.times), u128::from(counts.changes), 0, 0])
}

/// What a dump says, None where it has a fault.
fn counts_of(alloc: Global, dump: &[u8]) -> Option<Counts> {
    let mut header = Header::new(alloc);
    match after_header(&mut header, dump) {
        Some(rest) => counts_after(header, rest),
        None => None,
    }
}

/// What is left of a dump after its header.
fn after_header<'a>(header: &mut Header, dump: &'a [u8]) -> Option<&'a [u8]> {
    match header.feed(dump) {
        Ok(Fed::Done { used }) => dump.get(used..),
        _ => None,
    }
}

/// What the body after this header says.
fn counts_after(header: Header, rest: &[u8]) -> Option<Counts> {
    let mut body = header.split().1;
    count(&mut body, rest)
}

/// Reads a body in pieces, and counts what it says.
fn count(body: &mut Body, dump: &[u8]) -> Option<Counts> {
    let mut counts = Counts {
        times: 0,
        changes: 0,
    };
    for piece in dump.chunks(PIECE) {
        if !count_piece(body, piece, &mut counts) {
            return None;
        }
    }
    Some(counts)
}

/// Reads a piece, and counts what it says. The answer is whether it has no fault.
fn count_piece(body: &mut Body, piece: &[u8], counts: &mut Counts) -> bool {
    let mut rest = piece;
    for _ in 0..piece.len() {
        if rest.is_empty() {
            break;
        }
        let Ok(step) = body.next(rest) else {
            return false;
        };
        rest = rest.split_at(step.used.min(rest.len())).1;
        match step.item {
            Item::Time(_) => counts.times = counts.times.wrapping_add(1),
            Item::Value { .. } => counts.changes = counts.changes.wrapping_add(1),
            Item::Off | Item::On(_) | Item::More | Item::End => {}
        }
    }
    true
}
