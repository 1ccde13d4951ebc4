//! Texts that are no dumps.
use crate::dumps::bodies::{HEADER, with_header};
use crate::dumps::pieces::{SIZES, next, open, piece};
use std::alloc::Global;
use vcd_reader::{Body, DumpFault, DumpKind};

/// Texts whose first fault is in the header, its kind, and its byte.
#[rattlefmt::skip]
const HEADER_FAULTS: &[(&[u8], DumpKind, u64)] = &[
    (b"", DumpKind::Truncated, 0),
    (b"$enddefinitions", DumpKind::Truncated, 15),
    (b"$enddefinitions end", DumpKind::BadHeader, 16),
    (b"$upscope $end", DumpKind::BadHeader, 0),
    (b"$scope $end", DumpKind::BadHeader, 7),
    (b"$scope module tb dut $end", DumpKind::BadHeader, 17),
    (b"x $end", DumpKind::BadHeader, 0),
    (b"$upscope", DumpKind::BadHeader, 0),
    (b"$var wire $end", DumpKind::BadHeader, 10),
    (b"$var wire 0 ! a $end", DumpKind::BadHeader, 10),
    (b"$var wire 1000000000 ! a $end", DumpKind::BadHeader, 10),
    (b"$var wire 1 $end", DumpKind::BadHeader, 12),
    (b"$var wire 1 ! $end", DumpKind::BadHeader, 14),
    (b"$var wire 1 abcdefghi a $end", DumpKind::LongCode, 12),
    (b"$var wire 1 abcdefgh\x7f a $end", DumpKind::BadHeader, 12),
    (b"$var wire 1 abcdefghi\x7f a $end", DumpKind::LongCode, 12),
    (b"$var wire 1 ! a $end $var wire 2 ! b $end", DumpKind::BadHeader, 33),
    (b"$VAR wire", DumpKind::Truncated, 9),
    (b"$comment $en", DumpKind::Truncated, 12),
];

/// Bodies, the kind of the first fault in them, and its byte after the header.
#[rattlefmt::skip]
const BODY_FAULTS: &[(&[u8], DumpKind, u64)] = &[
    (b"#5 #4", DumpKind::TimeBack, 3),
    (b"#9223372036854775808", DumpKind::TimeTooLarge, 0),
    (b"#99999999999999999999999 ", DumpKind::TimeTooLarge, 0),
    (b"#", DumpKind::Truncated, 1),
    (b"# ", DumpKind::BadChange, 0),
    (b"#1x", DumpKind::BadChange, 0),
    (b"#-1", DumpKind::BadChange, 0),
    (b"b", DumpKind::Truncated, 1),
    (b"b !", DumpKind::BadChange, 0),
    (b"b12 !", DumpKind::BadChange, 0),
    (b"b12", DumpKind::BadChange, 0),
    (b"b1", DumpKind::Truncated, 2),
    (b"b1 ", DumpKind::Truncated, 3),
    (b"b1 ?", DumpKind::UnknownCode, 3),
    (b"b1 b", DumpKind::UnknownCode, 3),
    (b"b1 012345678", DumpKind::LongCode, 3),
    (b"b1 0123456789", DumpKind::LongCode, 3),
    (b"b000000001 !", DumpKind::VectorTooLong, 0),
    (b"1", DumpKind::Truncated, 1),
    (b"1 ", DumpKind::BadChange, 0),
    (b"1?", DumpKind::UnknownCode, 0),
    (b"1abcdefghi", DumpKind::LongCode, 0),
    (b"1abcdefgh", DumpKind::UnknownCode, 0),
    (b"r", DumpKind::Truncated, 1),
    (b"s1 ", DumpKind::Truncated, 3),
    (b"$dumpoff #5 #4", DumpKind::TimeBack, 12),
    (b"#5 $dumpoff #8 $dumpon #7", DumpKind::TimeBack, 23),
    (b"$dumpoff 1?", DumpKind::UnknownCode, 9),
    (b"$dumpoff b000000001 !", DumpKind::VectorTooLong, 9),
    (b"$dumpoffx", DumpKind::BadChange, 0),
    (b"$dumpvarsx", DumpKind::BadChange, 0),
    (b"$comment $end$", DumpKind::Truncated, 14),
    (b"2!", DumpKind::BadChange, 0),
    (b"#1 $var", DumpKind::BadChange, 3),
];

/// The fault of a body that begins at a byte of a text, where it is answered again.
fn body_fault(
    body: Body,
    text: &[u8],
    start: usize,
    size: usize,
    wanted: Option<&[bool]>,
) -> Option<DumpFault> {
    let mut body = body;
    let mut at = start;
    for _ in 0..=text.len() {
        match next(&mut body, piece(text, at, size), wanted) {
            Ok(step) => at = at.saturating_add(step.used),
            Err(fault) => return again(body, fault, wanted),
        }
    }
    None
}

/// The fault, if the body answers it again.
fn again(body: Body, fault: DumpFault, wanted: Option<&[bool]>) -> Option<DumpFault> {
    let mut body = body;
    match next(&mut body, b"", wanted) {
        Err(other) if other == fault => Some(fault),
        _ => None,
    }
}

/// The fault of a text.
fn fault_of(alloc: Global, text: &[u8], size: usize, wanted: Option<&[bool]>) -> Option<DumpFault> {
    match open(alloc, text, size) {
        Ok(opened) => body_fault(opened.body, text, opened.at, size, wanted),
        Err(fault) => Some(fault),
    }
}

/// Whether a text has this fault in pieces of each length, also where no code is wanted.
fn has_fault(alloc: Global, text: &[u8], kind: DumpKind, byte: u64) -> bool {
    let fault = Some(DumpFault::At { kind, byte });
    SIZES.iter().all(|size| fault_of(alloc, text, *size, None) == fault
        && fault_of(alloc, text, *size, Some(&[])) == fault)
}

/// Whether a body after the header has this fault.
fn has_body_fault(alloc: Global, body: &[u8], kind: DumpKind, byte: u64) -> bool {
    match with_header(alloc, body) {
        Some(text) => {
            let byte = byte.saturating_add(HEADER.len() as u64);
            has_fault(alloc, text.as_slice(), kind, byte)
        }
        None => false,
    }
}

/// A body in which the dump goes off and on so often, 17 bytes each time.
fn goes_off_and_on(alloc: Global, count: usize) -> Option<Vec<u8>> {
    let mut body = Vec::new(alloc);
    for _ in 0..count {
        body.extend_from_slice(b"$dumpoff $dumpon ").ok()?;
    }
    Some(body)
}

/// Whether a body in which the dump goes off and on so often has this fault.
fn has_too_many(alloc: Global, count: usize, byte: u64) -> bool {
    match goes_off_and_on(alloc, count) {
        Some(body) => has_body_fault(alloc, body.as_slice(), DumpKind::Gap, byte),
        None => false,
    }
}

#[test]
fn a_dump_has_few_stretches(rt: HostRuntime) {
    // The dump begins with a stretch, so the 1,024th time that it goes on is one too many.
    assert!(rt; has_too_many(rt.alloc(), 1024, 17_400));
    assert!(rt; !has_too_many(rt.alloc(), 1023, 17_400));
}

#[test]
fn faults_of_headers(rt: HostRuntime) {
    for (text, kind, byte) in HEADER_FAULTS {
        assert!(rt; has_fault(rt.alloc(), text, *kind, *byte));
    }
}

#[test]
fn faults_of_bodies(rt: HostRuntime) {
    for (body, kind, byte) in BODY_FAULTS {
        assert!(rt; has_body_fault(rt.alloc(), body, *kind, *byte));
    }
}
