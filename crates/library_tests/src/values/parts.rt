//! Worked cases. Each answer is what Icarus Verilog 11.0 prints, by `iverilog -g2005 -o m m.v && ./m` on a file with
//! registers `a` and `b` of these widths and signs, `wire r = a OP b;` and `$display("%b", r);`, and likewise for
//! parts and edges. The comments name the cases in which the standard, or this project's own reading, says otherwise.

use crate::values::spelled::{is_spelled, vector};
use four_state::{Bit, Edge, Four};

/// A vector, and the same assigned to a wider or a narrower one.
const EXTENSIONS: &[(&str, &str)] = &[
    ("4'sb1010", "8'sb11111010"),
    ("4'b1010", "8'b00001010"),
    ("4'sbx010", "6'sbxxx010"),
    ("4'sbz010", "6'sbzzz010"),
    ("8'sb10xz0110", "4'sb0110"),
    (
        "64'sh8000000000000001",
        "128'shffffffffffffffff8000000000000001",
    ),
    (
        "127'sh40000000000000000000000000000000",
        "128'shc0000000000000000000000000000000",
    ),
];

/// A vector, the offset of a part, and the part.
const SELECTS: &[(&str, i64, &str)] = &[
    ("8'b10xz0110", 0, "4'b0110"),
    ("8'b10xz0110", 2, "3'bz01"),
    ("8'b10xz0110", 6, "4'bxx10"),
    ("8'b10xz0110", 8, "4'bxxxx"),
    ("8'b10xz0110", -2, "4'b10xx"),
    ("8'b10xz0110", -9, "4'bxxxx"),
    ("65'h1f000000000000000", 60, "8'bxxx11111"),
    (
        "65'h1f000000000000000",
        -64,
        "128'hf000000000000000xxxxxxxxxxxxxxxx",
    ),
    ("128'h80000000000000000000000000000000", 127, "1'b1"),
];

/// A vector, the offset of a part, the part, and the vector with the part written into it.
const WRITES: &[(&str, i64, &str, &str)] = &[
    ("8'sb10xz0110", 0, "4'bzzxx", "8'sb10xzzzxx"),
    ("8'b10xz0110", 6, "4'b0101", "8'b01xz0110"),
    ("8'b10xz0110", 8, "4'b0101", "8'b10xz0110"),
    ("8'b10xz0110", -2, "4'b0111", "8'b10xz0101"),
    ("8'b10xz0110", -4, "4'b1001", "8'b10xz0110"),
    ("65'h0", 64, "4'b1111", "65'h10000000000000000"),
    (
        "128'h0",
        120,
        "16'hfffx",
        "128'hfx000000000000000000000000000000",
    ),
];

/// `{a, b}`
const CONCATENATIONS: &[(&str, &str, &str)] = &[
    ("4'sb10xz", "4'bz01x", "8'b10xzz01x"),
    (
        "64'hffffffffffffffff",
        "64'h0xxxxxxxx",
        "128'hffffffffffffffff00000000xxxxxxxx",
    ),
    (
        "4'bzzzz",
        "124'h8000000000000000000000000000001",
        "128'hz8000000000000000000000000000001",
    ),
];

/// A bit's value before and after, and whether `@(posedge c)` or `@(negedge c)` goes on.
const EDGES: &[(Bit, Bit, Option<Edge>)] = &[
    (Bit::Zero, Bit::Zero, None),
    (Bit::Zero, Bit::One, Some(Edge::Pos)),
    (Bit::Zero, Bit::X, Some(Edge::Pos)),
    (Bit::Zero, Bit::Z, Some(Edge::Pos)),
    (Bit::One, Bit::Zero, Some(Edge::Neg)),
    (Bit::One, Bit::One, None),
    (Bit::One, Bit::X, Some(Edge::Neg)),
    (Bit::One, Bit::Z, Some(Edge::Neg)),
    (Bit::X, Bit::Zero, Some(Edge::Neg)),
    (Bit::X, Bit::One, Some(Edge::Pos)),
    (Bit::X, Bit::X, None),
    (Bit::X, Bit::Z, None),
    (Bit::Z, Bit::Zero, Some(Edge::Neg)),
    (Bit::Z, Bit::One, Some(Edge::Pos)),
    (Bit::Z, Bit::X, None),
    (Bit::Z, Bit::Z, None),
];

fn extends(a: &str, want: &str) -> Option<bool> {
    let (a, want) = (vector(a)?, vector(want)?);
    Some(a.extend(want.width(), a.is_signed()) == want)
}

fn selects(a: &str, low: i64, want: &str) -> Option<bool> {
    let (a, want) = (vector(a)?, vector(want)?);
    Some(a.select(low, want.width()) == want)
}

fn writes(a: &str, low: i64, part: &str, want: &str) -> Option<bool> {
    let (a, part) = (vector(a)?, vector(part)?);
    Some(is_spelled(&a.place(low, &part), want))
}

fn joins(a: &str, b: &str, want: &str) -> Option<bool> {
    let (a, b) = (vector(a)?, vector(b)?);
    Some(a.width() <= 128 - b.width() && is_spelled(&Four::append(&a, &b), want))
}

#[test]
fn extensions(rt: HostRuntime) {
    for (a, want) in EXTENSIONS {
        assert!(rt; extends(a, want) == Some(true));
    }
}

#[test]
fn selects_and_writes(rt: HostRuntime) {
    for (a, low, want) in SELECTS {
        assert!(rt; selects(a, *low, want) == Some(true));
    }
    for (a, low, part, want) in WRITES {
        assert!(rt; writes(a, *low, part, want) == Some(true));
    }
}

#[test]
fn concatenations(rt: HostRuntime) {
    for (a, b, want) in CONCATENATIONS {
        assert!(rt; joins(a, b, want) == Some(true));
    }
}

#[test]
fn edges(rt: HostRuntime) {
    for (old, new, want) in EDGES {
        assert!(rt; Edge::between(*old, *new) == *want);
    }
}
