//! Worked cases. Each answer is what Icarus Verilog 11.0 prints, by `iverilog -g2005 -o m m.v && ./m` on a file with
//! registers `a` and `b` of these widths and signs, `wire r = a OP b;` and `$display("%b", r);`, and likewise for
//! choices and cases. The comments name the cases in which the standard, or this project's own reading, says otherwise.

use crate::values::spelled::{is_spelled, vector};
use four_state::{Binary, CaseKind, Four, Truth, Unary};

/// `a OP b` and its answer.
const BINARY: &str = "
1'b1 + 1'b1 1'b0
1'sb1 * 1'sb1 1'sb1
1'bz & 1'b0 1'b0
1'bz | 1'b1 1'b1
1'bz ^ 1'b1 1'bx
1'b0 && 1'bx 1'b0
1'b1 || 1'bz 1'b1
1'bx === 1'bz 1'b0
1'bx == 1'bz 1'bx
1'sb1 < 1'sb0 1'b1
1'b1 > 1'b0 1'b1
4'b1x00 == 4'b0x00 1'b0
4'bx100 == 4'bz100 1'bx
4'b1x00 != 4'b1x00 1'bx
4'b1x00 + 4'b0001 4'bxxxx
4'b0111 / 4'b0000 4'bxxxx
4'sb0111 % 4'sb0000 4'sbxxxx
4'b10xz | 4'b0010 4'b101x
4'b10xz & 4'b11z1 4'b10xx
4'b10xz ^ 4'b1100 4'b01xx
4'b10xz ~^ 4'b1100 4'b10xx
4'b10z0 ^~ 4'b1100 4'b10x1
4'b1000 >>> 4'b0001 4'b0100
4'sb1000 >>> 4'b0001 4'sb1100
4'sbz010 >>> 4'b0010 4'sbzzz0
4'sb1000 >> 4'b0001 4'sb0100
4'b10xz << 1'b1 4'b0xz0
4'sb10xz <<< 2'b10 4'sbxz00
4'b1011 << 2'bx1 4'bxxxx
4'b1011 >> 3'b0z0 4'bxxxx
4'sb1000 / 4'sb0011 4'sb1110
4'sb1000 % 4'sb0011 4'sb1110
4'sb1000 / 4'sb1111 4'sb1000
4'sb1000 % 4'sb1111 4'sb0000
4'sb0111 % 4'sb1101 4'sb0001
4'sb0111 / 4'sb1101 4'sb1110
4'sb1000 < 4'sb0111 1'b1
4'b1000 < 4'b0111 1'b0
4'sb1111 <= 4'sb1111 1'b1
4'sb0000 >= 4'sb1111 1'b1
4'sb1x00 > 4'sb0000 1'bx
4'b1z00 === 4'b1x00 1'b0
4'b1z0x !== 4'b1z0x 1'b0
4'b0x1z && 4'bzzzz 1'bx
4'bx000 || 4'b0000 1'bx
31'sh7fffffff * 31'sh3 31'sh7ffffffd
31'h0 - 31'h1 31'h7fffffff
31'sh40000000 / 31'sh7fffffff 31'sh40000000
31'sh5234abcd % 31'sh1000 31'sh7ffffbcd
31'sh40000000 >= 31'sh3fffffff 1'b0
31'sh3fffffff + 31'sh0x 31'shxxxxxxxx
31'h7zx01234 >> 3'b100 31'h7zx0123
31'h1234567z != 31'h12345670 1'bx
31'sh40000000 >>> 5'b11111 31'sh7fffffff
64'hffffffffffffffff + 64'h2 64'h1
64'hfedcba9876543210 * 64'h123456789abcdef 64'h2236d88fe5618cf0
64'sh8000000000000000 - 64'sh1 64'sh7fffffffffffffff
64'hfedcba9876543210 / 64'h12345678 64'he00000077
64'shfedcba9876543210 % 64'sh12345678 64'shfffffffff6543210
64'sh8000000000000000 < 64'sh7fffffffffffffff 1'b1
64'hxxxxxxxxffff0000 & 64'hffff0000xxxxzzzz 64'hxxxx0000xxxx0000
64'hxxxxffffzzzz0000 | 64'hffffxxxxzzzz 64'hxxxxffffxxxxxxxx
64'h0zzzzzzzz << 6'b100000 64'hzzzzzzzz00000000
64'hffffffffffffffff << 64'h8000000000000000 64'h0
64'hx0z0x0z0x0z0x0z0 === 64'hx0z0x0z0x0z0x0z0 1'b1
65'shffffffffffffffff + 65'sh1 65'sh10000000000000000
65'sh1fffffffffffffffe * 65'sh3 65'sh1fffffffffffffffa
65'sh10000000000000000 / 65'sh3 65'sh1aaaaaaaaaaaaaaab
65'sh10000000000000001 % 65'sh1fffffffffffffff0 65'sh1fffffffffffffff1
65'sh10000000000000000 <= 65'sh0 1'b1
65'h10000000000000000 <= 65'h0 1'b0
65'sh10000000000000000 >>> 7'b1000000 65'sh1ffffffffffffffff
65'sh10000000000000000 >> 7'b1000000 65'sh1
65'h1 << 7'b1000001 65'h0
127'sh0 - 127'sh1 127'sh7fffffffffffffffffffffffffffffff
127'h7fffffffffffffffffffffffffffffff * 127'h7fffffffffffffffffffffffffffffff 127'h1
127'sh40000000000000000000000000000000 / 127'sh7fffffffffffffffffffffffffffffff 127'sh40000000000000000000000000000000
127'sh40000000000000000000000000000000 > 127'sh3fffffffffffffffffffffffffffffff 1'b0
127'h7fffffff0000000000000000xxxxxxxx ^ 127'hffffffff00000000 127'h7fffffff00000000ffffffffxxxxxxxx
127'h4xxxxxxxxxxxxxxxxxxxxxxxxxxxxxxx == 127'h3xxxxxxxxxxxxxxxxxxxxxxxxxxxxxxx 1'b0
128'hffffffffffffffffffffffffffffffff + 128'h1 128'h0
128'sh80000000000000000000000000000001 * 128'shffffffffffffffffffffffffffffffff 128'sh7fffffffffffffffffffffffffffffff
128'sh80000000000000000000000000000000 / 128'sh7 128'shedb6db6db6db6db6db6db6db6db6db6e
128'sh80000000000000000000000000000000 % 128'shfffffffffffffffffffffffffffffff9 128'shfffffffffffffffffffffffffffffffe
128'hffffffffffffffffffffffffffffffff / 128'hfffffffffffffffe 128'h10000000000000002
128'sh80000000000000000000000000000000 < 128'sh7fffffffffffffffffffffffffffffff 1'b1
128'h80000000000000000000000000000000 >= 128'h7fffffffffffffffffffffffffffffff 1'b1
128'sh80000000000000000000000000000000 >>> 7'b1111111 128'shffffffffffffffffffffffffffffffff
128'hzzzzzzzzxxxxxxxx0000000000000000 >> 7'b1000000 128'h0zzzzzzzzxxxxxxxx
128'h0zzzzzzzzxxxxxxxx << 7'b1000000 128'hzzzzzzzzxxxxxxxx0000000000000000
128'h1 << 8'b10000000 128'h0
128'h8000000000000000000000000000000x != 128'h0 1'b1
";

/// `OP a` and its answer. Of `+ 4'sb1z00` Icarus prints `1z00`: here, as with the other arithmetic operators, all
/// bits are x.
const UNARY: &str = "
- 1'sb1 1'sb1
! 1'bz 1'bx
~^ 1'bz 1'bx
~ 1'bz 1'bx
& 4'b1x01 1'b0
~& 4'b1x11 1'bx
| 4'b0z10 1'b1
~| 4'b000z 1'bx
^ 4'b1110 1'b1
^ 4'b1z10 1'bx
~^ 4'b1110 1'b0
^~ 4'b0110 1'b1
! 4'b00x0 1'bx
~ 4'b10xz 4'b01xx
+ 4'sb1z00 4'sbxxxx
- 4'sb1000 4'sb1000
- 4'b0011 4'b1101
^ 31'h7fffffff 1'b1
& 31'h7fffffff 1'b1
- 64'sh1 64'shffffffffffffffff
| 64'h0x000000000000 1'bx
~^ 65'h10000000000000001 1'b1
! 65'h0 1'b1
- 127'sh40000000000000000000000000000000 127'sh40000000000000000000000000000000
~ 128'h123456789abcdefxxxxxxxxzzzzzzzz 128'hfedcba9876543210xxxxxxxxxxxxxxxx
^ 128'h80000000000000000000000000000001 1'b0
~& 128'hffffffffffffffffffffffffffffffff 1'b0
";

/// A condition, `a`, `b` and `c ? a : b`. Of the second and the last case Icarus keeps the bits that are z in both;
/// by clause 4.1.13 z with z gives x.
const CHOICES: &[(Truth, &str, &str, &str)] = &[
    (Truth::Strange, "4'b1010", "4'b1001", "4'b10xx"),
    (Truth::Strange, "4'sb1xz0", "4'sb1xz0", "4'sb1xx0"),
    (Truth::True, "4'b10xz", "4'b0000", "4'b10xz"),
    (Truth::False, "4'b10xz", "4'b0z00", "4'b0z00"),
    (
        Truth::Strange,
        "64'hffff0000xxxxzzzz",
        "64'hff00ff00xxxxzzzz",
        "64'hffxxxx00xxxxxxxx",
    ),
];

/// A kind of case, a selector, a label, and whether they match.
const LABELS: &[(CaseKind, &str, &str, bool)] = &[
    (CaseKind::Exact, "4'b1x0z", "4'b1x0z", true),
    (CaseKind::Exact, "4'b1x0z", "4'b1z0z", false),
    (CaseKind::AnyZ, "4'b1x01", "4'b1z0z", true),
    (CaseKind::AnyZ, "4'b1x01", "4'b1001", false),
    (CaseKind::AnyZ, "4'bz101", "4'b1101", true),
    (CaseKind::AnyZ, "4'b1101", "4'b0z01", false),
    (CaseKind::AnyXZ, "4'b1x01", "4'b1001", true),
    (CaseKind::AnyXZ, "4'b1001", "4'b1zx1", true),
    (CaseKind::AnyXZ, "4'b1x01", "4'b1000", false),
];

fn binary_of(word: &str) -> Option<Binary> {
    Some(match word {
        "*" => Binary::Multiply,
        "/" => Binary::Divide,
        "%" => Binary::Modulus,
        "+" => Binary::Add,
        "-" => Binary::Subtract,
        "<<" => Binary::ShiftLeft,
        ">>" => Binary::ShiftRight,
        "<<<" => Binary::ArithmeticShiftLeft,
        ">>>" => Binary::ArithmeticShiftRight,
        "<" => Binary::LessThan,
        "<=" => Binary::LessOrEqual,
        ">" => Binary::GreaterThan,
        ">=" => Binary::GreaterOrEqual,
        "==" => Binary::Equal,
        "!=" => Binary::NotEqual,
        "===" => Binary::CaseEqual,
        "!==" => Binary::CaseNotEqual,
        "&" => Binary::BitwiseAnd,
        "^" => Binary::BitwiseXor,
        "~^" => Binary::BitwiseXnor,
        "^~" => Binary::BitwiseNxor,
        "|" => Binary::BitwiseOr,
        "&&" => Binary::LogicalAnd,
        "||" => Binary::LogicalOr,
        _ => return None,
    })
}

fn unary_of(word: &str) -> Option<Unary> {
    Some(match word {
        "+" => Unary::Positive,
        "-" => Unary::Negative,
        "!" => Unary::LogicalNot,
        "~" => Unary::BitwiseNot,
        "&" => Unary::ReduceAnd,
        "~&" => Unary::ReduceNand,
        "|" => Unary::ReduceOr,
        "~|" => Unary::ReduceNor,
        "^" => Unary::ReduceXor,
        "~^" => Unary::ReduceXnor,
        "^~" => Unary::ReduceNxor,
        _ => return None,
    })
}

/// The answer of an operator, where its operands have shapes that it takes.
fn binary(op: Binary, a: &Four, b: &Four) -> Option<Four> {
    if op.takes_same_shape() && !a.has_same_shape(b) {
        return None;
    }
    Some(Four::binary(op, a, b))
}

/// Whether a line of four words says what an operator gives.
fn binary_case(line: &str) -> Option<bool> {
    let mut words = line.split_whitespace();
    let a = vector(words.next()?)?;
    let op = binary_of(words.next()?)?;
    let b = vector(words.next()?)?;
    Some(is_spelled(&binary(op, &a, &b)?, words.next()?))
}

/// Whether a line of three words says what an operator gives.
fn unary_case(line: &str) -> Option<bool> {
    let mut words = line.split_whitespace();
    let op = unary_of(words.next()?)?;
    let a = vector(words.next()?)?;
    Some(is_spelled(&Four::unary(op, &a), words.next()?))
}

fn chooses(condition: Truth, a: &Four, b: &Four, want: &str) -> bool {
    a.has_same_shape(b) && is_spelled(&Four::choose(condition, a, b), want)
}

fn matches_label(kind: CaseKind, a: &Four, b: &Four, want: bool) -> bool {
    a.width() == b.width() && Four::label(kind, a, b) == want
}

#[test]
fn binary_operators(rt: HostRuntime) {
    for line in BINARY.lines().skip(1) {
        assert!(rt; binary_case(line) == Some(true), "{line}");
    }
}

#[test]
fn unary_operators(rt: HostRuntime) {
    for line in UNARY.lines().skip(1) {
        assert!(rt; unary_case(line) == Some(true), "{line}");
    }
}

#[test]
fn choices(rt: HostRuntime) {
    for (condition, a, b, want) in CHOICES {
        assert!(rt;
            match (vector(a), vector(b)) {
                (Some(a), Some(b)) => chooses(*condition, &a, &b, want),
                _ => false,
            }
        );
    }
}

#[test]
fn labels(rt: HostRuntime) {
    for (kind, a, b, want) in LABELS {
        assert!(rt;
            match (vector(a), vector(b)) {
                (Some(a), Some(b)) => matches_label(*kind, &a, &b, *want),
                _ => false,
            }
        );
    }
}
