//! Worked cases. Each answer of an expression is what Icarus Verilog 11.0 prints, by `iverilog -g2005 -o m m.v && ./m` on a file with
//! `$display("%b %b", e, (((e & 1'sb0) | 2'sb11) < 2'sb00));` for each expression e, the second digit of which is 1 where
//! e is signed.

use crate::parsed::{assigning, expression_of};
use crate::spelled::vector;
use cov_host::Sequence;
use elab_const::{Scope, constant, shape};
use four_state::Four;
use std::alloc::Global;
use verilog_tree::{Expr, Module};

/// Expressions, and the width, sign and bits of each. A number without a size has 32 bits and a sign.
const EXPRESSIONS: &str = "
4'sb1000 + 8'b00000001 = 8'b00001001
4'sb1000 + 8'sb00000001 = 8'sb11111001
4'b1111 + 4'b0001 = 4'b0000
(4'b1111 + 4'b0001) + 8'b00000000 = 8'b00010000
(4'b1111 + 4'b0001) == 4'b0000 = 1'b1
((4'b1111 + 4'b0001) == 4'b0000) + 8'b00000000 = 8'b00000001
(4'b1111 + 4'b0001) == 5'b10000 = 1'b1
4'sb1111 < 8'sb00000000 = 1'b1
4'sb1111 < 8'b00000000 = 1'b0
4'sb1111 == 4'b1111 = 1'b1
4'sb1111 == 8'sb11111111 = 1'b1
4'sb1111 == 8'b11111111 = 1'b0
4'b0001 << 8'b00000100 = 4'b0000
(4'b0001 << 8'b00000100) | 8'b00000000 = 8'b00010000
4'sb1000 >>> 1 = 4'sb1100
4'b1000 >>> 1 = 4'b0100
(4'sb1000 >>> 1) | 4'b0000 = 4'b0100
(4'sb1000 >>> 1) + 8'sb00000000 = 8'sb11111100
(4'sb1000 >> 1) + 8'sb00000000 = 8'sb01111100
4'sb1000 / 4'sb0011 = 4'sb1110
4'sb1000 % 4'sb0011 = 4'sb1110
4'sb1000 / 4'b0011 = 4'b0010
4'b0111 / 4'b0000 = 4'bxxxx
4'b1x00 + 4'b0001 = 4'bxxxx
4'b10xz | 8'b00000000 = 8'b000010xx
4'sbx000 | 8'sb00000000 = 8'sbxxxxx000
4'sbz000 | 8'sb00000000 = 8'sbxxxxx000
-4'b1000 = 4'b1000
(-4'sb1000) + 8'sb00000000 = 8'sb00001000
(~4'b0000) | 8'b00000000 = 8'b11111111
(&4'b1x01) + 8'b00000000 = 8'b00000000
(!4'b0000) + 4'sb1000 = 4'b1001
1'b1 ? 4'sb1000 : 8'sb00000001 = 8'sb11111000
1'b0 ? 4'sb1000 : 8'b00000001 = 8'b00000001
1'b1 ? 4'sb1000 : 8'b00000001 = 8'b00001000
1'bx ? 4'b1010 : 4'b1001 = 4'b10xx
(4'b0000 && 1'b0) + 8'b00000001 = 8'b00000001
4'b0010 && 4'b0100 = 1'b1
4'bx000 || 4'b0001 = 1'b1
{2'sb10, 2'sb01} = 4'b1001
{2'sb10, 2'sb01} + 8'sb00000000 = 8'b00001001
{2{2'b10}} = 4'b1010
{1 + 1{3'sb101}} + 8'sb00000000 = 8'b00101101
{3{{2'b1x, 1'bz}}} = 9'b1xz1xz1xz
$signed(4'b1000) + 8'sb00000000 = 8'sb11111000
$unsigned(4'sb1000) + 8'sb00000000 = 8'b00001000
$unsigned(4'sb1000) = 4'b1000
$signed(4'b1111 + 4'b0001) + 8'sb00000000 = 8'sb00000000
4'b1z00 === 4'b1x00 = 1'b0
4'b1z00 !== 4'b1z00 = 1'b0
12 - 4'b0011 = 32'b00000000000000000000000000001001
4'sb1111 ? 2'b01 : 1'b1 = 2'b01
4'b0011 * 2'sb11 = 4'b1001
4'sb0011 * 2'sb11 = 4'sb1101
4'b1100 ~^ 4'sb1010 = 4'b1001
{64'b1, 64'b1} + 0 = 128'b00000000000000000000000000000000000000000000000000000000000000010000000000000000000000000000000000000000000000000000000000000001
";

/// The one case that is this project's own: Icarus Verilog refuses a number without a size in a concatenation, and here it
/// has 32 bits. The answer is that of `{2'b10, 32'sd1}`.
const OWN: &str = "{2'b10, 1} = 34'b1000000000000000000000000000000001";

/// Whether the expression is a constant with this value.
fn has_value(alloc: Global, expr: &Expr, want: &Four) -> bool {
    match constant(alloc, expr, &Scope::new(alloc)) {
        Ok(value) => value == *want,
        Err(_) => false,
    }
}

/// Whether the expression has the width and sign of this vector.
fn has_shape(alloc: Global, expr: &Expr, want: &Four) -> bool {
    match shape(expr, &Scope::new(alloc)) {
        Ok(shape) => shape.width == want.width() && shape.signed == want.is_signed(),
        Err(_) => false,
    }
}

/// Whether the module assigns a constant with this value.
fn assigns(alloc: Global, modules: &Sequence<Module>, want: &Four) -> bool {
    match expression_of(modules) {
        Some(expr) => has_value(alloc, expr, want) && has_shape(alloc, expr, want),
        None => false,
    }
}

/// Whether the text is a constant expression with this value.
fn is_constant(alloc: Global, text: &str, want: &str) -> bool {
    match (vector(want), assigning(alloc, text)) {
        (Some(want), Some(modules)) => assigns(alloc, &modules, &want),
        _ => false,
    }
}

/// Whether a line says what its expression is.
fn is_case(alloc: Global, line: &str) -> bool {
    match line.split_once(" = ") {
        Some((text, want)) => is_constant(alloc, text, want),
        None => false,
    }
}

#[test]
fn values_of_expressions(rt: HostRuntime) {
    for line in EXPRESSIONS.lines().skip(1) {
        assert!(rt; is_case(rt.alloc(), line), "{line}");
    }
    assert!(rt; is_case(rt.alloc(), OWN));
}

/// What comes before and after the repeat of a level.
const LEVELS: [(&str, &str); 3] = [
    ("{", "{1'b1}} + 2'b00"),
    ("2'b00 | {", "{1'b1}}"),
    ("{{", "{1'b1}}}"),
];

/// A repeat of one bit by a count of 1, which contains the next level, and so on.
fn nested(alloc: Global, levels: usize) -> Option<String> {
    let mut text = String::new(alloc);
    for level in 0..levels {
        text.push_str(LEVELS[(levels - 1 - level) % 3].0).ok()?;
    }
    text.push_str("1'b1").ok()?;
    for level in 0..levels {
        text.push_str(LEVELS[level % 3].1).ok()?;
    }
    Some(text)
}

/// Each count is 1, and holds the repeat before it: `{{..}{1'b1}} + 2'b00`, `2'b00 | {{..}{1'b1}}` and `{{{..}{1'b1}}}` in
/// turn. If a count is evaluated twice on each level, its width first and then its value, the last one takes 2^40 steps.
#[test]
fn repeats_nested_in_counts(rt: HostRuntime) {
    let alloc = rt.alloc();
    assert!(rt;
        match nested(alloc, 40) {
            Some(text) => is_constant(alloc, text.as_str(), "2'b01"),
            None => false,
        }
    );
}
