//! Texts of bodies that look random.

use crate::random_bodies::random::Random;
use std::alloc::Global;

/// The module of a body up to its first statement. Its things are in this order: signals of one bit, of two bits, and a memory.
const HEAD: &str = "module m(input clk, input [1:0] a, input [1:0] b, input [0:1] c,
  output reg [1:0] p, output reg [0:1] q, output reg [1:0] r, output reg [1:0] s);
  reg [1:0] w [0:3];
  always @(posedge clk) begin
";

/// What each capital letter may represent, one way on each line: `B` a body, `S` a statement, `Q` one inside of it, `A` an
/// assignment, `L` and `J` arms of a case, `G` a label, `T` a term, `F` a smaller one, `P` an operand.
const RULES: &str = "
B S S S
S if (F) begin Q end else Q
S if (F) begin Q end else Q
S if (F) Q
S K (F) L default: Q endcase
S begin Q Q end
S A
Q if (F) begin A end else A
Q if (F) A
Q K (F) J default: A endcase
Q begin A A end
Q A
Q A
K case
K casez
K casex
L
L G: Q
L G: Q G: Q
L G: Q G, F: Q G: Q
J
J G: A
J G: A G: A
J G: A G, F: A G: A
G 2'bHH
H 0
H 1
H ?
H x
A p[X] = T;
A q[X] = T;
A r[X] <= T;
A w[X] <= T;
A {p, q[0]} = T;
A {r[1], s} <= T;
A p = T;
A q = T;
A r <= T;
A s <= T;
X V
X V O P
T (U F)
T (F ? F : F)
T {F, P}
T P
T (F O F)
T (F O F)
T (F O F)
F (U P)
F (P ? P : P)
F {P, P}
F P
F (P O P)
F (P O P)
F (P O P)
P 2'bZZ
P V[V]
P w[V]
P a[1:0]
P V
P V
P V
P V
Z 0
Z 0
Z 1
Z 1
Z x
Z z
V a
V b
V c
V p
V q
V r
V s
U ~
U !
U &
U |
U ^
O &
O |
O ^
O +
O -
O ==
O !=
O ===
O <
O &&
O ||
O <<
";

/// More steps than the rules take from a body to an operand.
const DEPTH: usize = 16;

/// A writer of a text.
#[derive(Drop)]
struct Writer {
    text: Vec<u8>,
    /// Something has not been written for want of memory.
    is_cut: bool,
    random: Random,
}

impl Writer {
    /// Writes what a letter represents.
    fn write(&mut self, letter: u8, depth: usize) {
        let rule = self.rule_of(letter);
        for byte in rule.as_bytes() {
            if !byte.is_ascii_uppercase() {
                self.add(&[*byte]);
            } else if depth > 0 {
                self.write(*byte, depth - 1);
            }
        }
    }

    /// One of the ways of a letter.
    fn rule_of(&mut self, letter: u8) -> &'static str {
        let mut left = self.random.below(rule_count(letter));
        for line in RULES.lines() {
            if line.as_bytes().first() == Some(&letter) {
                if left == 0 {
                    return line.split_once(' ').unwrap_or(("", "")).1;
                }
                left -= 1;
            }
        }
        ""
    }

    fn add(&mut self, bytes: &[u8]) {
        if self.text.extend_from_slice(bytes).is_err() {
            self.is_cut = true;
        }
    }
}

/// How many ways a letter has.
fn rule_count(letter: u8) -> usize {
    let mut count = 0usize;
    for line in RULES.lines() {
        if line.as_bytes().first() == Some(&letter) {
            count = count.saturating_add(1);
        }
    }
    count
}

/// The text of a module with one body. None for want of memory.
pub(crate) fn body_text(alloc: Global, seed: u64) -> Option<Vec<u8>> {
    let mut writer = Writer {
        text: Vec::new(alloc),
        is_cut: false,
        random: Random::new(seed),
    };
    writer.random.number();
    writer.add(HEAD.as_bytes());
    writer.write(b'B', DEPTH);
    writer.add(b"\n  end\nendmodule\n");
    if writer.is_cut {
        None
    } else {
        Some(writer.text)
    }
}
