//! Expressions and modules with their trees, and sources with their faults.
use verilog_parser::ParseKind;

/// An expression, and its tree as a text.
pub(crate) struct Expression {
    pub(crate) source: &'static str,
    pub(crate) tree: &'static str,
}

/// A source, and its modules as a text.
pub(crate) struct Case {
    pub(crate) source: &'static str,
    pub(crate) tree: &'static str,
}

/// A source, and the fault in it.
pub(crate) struct Refusal {
    pub(crate) source: &'static str,
    pub(crate) kind: ParseKind,
    pub(crate) line: u32,
    pub(crate) column: u32,
    pub(crate) detail: &'static str,
}

#[rattlefmt::skip]
pub(crate) const EXPRESSIONS: &[Expression] = &[
    // clause 4.1.2: the precedence of the operators
    Expression { source: "a || b && c | d ^ e & f == g < h << i + j * ~k", tree: "(|| a (&& b (| c (^ d (& e (== f (< g (<< h (+ i (* j (~ k)))))))))))" },
    Expression { source: "a * b + c << d < e == f & g ^ h | i && j || k", tree: "(|| (&& (| (^ (& (== (< (<< (+ (* a b) c) d) e) f) g) h) i) j) k)" },
    // operators of one level group to the left
    Expression { source: "a - b - c + d", tree: "(+ (- (- a b) c) d)" },
    Expression { source: "a / b % c * d", tree: "(* (% (/ a b) c) d)" },
    Expression { source: "a << b >> c <<< d >>> e", tree: "(>>> (<<< (>> (<< a b) c) d) e)" },
    Expression { source: "a < b <= c > d >= e", tree: "(>= (> (<= (< a b) c) d) e)" },
    Expression { source: "a == b != c === d !== e", tree: "(!== (=== (!= (== a b) c) d) e)" },
    Expression { source: "a ^ b ~^ c ^~ d", tree: "(^~ (~^ (^ a b) c) d)" },
    // ?: groups to the right
    Expression { source: "a ? b : c ? d : e", tree: "(? a b (? c d e))" },
    Expression { source: "a ? b ? c : d : e", tree: "(? a (? b c d) e)" },
    Expression { source: "a || b ? c : d", tree: "(? (|| a b) c d)" },
    // unary operators, repeated without parentheses
    Expression { source: "+a - -b", tree: "(- (+ a) (- b))" },
    Expression { source: "!~a", tree: "(! (~ a))" },
    Expression { source: "&a & ~&b", tree: "(& (& a) (~& b))" },
    Expression { source: "|a | ~|b", tree: "(| (| a) (~| b))" },
    Expression { source: "^a ^ ~^b ^~ ^~c", tree: "(^~ (^ (^ a) (~^ b)) (^~ c))" },
    // parentheses are a node
    Expression { source: "(a + b) * ((c))", tree: "(* ( (+ a b)) ( ( c)))" },
    // clause 4.2.1: selects
    Expression { source: "a[1]", tree: "(bit a 32s1)" },
    Expression { source: "a[i][j]", tree: "(bit (bit a i) j)" },
    Expression { source: "a[7:0]", tree: "(part a 32s7 32s0)" },
    Expression { source: "a[i][7:0]", tree: "(part (bit a i) 32s7 32s0)" },
    Expression { source: "a[b +: 4]", tree: "(up a b 32s4)" },
    Expression { source: "a[b -: 4][0]", tree: "(bit (down a b 32s4) 32s0)" },
    Expression { source: "a[b ? c : d]", tree: "(bit a (? b c d))" },
    // clause 4.1.14: concatenations
    Expression { source: "{a, b[0], 2'b10}", tree: "{ a (bit b 32s0) 2u2}" },
    Expression { source: "{a}", tree: "{ a}" },
    Expression { source: "{4{a, b}}", tree: "{*32s4 a b}" },
    Expression { source: "{{a}, {2{b}}}", tree: "{ { a} {*32s2 b}}" },
    Expression { source: "$signed(a) + $unsigned({b})", tree: "(+ (signed a) (unsigned { b}))" },
    // clause 2.5.1: numbers
    Expression { source: "4'b1001 + 5 'D 3 + 3'b01x + 12'hx + 16'hz", tree: "(+ (+ (+ (+ 4u9 5u3) 3u01x) 12uxxxxxxxxxxxx) 16uzzzzzzzzzzzzzzzz)" },
    Expression { source: "4'shf", tree: "4s15" },
    Expression { source: "'h8F + 'o17 + 1_0", tree: "(+ (+ 32u143 32u15) 32s10)" },
    Expression { source: "8'b1 + 8'bx1 + 8'bz + 2'b1111", tree: "(+ (+ (+ 8u1 8uxxxxxxx1) 8uzzzzzzzz) 2u3)" },
    Expression { source: "8'h?", tree: "8uzzzzzzzz" },
    Expression { source: "8'dz + 9'd300", tree: "(+ 8uzzzzzzzz 9u300)" },
    Expression { source: "128'hffffffff_ffffffff_ffffffff_ffffffff", tree: "128u340282366920938463463374607431768211455" },
];

#[rattlefmt::skip]
pub(crate) const CASES: &[Case] = &[
    Case { source: "", tree: "" },
    Case { source: "module m; endmodule module n; endmodule", tree: "m ( )\nn ( )\n" },
    // headers
    Case { source: "module m(); endmodule", tree: "m ( )\n" },
    Case { source: "module m(a, b); input a; output b; endmodule", tree: "m ( a b )\n@17 input a\n@26 output b\n" },
    Case { source: "module m(input a, b, output reg signed [3:0] c, output wire d); endmodule", tree: "m ( a b c d )\n@10 input a b\n@22 output reg signed (range 32s3 32s0) c\n@49 output d\n" },
    Case { source: "module m #(A = 1, parameter signed [7:0] B = 2, C = 3, parameter D = 4)(input a); endmodule", tree: "m A=32s1 signed (range 32s7 32s0) B=32s2 signed (range 32s7 32s0) C=32s3 D=32s4 ( a )\n@73 input a\n" },
    // declarations
    Case { source: "module m; output reg [1:0] a, b; endmodule", tree: "m ( )\n@11 output reg (range 32s1 32s0) a b\n" },
    Case { source: "module m; wire signed [3:0] a, b = c + d; endmodule", tree: "m ( )\n@11 net signed (range 32s3 32s0) a b=(+ c d)\n" },
    Case { source: "module m; reg a, b = 1; reg [7:0] w [0:3], v; endmodule", tree: "m ( )\n@11 var a b=32s1\n@25 var (range 32s7 32s0) w (range 32s0 32s3) v\n" },
    Case { source: "module m; integer i, j = 2; endmodule", tree: "m ( )\n@11 integer i j=32s2\n" },
    Case { source: "module m; parameter integer A = 1, B = 2; localparam [3:0] C = 3; endmodule", tree: "m ( )\n@11 params integer A=32s1 integer B=32s2\n@43 params local (range 32s3 32s0) C=32s3\n" },
    // clause 6.1: continuous assignments
    Case { source: "module m; assign a = b, {c, d[0]} = e; endmodule", tree: "m ( )\n@11 (assign a b)\n@11 (assign { c (bit d 32s0)} e)\n" },
    Case { source: "module m; assign a[1][3:2] = b, c[d +: 2] = e; endmodule", tree: "m ( )\n@11 (assign (part (bit a 32s1) 32s3 32s2) b)\n@11 (assign (up c d 32s2) e)\n" },
    // clause 9.7: event lists
    Case { source: "module m; always @* a = b; endmodule", tree: "m ( )\n@11 always * : (= a b)@21\n" },
    Case { source: "module m; always @(*) a = b; endmodule", tree: "m ( )\n@11 always * : (= a b)@23\n" },
    Case { source: "module m; always @(a or b, c) ; endmodule", tree: "m ( )\n@11 always  a b c : ;\n" },
    Case { source: "module m; always @(posedge c or negedge r) q <= d; endmodule", tree: "m ( )\n@11 always  pos c neg r : (<= q d)@44\n" },
    // statements
    Case { source: "module m; initial begin : b a = 1; b[0] <= 2; end endmodule", tree: "m ( )\n@11 initial begin (= a 32s1)@29 (<= (bit b 32s0) 32s2)@36 end\n" },
    Case { source: "module m; initial if (a) if (b) ; else c = 1; endmodule", tree: "m ( )\n@11 initial (if a) (if b) ; else (= c 32s1)@40\n" },
    Case { source: "module m; initial case (a) 1, 2: ; default ; 3: b = 1; endcase endmodule", tree: "m ( )\n@11 initial (case a) [ 32s1 32s2 : ;] [ : ;] [ 32s3 : (= b 32s1)@49]\n" },
    Case { source: "module m; initial casez (a) default: casex (b) c: ; endcase endcase endmodule", tree: "m ( )\n@11 initial (casez a) [ : (casex b) [ c : ;]]\n" },
    Case { source: "module m; initial for (i = 0; i < 4; i = i + 1) w[i] = 0; endmodule", tree: "m ( )\n@11 initial (for i 32s0 (< i 32s4) i (+ i 32s1)) (= (bit w i) 32s0)@49\n" },
    Case { source: "module m; initial begin $display; $write(); $strobe(\"x\", a + b); $monitor(a); end always @(posedge c) $finish; endmodule", tree: "m ( )\n@11 initial begin task task task task end\n@83 always  pos c : task\n" },
    // clause 12.1.2: instances
    Case { source: "module m; n u(), v(a, , b + c); endmodule", tree: "m ( )\n@11 instance n # ; u ; v =a - =(+ b c)\n" },
    Case { source: "module m; n #(1, 2) u(.a(b), .c()); endmodule", tree: "m ( )\n@11 instance n # =32s1 =32s2 ; u .a=b .c\n" },
    Case { source: "module m; n #(.A(1)) u(,); endmodule", tree: "m ( )\n@11 instance n # .A=32s1 ; u - -\n" },
    Case { source: "module m; initial x = a <= b; endmodule", tree: "m ( )\n@11 initial (= x (<= a b))@19\n" },
];

#[rattlefmt::skip]
pub(crate) const REFUSALS: &[Refusal] = &[
    Refusal { source: "module m(input a) endmodule", kind: ParseKind::Unexpected, line: 1, column: 19, detail: "" },
    Refusal { source: "module m(input a);", kind: ParseKind::EarlyEnd, line: 0, column: 0, detail: "" },
    Refusal { source: "module", kind: ParseKind::EarlyEnd, line: 0, column: 0, detail: "" },
    Refusal { source: "m", kind: ParseKind::Unexpected, line: 1, column: 1, detail: "" },
    Refusal { source: "module m; endmodule;", kind: ParseKind::Unexpected, line: 1, column: 20, detail: "" },
    Refusal { source: "module m; assign a = b +; endmodule", kind: ParseKind::Unexpected, line: 1, column: 25, detail: "" },
    Refusal { source: "module m; assign a = b[1][2][3]; endmodule", kind: ParseKind::Unexpected, line: 1, column: 29, detail: "" },
    Refusal { source: "module m; assign a[3:0][1] = b; endmodule", kind: ParseKind::Unexpected, line: 1, column: 24, detail: "" },
    Refusal { source: "module m; assign (a) = b; endmodule", kind: ParseKind::Unexpected, line: 1, column: 18, detail: "" },
    Refusal { source: "module m; assign a = 'b0 'b0; endmodule", kind: ParseKind::Unexpected, line: 1, column: 26, detail: "" },
    Refusal { source: "module m; initial case (a) endcase endmodule", kind: ParseKind::Unexpected, line: 1, column: 28, detail: "" },
    Refusal { source: "module m; initial case (a) default ; default ; endcase endmodule", kind: ParseKind::Unexpected, line: 1, column: 38, detail: "" },
    Refusal { source: "module m; initial ; else ; endmodule", kind: ParseKind::Unexpected, line: 1, column: 21, detail: "" },
    Refusal { source: "module m; n u(a, .b(c)); endmodule", kind: ParseKind::LeftOut, line: 1, column: 18, detail: "hierarchical-name" },
    Refusal { source: "module m; n u(.a(b), c); endmodule", kind: ParseKind::Unexpected, line: 1, column: 22, detail: "" },
    Refusal { source: "module m; n u; endmodule", kind: ParseKind::Unexpected, line: 1, column: 14, detail: "" },
    Refusal { source: "module m(a, input b); endmodule", kind: ParseKind::Unexpected, line: 1, column: 13, detail: "" },
    Refusal { source: "module m; initial #5 ; endmodule", kind: ParseKind::LeftOut, line: 1, column: 19, detail: "delay" },
    Refusal { source: "module m; initial @(a) ; endmodule", kind: ParseKind::LeftOut, line: 1, column: 19, detail: "event-control" },
    Refusal { source: "module m; always @* a <= b; endmodule", kind: ParseKind::LeftOut, line: 1, column: 23, detail: "nonblocking" },
    Refusal { source: "module m; always @(a) a <= b; endmodule", kind: ParseKind::LeftOut, line: 1, column: 25, detail: "nonblocking" },
    Refusal { source: "module m; always @* $display; endmodule", kind: ParseKind::LeftOut, line: 1, column: 21, detail: "system-call" },
    Refusal { source: "module m; always @(posedge c) $monitor; endmodule", kind: ParseKind::LeftOut, line: 1, column: 31, detail: "system-call" },
    Refusal { source: "module m; assign a = $random; endmodule", kind: ParseKind::LeftOut, line: 1, column: 22, detail: "system-call" },
    Refusal { source: "module m; assign a = b.c; endmodule", kind: ParseKind::LeftOut, line: 1, column: 23, detail: "hierarchical-name" },
    Refusal { source: "module m; assign a = \"s\"; endmodule", kind: ParseKind::LeftOut, line: 1, column: 22, detail: "string" },
    Refusal { source: "module m; assign a = b ** c; endmodule", kind: ParseKind::LeftOut, line: 1, column: 24, detail: "power" },
    Refusal { source: "module m; initial -> e; endmodule", kind: ParseKind::LeftOut, line: 1, column: 19, detail: "event" },
    Refusal { source: "module m; initial assign a = b; endmodule", kind: ParseKind::LeftOut, line: 1, column: 19, detail: "procedural-assign" },
    Refusal { source: "module m; initial while (a) ; endmodule", kind: ParseKind::LeftOut, line: 1, column: 19, detail: "loop" },
    Refusal { source: "module m; initial fork join endmodule", kind: ParseKind::LeftOut, line: 1, column: 19, detail: "fork" },
    Refusal { source: "module m; function f; endmodule", kind: ParseKind::LeftOut, line: 1, column: 11, detail: "function" },
    Refusal { source: "module m; and g(a, b, c); endmodule", kind: ParseKind::LeftOut, line: 1, column: 11, detail: "gate" },
    Refusal { source: "module m; tri a; endmodule", kind: ParseKind::LeftOut, line: 1, column: 11, detail: "net-type" },
    Refusal { source: "module m; inout a; endmodule", kind: ParseKind::LeftOut, line: 1, column: 11, detail: "inout" },
    Refusal { source: "module m; real a; endmodule", kind: ParseKind::LeftOut, line: 1, column: 11, detail: "real" },
    Refusal { source: "module m; generate endmodule", kind: ParseKind::LeftOut, line: 1, column: 11, detail: "generate" },
    Refusal { source: "primitive p; endmodule", kind: ParseKind::LeftOut, line: 1, column: 1, detail: "primitive" },
];
