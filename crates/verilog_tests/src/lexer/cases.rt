//! Short sources, and their tokens or their faults.
use verilog_lexer::LexKind;

/// A source, the kinds of its tokens by their first letters, and their texts with grave accents between.
pub(crate) struct Case {
    pub(crate) source: &'static str,
    pub(crate) kinds: &'static str,
    pub(crate) texts: &'static str,
}

/// A source, and the fault in it.
pub(crate) struct Refusal {
    pub(crate) source: &'static str,
    pub(crate) kind: LexKind,
    pub(crate) line: u32,
    pub(crate) column: u32,
    pub(crate) detail: &'static str,
}

#[rattlefmt::skip]
pub(crate) const CASES: &[Case] = &[
    // clause 2.7.3: keywords are not identifiers
    Case { source: "module m;", kinds: "KIO", texts: "module`m`;" },
    // clause 2.2: spaces, tabs, newlines and formfeeds separate tokens
    Case { source: "a\tb\nc\r\nd\x0ce f", kinds: "IIIIII", texts: "a`b`c`d`e`f" },
    // clause 2.3: a one-line comment ends with the line
    Case { source: "a // b\nc", kinds: "II", texts: "a`c" },
    // clause 2.3: a block comment ends with the first */
    Case { source: "a /* b\n */ c", kinds: "II", texts: "a`c" },
    // clause 2.3: block comments shall not be nested
    Case { source: "a /* /* */ b */", kinds: "IIOO", texts: "a`b`*`/" },
    // clause 2.3: // has no special meaning in a block comment
    Case { source: "a /* // */ b", kinds: "II", texts: "a`b" },
    // clause 2.3: /* has no special meaning in a one-line comment
    Case { source: "// /* \na", kinds: "I", texts: "a" },
    // clause 2.5.1, example 1: unsized constants
    Case { source: "'h 837FF 'o7460 659", kinds: "BBD", texts: "'h 837FF`'o7460`659" },
    // clause 2.5.1, example 2: sized constants
    Case { source: "4'b1001 5 'D 3", kinds: "DBDB", texts: "4`'b1001`5`'D 3" },
    // clause 2.5.1, example 2: unknown and high-impedance digits
    Case { source: "3'b01x 12'hx 16'hz", kinds: "DBDBDB", texts: "3`'b01x`12`'hx`16`'hz" },
    // clause 2.5.1, example 3: signs
    Case { source: "-8 'd 6 4 'shf -4 'sd15 16'sd?", kinds: "ODBDBODBDB", texts: "-`8`'d 6`4`'shf`-`4`'sd15`16`'sd?" },
    // clause 2.5.1, example 5: underscores
    Case { source: "27_195_000 16'b0011_0101_0001_1111 32 'h 12ab_f001", kinds: "DDBDB", texts: "27_195_000`16`'b0011_0101_0001_1111`32`'h 12ab_f001" },
    // clause 2.7: examples of identifiers
    Case { source: "shiftreg_a busa_index error_condition merge_ab _bus3 n$657", kinds: "IIIIII", texts: "shiftreg_a`busa_index`error_condition`merge_ab`_bus3`n$657" },
    // clause 2.7.4: names of system tasks
    Case { source: "$display (\"x\"); $a$b", kinds: "SOQOOS", texts: "$display`(`\"x\"`)`;`$a$b" },
    // clause 2.6.3: \" is a quote in a string
    Case { source: "\"say \\\"x\\\"\" y", kinds: "QI", texts: "\"say \\\"x\\\"\"`y" },
    // clause 2.6.3: \\ is a backslash in a string
    Case { source: "\"\\\\\" y", kinds: "QI", texts: "\"\\\\\"`y" },
    // clause 4.1: arithmetic shifts
    Case { source: "a<<<b>>>c", kinds: "IOIOI", texts: "a`<<<`b`>>>`c" },
    // clause 2.4: white space separates operators
    Case { source: "a<< <b", kinds: "IOOI", texts: "a`<<`<`b" },
    // clause 4.1: shifts and relations
    Case { source: "a>>c>=d>e<=f<g", kinds: "IOIOIOIOIOI", texts: "a`>>`c`>=`d`>`e`<=`f`<`g" },
    // clause 4.1: equalities
    Case { source: "a===b!==c==d!=e=f", kinds: "IOIOIOIOIOI", texts: "a`===`b`!==`c`==`d`!=`e`=`f" },
    // clause 4.1: logical and bit-wise operators
    Case { source: "a&&b||c&d|e^f", kinds: "IOIOIOIOIOI", texts: "a`&&`b`||`c`&`d`|`e`^`f" },
    // clause 4.1: reductions
    Case { source: "~&a ~|b ~^c ^~d !e ~f", kinds: "OIOIOIOIOIOI", texts: "~&`a`~|`b`~^`c`^~`d`!`e`~`f" },
    // clause 4.1: arithmetic operators
    Case { source: "a**b*c/d%e+f-g", kinds: "IOIOIOIOIOIOI", texts: "a`**`b`*`c`/`d`%`e`+`f`-`g" },
    // clause 4.2.1: part-selects with a width
    Case { source: "a[7+:4] b[7-:4]", kinds: "IODODOIODODO", texts: "a`[`7`+:`4`]`b`[`7`-:`4`]" },
    // clause 9.7.3: event triggers
    Case { source: "->e", kinds: "OI", texts: "->`e" },
    // clause 9.7.5: the star in parentheses is no attribute
    Case { source: "@(*)", kinds: "OOOO", texts: "@`(`*`)" },
    // clause 9.7.5: white space round the star
    Case { source: "@( * ) @(* )", kinds: "OOOOOOOO", texts: "@`(`*`)`@`(`*`)" },
    // clause 2.8, example 1: attributes with commas
    Case { source: "(* full_case, parallel_case *) case (foo)", kinds: "KOIO", texts: "case`(`foo`)" },
    // clause 2.8, example 3: attributes with values
    Case { source: "(* fsm_state=1 *) reg [3:0] r;", kinds: "KODODOIO", texts: "reg`[`3`:`0`]`r`;" },
    // clause 4.1.13: the conditional operator
    Case { source: "a?b:c;", kinds: "IOIOIO", texts: "a`?`b`:`c`;" },
    // annex A.8: braces and dots
    Case { source: "{a,b}.c#1", kinds: "OIOIOOIOD", texts: "{`a`,`b`}`.`c`#`1" },
    // clause 2.5.1: a digit of another base ends the number, as written for the profile
    Case { source: "4'b12", kinds: "DBD", texts: "4`'b1`2" },
    // the same for x among decimal digits
    Case { source: "4'd1x 4'dx1", kinds: "DBIDBD", texts: "4`'d1`x`4`'dx`1" },
    // the same for a word after the digits
    Case { source: "4'o7and", kinds: "DBK", texts: "4`'o7`and" },
    // clause 2.5.1, example 1: 4af is no number; its parts are two tokens, which the grammar refuses
    Case { source: "4af", kinds: "DI", texts: "4`af" },
    // example case white-space-in-source
    Case { source: "module\x0bm\r\n(\x0cinput\ta ) ;endmodule", kinds: "KIOKIOOK", texts: "module`m`(`input`a`)`;`endmodule" },
    // example case comments-in-source
    Case { source: "// one line\nmodule /* several\nlines */ m(input a /**/); // end\nendmodule\n", kinds: "KIOKIOOK", texts: "module`m`(`input`a`)`;`endmodule" },
    // example case attributes-in-source
    Case { source: "(* top, note = \"x\" *) module m((* keep *) input a);\nendmodule\n", kinds: "KIOKIOOK", texts: "module`m`(`input`a`)`;`endmodule" },
    // clause 19.3.1, example 1; Icarus Verilog 11 -E gives reg [1:8] data;
    Case { source: "`define wordsize 8\nreg [1:`wordsize] data;", kinds: "KODODOIO", texts: "reg`[`1`:`8`]`data`;" },
    // clause 19.3.1: a comment is no part of the text; Icarus gives 1;
    Case { source: "`define A 1 // c\n`A;", kinds: "DO", texts: "1`;" },
    // clause 19.3.1: a backslash continues the text; Icarus gives 1 + 2;
    Case { source: "`define A 1 \\\n + 2\n`A;", kinds: "DODO", texts: "1`+`2`;" },
    // example case define-continued-on-next-line
    Case { source: "`define HEAD module m( \\\n  input a);\n`HEAD\nendmodule\n", kinds: "KIOKIOOK", texts: "module`m`(`input`a`)`;`endmodule" },
    // clause 19.3.1: macros are replaced where they are used; Icarus gives 3;
    Case { source: "`define A `B\n`define B 3\n`A;", kinds: "DO", texts: "3`;" },
    // clause 19.3.1: the latest text counts; Icarus gives 2;
    Case { source: "`define A 1\n`define A 2\n`A;", kinds: "DO", texts: "2`;" },
    // clause 19.3.2 and 19.4; Icarus gives y
    Case { source: "`define A 1\n`undef A\n`ifdef A\nx\n`else\ny\n`endif", kinds: "I", texts: "y" },
    // clause 19.4: the first branch that holds; Icarus gives y
    Case { source: "`define B\n`ifdef A\nx\n`elsif B\ny\n`elsif B\nz\n`else\nw\n`endif", kinds: "I", texts: "y" },
    // clause 19.4: nested conditions; Icarus gives z
    Case { source: "`ifdef A\n`ifdef B\nx\n`else\ny\n`endif\n`else\nz\n`endif", kinds: "I", texts: "z" },
    // example case conditions-nested
    Case { source: "`ifdef A\n`ifdef B\n`else\n`endif\nmodule x(\n`else\n`ifndef B\nm a\n`endif\n`endif\n;", kinds: "IIO", texts: "m`a`;" },
    // example case condition-taken
    Case { source: "`define YES\n`ifdef YES\nm a\n`else\nm b\n`endif\n;", kinds: "IIO", texts: "m`a`;" },
    // clause 19.4: ifndef; Icarus gives x
    Case { source: "`ifndef A\nx\n`endif", kinds: "I", texts: "x" },
    // clause 19.4: what is left out defines nothing; Icarus gives y
    Case { source: "`ifdef NO\n`define A 1\n`endif\n`ifdef A\nx\n`else\ny\n`endif", kinds: "I", texts: "y" },
    // example case left-out-part-is-not-read
    Case { source: "`ifdef NO\n`undefined_macro \\ `include \"none.vh\"\n// `endif\n/* `endif */ \"`endif\"\n`define X \n`endif\nm a;", kinds: "IIO", texts: "m`a`;" },
    // clause 19.4: comments in what is left out; Icarus gives y
    Case { source: "`ifdef NO\n// `endif\n/* `endif */\nx\n`endif\ny", kinds: "I", texts: "y" },
    // clause 19.4: directives on one line; Icarus gives x y
    Case { source: "`ifdef A `else x `endif y", kinds: "II", texts: "x`y" },
    // a quote that is not closed on its line is left out by itself, and the directive after it is read
    Case { source: "`ifdef A\n\"\\\"\\\"\\\" `endif x\ny", kinds: "II", texts: "x`y" },
    // after such a line a string is left out with the directive in it
    Case { source: "`ifdef A\n\"\\\"\\\"\n\"`endif\" `endif x\ny", kinds: "II", texts: "x`y" },
    // clause 19.3.1: a macro without text; Icarus gives a b;
    Case { source: "`define E\na `E b;", kinds: "IIO", texts: "a`b`;" },
    // clause 19.3.1: a text may define another macro; Icarus gives 5;
    Case { source: "`define A `define B 5\n`A\n`B;", kinds: "DO", texts: "5`;" },
    // clause 2.3: // within a block comment of a text; Icarus gives x y;
    Case { source: "`define A x /* // */ y\n`A;", kinds: "IIO", texts: "x`y`;" },
    // clause 2.6: // within a string is no comment
    Case { source: "`define S \"a//b\"\n`S;", kinds: "QO", texts: "\"a//b\"`;" },
    // a backslash directly before the line's end continues a text in a string too; Icarus Verilog does so
    Case { source: "`define A \"abc\\\\\nx\n;", kinds: "O", texts: ";" },
    // a string is on one line, so the comment of the next one ends the text; Icarus Verilog does so
    Case { source: "`define A \" \\\n // c \\\ny;", kinds: "IO", texts: "y`;" },
    // clauses 19.1, 19.2, 19.6 to 19.8: directives that give no tokens
    Case { source: "`timescale 1ns / 1ps\n`default_nettype none\n`celldefine\n`resetall\n`line 3 \"x\" 0\na\n`endcelldefine", kinds: "I", texts: "a" },
];

#[rattlefmt::skip]
pub(crate) const REFUSALS: &[Refusal] = &[
    // a byte of no token
    Refusal { source: "a\n  \x7f", kind: LexKind::BadByte, line: 2, column: 3, detail: "" },
    // a backslash begins no token
    Refusal { source: "a \\b ", kind: LexKind::BadByte, line: 1, column: 3, detail: "" },
    // a lone grave accent
    Refusal { source: "a ` b", kind: LexKind::BadByte, line: 1, column: 3, detail: "" },
    // a string that ends on no line
    Refusal { source: "\n x \"open\ny\"", kind: LexKind::BadByte, line: 2, column: 4, detail: "" },
    // clause 2.5.1: a quote begins a number only before the letter of a base
    Refusal { source: "'q", kind: LexKind::BadByte, line: 1, column: 1, detail: "" },
    // example case byte-outside-ascii
    Refusal { source: "module m(input \u{e9});\nendmodule\n", kind: LexKind::BadByte, line: 1, column: 16, detail: "" },
    // example case string-without-end
    Refusal { source: "module m(input a);\n  initial $display(\"open);\nendmodule\n", kind: LexKind::BadByte, line: 2, column: 20, detail: "" },
    // a size without digits
    Refusal { source: "  4'b;", kind: LexKind::BadNumber, line: 1, column: 3, detail: "" },
    // a base without digits
    Refusal { source: "'h;", kind: LexKind::BadNumber, line: 1, column: 1, detail: "" },
    // a size of 0
    Refusal { source: "0'b1", kind: LexKind::BadNumber, line: 1, column: 1, detail: "" },
    // a size of 129
    Refusal { source: "1 129\n'b1", kind: LexKind::BadNumber, line: 1, column: 3, detail: "" },
    // a decimal number of 2^32
    Refusal { source: "4294967296", kind: LexKind::BadNumber, line: 1, column: 1, detail: "" },
    // an unsized decimal literal of 2^32
    Refusal { source: "'d4294967296", kind: LexKind::BadNumber, line: 1, column: 1, detail: "" },
    // a literal of 2^128
    Refusal { source: "128'd340282366920938463463374607431768211456", kind: LexKind::BadNumber, line: 1, column: 1, detail: "" },
    // example case literal-huge-decimal
    Refusal { source: "assign y = 99999999999999999999999999999999999999999999999999;", kind: LexKind::BadNumber, line: 1, column: 12, detail: "" },
    // example case literal-digit-two-in-binary
    Refusal { source: "assign y = 1'b2;", kind: LexKind::BadNumber, line: 1, column: 12, detail: "" },
    // example case literal-digit-eight-in-octal
    Refusal { source: "assign y = 3'o8;", kind: LexKind::BadNumber, line: 1, column: 12, detail: "" },
    // example case literal-letter-in-decimal
    Refusal { source: "assign y = 4'da;", kind: LexKind::BadNumber, line: 1, column: 12, detail: "" },
    // a comment without end
    Refusal { source: "a\n/* b", kind: LexKind::OpenComment, line: 2, column: 1, detail: "" },
    // an attribute without end
    Refusal { source: "a\n(* b", kind: LexKind::OpenComment, line: 2, column: 1, detail: "" },
    // an attribute at the end
    Refusal { source: "a (*", kind: LexKind::OpenComment, line: 1, column: 3, detail: "" },
    // Icarus: `endif without a matching `ifdef
    Refusal { source: "a\n `endif", kind: LexKind::OpenCondition, line: 2, column: 2, detail: "" },
    // Icarus: This `ifdef lacks an `endif
    Refusal { source: "`ifdef A\nx", kind: LexKind::OpenCondition, line: 2, column: 2, detail: "" },
    // example case condition-without-end-after-last-line
    Refusal { source: "`ifdef X\nmodule m(input a);\nendmodule\n", kind: LexKind::OpenCondition, line: 4, column: 1, detail: "" },
    // example case else-without-condition
    Refusal { source: "module m(input a);\n`else\nendmodule\n", kind: LexKind::OpenCondition, line: 2, column: 1, detail: "" },
    // example case elsif-without-condition
    Refusal { source: "`elsif X\nmodule m(input a);\nendmodule\n", kind: LexKind::OpenCondition, line: 1, column: 1, detail: "" },
    // a second else
    Refusal { source: "`ifdef A\n`else\n`else\n`endif", kind: LexKind::OpenCondition, line: 3, column: 1, detail: "" },
    // elsif after else
    Refusal { source: "`ifdef A\n`else\n`elsif B\n`endif", kind: LexKind::OpenCondition, line: 3, column: 1, detail: "" },
    // a macro with arguments
    Refusal { source: "a\n  `define F(x) x", kind: LexKind::UnknownDirective, line: 2, column: 3, detail: "" },
    // a macro without a name
    Refusal { source: "`define 3", kind: LexKind::UnknownDirective, line: 1, column: 1, detail: "" },
    // clause 19.3.1: a macro that has the name of a directive
    Refusal { source: "a\n`define line 3", kind: LexKind::UnknownDirective, line: 2, column: 1, detail: "" },
    // a condition without a name
    Refusal { source: "`ifdef\nA", kind: LexKind::UnknownDirective, line: 1, column: 1, detail: "" },
    // an inclusion without a name
    Refusal { source: "`include x", kind: LexKind::UnknownDirective, line: 1, column: 1, detail: "" },
    // example case include-without-name
    Refusal { source: "`include \"\"\nmodule m(input a);\nendmodule\n", kind: LexKind::UnknownDirective, line: 1, column: 1, detail: "" },
    // example case nounconnected-drive
    Refusal { source: "  `nounconnected_drive\nmodule m(input a);\nendmodule\n", kind: LexKind::UnknownDirective, line: 1, column: 3, detail: "" },
    // open ports that are driven
    Refusal { source: "`unconnected_drive pull1", kind: LexKind::UnknownDirective, line: 1, column: 1, detail: "" },
    // a macro that is not defined
    Refusal { source: "a `FOO", kind: LexKind::UnknownMacro, line: 1, column: 3, detail: "FOO" },
    // example case unknown-macro-after-undef
    Refusal { source: "`define FOO 1\n`undef FOO\nmodule m(input [`FOO:0] a);\nendmodule\n", kind: LexKind::UnknownMacro, line: 3, column: 17, detail: "FOO" },
    // the same within a macro
    Refusal { source: "`define A `FOO\n a `A", kind: LexKind::UnknownMacro, line: 2, column: 4, detail: "FOO" },
    // a macro that names itself
    Refusal { source: "`define A `A\n `A", kind: LexKind::MacroDepth, line: 2, column: 2, detail: "" },
    // example case macros-that-name-each-other
    Refusal { source: "`define A `B\n`define B `A\nmodule m(input [`A:0] a);\nendmodule\n", kind: LexKind::MacroDepth, line: 3, column: 17, detail: "" },
    // an include that is not there
    Refusal { source: "\n`include \"x.vh\"", kind: LexKind::IncludeMissing, line: 2, column: 1, detail: "x.vh" },
    // example case attribute-without-end
    Refusal { source: "module m(input a);\nendmodule\n(* never ends\n", kind: LexKind::OpenComment, line: 3, column: 1, detail: "" },
    // example case backslash-outside-strings
    Refusal { source: "module m(input a);\n  \\\nendmodule\n", kind: LexKind::BadByte, line: 2, column: 3, detail: "" },
    // example case byte-of-no-token
    Refusal { source: "module m(input a);\n  \u{7f}\nendmodule\n", kind: LexKind::BadByte, line: 2, column: 3, detail: "" },
    // example case comment-without-end
    Refusal { source: "module m(input a);\nendmodule\n/* never ends\n", kind: LexKind::OpenComment, line: 3, column: 1, detail: "" },
    // example case define-with-arguments
    Refusal { source: "module m(input a);\n  `define F(x) x\nendmodule\n", kind: LexKind::UnknownDirective, line: 2, column: 3, detail: "" },
    // example case endif-without-condition
    Refusal { source: "module m(input a);\n  `endif\nendmodule\n", kind: LexKind::OpenCondition, line: 2, column: 3, detail: "" },
    // example case escaped-identifier
    Refusal { source: "module m(input \\a ); endmodule", kind: LexKind::BadByte, line: 1, column: 16, detail: "" },
    // example case fault-in-source-of-folder
    Refusal { source: "\\\n", kind: LexKind::BadByte, line: 1, column: 1, detail: "" },
    // example case lexing-before-parsing
    Refusal { source: "module m(input a) endmodule\n\\\n", kind: LexKind::BadByte, line: 2, column: 1, detail: "" },
    // example case literal-decimal-of-128-bits-too-large
    Refusal { source: "module m(input a, output [7:0] y); assign y = 128'd340282366920938463463374607431768211456; endmodule", kind: LexKind::BadNumber, line: 1, column: 47, detail: "" },
    // example case literal-of-size-129
    Refusal { source: "module m(input a, output [7:0] y); assign y = 129'b1; endmodule", kind: LexKind::BadNumber, line: 1, column: 47, detail: "" },
    // example case literal-of-size-zero
    Refusal { source: "module m(input a, output [7:0] y); assign y = 0'b1; endmodule", kind: LexKind::BadNumber, line: 1, column: 47, detail: "" },
    // example case literal-plain-decimal-too-large
    Refusal { source: "module m(input a, output [7:0] y); assign y = 4294967296; endmodule", kind: LexKind::BadNumber, line: 1, column: 47, detail: "" },
    // example case literal-unsized-decimal-too-large
    Refusal { source: "module m(input a, output [7:0] y); assign y = 'd4294967296; endmodule", kind: LexKind::BadNumber, line: 1, column: 47, detail: "" },
    // example case literal-without-digits
    Refusal { source: "module m(input a, output [7:0] y); assign y = 4'b; endmodule", kind: LexKind::BadNumber, line: 1, column: 47, detail: "" },
    // example case literal-without-size-and-digits
    Refusal { source: "module m(input a, output [7:0] y); assign y = 'h; endmodule", kind: LexKind::BadNumber, line: 1, column: 47, detail: "" },
    // example case macro-that-names-itself
    Refusal { source: "`define LOOP `LOOP\nmodule m(input [`LOOP:0] a);\nendmodule\n", kind: LexKind::MacroDepth, line: 2, column: 17, detail: "" },
    // example case string-over-line-end
    Refusal { source: "module m(input a);\n  initial $display(\"open\n\");\nendmodule\n", kind: LexKind::BadByte, line: 2, column: 20, detail: "" },
    // example case unknown-macro-within-macro
    Refusal { source: "`define OUTER `INNER\nmodule m(input [`OUTER:0] a);\nendmodule\n", kind: LexKind::UnknownMacro, line: 2, column: 17, detail: "INNER" },
];
