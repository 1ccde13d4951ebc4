//! Nets: one continuous assignment each.

use crate::scripts::script::fault_of;

const NETS: &str = "
====
module m(input a, input b, output y); assign y = a & b; endmodule
----
# assign-and, at 5.
known a=1 b=1 y=?
clean 0
notes l0 c1:11
keeps y=1
# assign-missing-input, at 1. The missing input may move at a time that the dump does not list.
known a=0 b=? y=?
perhaps 0 b
notes l0?b c1:0-?b c1:-0?b
keeps y=0
# assign-missing-input, at 5.
known a=1 b=? y=?
clean 0
notes l0 c1:11?b c1:-0?b
keeps y=?
# both-operands-false, at 5. One evaluation has every case that holds.
known a=0 b=0 y=?
clean 0
notes l0 c1:0- c1:-0
keeps y=0
====
module m(input s, input a, output y);
  assign y = s ? ~a : a;
endmodule
----
# both-sides-of-choice-are-evaluated, at 5.
known s=0 a=1 y=?
clean 0
notes l0 c1:0 c2:0
keeps y=1
====
module m(input s, input a, input b, output y);
  assign y = (s) ? a : b;
endmodule
----
# choice-condition-is-a-node, at 5.
known s=1 a=1 b=0 y=?
clean 0
notes l0 c1:1
keeps y=1
# choice-condition-is-a-node, at 10.
known s=0 a=1 b=0 y=?
clean 0
notes l0 c1:0
keeps y=0
# Beyond the example cases: both sides are 1.
known s=? a=1 b=1 y=?
clean 0
notes l0 c1:0?s c1:1?s
keeps y=1
====
module m(input s, input a, input b, output y);
  assign y = (!s) ? a : b;
endmodule
----
# choice-condition-with-operator, at 5. It is counted once, as that operator.
known s=0 a=1 b=0 y=?
clean 0
notes l0 c1:1
keeps y=1
====
module m(input [1:0] a, input [1:0] b, output y);
  assign y = a < b;
endmodule
----
# comparison-cases, at 5.
known a=00 b=10 y=?
clean 0
notes l0 c1:01
keeps y=1
# comparison-cases, at 10.
known a=11 b=10 y=?
clean 0
notes l0 c1:11
keeps y=0
# comparison-cases, at 15.
known a=x0 b=10 y=?
clean 0
notes l0
keeps y=x
====
module m(input a, input b, output y, output z);
  assign y = a ~^ b;
  assign z = a ^~ b;
endmodule
----
# exclusive-nor-spellings, at 5.
known a=1 b=0 y=? z=?
clean 0
notes l0 c1:10
keeps y=0
# exclusive-nor-spellings, at 5.
known a=1 b=0 y=? z=?
clean 1
notes l0 c2:10
keeps z=0
====
module m(input [1:0] a, input [1:0] b, output y);
  assign y = a && b;
endmodule
----
# logic-and-cases, at 5.
known a=00 b=10 y=?
clean 0
notes l0 c1:0-
keeps y=0
# logic-and-cases, at 10.
known a=10 b=00 y=?
clean 0
notes l0 c1:-0
keeps y=0
# logic-and-cases, at 15. The operand 0x is neither true nor false.
known a=0x b=00 y=?
clean 0
notes l0 c1:-0
keeps y=0
====
module m(input a, input b, output y);
  assign y = a || b;
endmodule
----
# logic-or-cases, at 5.
known a=1 b=1 y=?
clean 0
notes l0 c1:1- c1:-1
keeps y=1
# logic-or-cases, at 10.
known a=1 b=0 y=?
clean 0
notes l0 c1:1-
keeps y=1
# logic-or-cases, at 15.
known a=0 b=0 y=?
clean 0
notes l0 c1:00
keeps y=0
====
module m(input clk, input a, output reg q);
  wire n = ~a;
  always @(posedge clk) if (n) q <= 1; else q <= 0;
endmodule
----
# comb-before-register, at 5. A net behind a moving input may be read old or new.
known clk=1 n=? q=0
clean 1
notes l1 c2:0?n c2:1?n l2?n l3?n
keeps q=?
# comb-before-register, at 5.
known a=0 n=?
clean 0
notes l0 c1:1
keeps n=1
# late-net-behind-moving-input, at 5. With late inputs the net still has its old value at the edge.
known clk=1 n=0 q=1
clean 1
notes l1 c2:0 l3
keeps q=0
# late-net-behind-moving-input, at 5.
known a=0 n=?
clean 0
notes l0 c1:1
keeps n=1
====
module m(input clk, input en, input d, output reg q);
  wire g = clk & en;
  always @(posedge g) q <= d;
endmodule
----
# gated-clock, at 5. A clock that a net makes may pulse.
known g=? d=1 q=0
weak 1 g
notes l1?g
keeps q=?
# gated-clock, at 5.
known clk=1 en=1 g=?
clean 0
notes l0 c1:11
keeps g=1
====
module m(input a, input b, output y);
  wire w = a ^ b;
  assign y = w;
endmodule
----
# node-in-net-declaration, at 5.
known a=1 b=0 w=?
clean 0
notes l0 c1:10
keeps w=1
# node-in-net-declaration, at 5.
known w=1 y=?
clean 1
notes l0
keeps y=1
====
module m(input a, input b, input c, output y);
  assign y = (a & b) |
    ~c;
endmodule
----
# nodes-in-order-of-first-tokens, at 5.
known a=0 b=0 c=0 y=?
clean 0
notes l0 c2:0- c2:-0 c3:1 c1:-1
keeps y=1
# nodes-in-order-of-first-tokens, at 10.
known a=1 b=1 c=1 y=?
clean 0
notes l0 c2:11 c3:0 c1:1-
keeps y=1
====
module m(input a, output [3:0] y);
  parameter P = 2;
  assign y = (P + 1) ^ {4{a}};
endmodule
----
# nodes-without-names-are-not-counted, at 5.
known a=1 y=????
clean 0
notes l0 c1:11
keeps y=1100
====
module m(input [1:0] a, output [1:0] y, output z);
  assign y = ~a;
  assign z = ^a;
endmodule
----
# one-operand-cases-by-own-value, at 5.
known a=11 y=??
clean 0
notes l0 c1:0
keeps y=00
# one-operand-cases-by-own-value, at 5.
known a=11 z=?
clean 1
notes l0 c2:0
keeps z=0
# one-operand-cases-by-own-value, at 10.
known a=01 y=??
clean 0
notes l0 c1:1
keeps y=10
# one-operand-cases-by-own-value, at 10.
known a=01 z=?
clean 1
notes l0 c2:1
keeps z=1
# one-operand-cases-by-own-value, at 15.
known a=0x y=??
clean 0
notes l0 c1:1
keeps y=1x
# one-operand-cases-by-own-value, at 15.
known a=0x z=?
clean 1
notes l0
keeps z=x
====
module m(input a, input b, input c, output y);
  assign y = a & b | c;
endmodule
----
# outer-node-before-inner, at 5.
known a=1 b=0 c=0 y=?
clean 0
notes l0 c2:-0 c1:00
keeps y=0
# outer-node-before-inner, at 10.
known a=1 b=0 c=1 y=?
clean 0
notes l0 c2:-0 c1:-1
keeps y=1
====
`define NOT ~
module m(input a, output y);
  assign y =
    `NOT a;
endmodule
----
# place-of-macro-use, at 5.
known a=1 y=?
clean 0
notes l0 c1:0
keeps y=0
====
module m(input a, output y);
  wire v, w;
  assign y = ~v;
  assign v = ~w;
  assign w = ~a;
endmodule
----
# undumped-net-chain, at 5.
known a=1 w=?
clean 2
notes l0 c3:0
keeps w=0
# undumped-net-chain, at 5.
known w=0 v=?
clean 1
notes l0 c2:1
keeps v=1
# undumped-net-chain, at 5.
known v=1 y=?
clean 0
notes l0 c1:0
keeps y=0
====
module m(input a, output y); assign y = ~~~~~~~~~~~~~~~~~~~~~~~~~~~~~~~~~~~~~~~~~~~~~~~~~~~~~~~~~~~~~~~~~~~~~~~~~~~~~~~~~~~~~~~~~~~~~~~~~~~~~~~~~~~~~~~~~~~~~~~~~~~~~~~~~~~~~~~~~~~~~~~~~~~~~~~~~~~~~~~~~~~~~~~~~~~~~~~~~~~~~~~~~~~~~~~~~~~~~~~~~~~~~~~~~~~~~~~~~~~~~~~~~~~~~~~~~~~~~~~~~~~~~~~~~~~~~~~a; endmodule
----
# negations-at-limit, at 5.
known a=1 y=?
clean 0
notes l0 c255:0 c254:1 c253:0 c252:1 c251:0 c250:1 c249:0 c248:1 c247:0 c246:1 c245:0 c244:1 c243:0 c242:1 c241:0 c240:1 c239:0 c238:1 c237:0 c236:1 c235:0 c234:1 c233:0 c232:1 c231:0 c230:1 c229:0 c228:1 c227:0 c226:1 c225:0 c224:1 c223:0 c222:1 c221:0 c220:1 c219:0 c218:1 c217:0 c216:1 c215:0 c214:1 c213:0 c212:1 c211:0 c210:1 c209:0 c208:1 c207:0 c206:1 c205:0 c204:1 c203:0 c202:1 c201:0 c200:1 c199:0 c198:1 c197:0 c196:1 c195:0 c194:1 c193:0 c192:1 c191:0 c190:1 c189:0 c188:1 c187:0 c186:1 c185:0 c184:1 c183:0 c182:1 c181:0 c180:1 c179:0 c178:1 c177:0 c176:1 c175:0 c174:1 c173:0 c172:1 c171:0 c170:1 c169:0 c168:1 c167:0 c166:1 c165:0 c164:1 c163:0 c162:1 c161:0 c160:1 c159:0 c158:1 c157:0 c156:1 c155:0 c154:1 c153:0 c152:1 c151:0 c150:1 c149:0 c148:1 c147:0 c146:1 c145:0 c144:1 c143:0 c142:1 c141:0 c140:1 c139:0 c138:1 c137:0 c136:1 c135:0 c134:1 c133:0 c132:1 c131:0 c130:1 c129:0 c128:1 c127:0 c126:1 c125:0 c124:1 c123:0 c122:1 c121:0 c120:1 c119:0 c118:1 c117:0 c116:1 c115:0 c114:1 c113:0 c112:1 c111:0 c110:1 c109:0 c108:1 c107:0 c106:1 c105:0 c104:1 c103:0 c102:1 c101:0 c100:1 c99:0 c98:1 c97:0 c96:1 c95:0 c94:1 c93:0 c92:1 c91:0 c90:1 c89:0 c88:1 c87:0 c86:1 c85:0 c84:1 c83:0 c82:1 c81:0 c80:1 c79:0 c78:1 c77:0 c76:1 c75:0 c74:1 c73:0 c72:1 c71:0 c70:1 c69:0 c68:1 c67:0 c66:1 c65:0 c64:1 c63:0 c62:1 c61:0 c60:1 c59:0 c58:1 c57:0 c56:1 c55:0 c54:1 c53:0 c52:1 c51:0 c50:1 c49:0 c48:1 c47:0 c46:1 c45:0 c44:1 c43:0 c42:1 c41:0 c40:1 c39:0 c38:1 c37:0 c36:1 c35:0 c34:1 c33:0 c32:1 c31:0 c30:1 c29:0 c28:1 c27:0 c26:1 c25:0 c24:1 c23:0 c22:1 c21:0 c20:1 c19:0 c18:1 c17:0 c16:1 c15:0 c14:1 c13:0 c12:1 c11:0 c10:1 c9:0 c8:1 c7:0 c6:1 c5:0 c4:1 c3:0 c2:1 c1:0
keeps y=0
====
module m(input a, output y); assign y = (((((((((((((((((((((((((((((((((((((((((((((((((((((((((((((((((((((((((((((((((((((((((((((((((((((((((((((((((((((((((((((((((((((((((((((((((((((((((((((((((((((((((((((((((((((((((((((((((((((((((((((((((((((((((((((((((((((((((((((((((((((((((((((((a))))))))))))))))))))))))))))))))))))))))))))))))))))))))))))))))))))))))))))))))))))))))))))))))))))))))))))))))))))))))))))))))))))))))))))))))))))))))))))))))))))))))))))))))))))))))))))))))))))))))))))))))))))))))))))))))))))))))))))))))))))))))))))))); endmodule
----
# nesting-at-limit, at 5.
known a=1 y=?
clean 0
notes l0
keeps y=1
====
module m(input a, output y);
  inv u(a, y);
endmodule
module inv(input k, output o);
  assign o = ~k;
endmodule
----
# second-source-holds-inner-module, at 5.
known a=1 y=?
clean 0
notes l0 c1:0
keeps y=0
====
module m(input a, output y);
  wire w;
  inv q(w, y), p(a, w);
endmodule
module inv(input k, output o);
  assign o = ~k;
endmodule
----
# two-instances-of-one-module, at 5.
known a=1 w=?
clean 1
notes l0 c1:0
keeps w=0
# two-instances-of-one-module, at 5.
known w=0 y=?
clean 0
notes l0 c1:1
keeps y=1
";

#[test]
fn runs_of_nets(rt: HostRuntime) {
    let (part, line) = fault_of(rt.alloc(), NETS).unwrap_or((0, 0));
    assert!(rt; part == 0, "part {part}, line {line}");
}
