//! The files of the commands, and the texts that they end with.

/// A register that takes 1 or 0 at each rising edge of the clock.
pub(crate) const REGISTER: &str =
    "module ff(input clk, input a, output reg q);\n  always @(posedge clk)\n    if (a) q <= 1; else q <= 0;\nendmodule\n";

/// A dump in which it rises at the edge at 5.
pub(crate) const RISES: &str =
    "$scope module tb $end\n$scope module dut $end\n$var wire 1 ! clk $end\n$var wire 1 \" a $end\n$var reg 1 # q $end\n$upscope $end\n$upscope $end\n$enddefinitions $end\n#0\n0!\n1\"\nx#\n#5\n1!\n1#\n#10\n0!\n";

/// A dump that no run of it shows: it is 0 after the edge, at which `a` is 1.
pub(crate) const STAYS: &str =
    "$scope module tb $end\n$scope module dut $end\n$var wire 1 ! clk $end\n$var wire 1 \" a $end\n$var reg 1 # q $end\n$upscope $end\n$upscope $end\n$enddefinitions $end\n#0\n0!\n1\"\nx#\n#5\n1!\n0#\n#10\n0!\n";

/// The table of the first dump.
pub(crate) const FIRST: &str =
    "covered-db 2\ntop ff\nsource 1 ff.v\ninstance ff ff\npoints 11\nl ff 1 1:3 if = hit\nl ff 2 1:3 assign = hit\nl ff 3 1:3 assign = missed\nc ff 1 1:3 value 0 = missed\nc ff 1 1:3 value 1 = hit\nt ff a - 01 = missed\nt ff a - 10 = missed\nt ff clk - 01 = hit\nt ff clk - 10 = missed\nt ff q - 01 = missed\nt ff q - 10 = missed\nwindows 1\nwindow 0 10\nend\n";

/// A table of the same register by another dump, in the text of version 1.
pub(crate) const SECOND: &str =
    "covered-db 1\ntop ff\nsource 1 ff.v\ninstance ff ff\npoints 11\nl ff 1 1:3 if = hit\nl ff 2 1:3 assign = ? 5 ff.a\nl ff 3 1:3 assign = ? 5 ff.a\nc ff 1 1:3 value 0 = ? 5 ff.a\nc ff 1 1:3 value 1 = ? 5 ff.a\nt ff a - 01 = missed\nt ff a - 10 = hit\nt ff clk - 01 = hit\nt ff clk - 10 = missed\nt ff q - 01 = missed\nt ff q - 10 = missed\nend\n";

/// The merge of both tables.
pub(crate) const MERGED: &str =
    "covered-db 2\ntop ff\nsource 1 ff.v\ninstance ff ff\npoints 11\nl ff 1 1:3 if = hit\nl ff 2 1:3 assign = hit\nl ff 3 1:3 assign = ? 5 ff.a\nc ff 1 1:3 value 0 = ? 5 ff.a\nc ff 1 1:3 value 1 = hit\nt ff a - 01 = missed\nt ff a - 10 = hit\nt ff clk - 01 = hit\nt ff clk - 10 = missed\nt ff q - 01 = missed\nt ff q - 10 = missed\nwindows 1\nwindow 0 10\nend\n";

/// The report of all metrics of the first table.
pub(crate) const REPORT: &str =
    "covered report 1\ntop ff\nmodule ff\nmetric       hit  missed   undet   pct\nline           2       1       0   66%\nlogic          1       1       0   50%\ntoggle         1       5       0   16%\nfsm            0       0       0    -%\nmemory         0       0       0    -%\nall            4       7       0   36%\n";

/// A state machine whose counter is in no dump.
pub(crate) const CONTROLLER: &str =
    "module ctl(input clk, input rst, input go, output reg [1:0] st);\n  parameter IDLE = 2'd0, RUN = 2'd1, DONE = 2'd2;\n  reg [1:0] n;\n  wire last = n == 2'd1;\n  always @(posedge clk)\n    if (rst) begin st <= IDLE; n <= 0; end\n    else case (st)\n      IDLE: if (go) st <= RUN;\n      RUN: begin n <= n + 1; if (last) st <= DONE; end\n      default: st <= IDLE;\n    endcase\nendmodule\n";

/// A dump of it as a simulator writes one, with groups, a real variable and a parameter.
pub(crate) const SENT: &str =
    "$date\n\tThu Jan  4 12:00:00 2024\n$end\n$version\n\town example\n$end\n$timescale\n\t1ns\n$end\n$scope module tb $end\n$var wire 2 ! st [1:0] $end\n$var reg 1 \" clk $end\n$var reg 1 # rst $end\n$var real 1 ) load $end\n$var reg 8 ( \\mem[0] [7:0] $end\n$scope module dut $end\n$var wire 1 \" clk $end\n$var wire 1 % go $end\n$var wire 1 & last $end\n$var wire 1 # rst $end\n$var parameter 2 ' IDLE $end\n$var reg 2 ! st [1:0] $end\n$upscope $end\n$upscope $end\n$enddefinitions $end\n$comment Show the parameter values. $end\n$dumpall\nb0 '\n$end\n#0\n$dumpvars\nr0 )\nbx (\nbx !\n0\"\n1#\n0%\nx&\n$end\n#5\n1\"\nb0 !\n0&\n#10\n0\"\n0#\n1%\n#15\n1\"\nb1 !\n#20\n0\"\n0%\n#25\n1\"\n1&\n#30\n0\"\n#35\n1\"\nb10 !\n0&\n#40\n0\"\n#45\n1\"\nb0 !\n#50\n0\"\n";
