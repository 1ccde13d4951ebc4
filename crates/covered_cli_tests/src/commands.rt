//! Tests of commands over files in memory, and what they write and say.
use cov_host::{Calls, NoMemory, Words};
use covered_cli::{Status, covered};
use memory_hosts::MemoryHost;
use std::alloc::Global;

/// A name and a text.
type File = (&'static str, &'static str);

/// A command over files: the status that it ends with, a file that it may write, with its text, empty for none, and what
/// it prints and warns.
struct Case {
    words: &'static [&'static str],
    files: &'static [File],
    status: Status,
    output: File,
    printed: &'static str,
    warned: &'static str,
}

const SOURCE: &str = "module pads(input clk, input [1:0] a);\nendmodule\n";

const DUMP: &str =
    "$scope module tb $end\n$scope module dut $end\n$var wire 1 ! clk $end\n$var wire 2 \" a $end\n$upscope $end\n$upscope $end\n$enddefinitions $end\n#0\n0!\nb00 \"\n#5\n1!\nb01 \"\n#10\n0!\nb1x \"\n#15\n1!\n";

const DATABASE: &str =
    "covered-db 2\ntop pads\nsource 1 pads.v\ninstance pads pads\npoints 6\nt pads a 0 01 = hit\nt pads a 0 10 = missed\nt pads a 1 01 = hit\nt pads a 1 10 = missed\nt pads clk - 01 = hit\nt pads clk - 10 = hit\nwindows 1\nwindow 0 15\nend\n";

/// A dump that lacks the input `a`.
const WITHOUT_A: &str =
    "$scope module tb $end\n$scope module dut $end\n$var wire 1 ! clk $end\n$upscope $end\n$upscope $end\n$enddefinitions $end\n#0\n0!\n#5\n1!\n#10\n0!\n#15\n1!\n";

/// Its database: `a` may move between the first two times.
const OPEN_A: &str =
    "covered-db 2\ntop pads\nsource 1 pads.v\ninstance pads pads\npoints 6\nt pads a 0 01 = ? 1 pads.a\nt pads a 0 10 = ? 1 pads.a\nt pads a 1 01 = ? 1 pads.a\nt pads a 1 10 = ? 1 pads.a\nt pads clk - 01 = hit\nt pads clk - 10 = hit\nwindows 1\nwindow 0 15\nend\n";

/// A dump that goes off at 10 and on at 20. Between the two the upper bit of `a` rises.
const GAPS: &str =
    "$scope module tb $end\n$scope module dut $end\n$var wire 1 ! clk $end\n$var wire 2 \" a $end\n$upscope $end\n$upscope $end\n$enddefinitions $end\n#0\n0!\nb00 \"\n#5\n1!\nb01 \"\n#10\n$dumpoff\nx!\nbx \"\n$end\n#20\n$dumpon\n1!\nb11 \"\n$end\n#25\n0!\nb10 \"\n#30\n1!\n";

/// Its database: the steps at 5 and at 25 are scored.
const TWO_WINDOWS: &str =
    "covered-db 2\ntop pads\nsource 1 pads.v\ninstance pads pads\npoints 6\nt pads a 0 01 = hit\nt pads a 0 10 = hit\nt pads a 1 01 = missed\nt pads a 1 10 = missed\nt pads clk - 01 = hit\nt pads clk - 10 = hit\nwindows 2\nwindow 0 10\nwindow 20 30\nend\n";

/// A dump as a simulator writes it, with a real variable, a parameter, groups and a comment in the body.
const REALISTIC: &str =
    "$date\n\tThu Jan  4 12:00:00 2024\n$end\n$version\n\town example\n$end\n$timescale\n\t1ns\n$end\n$scope module tb $end\n$var reg 1 ! clk $end\n$var real 1 ) load $end\n$scope module dut $end\n$var wire 1 ! clk $end\n$var wire 2 \" a [1:0] $end\n$var parameter 2 ' IDLE $end\n$upscope $end\n$upscope $end\n$enddefinitions $end\n$comment Show the parameter values. $end\n$dumpall\nb0 '\n$end\n#0\n$dumpvars\nr0 )\n0!\nb0 \"\n$end\n#5\n1!\nb1 \"\n#10\n0!\nb1x \"\n#15\n1!\n";

/// A dump whose input `a` has no value before the second time.
const NO_BASELINE: &str =
    "$scope module tb $end\n$scope module dut $end\n$var wire 1 ! clk $end\n$var wire 2 \" a $end\n$upscope $end\n$upscope $end\n$enddefinitions $end\n#0\n0!\n#5\n1!\nb01 \"\n#4\n";

/// A dump whose time falls at byte 141.
const TIME_BACK: &str =
    "$scope module tb $end\n$scope module dut $end\n$var wire 1 ! clk $end\n$var wire 2 \" a $end\n$upscope $end\n$upscope $end\n$enddefinitions $end\n#5 #4\n";

/// The database of the same module, from files that one of them includes.
const INCLUDED: &str =
    "covered-db 2\ntop pads\nsource 1 a.v\nsource 2 pads.v\nsource 3 ports.vh\ninstance pads pads\npoints 6\nt pads a 0 01 = hit\nt pads a 0 10 = missed\nt pads a 1 01 = hit\nt pads a 1 10 = missed\nt pads clk - 01 = hit\nt pads clk - 10 = hit\nwindows 1\nwindow 0 15\nend\n";

/// The table of a register.
const FIRST: &str =
    "covered-db 2\ntop ff\nsource 1 ff.v\ninstance ff ff\npoints 11\nl ff 1 1:3 if = hit\nl ff 2 1:3 assign = hit\nl ff 3 1:3 assign = missed\nc ff 1 1:3 value 0 = missed\nc ff 1 1:3 value 1 = hit\nt ff a - 01 = missed\nt ff a - 10 = missed\nt ff clk - 01 = hit\nt ff clk - 10 = missed\nt ff q - 01 = missed\nt ff q - 10 = missed\nwindows 1\nwindow 0 10\nend\n";

/// The same of another run.
const SECOND: &str =
    "covered-db 1\ntop ff\nsource 1 ff.v\ninstance ff ff\npoints 11\nl ff 1 1:3 if = hit\nl ff 2 1:3 assign = ? 5 ff.a\nl ff 3 1:3 assign = ? 5 ff.a\nc ff 1 1:3 value 0 = ? 5 ff.a\nc ff 1 1:3 value 1 = ? 5 ff.a\nt ff a - 01 = missed\nt ff a - 10 = hit\nt ff clk - 01 = hit\nt ff clk - 10 = missed\nt ff q - 01 = missed\nt ff q - 10 = missed\nend\n";

/// Their merge.
const MERGED: &str =
    "covered-db 2\ntop ff\nsource 1 ff.v\ninstance ff ff\npoints 11\nl ff 1 1:3 if = hit\nl ff 2 1:3 assign = hit\nl ff 3 1:3 assign = ? 5 ff.a\nc ff 1 1:3 value 0 = ? 5 ff.a\nc ff 1 1:3 value 1 = hit\nt ff a - 01 = missed\nt ff a - 10 = hit\nt ff clk - 01 = hit\nt ff clk - 10 = missed\nt ff q - 01 = missed\nt ff q - 10 = missed\nwindows 1\nwindow 0 10\nend\n";

/// A table of another design.
const OTHER: &str = "covered-db 1\ntop ffr\nsource 1 ffr.v\ninstance ffr ffr\npoints 0\nend\n";

/// The report of all metrics of the first table.
const REPORT: &str =
    "covered report 1\ntop ff\nmodule ff\nmetric       hit  missed   undet   pct\nline           2       1       0   66%\nlogic          1       1       0   50%\ntoggle         1       5       0   16%\nfsm            0       0       0    -%\nmemory         0       0       0    -%\nall            4       7       0   36%\n";

/// A table of two modules and three instances.
const CELLS: &str =
    "covered-db 1\ntop top\nsource 1 top.v\nsource 2 cell.v\ninstance top top\ninstance top.a cell\ninstance top.b cell\npoints 30\nl top 1 1:9 case = missed\nl top.a 1 2:4 if = hit\nl top.a 2 2:4 assign = missed\nl top.a 3 2:5 assign = ? 10 top.a.s\nl top.a 4 2:7 assign = missed\nl top.b 1 2:4 if = missed\nl top.b 2 2:4 assign = missed\nl top.b 3 2:5 assign = missed\nl top.b 4 2:7 assign = hit\nc top 1 1:3 & 0- = hit\nc top 1 1:3 & -0 = missed\nc top 1 1:3 & 11 = ? 20 top.d\nc top 2 1:3 | 1- = missed\nc top 2 1:3 | -1 = missed\nc top 2 1:3 | 00 = missed\nc top 3 1:9 value 0 = missed\nc top 3 1:9 value 1 = ? 5 top.d\nc top.a 1 2:4 == 00 = hit\nc top.a 1 2:4 == 01 = missed\nc top.a 1 2:4 == 10 = missed\nc top.a 1 2:4 == 11 = ? 10 top.a.s\nc top.a 2 2:5 value 0 = missed\nc top.a 2 2:5 value 1 = missed\nc top.b 1 2:4 == 00 = missed\nc top.b 1 2:4 == 01 = hit\nc top.b 1 2:4 == 10 = missed\nc top.b 1 2:4 == 11 = missed\nc top.b 2 2:5 value 0 = missed\nc top.b 2 2:5 value 1 = missed\nt top clk - 01 = hit\nend\n";

/// Its tracefile, worked by hand.
const TRACED: &str =
    "TN:top\nSF:top.v\nBRDA:3,0,0,1\nBRDA:3,0,1,0\nBRDA:3,0,2,0\nBRDA:3,1,0,0\nBRDA:3,1,1,0\nBRDA:3,1,2,0\nBRDA:9,0,0,-\nBRDA:9,0,1,-\nBRF:8\nBRH:1\nDA:9,0\nLF:1\nLH:0\nend_of_record\nSF:cell.v\nBRDA:4,0,0,1\nBRDA:4,0,1,1\nBRDA:4,0,2,0\nBRDA:4,0,3,0\nBRDA:5,0,0,-\nBRDA:5,0,1,-\nBRF:6\nBRH:2\nDA:4,1\nDA:5,0\nDA:7,1\nLF:3\nLH:2\nend_of_record\n";

/// Scores the module `pads` where it is found in the dump.
const SCORE: &[&str] = &[
    "score", "-t", "pads", "-i", "tb.dut", "-v", "pads.v", "-vcd", "D", "-o", "B",
];

/// The same where it is not.
const ELSEWHERE: &[&str] = &[
    "score", "-t", "pads", "-i", "tb.x", "-v", "pads.v", "-vcd", "D", "-o", "B",
];

/// Scores a module of two sources with an included file and a macro.
const INCLUDING: &[&str] = &[
    "score", "-t", "pads", "-i", "tb.dut", "-v", "a.v", "-D", "TOP=1", "-v", "pads.v", "-I", "inc",
    "-vcd", "D", "-o", "B",
];

/// A root that includes a file, and one that uses its macro.
const A: File = ("a.v", "`include \"ports.vh\"\n");

const PADS: File = ("pads.v", "module pads(`PORTS);\nendmodule\n");

const PORTS: File = (
    "inc/ports.vh",
    "`define PORTS input clk, input [`TOP:0] a\n",
);

/// Scores a module of one source.
const SCORE_M: &[&str] = &[
    "score", "-t", "m", "-i", "tb.dut", "-v", "m.v", "-vcd", "D", "-o", "B",
];

/// Scores a module with a continuous assignment.
const SCORE_INV: &[&str] = &[
    "score", "-t", "inv", "-i", "tb.dut", "-v", "inv.v", "-vcd", "D", "-o", "B",
];

const INV: &str = "module inv(input a, input b, output y); assign y = a & b; endmodule\n";

/// A dump of it.
const INV_DUMP: &str =
    "$scope module tb $end\n$scope module dut $end\n$var wire 1 ! a $end\n$var wire 1 \" b $end\n$var wire 1 # y $end\n$upscope $end\n$upscope $end\n$enddefinitions $end\n#0\n0!\n1\"\n0#\n#5\n1!\n1#\n#10\n0!\n0#\n";

/// A dump that no run of it shows, and that has another fault after that.
const INV_REFUTED: &str =
    "$scope module tb $end\n$scope module dut $end\n$var wire 1 ! a $end\n$var wire 1 \" b $end\n$var wire 1 # y $end\n$upscope $end\n$upscope $end\n$enddefinitions $end\n#0\n0!\n1\"\n0#\n#5\n1!\n#10\n0!\n#9\n";

/// A dump whose output has no value before the second time.
const INV_LACKING: &str =
    "$scope module tb $end\n$scope module dut $end\n$var wire 1 ! a $end\n$var wire 1 \" b $end\n$var wire 1 # y $end\n$upscope $end\n$upscope $end\n$enddefinitions $end\n#0\n0!\n1\"\n#5\n1!\n1#\n#10\n0!\n0#\n";

const INV_DATABASE: &str =
    "covered-db 2\ntop inv\nsource 1 inv.v\ninstance inv inv\npoints 9\nc inv 1 1:1 & 0- = missed\nc inv 1 1:1 & -0 = missed\nc inv 1 1:1 & 11 = hit\nt inv a - 01 = hit\nt inv a - 10 = missed\nt inv b - 01 = missed\nt inv b - 10 = missed\nt inv y - 01 = hit\nt inv y - 10 = missed\nwindows 1\nwindow 0 10\nend\n";

/// What two steps from the number 1 print.
const TWO_STEPS: &str =
    "covered selfrun 1\ntimes 5\npoints 98\nhit 19\nmissed 79\nundetermined 0\n";

/// What sixteen steps from the number 0 print.
const SIXTEEN_STEPS: &str =
    "covered selfrun 1\ntimes 33\npoints 98\nhit 61\nmissed 37\nundetermined 0\n";

/// Many steps.
const LONG: Case = Case {
    words: &["selfrun", "7", "1000"],
    files: &[],
    status: Status::Done,
    output: NONE,
    printed: "covered selfrun 1\ntimes 2001\npoints 98\nhit 98\nmissed 0\nundetermined 0\n",
    warned: "",
};

/// The tables.
const TABLES: &[File] = &[("t1.db", FIRST), ("t2.db", SECOND), ("t5.db", OTHER)];

const NONE: File = ("B", "");

#[rattlefmt::skip]
const SCORED: &[Case] = &[
    Case { words: SCORE, files: &[("pads.v", SOURCE), ("D", DUMP)], status: Status::Done, output: ("B", DATABASE), printed: "", warned: "" },
    Case { words: SCORE, files: &[("pads.v", SOURCE), ("D", REALISTIC)], status: Status::Done, output: ("B", DATABASE), printed: "", warned: "" },
    Case { words: SCORE, files: &[("pads.v", SOURCE), ("D", WITHOUT_A)], status: Status::Done, output: ("B", OPEN_A), printed: "", warned: "" },
    Case { words: SCORE, files: &[("pads.v", SOURCE), ("D", GAPS)], status: Status::Done, output: ("B", TWO_WINDOWS), printed: "", warned: "" },
];

/// Dumps that are refused, and sources with what they include.
#[rattlefmt::skip]
const DUMPS: &[Case] = &[
    // dumps that are refused
    Case { words: ELSEWHERE, files: &[("pads.v", SOURCE), ("D", DUMP)], status: Status::Dump, output: NONE, printed: "", warned: "covered: dump: bind 1 NoInstance tb.x\n" },
    Case { words: SCORE, files: &[("pads.v", SOURCE), ("D", NO_BASELINE)], status: Status::Dump, output: NONE, printed: "", warned: "covered: dump: bind 3 NoBaseline pads.a\n" },
    Case { words: SCORE, files: &[("pads.v", SOURCE), ("D", TIME_BACK)], status: Status::Dump, output: NONE, printed: "", warned: "covered: dump: 5 TimeBack at byte 141\n" },
    // sources with what they include
    Case { words: INCLUDING, files: &[A, PADS, ("D", DUMP)], status: Status::Files, output: NONE, printed: "", warned: "covered: files: open_read inc/ports.vh\n" },
    Case { words: INCLUDING, files: &[A, PADS, ("D", DUMP), PORTS], status: Status::Done, output: ("B", INCLUDED), printed: "", warned: "" },
];

/// Sources and modules that are refused.
#[rattlefmt::skip]
const SOURCES: &[Case] = &[
    // sources that are refused
    Case { words: SCORE_M, files: &[("m.v", "module m(input a);\n  `NONE\nendmodule\n"), ("D", DUMP)], status: Status::Source, output: NONE, printed: "", warned: "covered: source: lex 6 UnknownMacro NONE at m.v:2:3\n" },
    Case { words: SCORE_M, files: &[("m.v", "module m(input a);\n  assign #1 b = a;\nendmodule\n"), ("D", DUMP)], status: Status::Source, output: NONE, printed: "", warned: "covered: source: parse 4 LeftOut delay at m.v:2:10\n" },
    Case { words: SCORE_M, files: &[("m.v", "module m(input a);\n"), ("D", DUMP)], status: Status::Source, output: NONE, printed: "", warned: "covered: source: parse 2 EarlyEnd\n" },
    // modules that are refused
    Case { words: SCORE_M, files: &[("m.v", "module m(input a);\n  wire [a:0] b;\nendmodule\n"), ("D", DUMP)], status: Status::Source, output: NONE, printed: "", warned: "covered: source: const 1 NotConstant at m.v:2:9\n" },
    Case { words: SCORE_M, files: &[("m.v", "module m(input a);\n  sub u(a);\nendmodule\n"), ("D", DUMP)], status: Status::Source, output: NONE, printed: "", warned: "covered: source: elab 1 NoModule sub at m.v:2:3\n" },
    Case { words: SCORE_M, files: &[("m.v", "module n(input a);\nendmodule\n"), ("D", DUMP)], status: Status::Source, output: NONE, printed: "", warned: "covered: source: elab 1 NoModule m\n" },
];

/// A continuous assignment.
#[rattlefmt::skip]
const ASSIGNMENTS: &[Case] = &[
    Case { words: SCORE_INV, files: &[("inv.v", INV), ("D", INV_DUMP)], status: Status::Done, output: ("B", INV_DATABASE), printed: "", warned: "" },
    Case { words: SCORE_INV, files: &[("inv.v", INV), ("D", INV_REFUTED)], status: Status::Contradiction, output: NONE, printed: "", warned: "covered: contradiction: inv.y at 5: dumped 0, computed 1\n" },
    Case { words: SCORE_INV, files: &[("inv.v", INV), ("D", INV_LACKING)], status: Status::Dump, output: NONE, printed: "", warned: "covered: dump: bind 3 NoBaseline inv.y\n" },
];

/// Merges, reports, tracefiles and rankings.
#[rattlefmt::skip]
const DATABASES: &[Case] = &[
    Case { words: &["merge", "-o", "m.db", "t2.db", "t1.db"], files: TABLES, status: Status::Done, output: ("m.db", MERGED), printed: "", warned: "" },
    Case { words: &["merge", "-o", "m.db", "t1.db", "t5.db"], files: TABLES, status: Status::Database, output: ("m.db", ""), printed: "", warned: "covered: database: t5.db: 4 DesignsDiffer 2\n< top ff\n> top ffr\n" },
    Case { words: &["report", "-m", "ltcfm", "t1.db"], files: TABLES, status: Status::Done, output: NONE, printed: REPORT, warned: "" },
    Case { words: &["lcov", "-o", "x.info", "cells.db"], files: &[("cells.db", CELLS), ("x.info", "old")], status: Status::Done, output: ("x.info", TRACED), printed: "", warned: "" },
    Case { words: &["lcov", "cells.db", "-o", "x.info"], files: &[("cells.db", "covered-db 1\ntop\n"), ("x.info", "old")], status: Status::Database, output: ("x.info", "old"), printed: "", warned: "covered: database: cells.db: 1 BadLine 2\n" },
    Case { words: &["lcov", "-o", "x.info"], files: &[("x.info", "old")], status: Status::Usage, output: ("x.info", "old"), printed: "", warned: "covered: usage: missing file\n" },
    Case { words: &["rank", "t1.db", "t2.db"], files: TABLES, status: Status::Done, output: NONE, printed: "covered rank 1\nuse 4 4 t1.db\nuse 1 5 t2.db\nhit 5 of 11\n", warned: "" },
    Case { words: &["rank", "t1.db", "t5.db"], files: TABLES, status: Status::Database, output: NONE, printed: "", warned: "covered: database: t5.db: 4 DesignsDiffer 2\n< top ff\n> top ffr\n" },
    Case { words: &["rank", "t1.db", "t5.db", "none.db"], files: TABLES, status: Status::Files, output: NONE, printed: "", warned: "covered: files: open_read none.db\n" },
    Case { words: &["rank"], files: TABLES, status: Status::Usage, output: NONE, printed: "", warned: "covered: usage: missing file\n" },
];

/// Selfruns, and words that are no selfrun.
#[rattlefmt::skip]
const SELFRUNS: &[Case] = &[
    Case { words: &["selfrun", "1", "2"], files: &[], status: Status::Done, output: NONE, printed: TWO_STEPS, warned: "" },
    Case { words: &["selfrun", "0001", "002"], files: TABLES, status: Status::Done, output: NONE, printed: TWO_STEPS, warned: "" },
    Case { words: &["selfrun", "0", "16"], files: &[], status: Status::Done, output: NONE, printed: SIXTEEN_STEPS, warned: "" },
    Case { words: &["selfrun", "1", "1000001"], files: &[], status: Status::Usage, output: NONE, printed: "", warned: "covered: usage: bad value 1000001\n" },
    Case { words: &["selfrun", "1", "2", "3"], files: &[], status: Status::Usage, output: NONE, printed: "", warned: "covered: usage: unknown word 3\n" },
];

/// The words of a case.
fn words_of(alloc: Global, case: &Case) -> Result<Words, NoMemory> {
    let mut words = Words::new(alloc);
    for word in case.words {
        words.push(word)?;
    }
    Ok(words)
}

/// A host with the files of a case.
fn host_of(alloc: Global, case: &Case) -> Result<MemoryHost, NoMemory> {
    let mut host = MemoryHost::new(alloc, Calls::new(alloc))?;
    for (name, text) in case.files {
        host.put(name, text.as_bytes())?;
    }
    Ok(host)
}

/// Whether the file has the text that the case says, or is missing where that is empty.
fn has_output(host: &MemoryHost, case: &Case) -> bool {
    let (name, text) = case.output;
    host.file(name).unwrap_or(b"") == text.as_bytes()
        && host.file(name).is_some() != text.is_empty()
}

/// Whether the host is left as the case says.
fn is_left(host: &MemoryHost, case: &Case) -> bool {
    has_output(host, case)
        && host.printed() == case.printed.as_bytes()
        && host.warned() == case.warned.as_bytes()
}

/// Whether the command of the case ends as the case says, on a host that moves one byte at a time or many.
fn ends(alloc: Global, case: &Case, one_byte: bool) -> bool {
    let (Ok(words), Ok(mut host)) = (words_of(alloc, case), host_of(alloc, case)) else {
        return false;
    };
    if one_byte {
        host.one_byte();
    }
    covered(alloc, &words, &mut host) == case.status && is_left(&host, case)
}

#[test]
fn scores_a_module_of_inputs(rt: HostRuntime) {
    for case in SCORED {
        assert!(rt; ends(rt.alloc(), case, false));
        assert!(rt; ends(rt.alloc(), case, true));
    }
}

/// Whether each command of a table ends as its case says, on a host that moves many bytes at a time.
fn all_end(alloc: Global, cases: &[Case]) -> bool {
    for case in cases {
        if !ends(alloc, case, false) {
            return false;
        }
    }
    true
}

#[test]
fn refuses_dumps(rt: HostRuntime) {
    assert!(rt; all_end(rt.alloc(), DUMPS));
}

#[test]
fn refuses_sources(rt: HostRuntime) {
    assert!(rt; all_end(rt.alloc(), SOURCES));
}

#[test]
fn scores_and_refuses_an_assignment(rt: HostRuntime) {
    assert!(rt; all_end(rt.alloc(), ASSIGNMENTS));
}

#[test]
fn joins_and_reports_databases(rt: HostRuntime) {
    assert!(rt; all_end(rt.alloc(), DATABASES));
}

#[test]
fn makes_and_scores_a_selfrun(rt: HostRuntime) {
    assert!(rt; all_end(rt.alloc(), SELFRUNS));
}

/// Whether two calls of a command print the same on two hosts.
fn prints_the_same_twice(alloc: Global, case: &Case) -> bool {
    let (Ok(words), Ok(mut one), Ok(mut other)) = (
        words_of(alloc, case),
        host_of(alloc, case),
        host_of(alloc, case),
    ) else {
        return false;
    };
    covered(alloc, &words, &mut one) == covered(alloc, &words, &mut other)
        && one.printed() == other.printed()
}

#[test]
fn a_selfrun_prints_the_same_twice(rt: HostRuntime) {
    assert!(rt; ends(rt.alloc(), &LONG, false));
    assert!(rt; prints_the_same_twice(rt.alloc(), &LONG));
}

/// A command of which one call of the host fails, by its number: the status that it ends with, and what it warns.
struct Failing {
    words: &'static [&'static str],
    files: &'static [File],
    call: u64,
    status: Status,
    warned: &'static str,
}

/// Each call of a score, a merge, a report and a selfrun in turn. A warning that is refused leaves the status.
#[rattlefmt::skip]
const FAILING: &[Failing] = &[
    Failing { words: SCORE, files: &[("pads.v", SOURCE), ("D", DUMP)], call: 1, status: Status::Files, warned: "covered: files: open_read pads.v\n" },
    Failing { words: SCORE, files: &[("pads.v", SOURCE), ("D", DUMP)], call: 2, status: Status::Files, warned: "covered: files: read pads.v\n" },
    Failing { words: SCORE, files: &[("pads.v", SOURCE), ("D", DUMP)], call: 3, status: Status::Files, warned: "covered: files: read pads.v\n" },
    Failing { words: SCORE, files: &[("pads.v", SOURCE), ("D", DUMP)], call: 4, status: Status::Files, warned: "covered: files: open_read D\n" },
    Failing { words: SCORE, files: &[("pads.v", SOURCE), ("D", DUMP)], call: 5, status: Status::Files, warned: "covered: files: read D\n" },
    Failing { words: SCORE, files: &[("pads.v", SOURCE), ("D", DUMP)], call: 6, status: Status::Files, warned: "covered: files: read D\n" },
    Failing { words: SCORE, files: &[("pads.v", SOURCE), ("D", DUMP)], call: 7, status: Status::Files, warned: "covered: files: open_write B\n" },
    Failing { words: SCORE, files: &[("pads.v", SOURCE), ("D", DUMP)], call: 8, status: Status::Files, warned: "covered: files: write B\n" },
    Failing { words: SCORE, files: &[("pads.v", SOURCE), ("D", DUMP)], call: 9, status: Status::Files, warned: "covered: files: close_write B\n" },
    Failing { words: SCORE, files: &[("pads.v", SOURCE), ("D", DUMP)], call: 10, status: Status::Done, warned: "" },
    Failing { words: INCLUDING, files: &[A, PADS, ("D", DUMP), PORTS], call: 7, status: Status::Files, warned: "covered: files: open_read inc/ports.vh\n" },
    Failing { words: INCLUDING, files: &[A, PADS, ("D", DUMP), PORTS], call: 8, status: Status::Files, warned: "covered: files: read inc/ports.vh\n" },
    Failing { words: &["merge", "-o", "m.db", "t2.db", "t1.db"], files: TABLES, call: 1, status: Status::Files, warned: "covered: files: open_read t2.db\n" },
    Failing { words: &["merge", "-o", "m.db", "t2.db", "t1.db"], files: TABLES, call: 4, status: Status::Files, warned: "covered: files: open_read t1.db\n" },
    Failing { words: &["merge", "-o", "m.db", "t2.db", "t1.db"], files: TABLES, call: 5, status: Status::Files, warned: "covered: files: read t1.db\n" },
    Failing { words: &["merge", "-o", "m.db", "t2.db", "t1.db"], files: TABLES, call: 7, status: Status::Files, warned: "covered: files: open_write m.db\n" },
    Failing { words: &["report", "t1.db"], files: TABLES, call: 4, status: Status::Files, warned: "covered: files: print -\n" },
    Failing { words: &["selfrun", "1", "2"], files: &[], call: 1, status: Status::Files, warned: "covered: files: print -\n" },
    Failing { words: &["score", "-t"], files: &[], call: 1, status: Status::Usage, warned: "" },
    Failing { words: &["report", "t9.db"], files: TABLES, call: 2, status: Status::Files, warned: "" },
    Failing { words: SCORE_M, files: &[("m.v", "module m(input a);\n")], call: 4, status: Status::Source, warned: "" },
];

/// A host with the files of the case, of which one call fails.
fn failing_host(alloc: Global, case: &Failing) -> Result<MemoryHost, NoMemory> {
    let mut failing = Calls::new(alloc);
    failing.push(case.call)?;
    let mut host = MemoryHost::new(alloc, failing)?;
    for (name, text) in case.files {
        host.put(name, text.as_bytes())?;
    }
    Ok(host)
}

/// The words of a case of which a call fails.
fn failing_words(alloc: Global, case: &Failing) -> Result<Words, NoMemory> {
    let mut words = Words::new(alloc);
    for word in case.words {
        words.push(word)?;
    }
    Ok(words)
}

/// Whether the command ends as the case says.
fn fails(alloc: Global, case: &Failing) -> bool {
    let (Ok(words), Ok(mut host)) = (failing_words(alloc, case), failing_host(alloc, case)) else {
        return false;
    };
    covered(alloc, &words, &mut host) == case.status && host.warned() == case.warned.as_bytes()
}

#[test]
fn each_failing_call_tells_its_own_name(rt: HostRuntime) {
    for case in FAILING {
        assert!(rt; fails(rt.alloc(), case));
    }
}
