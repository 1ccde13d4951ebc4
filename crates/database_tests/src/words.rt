//! Each fault as it is reported, and a whole command of each kind.
use crate::usage_cases::{FAULTS, LCOV_FAULTS, MACHINE_FAULTS, POINT_FAULTS, RANK_FAULTS};
use command_line::{
    Command, GivenDefine, GivenDefines, LcovWords, MergeWords, PointAddresses, PointWords,
    RankWords, ReportLevel, ReportMetrics, ReportWords, ScoreWords, SourceFiles, UsageFault,
    read_command,
};
use cov_host::{NoMemory, Words};
use std::alloc::Global;

/// The words of a list.
pub(crate) fn words_of(alloc: Global, texts: &[&str]) -> Result<Words, NoMemory> {
    let mut words = Words::new(alloc);
    for text in texts {
        words.push(text)?;
    }
    Ok(words)
}

/// Whether the pieces of a fault are this text.
fn says(fault: &UsageFault<'_>, text: &str) -> bool {
    let [before, word, after] = fault.pieces();
    let rest = text
        .strip_prefix(before)
        .and_then(|rest| rest.strip_prefix(word));
    rest == Some(after)
}

/// Whether the words are no command, for this reason.
fn is_refused(alloc: Global, texts: &[&str], text: &str) -> bool {
    let Ok(words) = words_of(alloc, texts) else {
        return false;
    };
    match read_command(&words) {
        Ok(_) => false,
        Err(fault) => says(&fault, text),
    }
}

#[test]
fn the_first_fault_is_reported(rt: HostRuntime) {
    for (texts, text) in FAULTS {
        assert!(rt; is_refused(rt.alloc(), texts, text), "{text}");
    }
}

#[test]
fn the_first_fault_of_machines_is_reported(rt: HostRuntime) {
    for (texts, text) in MACHINE_FAULTS {
        assert!(rt; is_refused(rt.alloc(), texts, text), "{text}");
    }
}

#[test]
fn the_first_fault_of_lcov_is_reported(rt: HostRuntime) {
    for (texts, text) in LCOV_FAULTS {
        assert!(rt; is_refused(rt.alloc(), texts, text), "{text}");
    }
}

#[test]
fn the_first_fault_of_rank_is_reported(rt: HostRuntime) {
    for (texts, text) in RANK_FAULTS {
        assert!(rt; is_refused(rt.alloc(), texts, text), "{text}");
    }
}

#[test]
fn the_first_fault_of_exclude_and_restore_is_reported(rt: HostRuntime) {
    for (texts, text) in POINT_FAULTS {
        assert!(rt; is_refused(rt.alloc(), texts, text), "{text}");
    }
}

/// The values of a `score` command.
fn score_of(words: &Words) -> Option<ScoreWords<'_>> {
    match read_command(words) {
        Ok(Command::Score(score)) => Some(score),
        _ => None,
    }
}

/// The values of a `merge` command.
pub(crate) fn merge_of(words: &Words) -> Option<MergeWords<'_>> {
    match read_command(words) {
        Ok(Command::Merge(merge)) => Some(merge),
        _ => None,
    }
}

/// The values of a `report` command.
pub(crate) fn report_of(words: &Words) -> Option<ReportWords<'_>> {
    match read_command(words) {
        Ok(Command::Report(report)) => Some(report),
        _ => None,
    }
}

/// The values of an `lcov` command.
fn lcov_of(words: &Words) -> Option<LcovWords<'_>> {
    match read_command(words) {
        Ok(Command::Lcov(lcov)) => Some(lcov),
        _ => None,
    }
}

/// The values of a `rank` command.
pub(crate) fn rank_of(words: &Words) -> Option<RankWords<'_>> {
    match read_command(words) {
        Ok(Command::Rank(rank)) => Some(rank),
        _ => None,
    }
}

/// The values of an `exclude` command.
fn exclude_of(words: &Words) -> Option<PointWords<'_>> {
    match read_command(words) {
        Ok(Command::Exclude(points)) => Some(points),
        _ => None,
    }
}

/// The values of a `restore` command.
fn restore_of(words: &Words) -> Option<PointWords<'_>> {
    match read_command(words) {
        Ok(Command::Restore(points)) => Some(points),
        _ => None,
    }
}

/// Whether these are the files, in order.
fn are_files(files: SourceFiles<'_>, names: &[&str]) -> bool {
    let mut files = files;
    for name in names {
        if files.next_file() != Some(*name) {
            return false;
        }
    }
    files.next_file().is_none()
}

/// Whether these are the macros, in order.
fn are_defines(defines: GivenDefines<'_>, all: &[(&str, &str)]) -> bool {
    let mut defines = defines;
    for (name, text) in all {
        if defines.next_define() != Some(GivenDefine { name, text }) {
            return false;
        }
    }
    defines.next_define().is_none()
}

/// Words of one command: options with values in several orders.
#[rattlefmt::skip]
const ORDERS: &[&[&str]] = &[
    &["score", "-t", "ff", "-i", "tb.dut", "-v", "ff.v", "-vcd", "t.vcd", "-o", "-o"],
    &["score", "-o", "-o", "-vcd", "t.vcd", "-v", "ff.v", "-i", "tb.dut", "-t", "ff"],
    &["score", "-v", "ff.v", "-o", "-o", "-t", "ff", "-vcd", "t.vcd", "-i", "tb.dut"],
];

/// Whether these are the values of those words.
fn is_plain(score: ScoreWords<'_>) -> bool {
    score.top == "ff"
        && score.instance == "tb.dut"
        && score.folder.is_none()
        && score.dump == "t.vcd"
        && score.output == "-o"
        && are_files(score.sources, &["ff.v"])
        && are_defines(score.defines, &[])
}

fn reads_plain(alloc: Global, texts: &[&str]) -> bool {
    match words_of(alloc, texts) {
        Ok(words) => score_of(&words).is_some_and(is_plain),
        Err(_) => false,
    }
}

#[test]
fn options_come_in_any_order(rt: HostRuntime) {
    for texts in ORDERS {
        assert!(rt; reads_plain(rt.alloc(), texts));
    }
}

/// Words whose values look like options, with sources and macros between.
#[rattlefmt::skip]
const MANY: &[&str] = &[
    "score", "-v", "-D", "-D", "W=a=b", "-o", "-v", "-v", "b.v", "-D", "FAST", "-t", "ff", "-I", "-D", "-i", "tb.dut",
    "-v", "-D", "-vcd", "-v", "-D", "W=",
];

/// Whether these are the values of those words.
fn has_many(score: ScoreWords<'_>) -> bool {
    score.folder == Some("-D")
        && are_files(score.sources, &["-D", "b.v", "-D"])
        && are_defines(score.defines, &[("W", "a=b"), ("FAST", "1"), ("W", "")])
}

#[test]
fn sources_and_macros_keep_their_order(rt: HostRuntime) {
    assert!(rt;
        match words_of(rt.alloc(), MANY) {
            Ok(words) => score_of(&words).is_some_and(has_many),
            Err(_) => false,
        }
    );
}

const MERGES: &[&[&str]] = &[
    &["merge", "-o", "-m", "a.db", "b.db", "c.db"],
    &["merge", "a.db", "-o", "-m", "b.db", "c.db"],
    &["merge", "a.db", "b.db", "c.db", "-o", "-m"],
];

/// Whether these are the values of those words.
fn merges_three(merge: MergeWords<'_>) -> bool {
    let mut others = merge.others;
    merge.output == "-m"
        && merge.first == "a.db"
        && others.next_file() == Some("b.db")
        && others.next_file() == Some("c.db")
        && others.next_file().is_none()
}

fn reads_merge(alloc: Global, texts: &[&str]) -> bool {
    match words_of(alloc, texts) {
        Ok(words) => merge_of(&words).is_some_and(merges_three),
        Err(_) => false,
    }
}

#[test]
fn databases_keep_their_order(rt: HostRuntime) {
    for texts in MERGES {
        assert!(rt; reads_merge(rt.alloc(), texts));
    }
}

/// What `report t1.db` asks for.
const SUMMARY: ReportWords<'static> = ReportWords {
    file: "t1.db",
    level: ReportLevel::Summary,
    metrics: ReportMetrics {
        line: true,
        logic: true,
        toggle: true,
        fsm: true,
        memory: false,
    },
    by_instance: false,
    covered: false,
    output: None,
};

/// What these words ask for.
const OPTIONS: &[&str] = &[
    "report", "-c", "-m", "mt", "t1.db", "-i", "-d", "v", "-o", "R",
];

const VERBOSE: ReportWords<'static> = ReportWords {
    file: "t1.db",
    level: ReportLevel::Verbose,
    metrics: ReportMetrics {
        line: false,
        logic: false,
        toggle: true,
        fsm: false,
        memory: true,
    },
    by_instance: true,
    covered: true,
    output: Some("R"),
};

fn reads_report(alloc: Global, texts: &[&str], wanted: ReportWords<'static>) -> bool {
    match words_of(alloc, texts) {
        Ok(words) => report_of(&words) == Some(wanted),
        Err(_) => false,
    }
}

#[test]
fn options_of_a_report(rt: HostRuntime) {
    assert!(rt; reads_report(rt.alloc(), &["report", "t1.db"], SUMMARY));
    assert!(rt; reads_report(rt.alloc(), OPTIONS, VERBOSE));
}

const TRACEFILES: &[&[&str]] = &[
    &["lcov", "-o", "-d", "t1.db"],
    &["lcov", "t1.db", "-o", "-d"],
];

fn reads_lcov(alloc: Global, texts: &[&str]) -> bool {
    match words_of(alloc, texts) {
        Ok(words) => {
            lcov_of(&words).is_some_and(|lcov| lcov.output == "-d" && lcov.file == "t1.db")
        }
        Err(_) => false,
    }
}

#[test]
fn the_words_of_a_tracefile(rt: HostRuntime) {
    for texts in TRACEFILES {
        assert!(rt; reads_lcov(rt.alloc(), texts));
    }
}

/// Whether these are the databases of a ranking: one twice, and another between.
fn ranks_three(rank: RankWords<'_>) -> bool {
    let mut others = rank.others;
    rank.first == "b.db"
        && others.next_file() == Some("a.db")
        && others.next_file() == Some("b.db")
        && others.next_file().is_none()
}

#[test]
fn the_words_of_a_ranking(rt: HostRuntime) {
    assert!(rt;
        match words_of(rt.alloc(), &["rank", "b.db", "a.db", "b.db"]) {
            Ok(words) => rank_of(&words).is_some_and(ranks_three),
            Err(_) => false,
        }
    );
}

/// Words that take out or restore two points, whose addresses look like options, in several orders.
#[rattlefmt::skip]
const EXCLUDED: &[&[&str]] = &[
    &["exclude", "-o", "e.db", "-point", "t ff clk - 10", "-point", "-o", "t1.db"],
    &["exclude", "-point", "t ff clk - 10", "t1.db", "-point", "-o", "-o", "e.db"],
    &["exclude", "t1.db", "-o", "e.db", "-point", "t ff clk - 10", "-point", "-o"],
];

#[rattlefmt::skip]
const RESTORED: &[&[&str]] = &[
    &["restore", "-o", "e.db", "-point", "t ff clk - 10", "-point", "-o", "t1.db"],
    &["restore", "t1.db", "-point", "t ff clk - 10", "-o", "e.db", "-point", "-o"],
];

/// Whether these are the addresses, in order.
fn are_addresses(addresses: PointAddresses<'_>, texts: &[&str]) -> bool {
    let mut addresses = addresses;
    for text in texts {
        if addresses.next_address() != Some(*text) {
            return false;
        }
    }
    addresses.next_address().is_none()
}

/// Whether these are the values of those words.
fn names_two(points: PointWords<'_>) -> bool {
    points.output == "e.db"
        && points.file == "t1.db"
        && are_addresses(points.addresses, &["t ff clk - 10", "-o"])
}

fn excludes_two(alloc: Global, texts: &[&str]) -> bool {
    match words_of(alloc, texts) {
        Ok(words) => exclude_of(&words).is_some_and(names_two) && restore_of(&words).is_none(),
        Err(_) => false,
    }
}

fn restores_two(alloc: Global, texts: &[&str]) -> bool {
    match words_of(alloc, texts) {
        Ok(words) => restore_of(&words).is_some_and(names_two) && exclude_of(&words).is_none(),
        Err(_) => false,
    }
}

#[test]
fn addresses_keep_their_order(rt: HostRuntime) {
    for texts in EXCLUDED {
        assert!(rt; excludes_two(rt.alloc(), texts));
    }
    for texts in RESTORED {
        assert!(rt; restores_two(rt.alloc(), texts));
    }
}
