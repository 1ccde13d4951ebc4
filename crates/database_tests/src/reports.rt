//! Reports of databases.
ghost use Rattle.std.specs.Prelude.{◌≡◌, [], ◌∷◌, codes};
ghost use Rattle.cov_report.specs.Report.{at_left, at_right};

use crate::databases::{is_text, table};
use crate::report_cases::REPORTS;
use cov_host::Text;
use cov_report::{Letters, Level, Options, report};
use std::alloc::Global;

/// Two instances of a module whose points of one number are in other lines, as no design has them.
const OTHER_LINES: &[u8] =
    b"covered-db 1\ntop m\nsource 1 m.v\ninstance m m\ninstance m.a cell\ninstance m.b cell\ninstance m.c cell\npoints 4\nl m.a 1 1:7 if = hit\nl m.a 2 1:8 if = missed\nl m.b 1 1:6 if = missed\nl m.c 1 1:7 if = ? 5 m.c.s\nend\n";

const OTHER_LINES_REPORT: &[u8] =
    b"covered report 1\ntop m\nmodule cell\nmetric       hit  missed   undet   pct\nline           1       2       0   33%\nmissed: l 1 1:6 if\nmissed: l 2 1:8 if\nmodule m\nmetric       hit  missed   undet   pct\nline           0       0       0    -%\nall            1       2       0   33%\n";

/// The detailed report of lines alone.
const LINES: Options = Options {
    level: Level::Detailed,
    letters: Letters {
        line: true,
        logic: false,
        toggle: false,
        fsm: false,
        memory: false,
    },
    by_instance: false,
    covered: false,
};

fn reported(alloc: Global, text: &[u8], options: &Options) -> Option<Text> {
    let db = table(alloc, text)?;
    report(alloc, &db, options).ok()
}

#[test]
fn example_cases_are_reported(rt: HostRuntime) {
    for case in &REPORTS {
        let text = reported(rt.alloc(), case.database, &case.options);
        assert!(rt; is_text(text, case.text));
    }
}

#[test]
fn other_lines_are_other_points(rt: HostRuntime) {
    let text = reported(rt.alloc(), OTHER_LINES, &LINES);
    assert!(rt; is_text(text, OTHER_LINES_REPORT));
}

#[test]
fn definitions() {
    columns_of_counts();
}

/// The columns of a line of counts: `all     123456789       1       0   99%`.
fn columns_of_counts()
    ensures name { at_left 8 (codes "all") ≡ codes "all     " }
    ensures number { at_right 8 (codes "1") ≡ codes "       1" }
    ensures long_number { at_right 8 (codes "123456789") ≡ codes "123456789" }
    ensures percentage { at_right 5 (codes "99") ≡ codes "   99" }
{}
