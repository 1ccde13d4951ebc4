ghost use Rattle.std.specs.Prelude.{◌≡◌, ◌++◌, ◌<◌, ◌+◌, ◌^◌, length, map, IfOk, OnOk};
ghost use Rattle.std.specs.List.Sorted.{IsSorted};
ghost use Rattle.coverage_db.specs.Table.{IsTable, Rises};
ghost use Rattle.coverage_db.specs.Text.{text_of_lines};
ghost use Rattle.cov_report.specs.Order.{place_cmp};
ghost use Rattle.lcov_text.specs.Tracefile.{tracefile_text, source_records};
ghost use Rattle.lcov_text.specs.Views.{trace_view, traced_cmp, is_among};

use crate::hit_lines::hit_lines;
use crate::line::push_word;
use crate::points::{points_in, trace_points};
use crate::record::push_record;
use crate::traced::{Part, Traced};
use cov_host::{Name, NoMemory, Sequence, Text};
use coverage_db::{Db, SourceLine};
use std::alloc::Global;

/// The tracefile of a database (geninfo(1) of lcov 1.16 and 2): a record for each source, with the lines on which
/// statements begin and the branches, which are the cases of counted nodes.
///
/// A point that is left open is not hit. Points of one module in several instances count once: hit where one of
/// them is. Points without a line are not in it.
pub fn tracefile(alloc: Global, db: &Db) -> Result<Text, NoMemory>
    requires { IsTable db.now }
    ensures { IfOk result (λ text. text ≡ tracefile_text db.now) }
{
    let points = trace_points(alloc, db)?;
    let hit_lines = hit_lines(alloc, &points)?;
    let mut text = Text::new(alloc);
    push_word(&mut text, b"TN:", db.top.as_slice())?;
    push_records(&mut text, &db.sources, &hit_lines, &points)?;
    Ok(text)
}

/// Appends the records of the sources.
fn push_records(
    text: &mut Text,
    sources: &Sequence<Name>,
    hit_lines: &[SourceLine],
    points: &[Traced<'_>],
) -> Result<(), NoMemory>
    requires few { length sources.now + 1 < 2 ^ 32 }
    requires sorted { IsSorted place_cmp hit_lines.now }
    requires rising { Rises traced_cmp points.now }
    ensures { OnOk result (text.new ≡ text.old ++ text_of_lines (source_records (is_among hit_lines.now) (map trace_view points.now) 1 sources.now)) }
{
    for (place, name) in sources.as_slice().iter().enumerate() {
        let source = place as u32 + 1;
        let lines = points_in(points, source, Part::Lines);
        let branches = points_in(points, source, Part::Branches);
        push_record(text, name, hit_lines, lines, branches)?;
    }
    Ok(())
}
