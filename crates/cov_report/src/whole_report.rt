ghost use Rattle.std.specs.Prelude.{◌≡◌, ◌++◌, ◌<◌, ◌^◌, length, map, flat_map, All, IfOk, OnOk};
ghost use Rattle.coverage_db.specs.Table.{IsTable, Rises};
ghost use Rattle.coverage_db.specs.Text.{text_of_lines, ended};
ghost use Rattle.cov_report.specs.Metrics.{metrics, is_chosen};
ghost use Rattle.cov_report.specs.Points.{points_in, block_name};
ghost use Rattle.cov_report.specs.Report.{report_text, report_head, heading, block_lines, metric_lines, point_lines, listed};
ghost use Rattle.cov_report.specs.Views.{counted_cmp, report_point, block_instance};

use crate::block::{Block, blocks};
use crate::columns::push_counts;
use crate::counted::{Counted, counted_points, points_of};
use crate::counts::{counts_in, counts_of};
use crate::point_line::push_point;
use crate::{Level, Metric, Options};
use cov_host::{NoMemory, Text};
use coverage_db::{Db, DbInstance, push_instance, push_sources};
use std::alloc::Global;

/// The text of the report of a database.
pub fn report(alloc: Global, db: &Db, options: &Options) -> Result<Text, NoMemory>
    requires { IsTable db.now }
    ensures { IfOk result (λ text. text ≡ report_text db.now options.now) }
{
    let points = counted_points(alloc, db, options)?;
    let blocks = blocks(alloc, db.instances.as_slice(), options)?;
    let mut text = Text::new(alloc);
    push_head(&mut text, db, options)?;
    push_blocks(&mut text, options, &blocks, &points)?;
    push_counts(&mut text, "all", counts_of(&points))?;
    text.push(b'\n')?;
    Ok(text)
}

/// Appends the lines before the blocks.
fn push_head(text: &mut Text, db: &Db, options: &Options) -> Result<(), NoMemory>
    ensures { OnOk result (text.new ≡ text.old ++ text_of_lines (report_head options.now db.now)) }
{
    text.extend_from_slice(b"covered report 1\ntop ")?;
    text.extend_from_slice(db.top.as_slice())?;
    text.push(b'\n')?;
    match options.level {
        Level::Summary | Level::Detailed => Ok(()),
        Level::Verbose => push_sources(text, &db.sources),
    }
}

/// Appends the lines of the blocks.
fn push_blocks(
    text: &mut Text,
    options: &Options,
    blocks: &[Block<'_>],
    points: &[Counted<'_>],
) -> Result<(), NoMemory>
    requires names { All (λ block. block.name.now ≡ block_name options.now block.instance.now) blocks.now }
    requires rising { Rises counted_cmp points.now }
    requires few { length points.now < 2 ^ 32 }
    ensures { OnOk result (text.new ≡ text.old ++ text_of_lines (flat_map (λ block. block_lines options.now block (points_in options.now block (map report_point points.now))) (map block_instance blocks.now))) }
{
    for block in blocks {
        push_block(text, options, block.instance, points_of(points, block.name))?;
    }
    Ok(())
}

/// Appends the lines of a block with these points.
fn push_block(
    text: &mut Text,
    options: &Options,
    block: &DbInstance,
    points: &[Counted<'_>],
) -> Result<(), NoMemory>
    requires { length points.now < 2 ^ 32 }
    ensures { OnOk result (text.new ≡ text.old ++ text_of_lines (block_lines options.now block.now (map report_point points.now))) }
{
    push_heading(text, options, block)?;
    text.extend_from_slice(b"\nmetric       hit  missed   undet   pct\n")?;
    push_metrics(text, options, points)?;
    match options.level {
        Level::Summary => Ok(()),
        Level::Detailed | Level::Verbose => push_points(text, options, points),
    }
}

/// Appends the first line of a block, without its line feed.
fn push_heading(text: &mut Text, options: &Options, block: &DbInstance) -> Result<(), NoMemory>
    ensures { OnOk result (text.new ≡ text.old ++ heading options.now block.now) }
{
    if options.by_instance {
        return push_instance(text, block);
    }
    text.extend_from_slice(b"module ")?;
    text.extend_from_slice(block.module.as_slice())
}

/// Appends the lines of the chosen metrics.
fn push_metrics(text: &mut Text, options: &Options, points: &[Counted<'_>]) -> Result<(), NoMemory>
    requires { length points.now < 2 ^ 32 }
    ensures { OnOk result (text.new ≡ text.old ++ text_of_lines (metric_lines options.now (map report_point points.now))) }
{
    for metric in &Metric::ALL {
        if metric.is_chosen(options.letters) {
            push_counts(text, metric.name(), counts_in(points, *metric))?;
            text.push(b'\n')?;
        }
    }
    Ok(())
}

/// Appends the lines of the points that the report lists.
fn push_points(text: &mut Text, options: &Options, points: &[Counted<'_>]) -> Result<(), NoMemory>
    ensures { OnOk result (text.new ≡ text.old ++ text_of_lines (flat_map (point_lines options.now) (map report_point points.now))) }
{
    for point in points {
        push_point(text, options, point)?;
    }
    Ok(())
}
