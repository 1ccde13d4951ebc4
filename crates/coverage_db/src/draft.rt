ghost use Rattle.std.specs.Prelude.{◌≡◌, ◌+◌, length, Some};
ghost use Rattle.coverage_db.specs.declared.fault.DbFault.TheVariants.{At};
ghost use Rattle.coverage_db.specs.declared.fault.DbKind.TheVariants.{BadLine};
ghost use Rattle.coverage_db.specs.Drafting.{StepsTo, Returns, IsDraft, start, follows, finish_at, next, next_version, next_top, next_source, next_instance, next_count, next_point, next_counted, next_window_count, next_window, next_windows_counted, next_end};
ghost use Rattle.coverage_db.specs.Order.{bytes_cmp, address_cmp};
ghost use Rattle.coverage_db.specs.Windows.{window_cmp};

use crate::head::{begins_point, count_of, instance_at, is_version, source_of, top_of, version_of};
use crate::line_fault::LineFault;
use crate::read_point::read_point;
use crate::read_subject::to_name;
use crate::read_window::{begins_window, read_window, window_count_of};
use crate::{Db, DbFault, DbInstance, DbKind, DbPoint, Version, Window};
use cov_host::Sequence;
use itoa::Buffer;
use std::alloc::Global;
use std::cmp::Ordering;

/// A table of which some lines have been read.
#[derive(Drop)]
pub(crate) struct Draft {
    alloc: Global,
    stage: Stage,
    /// The version that the first line names.
    version: Version,
    /// The digits of the number of points.
    count: Sequence<u8>,
    /// The digits of the number of windows.
    window_count: Sequence<u8>,
    db: Db,
}

/// Which line was read last, or what may come next.
#[derive(Clone, Copy)]
enum Stage {
    /// Nothing was read.
    Version,
    /// The top module comes.
    Top,
    /// The top module was read, and maybe some sources.
    Sources,
    /// An instance was read.
    Instances,
    /// The number of points was read, and maybe some points.
    Points,
    /// The number of windows was read, and maybe some windows.
    Windows,
    /// The last line was read.
    End,
}

impl Draft {
    /// Nothing has been read. It takes no memory.
    pub(crate) fn new(alloc: Global) -> Self
        ensures { result ≡ start alloc }
    {
        Draft {
            alloc,
            stage: Stage::Version,
            version: Version::Two,
            count: Sequence::new(alloc),
            window_count: Sequence::new(alloc),
            db: Db {
                top: Sequence::new(alloc),
                sources: Sequence::new(alloc),
                instances: Sequence::new(alloc),
                points: Sequence::new(alloc),
                windows: Sequence::new(alloc),
            },
        }
    }

    /// Reads one more line, which has this number.
    pub(crate) fn take_line(&mut self, number: u32, line: &[u8]) -> Result<(), DbFault>
        requires { IsDraft self.old }
        ensures { StepsTo result self.new (next number self.old line.now) }
    {
        match self.stage {
            Stage::Version => self.take_version(number, line),
            Stage::Top => self.take_top(number, line),
            Stage::Sources => self.take_source(number, line),
            Stage::Instances => self.take_count(number, line),
            Stage::Points => self.take_point(number, line),
            Stage::Windows => self.take_window(number, line),
            Stage::End => Err(bad_line(number)),
        }
    }

    /// The table, where the text ends after its last line.
    pub(crate) fn finish(self, number: u32, rest: &[u8]) -> Result<Db, DbFault>
        ensures { Returns result (finish_at self.stage number self rest.now) }
    {
        let Draft { stage, db, .. } = self;
        match stage {
            Stage::End if rest.is_empty() => Ok(db),
            _ => Err(bad_line(number)),
        }
    }

    #[tactic(auto, unfolding(crate::specs::Drafting::next_version))]
    fn take_version(&mut self, number: u32, line: &[u8]) -> Result<(), DbFault>
        ensures { StepsTo result self.new (next_version number self.old line.now) }
    {
        if let Some(version) = version_of(line) {
            self.stage = Stage::Top;
            self.version = version;
            Ok(())
        } else if is_version(line) {
            Err(DbFault::At {
                kind: DbKind::WrongVersion,
                line: Some(number),
            })
        } else {
            Err(bad_line(number))
        }
    }

    #[tactic(auto, unfolding(crate::specs::Drafting::next_top))]
    fn take_top(&mut self, number: u32, line: &[u8]) -> Result<(), DbFault>
        ensures { StepsTo result self.new (next_top number self.old line.now) }
    {
        let Some(top) = top_of(line) else {
            return Err(bad_line(number));
        };
        self.db.top = to_name(self.alloc, top)?;
        self.stage = Stage::Sources;
        Ok(())
    }

    /// The next source, or, after at least one source, the first instance.
    #[tactic(auto, unfolding(crate::specs::Drafting::next_source))]
    fn take_source(&mut self, number: u32, line: &[u8]) -> Result<(), DbFault>
        requires { IsDraft self.old }
        ensures { StepsTo result self.new (next_source number self.old line.now) }
    {
        if let Some(name) = source_of(line, self.db.sources.len() + 1) {
            let name = to_name(self.alloc, name)?;
            self.db.sources.push(name)?;
            return Ok(());
        }
        if self.db.sources.is_empty() {
            return Err(bad_line(number));
        }
        self.take_instance(number, line)
    }

    /// The number of points, or one more instance.
    #[tactic(auto, unfolding(crate::specs::Drafting::next_count))]
    fn take_count(&mut self, number: u32, line: &[u8]) -> Result<(), DbFault>
        ensures { StepsTo result self.new (next_count number self.old line.now) }
    {
        let Some(digits) = count_of(line) else {
            return self.take_instance(number, line);
        };
        self.count = to_name(self.alloc, digits)?;
        self.stage = Stage::Points;
        Ok(())
    }

    /// The next instance, whose path comes after those so far.
    #[tactic(auto, unfolding(crate::specs::Drafting::next_instance))]
    fn take_instance(&mut self, number: u32, line: &[u8]) -> Result<(), DbFault>
        ensures { StepsTo result self.new (next_instance number self.old line.now) }
    {
        let Some((path, module)) = instance_at(line) else {
            return Err(bad_line(number));
        };
        let instance = DbInstance {
            path: to_name(self.alloc, path)?,
            module: to_name(self.alloc, module)?,
        };
        if !instance_follows(self.db.instances.as_slice(), &instance) {
            return Err(bad_line(number));
        }
        self.db.instances.push(instance)?;
        self.stage = Stage::Instances;
        Ok(())
    }

    /// The next point, which comes after those so far, or what is after the points.
    #[tactic(auto, unfolding(crate::specs::Drafting::next_point))]
    fn take_point(&mut self, number: u32, line: &[u8]) -> Result<(), DbFault>
        requires { IsDraft self.old }
        ensures { StepsTo result self.new (next_point number self.old line.now) }
    {
        if !begins_point(line) {
            return self.take_counted(number, line);
        }
        let sources = self.db.sources.len() as u32;
        match read_point(self.alloc, sources, self.db.instances.as_slice(), line) {
            Ok(point) if point_follows(self.db.points.as_slice(), &point) => {
                self.db.points.push(point)?;
                Ok(())
            }
            Err(LineFault::NoMemory) => Err(DbFault::NoMemory),
            _ => Err(bad_line(number)),
        }
    }

    /// What is after the points, where their number is right.
    #[tactic(auto, unfolding(crate::specs::Drafting::next_counted))]
    fn take_counted(&mut self, number: u32, line: &[u8]) -> Result<(), DbFault>
        requires { IsDraft self.old }
        ensures { StepsTo result self.new (next_counted number self.old line.now) }
    {
        let mut digits = Buffer::new();
        if self.count.as_slice() != digits.format(self.db.points.len()).as_bytes() {
            return Err(DbFault::At {
                kind: DbKind::WrongCount,
                line: Some(self.count_line()),
            });
        }
        match self.version {
            Version::One => self.take_end(number, line),
            Version::Two => self.take_window_count(number, line),
        }
    }

    /// The number of windows.
    #[tactic(auto, unfolding(crate::specs::Drafting::next_window_count))]
    fn take_window_count(&mut self, number: u32, line: &[u8]) -> Result<(), DbFault>
        ensures { StepsTo result self.new (next_window_count number self.old line.now) }
    {
        let Some(digits) = window_count_of(line) else {
            return Err(bad_line(number));
        };
        self.window_count = to_name(self.alloc, digits)?;
        self.stage = Stage::Windows;
        Ok(())
    }

    /// The next window, which comes after those so far, or the end.
    #[tactic(auto, unfolding(crate::specs::Drafting::next_window))]
    fn take_window(&mut self, number: u32, line: &[u8]) -> Result<(), DbFault>
        requires { IsDraft self.old }
        ensures { StepsTo result self.new (next_window number self.old line.now) }
    {
        if !begins_window(line) {
            return self.take_windows_counted(number, line);
        }
        match read_window(line) {
            Ok(window) if window_follows(self.db.windows.as_slice(), &window) => {
                self.db.windows.push(window)?;
                Ok(())
            }
            Err(LineFault::NoMemory) => Err(DbFault::NoMemory),
            _ => Err(bad_line(number)),
        }
    }

    /// The end, where the number of windows is right.
    #[tactic(auto, unfolding(crate::specs::Drafting::next_windows_counted))]
    fn take_windows_counted(&mut self, number: u32, line: &[u8]) -> Result<(), DbFault>
        requires { IsDraft self.old }
        ensures { StepsTo result self.new (next_windows_counted number self.old line.now) }
    {
        let mut digits = Buffer::new();
        if self.window_count.as_slice() != digits.format(self.db.windows.len()).as_bytes() {
            return Err(DbFault::At {
                kind: DbKind::WrongCount,
                line: Some(self.window_count_line()),
            });
        }
        self.take_end(number, line)
    }

    /// The end.
    #[tactic(auto, unfolding(crate::specs::Drafting::next_end))]
    fn take_end(&mut self, number: u32, line: &[u8]) -> Result<(), DbFault>
        ensures { StepsTo result self.new (next_end number self.old line.now) }
    {
        if line != b"end".as_slice() {
            return Err(bad_line(number));
        }
        self.stage = Stage::End;
        Ok(())
    }

    /// The number of the line with the number of points.
    fn count_line(&self) -> u32
        requires { IsDraft self.now }
        ensures { result ≡ 3 + length self.now.db.sources + length self.now.db.instances }
    {
        3 + self.db.sources.len() as u32 + self.db.instances.len() as u32
    }

    /// The number of the line with the number of windows.
    fn window_count_line(&self) -> u32
        requires { IsDraft self.now }
        ensures { result ≡ 4 + length self.now.db.sources + length self.now.db.instances + length self.now.db.points }
    {
        1 + self.count_line() + self.db.points.len() as u32
    }
}

/// The fault of a line that does not fit.
fn bad_line(number: u32) -> DbFault
    ensures { result ≡ At BadLine (Some number) }
{
    DbFault::At {
        kind: DbKind::BadLine,
        line: Some(number),
    }
}

/// Whether the instance may follow these.
fn instance_follows(instances: &[DbInstance], instance: &DbInstance) -> bool
    ensures { result ≡ follows (λ a b. bytes_cmp a.path b.path) instances.now instance.now }
{
    match instances.last() {
        Some(last) => last.path.as_slice().cmp(instance.path.as_slice()) == Ordering::Less,
        None => true,
    }
}

/// Whether the point may follow these.
fn point_follows(points: &[DbPoint], point: &DbPoint) -> bool
    ensures { result ≡ follows (λ a b. address_cmp a.address b.address) points.now point.now }
{
    match points.last() {
        Some(last) => last.address.compare(&point.address) == Ordering::Less,
        None => true,
    }
}

/// Whether the window may follow these.
fn window_follows(windows: &[Window], window: &Window) -> bool
    ensures { result ≡ follows window_cmp windows.now window.now }
{
    match windows.last() {
        Some(last) => last.compare(window) == Ordering::Less,
        None => true,
    }
}
