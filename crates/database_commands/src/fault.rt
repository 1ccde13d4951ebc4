ghost use Rattle.std.specs.Prelude.{◌≡◌, ◌++◌, codes, decimal};
ghost use Rattle.cov_host.specs.Outside.{KeepsFiles, KeepsInput, KeepsOutput};
ghost use Rattle.coverage_db.specs.FaultText.{kind_text};
ghost use Rattle.whole_files.specs.Effects.{CountsUp, WarnsLine};
ghost use Rattle.database_commands.specs.FaultLine.{database_line, line_text};

use cov_host::{Host, Name};
use coverage_db::DbKind;
use db_tools::ToolFault;
use itoa::Buffer;
use whole_files::{Call, warn_file, warn_pieces};

/// Why a command over databases ended without its output.
#[derive(Drop)]
pub enum CommandFault<'a> {
    /// A call on the host gave nothing: it failed, or the file is absent.
    Files {
        /// The call.
        call: Call,
        /// The name of the file.
        file: &'a str,
    },
    /// The standard output took no text.
    Print,
    /// Memory ran out.
    Memory,
    /// The file is no database.
    NoDatabase {
        /// The name of the file.
        file: &'a str,
        /// What is wrong with its text.
        kind: DbKind,
        /// The number of the line, from 1. None where the file is too long.
        line: Option<u32>,
    },
    /// The databases of the first file and of this one are of different designs. Of the lines of their texts, each
    /// up to its verdict, this is the first that differs.
    DesignsDiffer {
        /// The name of this file.
        file: &'a str,
        /// The number of the line, from 1.
        line: u32,
        /// The line of the first file.
        first: Name,
        /// The line of this file.
        other: Name,
    },
    /// A point is not one that the command can change.
    Point {
        /// The name of the file.
        file: &'a str,
        /// Why it is refused.
        fault: ToolFault,
        /// The address.
        address: &'a str,
    },
}

impl CommandFault<'_> {
    /// Warns of the fault by its line.
    pub fn warn<H: Host>(&self, host: &mut H)
        ensures line { WarnsLine (database_line self.now) (H.outside host.old) (H.outside host.new) }
        ensures printed { (H.outside host.new).printed ≡ (H.outside host.old).printed }
        ensures files { KeepsFiles (H.outside host.old) (H.outside host.new) }
        ensures input { KeepsInput (H.outside host.old) (H.outside host.new) }
        ensures output { KeepsOutput (H.outside host.old) (H.outside host.new) }
        ensures counts { CountsUp (H.outside host.old) (H.outside host.new) }
    {
        match self {
            CommandFault::Files { call, file } => warn_file(host, call.name(), file.as_bytes()),
            CommandFault::Print => warn_file(host, "print", "-".as_bytes()),
            CommandFault::Memory => warn_pieces(host, &["covered: memory\n".as_bytes()]),
            CommandFault::NoDatabase { file, kind, line } => warn_kind(host, file, *kind, *line),
            CommandFault::DesignsDiffer {
                file,
                line,
                first,
                other,
            } => warn_difference(host, file, *line, first.as_slice(), other.as_slice()),
            CommandFault::Point {
                file,
                fault,
                address,
            } => warn_fault(host, file, fault.text(), " ", address),
        }
    }
}

/// Warns of a file that is no database.
fn warn_kind<H: Host>(host: &mut H, file: &str, kind: DbKind, line: Option<u32>)
    ensures line { WarnsLine (codes "covered: database: " ++ file.now ++ codes ": " ++ kind_text kind ++ line_text line ++ codes "\n") (H.outside host.old) (H.outside host.new) }
    ensures printed { (H.outside host.new).printed ≡ (H.outside host.old).printed }
    ensures files { KeepsFiles (H.outside host.old) (H.outside host.new) }
    ensures input { KeepsInput (H.outside host.old) (H.outside host.new) }
    ensures output { KeepsOutput (H.outside host.old) (H.outside host.new) }
    ensures counts { CountsUp (H.outside host.old) (H.outside host.new) }
{
    let mut digits = Buffer::new();
    match line {
        None => warn_fault(host, file, kind.text(), "", ""),
        Some(line) => warn_fault(host, file, kind.text(), " ", digits.format(line)),
    }
}

/// Warns of a fault of a database, with a space and the number of its line or the address of a point, or with neither.
fn warn_fault<'a, H: Host>(
    host: &mut H,
    file: &'a str,
    fault: &'a str,
    space: &'a str,
    line: &'a str,
)
    ensures line { WarnsLine (codes "covered: database: " ++ file.now ++ codes ": " ++ fault.now ++ space.now ++ line.now ++ codes "\n") (H.outside host.old) (H.outside host.new) }
    ensures printed { (H.outside host.new).printed ≡ (H.outside host.old).printed }
    ensures files { KeepsFiles (H.outside host.old) (H.outside host.new) }
    ensures input { KeepsInput (H.outside host.old) (H.outside host.new) }
    ensures output { KeepsOutput (H.outside host.old) (H.outside host.new) }
    ensures counts { CountsUp (H.outside host.old) (H.outside host.new) }
{
    warn_pieces(
        host,
        &[
            "covered: database: ".as_bytes(),
            file.as_bytes(),
            ": ".as_bytes(),
            fault.as_bytes(),
            space.as_bytes(),
            line.as_bytes(),
            "\n".as_bytes(),
        ],
    );
}

/// Warns of a database of another design than the first, with the line of either.
fn warn_difference<H: Host>(host: &mut H, file: &str, line: u32, first: &[u8], other: &[u8])
    ensures line { WarnsLine (codes "covered: database: " ++ file.now ++ codes ": 4 DesignsDiffer " ++ decimal line ++ codes "\n< " ++ first.now ++ codes "\n> " ++ other.now ++ codes "\n") (H.outside host.old) (H.outside host.new) }
    ensures printed { (H.outside host.new).printed ≡ (H.outside host.old).printed }
    ensures files { KeepsFiles (H.outside host.old) (H.outside host.new) }
    ensures input { KeepsInput (H.outside host.old) (H.outside host.new) }
    ensures output { KeepsOutput (H.outside host.old) (H.outside host.new) }
    ensures counts { CountsUp (H.outside host.old) (H.outside host.new) }
{
    let mut digits = Buffer::new();
    warn_lines(host, file, digits.format(line), first, other);
}

/// Warns of designs that differ at a line.
fn warn_lines<'a, H: Host>(
    host: &mut H,
    file: &'a str,
    line: &'a str,
    first: &'a [u8],
    other: &'a [u8],
)
    ensures line { WarnsLine (codes "covered: database: " ++ file.now ++ codes ": 4 DesignsDiffer " ++ line.now ++ codes "\n< " ++ first.now ++ codes "\n> " ++ other.now ++ codes "\n") (H.outside host.old) (H.outside host.new) }
    ensures printed { (H.outside host.new).printed ≡ (H.outside host.old).printed }
    ensures files { KeepsFiles (H.outside host.old) (H.outside host.new) }
    ensures input { KeepsInput (H.outside host.old) (H.outside host.new) }
    ensures output { KeepsOutput (H.outside host.old) (H.outside host.new) }
    ensures counts { CountsUp (H.outside host.old) (H.outside host.new) }
{
    warn_pieces(
        host,
        &[
            "covered: database: ".as_bytes(),
            file.as_bytes(),
            ": 4 DesignsDiffer ".as_bytes(),
            line.as_bytes(),
            "\n< ".as_bytes(),
            first,
            "\n> ".as_bytes(),
            other,
            "\n".as_bytes(),
        ],
    );
}
