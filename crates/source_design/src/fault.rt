ghost use Rattle.std.specs.Prelude.{◌≡◌, ◌++◌, codes, decimal};
ghost use Rattle.cov_host.specs.Outside.{KeepsFiles, KeepsInput, KeepsOutput};
ghost use Rattle.whole_files.specs.Effects.{CountsUp, WarnsLine};
ghost use Rattle.source_design.specs.FaultLine.{kind_text, refusal_line, source_line, spot_text};
ghost use Rattle.source_design.specs.declared.fault.SourceFault.TheVariants.{NoMemory as fault_no_memory};

use cov_host::{Host, Name, NoMemory};
use elab_const::ConstKind;
use flat_design::ElabKind;
use itoa::Buffer;
use std::alloc::AllocError;
use verilog_lexer::LexKind;
use verilog_parser::ParseKind;
use whole_files::{Call, warn_file, warn_pieces};

/// What is wrong with sources, by the stage that finds it.
#[derive(Clone, Copy)]
pub enum SourceKind {
    Lex(LexKind),
    Parse(ParseKind),
    Const(ConstKind),
    Elab(ElabKind),
}

impl SourceKind {
    /// The stage, the number and the name, as messages have them.
    pub fn text(self) -> &'static str
        ensures { result.now ≡ kind_text self }
    {
        match self {
            SourceKind::Lex(kind) => kind.text(),
            SourceKind::Parse(kind) => kind.text(),
            SourceKind::Const(kind) => kind.text(),
            SourceKind::Elab(kind) => kind.text(),
        }
    }
}

/// A place in a source, by the source's name. Lines and columns are counted from 1, columns in bytes.
#[derive(Drop)]
pub struct SourceSpot {
    /// The name of the source.
    pub file: Name,
    /// The line, from 1.
    pub line: u32,
    /// The column in bytes, from 1.
    pub column: u32,
}

/// Why sources are refused. The detail is a name or a form, and neither it nor the place is there for every kind.
#[derive(Drop)]
pub struct SourceRefusal {
    /// What is wrong.
    pub kind: SourceKind,
    /// The name or the form that the fault is about.
    pub detail: Option<Name>,
    /// Where it is.
    pub spot: Option<SourceSpot>,
}

impl SourceRefusal {
    /// Warns of the refused sources.
    fn warn<H: Host>(&self, host: &mut H)
        ensures line { WarnsLine (refusal_line self.now) (H.outside host.old) (H.outside host.new) }
        ensures printed { (H.outside host.new).printed ≡ (H.outside host.old).printed }
        ensures files { KeepsFiles (H.outside host.old) (H.outside host.new) }
        ensures input { KeepsInput (H.outside host.old) (H.outside host.new) }
        ensures output { KeepsOutput (H.outside host.old) (H.outside host.new) }
        ensures counts { CountsUp (H.outside host.old) (H.outside host.new) }
    {
        let kind = self.kind.text();
        match &self.detail {
            None => warn_at(host, kind, "", "".as_bytes(), &self.spot),
            Some(detail) => warn_at(host, kind, " ", detail.as_slice(), &self.spot),
        }
    }
}

/// Why no design was read.
#[derive(Drop)]
pub enum SourceFault<'a> {
    NoMemory,
    /// A call on the host gave nothing for a file of the words.
    File { call: Call, file: &'a str },
    /// A call on the host gave nothing for an included file, which was to be read by this path.
    Included { call: Call, path: Name },
    /// The sources are refused.
    Refused(SourceRefusal),
}

impl SourceFault<'_> {
    /// Warns of the fault by its line.
    pub fn warn<H: Host>(&self, host: &mut H)
        ensures line { WarnsLine (source_line self.now) (H.outside host.old) (H.outside host.new) }
        ensures printed { (H.outside host.new).printed ≡ (H.outside host.old).printed }
        ensures files { KeepsFiles (H.outside host.old) (H.outside host.new) }
        ensures input { KeepsInput (H.outside host.old) (H.outside host.new) }
        ensures output { KeepsOutput (H.outside host.old) (H.outside host.new) }
        ensures counts { CountsUp (H.outside host.old) (H.outside host.new) }
    {
        match self {
            SourceFault::NoMemory => warn_pieces(host, &["covered: memory\n".as_bytes()]),
            SourceFault::File { call, file } => warn_file(host, call.name(), file.as_bytes()),
            SourceFault::Included { call, path } => warn_file(host, call.name(), path.as_slice()),
            SourceFault::Refused(refusal) => refusal.warn(host),
        }
    }
}

impl From<NoMemory> for SourceFault<'_> {
    ghost from_gives = { λ _ fault. fault ≡ fault_no_memory };

    fn from(_: NoMemory) -> Self {
        SourceFault::NoMemory
    }
}

impl From<AllocError> for SourceFault<'_> {
    ghost from_gives = { λ _ fault. fault ≡ fault_no_memory };

    fn from(_: AllocError) -> Self {
        SourceFault::NoMemory
    }
}

/// Warns of refused sources, with a space and the detail, or with neither, and with the place, if there is one.
fn warn_at<'a, H: Host>(
    host: &mut H,
    kind: &'a str,
    space: &'a str,
    detail: &'a [u8],
    spot: &Option<SourceSpot>,
)
    ensures line { WarnsLine (codes "covered: source: " ++ kind.now ++ space.now ++ detail.now ++ spot_text spot.now ++ codes "\n") (H.outside host.old) (H.outside host.new) }
    ensures printed { (H.outside host.new).printed ≡ (H.outside host.old).printed }
    ensures files { KeepsFiles (H.outside host.old) (H.outside host.new) }
    ensures input { KeepsInput (H.outside host.old) (H.outside host.new) }
    ensures output { KeepsOutput (H.outside host.old) (H.outside host.new) }
    ensures counts { CountsUp (H.outside host.old) (H.outside host.new) }
{
    match spot {
        None => warn_parts(host, kind, space, detail),
        Some(spot) => warn_spot(host, kind, space, detail, spot),
    }
}

/// Warns of refused sources without a place.
fn warn_parts<'a, H: Host>(host: &mut H, kind: &'a str, space: &'a str, detail: &'a [u8])
    ensures line { WarnsLine (codes "covered: source: " ++ kind.now ++ space.now ++ detail.now ++ codes "\n") (H.outside host.old) (H.outside host.new) }
    ensures printed { (H.outside host.new).printed ≡ (H.outside host.old).printed }
    ensures files { KeepsFiles (H.outside host.old) (H.outside host.new) }
    ensures input { KeepsInput (H.outside host.old) (H.outside host.new) }
    ensures output { KeepsOutput (H.outside host.old) (H.outside host.new) }
    ensures counts { CountsUp (H.outside host.old) (H.outside host.new) }
{
    warn_pieces(
        host,
        &[
            "covered: source: ".as_bytes(),
            kind.as_bytes(),
            space.as_bytes(),
            detail,
            "\n".as_bytes(),
        ],
    );
}

/// Warns of refused sources at a place.
fn warn_spot<'a, H: Host>(
    host: &mut H,
    kind: &'a str,
    space: &'a str,
    detail: &'a [u8],
    spot: &'a SourceSpot,
)
    ensures line { WarnsLine (codes "covered: source: " ++ kind.now ++ space.now ++ detail.now ++ codes " at " ++ spot.now.file ++ codes ":" ++ decimal spot.now.line ++ codes ":" ++ decimal spot.now.column ++ codes "\n") (H.outside host.old) (H.outside host.new) }
    ensures printed { (H.outside host.new).printed ≡ (H.outside host.old).printed }
    ensures files { KeepsFiles (H.outside host.old) (H.outside host.new) }
    ensures input { KeepsInput (H.outside host.old) (H.outside host.new) }
    ensures output { KeepsOutput (H.outside host.old) (H.outside host.new) }
    ensures counts { CountsUp (H.outside host.old) (H.outside host.new) }
{
    let mut line = Buffer::new();
    let mut column = Buffer::new();
    warn_pieces(
        host,
        &[
            "covered: source: ".as_bytes(),
            kind.as_bytes(),
            space.as_bytes(),
            detail,
            " at ".as_bytes(),
            spot.file.as_slice(),
            ":".as_bytes(),
            line.format(spot.line).as_bytes(),
            ":".as_bytes(),
            column.format(spot.column).as_bytes(),
            "\n".as_bytes(),
        ],
    );
}
