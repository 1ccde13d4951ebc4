ghost use Rattle.std.specs.Prelude.{◌≡◌, ◌≤◌, false, IfErr, IfOk, IsTrue, OnErr, OnOk, length, map};
ghost use Rattle.std.specs.Option.{option_copied};
ghost use Rattle.verilog_lexer.specs.Piece.{is_file_name};
ghost use Rattle.whole_files.specs.Effects.{OnlyReads};
ghost use Rattle.source_files.specs.Files.{path_of};
ghost use Rattle.source_files.specs.Joining.{Joins};
ghost use Rattle.source_design.specs.Reading.{IsIncludeFault, IsReadIn, IsSourceFault};
ghost use Rattle.source_design.specs.Staging.{IsFull, IsFileFault};
ghost use Rattle.source_design.specs.Words.{source_values};

use crate::fault::{SourceFault, SourceKind, SourceRefusal};
use crate::stage::{Found, find};
use crate::words::SourceWords;
use cov_host::{Host, Name, NoMemory, Sequence};
use design_model::Design;
use process_copies::put_in_order;
use source_files::{JoinFault, RootFault, include_path, join_include, read_roots};
use std::alloc::Global;
use verilog_lexer::{LexKind, Sources};

/// A design, and the names of the sources that it was read from: the files of the words, then the included files in the
/// order of their first use.
#[derive(Drop)]
pub struct ReadDesign {
    /// The flat design.
    pub design: Design,
    /// The names of the sources, of which the first is number 1.
    pub sources: Sequence<Name>,
}

/// The design of the files of the words. They are read in order, and then each included file that they are
/// found to lack, from the folder, by the name that its directive writes.
pub fn read_design<'a, H: Host>(
    alloc: Global,
    host: &mut H,
    words: &SourceWords<'a, '_>,
) -> Result<ReadDesign, SourceFault<'a>>
    ensures design { IfOk result (IsReadIn (source_values words.now) (H.outside host.old)) }
    ensures fault { IfErr result (IsSourceFault (source_values words.now) (H.outside host.old) (H.outside host.new)) }
    ensures effects { OnlyReads (H.outside host.old) (H.outside host.new) }
{
    let mut sources = match read_roots(alloc, host, words.files) {
        Ok(sources) => sources,
        Err(RootFault { file, fault }) => return Err(root_fault(file, fault)),
    };
    'lacking: loop {
        match find(alloc, &sources, words)? {
            Found::Design(mut design) => {
                put_in_order(alloc, &mut design)?;
                return Ok(ReadDesign {
                    design,
                    sources: names_of(alloc, &sources)?,
                });
            }
            Found::Lacking(name) => {
                join_lacking(alloc, host, words.folder, name.as_slice(), &mut sources)?;
            }
        }
    }
}

/// The fault of a file of the words that did not join the sources.
fn root_fault<'a>(file: &'a str, fault: JoinFault) -> SourceFault<'a>
    ensures { IsFileFault file.now fault result }
{
    match fault {
        JoinFault::NoMemory => SourceFault::NoMemory,
        JoinFault::Refused(call) => SourceFault::File { call, file },
        JoinFault::Full { kind, detail } => full(kind, detail),
    }
}

/// Reads an included file that the sources lack, and adds it to them.
fn join_lacking<'a, H: Host>(
    alloc: Global,
    host: &mut H,
    folder: Option<&str>,
    name: &[u8],
    sources: &mut Sources,
) -> Result<(), SourceFault<'a>>
    requires { IsTrue (is_file_name name.now) }
    ensures joined { OnOk result (Joins (H.outside host.old) (path_of (option_copied folder.entry) name.now) name.now false sources.old sources.new) }
    ensures fault { IfErr result (IsIncludeFault (H.outside host.old) (H.outside host.new) (path_of (option_copied folder.entry) name.now) name.now sources.old) }
    ensures effects { OnlyReads (H.outside host.old) (H.outside host.new) }
{
    let path = include_path(alloc, folder, name)?;
    match join_include(alloc, host, path.as_str(), name, sources) {
        Ok(()) => Ok(()),
        Err(JoinFault::NoMemory) => Err(SourceFault::NoMemory),
        Err(JoinFault::Refused(call)) => Err(SourceFault::Included {
            call,
            path: Name::from_vec(path.into_bytes()),
        }),
        Err(JoinFault::Full { kind, detail }) => Err(full(kind, detail)),
    }
}

/// The refusal of a file that does not fit.
fn full<'a>(kind: LexKind, detail: Option<Name>) -> SourceFault<'a>
    ensures { IsFull kind detail result }
{
    SourceFault::Refused(SourceRefusal {
        kind: SourceKind::Lex(kind),
        detail,
        spot: None,
    })
}

/// The names of the sources, in order.
fn names_of(alloc: Global, sources: &Sources) -> Result<Sequence<Name>, NoMemory>
    requires { length sources.now ≤ 256 }
    ensures { IfOk result (λ names. names ≡ map (λ source. source.name) sources.now) }
{
    let mut names = Sequence::new(alloc);
    let mut count = 0;
    'each: while let Some(name) = sources.name(count + 1) {
        names.push(Name::from_vec(name.as_bytes().to_vec(alloc)?))?;
        count += 1;
    }
    Ok(names)
}
