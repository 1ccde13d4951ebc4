ghost use Rattle.std.specs.Prelude.{◌≡◌, IfErr, IfOk};
ghost use Rattle.source_design.specs.Refusals.{spot_of};
ghost use Rattle.source_design.specs.Staging.{IsElabFault, IsFound, IsLackingFrom, IsLexFault, IsParseFault, IsRefusal, IsStageFault};
ghost use Rattle.source_design.specs.Words.{source_values};

use crate::fault::{SourceFault, SourceKind, SourceRefusal, SourceSpot};
use crate::words::SourceWords;
use cov_host::{Name, NoMemory, Place};
use design_model::Design;
use elab_const::ConstFault;
use elaborator::elaborate;
use flat_design::ElabFault;
use std::alloc::Global;
use verilog_lexer::{LexFault, LexKind, Sources, lex};
use verilog_parser::{ParseFault, parse};

/// What sources give.
#[derive(Drop)]
pub(crate) enum Found {
    /// Their design.
    Design(Design),
    /// An included file of this name is not among them.
    Lacking(Name),
}

/// The design of sources, or the included file that they lack.
pub(crate) fn find<'a>(
    alloc: Global,
    sources: &Sources,
    words: &SourceWords<'a, '_>,
) -> Result<Found, SourceFault<'a>>
    ensures found { IfOk result (IsFound (source_values words.now) sources.now) }
    ensures fault { IfErr result (IsStageFault (source_values words.now) sources.now) }
{
    let tokens = match lex(alloc, sources, words.defines) {
        Ok(tokens) => tokens,
        Err(fault) => return lex_answer(alloc, sources, fault),
    };
    let modules = match parse(alloc, &tokens) {
        Ok(modules) => modules,
        Err(fault) => return Err(parse_fault(alloc, sources, fault)),
    };
    let design = match elaborate(alloc, &modules, words.top) {
        Ok(design) => design,
        Err(fault) => return Err(elab_fault(alloc, sources, fault)),
    };
    Ok(Found::Design(design))
}

/// What a fault of the lexer means: an included file that is lacking, or a refusal.
fn lex_answer<'a>(
    alloc: Global,
    sources: &Sources,
    fault: LexFault,
) -> Result<Found, SourceFault<'a>>
    ensures found { IfOk result (IsLackingFrom fault) }
    ensures fault { IfErr result (IsLexFault sources.now fault) }
{
    match fault {
        LexFault::NoMemory => Err(SourceFault::NoMemory),
        LexFault::At {
            kind: LexKind::IncludeMissing,
            place: Some(_),
            detail: Some(name),
        } => Ok(Found::Lacking(name)),
        LexFault::At {
            kind,
            place,
            detail,
        } => Err(refused(alloc, sources, SourceKind::Lex(kind), place, detail)),
    }
}

/// The fault of the sources that a fault of the parser is.
fn parse_fault<'a>(alloc: Global, sources: &Sources, fault: ParseFault) -> SourceFault<'a>
    ensures { IsParseFault sources.now fault result }
{
    match fault {
        ParseFault::NoMemory => SourceFault::NoMemory,
        ParseFault::At {
            kind,
            place,
            detail,
        } => refused(alloc, sources, SourceKind::Parse(kind), place, detail),
    }
}

/// The fault of the sources that a fault of elaboration is.
fn elab_fault<'a>(alloc: Global, sources: &Sources, fault: ElabFault) -> SourceFault<'a>
    ensures { IsElabFault sources.now fault result }
{
    match fault {
        ElabFault::NoMemory | ElabFault::Const(ConstFault::NoMemory) => SourceFault::NoMemory,
        ElabFault::Const(ConstFault::At { kind, place }) => {
            refused(alloc, sources, SourceKind::Const(kind), Some(place), None)
        }
        ElabFault::At {
            kind,
            place,
            detail,
        } => refused(alloc, sources, SourceKind::Elab(kind), place, Some(detail)),
    }
}

/// The refusal of sources for a fault at a place.
fn refused<'a>(
    alloc: Global,
    sources: &Sources,
    kind: SourceKind,
    place: Option<Place>,
    detail: Option<Name>,
) -> SourceFault<'a>
    ensures { IsRefusal sources.now kind place detail result }
{
    match spot_of(alloc, sources, place) {
        Ok(spot) => SourceFault::Refused(SourceRefusal { kind, detail, spot }),
        Err(NoMemory) => SourceFault::NoMemory,
    }
}

/// The place by the name of its source.
fn spot_of(
    alloc: Global,
    sources: &Sources,
    place: Option<Place>,
) -> Result<Option<SourceSpot>, NoMemory>
    ensures { IfOk result (λ spot. spot ≡ spot_of sources.now place) }
{
    let Some(place) = place else {
        return Ok(None);
    };
    let Some(name) = sources.name(place.source) else {
        return Ok(None);
    };
    Ok(Some(SourceSpot {
        file: Name::from_vec(name.as_bytes().to_vec(alloc)?),
        line: place.line,
        column: place.column,
    }))
}
