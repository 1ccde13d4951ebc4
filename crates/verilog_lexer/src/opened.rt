ghost use Rattle.std.specs.Prelude.{◌≡◌, Ok, IfOk, IfErr};
ghost use Rattle.verilog_lexer.specs.Answer.{IsFault};
ghost use Rattle.verilog_lexer.specs.Reading.{opened, looked_up, included};
ghost use Rattle.verilog_lexer.specs.Sources.{include_place};
ghost use Rattle.verilog_lexer.specs.ReadingView.{reading_view, entry_view, passage_view};

use crate::passage::Passage;
use crate::reading::{Entry, Reading, named_fault};
use crate::spot::Spot;
use crate::{LexFault, LexKind, Sources};
use std::alloc::Global;

/// Opens what is to be read in the place of a directive or a macro, where there is room for it.
pub(crate) fn opened<'a>(
    alloc: Global,
    sources: &'a Sources,
    reading: &mut Reading<'a>,
    spot: Spot,
    entry: Entry<'a>,
) -> Result<Passage<'a>, LexFault>
    ensures ok { IfOk result (λ passage. opened sources.now spot (entry_view entry.entry) (reading_view reading.old) ≡ Ok (record { passage = passage_view passage; reading = reading_view reading.new })) }
    ensures fault { IfErr result (IsFault (opened sources.now spot (entry_view entry.entry) (reading_view reading.old))) }
{
    let inside = looked_up(alloc, sources, reading, spot, entry)?;
    reading.put_in(spot, &inside)?;
    Ok(inside)
}

/// Looks up what is to be read: the text of a macro, or an included file.
fn looked_up<'a>(
    alloc: Global,
    sources: &'a Sources,
    reading: &mut Reading<'a>,
    spot: Spot,
    entry: Entry<'a>,
) -> Result<Passage<'a>, LexFault>
    ensures ok { IfOk result (λ passage. looked_up sources.now spot (entry_view entry.entry) (reading_view reading.old) ≡ Ok (record { passage = passage_view passage; reading = reading_view reading.new })) }
    ensures fault { IfErr result (IsFault (looked_up sources.now spot (entry_view entry.entry) (reading_view reading.old))) }
{
    match entry {
        Entry::MacroText(text) => Ok(Passage {
            text,
            spot: spot.within_macro(),
            ending: None,
            unclosed: 0,
        }),
        Entry::File(name) => included(alloc, sources, reading, spot, name),
    }
}

/// Opens an included file.
fn included<'a>(
    alloc: Global,
    sources: &'a Sources,
    reading: &mut Reading<'a>,
    spot: Spot,
    name: &[u8],
) -> Result<Passage<'a>, LexFault>
    ensures ok { IfOk result (λ passage. included sources.now spot name.now (include_place sources.now name.now) (reading_view reading.old) ≡ Ok (record { passage = passage_view passage; reading = reading_view reading.new })) }
    ensures fault { IfErr result (IsFault (included sources.now spot name.now (include_place sources.now name.now) (reading_view reading.old))) }
{
    let Some(place) = sources.include_place(name) else {
        return Err(named_fault(alloc, LexKind::IncludeMissing, spot, name));
    };
    let Some(source) = sources.get(place) else {
        return Err(named_fault(alloc, LexKind::IncludeMissing, spot, name));
    };
    Ok(Passage {
        text: source.bytes(),
        spot: spot.of_file(place as u32 + 1),
        ending: Some(reading.begin_file()),
        unclosed: 0,
    })
}
