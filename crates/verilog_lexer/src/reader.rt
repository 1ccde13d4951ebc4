ghost use Rattle.std.specs.Prelude.{◌≡◌, ◌+◌, ◌-◌, ◌≤◌, ◌<◌, [], Ok, IfOk, OnOk, IfErr, IfSome, length, slice_get};
ghost use Rattle.std.specs.Bool.{OnTrue, OnFalse};
ghost use Rattle.verilog_lexer.specs.Answer.{IsFault};

use crate::condition::Conditions;
use crate::opened::opened;
use crate::passage::Passage;
use crate::reading::{Entry, Reading};
use crate::spot::Spot;
use crate::{Defines, LexFault, LexKind, Sources, Token};
use cov_host::Place;
use smallvec::SmallVec;
use std::alloc::Global;
use std::mem;
use std::sync::ledger::Ledger;
use step_counts::Steps;

/// How deep uses of macros and inclusions nest.
const DEEPEST: usize = 64;

/// The reading of sources: the text that is read, the texts round it that wait for it, and what has been read.
#[derive(Drop)]
pub(crate) struct Reader<'a> {
    alloc: Global,
    sources: &'a Sources,
    waiting: SmallVec<Passage<'a>, 4>,
    passage: Passage<'a>,
    reading: Reading<'a>,
}

impl<'a> Reader<'a> {
    ghost use Rattle.verilog_lexer.specs.Reading.{beginning, root_passage, read_passage, read_source, inner_at};
    ghost use Rattle.verilog_lexer.specs.ReadingView.{reading_view, entry_view};
    ghost use Rattle.verilog_lexer.specs.Stand.{stand_of, outcome, work, Proceeds, Enters};
    ghost use Rattle.verilog_lexer.specs.TokenView.{lexemes};

    /// Nothing is read yet.
    pub(crate) fn new(
        alloc: Global,
        sources: &'a Sources,
        defines: &'a Defines,
    ) -> Result<Self, LexFault>
        ensures ok { IfOk result (λ reader. (reading_view reader.reading ≡ beginning defines.now) × (reader.sources.now ≡ sources.now) × (reader.waiting.items ≡ [])) }
        ensures fault { IfErr result (λ fault. fault ≡ LexFault.NoMemory) }
    {
        Ok(Reader {
            alloc,
            sources,
            waiting: SmallVec::new(alloc),
            passage: Passage::default(),
            reading: Reading::new(alloc, defines)?,
        })
    }

    /// The tokens that have been read.
    pub(crate) fn into_tokens(self) -> Vec<Token<'a>>
        ensures { lexemes result.items ≡ (reading_view self.entry.reading).tokens }
    {
        self.reading.into_tokens()
    }

    /// Reads the source at a place, where it is one that is read by itself.
    pub(crate) fn read_source<L: Ledger>(
        &mut self,
        place: usize,
        steps: &mut Steps<L>,
    ) -> Result<(), LexFault>
        requires within { place < length self.old.sources.now }
        requires none_waits { self.old.waiting.items ≡ [] }
        ensures ok { OnOk result (IfSome (slice_get self.old.sources.now place) (λ source. read_source self.old.sources.now (place + 1) source (reading_view self.old.reading) ≡ Ok (reading_view self.new.reading))) }
        ensures fault { IfErr result (λ fault. IfSome (slice_get self.old.sources.now place) (λ source. IsFault (read_source self.old.sources.now (place + 1) source (reading_view self.old.reading)) fault)) }
        ensures sources { self.new.sources.now ≡ self.old.sources.now }
        ensures none_waits { OnOk result (self.new.waiting.items ≡ []) }
        ensures cost { IfSome (slice_get self.old.sources.now place) (λ source. steps.new ≤ steps.old + (length source.bytes + 1 + (reading_view self.old.reading).room)) }
        ensures room { OnOk result (IfSome (slice_get self.old.sources.now place) (λ source. steps.new + (reading_view self.new.reading).room ≤ steps.old + (length source.bytes + 1 + (reading_view self.old.reading).room))) }
    {
        let _count = self.sources.len();
        let Some(source) = self.sources.get(place) else {
            return Ok(());
        };
        if source.is_root() {
            self.read_root(place as u32 + 1, source.bytes(), steps)
        } else {
            Ok(())
        }
    }

    /// Reads a file that is read by itself.
    pub(crate) fn read_root<L: Ledger>(
        &mut self,
        number: u32,
        text: &'a [u8],
        steps: &mut Steps<L>,
    ) -> Result<(), LexFault>
        requires within { length text.now ≤ 67108864 }
        requires none_waits { self.old.waiting.items ≡ [] }
        ensures ok { OnOk result (read_passage self.old.sources.now (root_passage number text.now) (reading_view self.old.reading) ≡ Ok (reading_view self.new.reading)) }
        ensures fault { IfErr result (IsFault (read_passage self.old.sources.now (root_passage number text.now) (reading_view self.old.reading))) }
        ensures sources { self.new.sources.now ≡ self.old.sources.now }
        ensures none_waits { OnOk result (self.new.waiting.items ≡ []) }
        ensures cost { steps.new ≤ steps.old + (length text.now + 1 + (reading_view self.old.reading).room) }
        ensures room { OnOk result (steps.new + (reading_view self.new.reading).room ≤ steps.old + (length text.now + 1 + (reading_view self.old.reading).room)) }
    {
        self.passage = Passage {
            text,
            spot: Spot {
                place: Place {
                    source: number,
                    line: 1,
                    column: 1,
                },
                inside: false,
            },
            ending: Some(Conditions::new(self.alloc)),
            unclosed: 0,
        };
        self.read_all(steps)
    }

    /// Reads all that is left, turn after turn. Each turn is one step.
    #[tactic(auto, using(crate::proofs::Works::work_some))]
    fn read_all<L: Ledger>(&mut self, steps: &mut Steps<L>) -> Result<(), LexFault>
        requires { length self.old.waiting.items ≤ 64 }
        ensures ok { OnOk result (outcome self.old.sources.now (stand_of self.old) ≡ Ok (reading_view self.new.reading)) }
        ensures fault { IfErr result (IsFault (outcome self.old.sources.now (stand_of self.old))) }
        ensures sources { self.new.sources.now ≡ self.old.sources.now }
        ensures none_waits { OnOk result (self.new.waiting.items ≡ []) }
        ensures cost { steps.new ≤ steps.old + work (stand_of self.old) }
        ensures room { OnOk result (steps.new + (reading_view self.new.reading).room ≤ steps.old + work (stand_of self.old)) }
    {
        loop {
            steps.count();
            let goes_on = self.step()?;
            if !goes_on {
                return Ok(());
            }
        }
    }

    /// Reads one piece, or ends a text, and says whether something is left.
    fn step(&mut self) -> Result<bool, LexFault>
        requires { length self.old.waiting.items ≤ 64 }
        ensures proceeds { IfOk result (λ goes_on. OnTrue goes_on (Proceeds self.old.sources.now (stand_of self.old) (stand_of self.new))) }
        ensures ends { IfOk result (λ goes_on. OnFalse goes_on (outcome self.old.sources.now (stand_of self.old) ≡ Ok (reading_view self.new.reading))) }
        ensures none_waits { IfOk result (λ goes_on. OnFalse goes_on (self.new.waiting.items ≡ [])) }
        ensures room { IfOk result (λ goes_on. OnFalse goes_on ((reading_view self.new.reading).room < work (stand_of self.old))) }
        ensures fault { IfErr result (IsFault (outcome self.old.sources.now (stand_of self.old))) }
        ensures sources { self.new.sources.now ≡ self.old.sources.now }
        ensures depth { IfOk result (λ goes_on. length self.new.waiting.items ≤ 64) }
    {
        if self.passage.text.is_empty() {
            self.end_text()
        } else {
            self.read_piece()?;
            Ok(true)
        }
    }

    /// Ends a text, and says whether another one waits.
    fn end_text(&mut self) -> Result<bool, LexFault>
        requires depth { length self.old.waiting.items ≤ 64 }
        requires empty { self.old.passage.text.now ≡ [] }
        ensures proceeds { IfOk result (λ goes_on. OnTrue goes_on (Proceeds self.old.sources.now (stand_of self.old) (stand_of self.new))) }
        ensures ends { IfOk result (λ goes_on. OnFalse goes_on (outcome self.old.sources.now (stand_of self.old) ≡ Ok (reading_view self.new.reading))) }
        ensures none_waits { IfOk result (λ goes_on. OnFalse goes_on (self.new.waiting.items ≡ [])) }
        ensures room { IfOk result (λ goes_on. OnFalse goes_on ((reading_view self.new.reading).room < work (stand_of self.old))) }
        ensures fault { IfErr result (IsFault (outcome self.old.sources.now (stand_of self.old))) }
        ensures sources { self.new.sources.now ≡ self.old.sources.now }
        ensures depth { IfOk result (λ goes_on. length self.new.waiting.items ≤ 64) }
    {
        let spot = self.passage.spot;
        let passage = &mut self.passage;
        let ending = passage.ending.take();
        self.reading.end_text(ending, spot)?;
        match self.waiting.pop() {
            Some(outer) => {
                self.passage = outer;
                Ok(true)
            }
            None => Ok(false),
        }
    }

    /// Reads the piece at the front of the text.
    fn read_piece(&mut self) -> Result<(), LexFault>
        requires depth { length self.old.waiting.items ≤ 64 }
        requires some { 0 < length self.old.passage.text.now }
        ensures proceeds { OnOk result (Proceeds self.old.sources.now (stand_of self.old) (stand_of self.new)) }
        ensures fault { IfErr result (IsFault (outcome self.old.sources.now (stand_of self.old))) }
        ensures sources { self.new.sources.now ≡ self.old.sources.now }
        ensures depth { OnOk result (length self.new.waiting.items ≤ 64) }
    {
        let spot = self.passage.spot;
        let text = self.passage.text;
        let piece = self.reading.front_piece(&mut self.passage);
        let entry = self.reading.obey(spot, text, piece)?;
        self.passage.advance(piece.bytes());
        match entry {
            Some(entry) => self.enter(spot, entry),
            None => Ok(()),
        }
    }

    /// Goes on inside of the text that is read, which waits.
    fn enter(&mut self, spot: Spot, entry: Entry<'a>) -> Result<(), LexFault>
        requires { length self.old.waiting.items ≤ 64 }
        ensures ok { OnOk result (Enters self.old.sources.now spot (entry_view entry.entry) (stand_of self.old) (stand_of self.new)) }
        ensures fault { IfErr result (IsFault (inner_at (64 - length self.old.waiting.items) self.old.sources.now spot (entry_view entry.entry) (reading_view self.old.reading))) }
        ensures sources { self.new.sources.now ≡ self.old.sources.now }
    {
        if self.waiting.len() == DEEPEST {
            return Err(LexFault::at(LexKind::MacroDepth, spot.place));
        }
        let inside = opened(self.alloc, self.sources, &mut self.reading, spot, entry)?;
        let outer = mem::replace(&mut self.passage, inside);
        self.waiting.push(outer)?;
        Ok(())
    }
}
