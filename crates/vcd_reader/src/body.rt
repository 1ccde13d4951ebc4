ghost use Rattle.std.specs.Prelude.{◌≡◌, ◌≤◌, Ok, Err, ℕ, List, length, IfOk, IfErr};
ghost use Rattle.vcd_reader.specs.Reading.{Body as SpecBody};
ghost use Rattle.vcd_reader.specs.declared.fault.DumpFault.{DumpFault as SpecFault};
ghost use Rattle.vcd_reader.specs.declared.item.Saying.{Saying};

use crate::body_reader::BodyReader;
use crate::filter::Filter;
use crate::{DumpFault, Heard, Item, Step};
use four_state::Four;

/// Reads the body of a dump piece by piece. It takes no memory.
pub struct Body {
    pub(crate) reader: BodyReader,
    pub(crate) fault: Option<DumpFault>,
}

// Written out so that a crate which lets one go does not prove again how each of its parts is let go.
impl Drop for Body {
    fn drop(self) {
        let Body {
            reader: _,
            fault: _,
        } = self;
    }
}

impl Body {
    ghost use Rattle.vcd_reader.specs.Pieces.{BodyHasRead, BodyHasEnded, BodyHasFailed, StepsTo, IsFaultAt};
    ghost use Rattle.vcd_reader.specs.WantedPieces.{FailsTo, HearsTo, kept_value};

    /// What the dump says next, and how many bytes of the piece were used for it. An empty piece is the end of the
    /// input. After a fault the same fault is answered for ever.
    pub fn next(&mut self, piece: &[u8]) -> Result<Step, DumpFault>
        // What was said so far is what the text so far means.
        ensures ok { IfOk result (λ step. (text : List ℕ) (b : SpecBody) → BodyHasRead self.old text b → StepsTo step.item step.used self.new text piece.now b) }
        // A fault is the first one.
        ensures fault { IfErr result (λ fault. (text : List ℕ) (b : SpecBody) → BodyHasRead self.old text b → IsFaultAt text piece.now fault) }
        ensures ended { (text : List ℕ) (b : SpecBody) → BodyHasEnded self.old text b → (result ≡ Ok (record { item = Item.End; used = length piece.now })) × BodyHasEnded self.new text b }
        ensures failed { IfErr result (λ fault. BodyHasFailed self.new fault) }
        ensures again { (fault : SpecFault) → BodyHasFailed self.old fault → result ≡ Err fault }
    {
        if let Some(fault) = self.fault {
            return Err(fault);
        }
        match self.reader.step(piece, Filter::All) {
            Ok(heard) => Ok(self.reader.as_step(heard)),
            Err(fault) => Err(self.fail(fault)),
        }
    }

    /// As `next`, where only the changes of the codes whose number has a true in `wanted` are said, and the value of a
    /// change is read by [`Body::value`]. A code that has no place in `wanted` is not wanted.
    pub fn next_of(&mut self, piece: &[u8], wanted: &[bool]) -> Result<Heard, DumpFault>
        // It is what `next` says after changes of other codes.
        ensures ok { IfOk result (λ heard. (text : List ℕ) (b : SpecBody) → BodyHasRead self.old text b → HearsTo wanted.now heard.saying heard.used self.new text piece.now b) }
        // A fault is the first one, also where it is in a change of another code. Only changes of other codes come before it.
        ensures fault { IfErr result (λ fault. (text : List ℕ) (b : SpecBody) → BodyHasRead self.old text b → FailsTo wanted.now text piece.now b fault) }
        ensures ended { (text : List ℕ) (b : SpecBody) → BodyHasEnded self.old text b → (result ≡ Ok (record { saying = Saying.End; used = length piece.now })) × BodyHasEnded self.new text b }
        ensures failed { IfErr result (λ fault. BodyHasFailed self.new fault) }
        ensures again { (fault : SpecFault) → BodyHasFailed self.old fault → result ≡ Err fault }
    {
        if let Some(fault) = self.fault {
            return Err(fault);
        }
        match self.reader.step(piece, Filter::Only(wanted)) {
            Ok(heard) => Ok(heard),
            Err(fault) => Err(self.fail(fault)),
        }
    }

    /// The value of the last change that `next_of` said.
    pub fn value(&self) -> &Four
        ensures { result.now ≡ kept_value self.now }
    {
        &self.reader.reading.change.value
    }

    /// Keeps a fault.
    fn fail(&mut self, fault: DumpFault) -> DumpFault
        ensures kept { BodyHasFailed self.new fault }
        ensures same { result ≡ fault }
    {
        self.fault = Some(fault);
        fault
    }
}
