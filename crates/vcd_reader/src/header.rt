ghost use Rattle.std.specs.Prelude.{◌≡◌, Err, ℕ, [], List, IfOk, IfErr};
ghost use Rattle.vcd_reader.specs.declared.fault.DumpFault.{DumpFault as SpecFault};

use crate::body::Body;
use crate::body_reader::BodyReader;
use crate::declarations::Declarations;
use crate::header_reader::HeaderReader;
use crate::sections::Sections;
use crate::{DumpFault, Fed, Vars};
use std::alloc::Global;

/// Reads the header of a dump piece by piece.
pub struct Header {
    pub(crate) reader: HeaderReader,
    pub(crate) fault: Option<DumpFault>,
}

// Written out so that a crate which lets one go does not prove again how each of its parts is let go.
impl Drop for Header {
    fn drop(self) {
        let Header {
            reader: _,
            fault: _,
        } = self;
    }
}

impl Header {
    ghost use Rattle.vcd_reader.specs.Pieces.{HasRead, IsRead, HasFailed, Feeds, Splits, body_at_end, header_at_end};
    ghost use Rattle.vcd_reader.specs.Standing.{IsFaultOf};

    /// A header of which nothing was read. It takes no memory.
    pub fn new(alloc: Global) -> Header
        ensures { HasRead result [] }
    {
        Header {
            reader: HeaderReader::new(alloc),
            fault: None,
        }
    }

    /// Reads the next piece; an empty one is the end of the input. After `Done` only `split` is of use. After a
    /// fault the same fault is answered for ever.
    pub fn feed(&mut self, piece: &[u8]) -> Result<Fed, DumpFault>
        // What was read so far is what the text so far means.
        ensures ok { IfOk result (λ fed. (text : List ℕ) → HasRead self.old text → Feeds fed self.new text piece.now) }
        // A fault is the first one.
        ensures fault { IfErr result (λ fault. (text : List ℕ) → HasRead self.old text → IsFaultOf text piece.now fault) }
        ensures failed { IfErr result (λ fault. HasFailed self.new fault) }
        ensures again { (fault : SpecFault) → HasFailed self.old fault → result ≡ Err fault }
    {
        if let Some(fault) = self.fault {
            return Err(fault);
        }
        if !self.reader.progress.is_going() {
            return Ok(Fed::Done { used: 0 });
        }
        match self.reader.feed(piece) {
            Ok(fed) => Ok(fed),
            Err(fault) => {
                self.fault = Some(fault);
                Err(fault)
            }
        }
    }

    /// The variables and the body of a header that is done. It takes no memory.
    pub fn split(self) -> (Vars, Body)
        ensures splits { (text : List ℕ) → IsRead self text → Splits result.0 result.1 text }
        ensures at_end { body_at_end result.1 ≡ header_at_end self }
    {
        let Header { reader, fault } = self;
        let HeaderReader {
            sections,
            word: _,
            at,
            progress,
        } = reader;
        let Sections {
            declared,
            section: _,
        } = sections;
        let Declarations {
            alloc: _,
            vars,
            codes,
            scopes: _,
        } = declared;
        let reader = BodyReader::new(codes, at, progress.is_at_end());
        (vars, Body { reader, fault })
    }
}
