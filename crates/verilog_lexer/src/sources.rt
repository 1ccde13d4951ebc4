ghost use Rattle.std.specs.Prelude.{◌≡◌, ◌+◌, ◌<◌, ◌≤◌, ◌++◌, ◌∷◌, [], true, false, None, length, IfErr, OnOk, OnErr, IfSome, Some, slice_get, position};
ghost use Rattle.std.specs.Option.{option_copied, option_map};
ghost use Rattle.verilog_lexer.specs.Sources.{AreWithinLimits, refusal_of, IsRefusal, name_of, is_include, include_place, source_view};
ghost use Rattle.verilog_lexer.specs.declared.fault.LexFault.TheVariants as lex_fault;

use crate::{LexFault, LexKind};
use cov_host::{Bytes, Name};
use std::alloc::Global;
use std::marker::Model;

/// The most bytes that all sources have together.
const MOST_BYTES: usize = 67_108_864;

/// The most sources.
const MOST_SOURCES: usize = 256;

/// A file with its name.
#[derive(Drop)]
pub(crate) struct Source {
    name: String,
    bytes: Bytes,
    root: bool,
}

/// The sources of a design: roots, which are read in the order of adding, and includes, which are read where a
/// directive names them. At most 256 sources of at most 67,108,864 bytes together.
pub struct Sources {
    alloc: Global,
    sources: Vec<Source>,
    total: usize,
}

// Written out so that a crate which lets one go does not prove again how each of its parts is let go.
impl Drop for Sources {
    fn drop(self) {
        let Sources {
            alloc: _,
            sources: _,
            total: _,
        } = self;
    }
}

impl Model for Sources {
    ghost use Rattle.std.specs.Prelude.{List, map};
    ghost use Rattle.verilog_lexer.specs.Sources.{SourceText};

    ghost Value = { List SourceText };

    ghost use Rattle.verilog_lexer.specs.Sources.{source_view};
    ghost use Rattle.verilog_lexer.specs.SourcesInside.{IsKept};

    ghost view = { λ s. map source_view s.sources.items };

    ghost invariant = { IsKept };
}

impl Sources {
    /// No sources yet. It takes no memory.
    pub fn new(alloc: Global) -> Self
        ensures { result ≡ [] }
    {
        Sources {
            alloc,
            sources: Vec::new(alloc),
            total: 0,
        }
    }

    /// The name of the source with this number, counted from 1 in the order of adding.
    pub fn name(&self, source: u32) -> Option<&str>
        ensures { option_copied result ≡ name_of self.now source }
    {
        let place = source.checked_sub(1)?;
        let source = self.get(place as usize)?;
        Some(source.name())
    }

    /// The source at a place, counted from 0. No source is longer than all may be together.
    pub(crate) fn get(&self, place: usize) -> Option<&Source>
        ensures value { option_map (λ source. source_view source.now) result ≡ slice_get self.now place }
        ensures within { IfSome result (λ source. length source.now.bytes ≤ 67108864) }
    {
        let _total = self.total;
        self.find(place)
    }

    /// The source at a place.
    fn find(&self, place: usize) -> Option<&Source>
        ensures { option_map (λ source. source_view source.now) result ≡ slice_get self.now place }
    {
        self.sources.get(place)
    }

    /// How many sources there are.
    pub(crate) fn len(&self) -> usize
        ensures value { result ≡ length self.now }
        ensures within { AreWithinLimits self.now }
    {
        self.sources.len()
    }

    /// Adds a file that is read by itself. After a refusal nothing has changed. One that is too many is refused as such,
    /// whatever its length.
    pub fn add_root(&mut self, name: &str, bytes: Bytes) -> Result<(), LexFault>
        ensures ok { OnOk result (self.new ≡ self.old ++ record { name = name.now; bytes = bytes; root = true } ∷ []) }
        ensures only { OnOk result (refusal_of self.old name.now (length bytes) ≡ None) }
        ensures refused { IfErr result (IsRefusal (refusal_of self.old name.now (length bytes))) }
        ensures err { OnErr result (self.new ≡ self.old) }
    {
        self.add(name, bytes, true)
    }

    /// Adds a file that is read where a directive names it. After a refusal nothing has changed. One that is too many is
    /// refused as such, whatever its length.
    pub fn add_include(&mut self, name: &str, bytes: Bytes) -> Result<(), LexFault>
        ensures ok { OnOk result (self.new ≡ self.old ++ record { name = name.now; bytes = bytes; root = false } ∷ []) }
        ensures only { OnOk result (refusal_of self.old name.now (length bytes) ≡ None) }
        ensures refused { IfErr result (IsRefusal (refusal_of self.old name.now (length bytes))) }
        ensures err { OnErr result (self.new ≡ self.old) }
    {
        self.add(name, bytes, false)
    }

    /// Adds a file.
    fn add(&mut self, name: &str, bytes: Bytes, root: bool) -> Result<(), LexFault>
        ensures ok { OnOk result (self.new ≡ self.old ++ record { name = name.now; bytes = bytes; root = root } ∷ []) }
        ensures only { OnOk result (refusal_of self.old name.now (length bytes) ≡ None) }
        ensures refused { IfErr result (IsRefusal (refusal_of self.old name.now (length bytes))) }
        ensures err { OnErr result (self.new ≡ self.old) }
    {
        let length = bytes.len();
        if self.sources.len() == MOST_SOURCES {
            return Err(refused(self.alloc, LexKind::TooManySources, name));
        }
        if length > MOST_BYTES - self.total {
            return Err(refused(self.alloc, LexKind::SourcesTooLong, name));
        }
        let name = String::from_str(self.alloc, name)?;
        self.sources.push(Source { name, bytes, root })?;
        self.total += length;
        Ok(())
    }

    /// The place of the first source that is included by this name.
    pub(crate) fn include_place(&self, name: &[u8]) -> Option<usize>
        ensures value { result ≡ include_place self.now name.now }
        ensures within { IfSome result (λ place. place < 256) }
    {
        include_place(self.sources.as_slice(), name)
    }
}

impl Source {
    /// The name of the file.
    pub(crate) fn name(&self) -> &str
        ensures { result.now ≡ (source_view self.now).name }
    {
        self.name.as_str()
    }

    /// The bytes of the file.
    pub(crate) fn bytes(&self) -> &[u8]
        ensures { result.now ≡ (source_view self.now).bytes }
    {
        self.bytes.as_slice()
    }

    /// Whether the file is read by itself.
    pub(crate) fn is_root(&self) -> bool
        ensures { result ≡ (source_view self.now).root }
    {
        self.root
    }
}

/// The place of the first source that is included by this name.
fn include_place(sources: &[Source], name: &[u8]) -> Option<usize>
    ensures { result ≡ position (λ source. is_include name.now (source_view source)) sources.now }
{
    sources.iter().position(|source| is_include(source, name))
}

/// Whether the source is included by this name.
fn is_include(source: &Source, name: &[u8]) -> bool
    ensures { result ≡ is_include name.now (source_view source.now) }
{
    !source.root && source.name.as_bytes() == name
}

/// The refusal of the file of this name.
fn refused(alloc: Global, kind: LexKind, name: &str) -> LexFault
    ensures { IsRefusal (Some (lex_fault.At kind None (Some name.now))) result }
{
    match name.as_bytes().to_vec(alloc) {
        Ok(bytes) => LexFault::At {
            kind,
            place: None,
            detail: Some(Name::from_vec(bytes)),
        },
        Err(_) => LexFault::NoMemory,
    }
}
