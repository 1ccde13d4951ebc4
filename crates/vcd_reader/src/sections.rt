ghost use Rattle.std.specs.Prelude.{◌≡◌, ◌<◌, ◌^◌, Ok, IfOk, IfErr, OnOk, None, false, length};
ghost use Rattle.vcd_reader.specs.Answer.{IsFault};
ghost use Rattle.vcd_reader.specs.Reading.{header_word, word_in, section_word, with_field, start_reading};
ghost use Rattle.vcd_reader.specs.Views.{reading_of, section_of, declared_of};

use crate::DumpFault;
use crate::check::{check_end, check_field, opening};
use crate::declarations::{Declarations, to_name};
use crate::keyword::{END_WORD, Keyword};
use cov_host::{Name, NoMemory};
use std::alloc::Global;

/// How many fields of a section are kept.
const KEPT: usize = 4;

/// A section that is open: its keyword and its first four fields.
#[derive(Drop)]
pub(crate) struct Section {
    pub(crate) keyword: Keyword,
    pub(crate) fields: Vec<Name>,
}

/// The sections of a header so far.
#[derive(Drop)]
pub(crate) struct Sections {
    pub(crate) declared: Declarations,
    /// The section that is open.
    pub(crate) section: Option<Section>,
}

impl Sections {
    pub(crate) fn new(alloc: Global) -> Self
        ensures { reading_of result ≡ start_reading }
    {
        Sections {
            declared: Declarations::new(alloc),
            section: None,
        }
    }

    /// Reads the next word, which begins at this byte, and says whether it is the last of the header.
    pub(crate) fn read(&mut self, word: &[u8], at: u64) -> Result<bool, DumpFault>
        requires { length self.old.declared.codes < 2 ^ 32 }
        ensures ok { IfOk result (λ last. header_word (reading_of self.old) (record { at = at; bytes = word.now }) ≡ Ok (last, reading_of self.new)) }
        ensures fault { IfErr result (IsFault (header_word (reading_of self.old) (record { at = at; bytes = word.now }))) }
    {
        match self.section.take() {
            None => {
                self.open(word, at)?;
                Ok(false)
            }
            Some(section) => self.read_within(section, word, at),
        }
    }

    /// Opens a section by its keyword.
    fn open(&mut self, word: &[u8], at: u64) -> Result<(), DumpFault>
        ensures ok { OnOk result (word_in (declared_of self.old.declared) None (record { at = at; bytes = word.now }) ≡ Ok (false, reading_of self.new)) }
        ensures fault { IfErr result (IsFault (word_in (declared_of self.old.declared) None (record { at = at; bytes = word.now }))) }
    {
        let keyword = opening(word, at, self.declared.scopes.len())?;
        self.section = Some(Section {
            keyword,
            fields: Vec::new(self.declared.alloc),
        });
        Ok(())
    }

    /// Reads the next word of a section.
    fn read_within(&mut self, section: Section, word: &[u8], at: u64) -> Result<bool, DumpFault>
        requires none { self.old.section ≡ None }
        requires few { length self.old.declared.codes < 2 ^ 32 }
        ensures ok { IfOk result (λ last. section_word (declared_of self.old.declared) (section_of section) (record { at = at; bytes = word.now }) ≡ Ok (last, reading_of self.new)) }
        ensures fault { IfErr result (IsFault (section_word (declared_of self.old.declared) (section_of section) (record { at = at; bytes = word.now }))) }
    {
        if word == END_WORD {
            check_end(section.keyword, section.fields.len(), at)?;
            self.declared
                .add(section.keyword, section.fields.as_slice())?;
            Ok(section.keyword.is_last())
        } else {
            check_field(
                &self.declared.codes,
                section.keyword,
                section.fields.as_slice(),
                word,
                at,
            )?;
            self.section = Some(with_field(self.declared.alloc, section, word)?);
            Ok(false)
        }
    }
}

/// The section with one field more, of which the first four are kept.
fn with_field(alloc: Global, section: Section, word: &[u8]) -> Result<Section, NoMemory>
    ensures { IfOk result (λ more. section_of more ≡ with_field (section_of section) word.now) }
{
    let mut section = section;
    if section.fields.len() < KEPT {
        section.fields.push(to_name(alloc, word)?)?;
    }
    Ok(section)
}
