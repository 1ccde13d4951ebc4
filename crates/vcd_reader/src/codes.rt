ghost use Rattle.std.specs.Prelude.{◌≡◌, ◌<◌, ◌^◌, ◌++◌, ◌∷◌, [], ℕ, List, None, Some, IfOk, OnOk, length, option_map};
ghost use Rattle.std.specs.Global.{Vec};
ghost use Rattle.vcd_reader.specs.Codes.{code_of, with_code, entered, declared_code};
ghost use Rattle.vcd_reader.specs.Header.{number_of, size_in};
ghost use Rattle.vcd_reader.specs.CodeViews.{without_text, with_text, codes_in};
ghost use Rattle.vcd_reader.specs.Places.{place_of};

use crate::places::Places;
use cov_host::NoMemory;
use std::alloc::Global;
use std::marker::Model;

/// A code: its number, the size of its variables in bits, and whether one of them has a kind that is read.
#[derive(Clone, Copy)]
pub(crate) struct Code {
    pub(crate) number: u32,
    pub(crate) size: u32,
    pub(crate) is_read: bool,
}

/// The identifier codes of a header, numbered by first appearance.
#[derive(Drop)]
pub(crate) struct Codes {
    alloc: Global,
    /// The bytes of the codes in order of their numbers.
    texts: Vec<Vec<u8>>,
    /// The codes in this order.
    codes: Vec<Code>,
    places: Places,
}

impl Model for Codes {
    ghost use Rattle.std.specs.Prelude.{◌≡◌, List, length};
    ghost use Rattle.vcd_reader.specs.Codes.{Code};

    ghost Value = { List Code };

    ghost use Rattle.vcd_reader.specs.CodeViews.{codes_in};
    ghost use Rattle.vcd_reader.specs.Places.{ArePlacesOf};

    ghost view = { λ c. codes_in c.texts.items c.codes.items };

    ghost invariant = { λ c. (length c.texts.items ≡ length c.codes.items) × ArePlacesOf c.places (codes_in c.texts.items c.codes.items) };
}

impl Codes {
    pub(crate) fn new(alloc: Global) -> Self
        ensures { result ≡ [] }
    {
        Codes {
            alloc,
            texts: Vec::new(alloc),
            codes: Vec::new(alloc),
            places: Places::new(alloc),
        }
    }

    /// The code of these bytes.
    #[inline(always)]
    pub(crate) fn find(&self, bytes: &[u8]) -> Option<Code>
        ensures { result ≡ option_map without_text (code_of self.now bytes.now) }
    {
        let place = self.places.get(bytes)?;
        let code = self.codes.get(place as usize)?;
        Some(*code)
    }

    /// The size of the code of these bytes.
    pub(crate) fn size_of(&self, bytes: &[u8]) -> Option<u32>
        ensures { result ≡ size_in self.now bytes.now }
    {
        let code = self.find(bytes)?;
        Some(code.size)
    }

    /// Adds a variable's code, and gives its number. An `Err` changes nothing.
    pub(crate) fn add(&mut self, bytes: &[u8], size: u32, is_read: bool) -> Result<u32, NoMemory>
        requires { length self.old < 2 ^ 32 }
        ensures added { OnOk result (self.new ≡ with_code self.old bytes.now size is_read) }
        ensures number { IfOk result (λ number. number ≡ number_of self.old bytes.now) }
    {
        let code = self.with_variable(bytes, size, is_read);
        self.enter(bytes, code)?;
        Ok(code.number)
    }

    /// The code of these bytes with one variable more.
    fn with_variable(&self, bytes: &[u8], size: u32, is_read: bool) -> Code
        requires { length self.now < 2 ^ 32 }
        ensures { result ≡ without_text (declared_code (length self.now) bytes.now size is_read (code_of self.now bytes.now)) }
    {
        match self.find(bytes) {
            Some(known) => Code {
                number: known.number,
                size: known.size,
                is_read: known.is_read || is_read,
            },
            None => Code {
                number: self.next_number(),
                size,
                is_read,
            },
        }
    }

    /// Puts a code in the place of that of the same bytes, or at the end.
    fn enter(&mut self, bytes: &[u8], code: Code) -> Result<(), NoMemory>
        requires { length self.old < 2 ^ 32 }
        ensures { OnOk result (self.new ≡ entered self.old (with_text bytes.now code)) }
    {
        match self.places.get(bytes) {
            Some(place) => {
                replace(&mut self.codes, place as usize, code);
                Ok(())
            }
            None => self.append(bytes, code),
        }
    }

    /// Adds a new code. There is room for it before its place is set, so that an `Err` changes nothing.
    fn append(&mut self, bytes: &[u8], code: Code) -> Result<(), NoMemory>
        requires absent { place_of self.old bytes.now ≡ None }
        requires few { length self.old < 2 ^ 32 }
        ensures { OnOk result (self.new ≡ self.old ++ with_text bytes.now code ∷ []) }
    {
        let place = self.next_number();
        let text = Vec::from_slice(self.alloc, bytes)?;
        self.texts.reserve(1)?;
        self.codes.reserve(1)?;
        self.places.set(self.alloc, bytes, place)?;
        self.texts.push(text)?;
        self.codes.push(code)?;
        Ok(())
    }

    /// The number of the next new code.
    fn next_number(&self) -> u32
        requires { length self.now < 2 ^ 32 }
        ensures { result ≡ length self.now }
    {
        self.codes.len() as u32
    }
}

/// Changes the code at a place.
fn replace(codes: &mut Vec<Code>, place: usize, code: Code)
    requires { place < length codes.old.items }
    ensures codes { (texts : List (Vec ℕ)) (text : List ℕ) → place_of (codes_in texts codes.old.items) text ≡ Some place → codes_in texts codes.new.items ≡ entered (codes_in texts codes.old.items) (with_text text code) }
    ensures len { length codes.new.items ≡ length codes.old.items }
{
    codes[place] = code;
}
