ghost use Rattle.std.specs.Prelude.{◌≡◌, ◌++◌, ◌∷◌, [], OnOk, OnErr, map};

use cov_host::{Bytes, NoMemory};
use std::alloc::Global;
use std::marker::Model;

/// A macro with its text.
#[derive(Drop)]
pub(crate) struct Define {
    name: Bytes,
    text: Bytes,
}

/// Macros that are defined before the sources are read, in the order of adding. A later one of the same name
/// replaces the earlier.
pub struct Defines {
    alloc: Global,
    defines: Vec<Define>,
}

// Written out so that a crate which lets one go does not prove again how each of its parts is let go.
impl Drop for Defines {
    fn drop(self) {
        let Defines {
            alloc: _,
            defines: _,
        } = self;
    }
}

impl Model for Defines {
    ghost use Rattle.std.specs.Prelude.{List, map};
    ghost use Rattle.verilog_lexer.specs.Defines.{DefineText};

    ghost Value = { List DefineText };

    ghost use Rattle.verilog_lexer.specs.Defines.{define_view};

    ghost view = { λ d. map define_view d.defines.items };
}

impl Defines {
    ghost use Rattle.verilog_lexer.specs.Defines.{define_view};

    /// No macros yet. It takes no memory.
    pub fn new(alloc: Global) -> Self
        ensures { result ≡ [] }
    {
        Defines {
            alloc,
            defines: Vec::new(alloc),
        }
    }

    /// Adds a macro. After a refusal nothing has changed.
    pub fn add(&mut self, name: &str, text: &str) -> Result<(), NoMemory>
        ensures ok { OnOk result (self.new ≡ self.old ++ record { name = name.now; text = text.now } ∷ []) }
        ensures err { OnErr result (self.new ≡ self.old) }
    {
        let name = Bytes::from_vec(name.as_bytes().to_vec(self.alloc)?);
        let text = Bytes::from_vec(text.as_bytes().to_vec(self.alloc)?);
        self.defines.push(Define { name, text })?;
        Ok(())
    }

    /// The macros in the order of adding.
    pub(crate) fn as_slice(&self) -> &[Define]
        ensures { map define_view result.now ≡ self.now }
    {
        self.defines.as_slice()
    }
}

impl Define {
    ghost use Rattle.verilog_lexer.specs.Defines.{define_view};

    /// The name of the macro.
    pub(crate) fn name(&self) -> &[u8]
        ensures { result.now ≡ (define_view self.now).name }
    {
        self.name.as_slice()
    }

    /// The text of the macro.
    pub(crate) fn text(&self) -> &[u8]
        ensures { result.now ≡ (define_view self.now).text }
    {
        self.text.as_slice()
    }
}
