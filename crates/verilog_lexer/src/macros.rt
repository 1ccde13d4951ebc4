ghost use Rattle.std.specs.Prelude.{◌≡◌, OnOk, IfErr};
ghost use Rattle.std.specs.Option.{option_copied};

use crate::{Defines, LexFault};
use indexmap::IndexMap;
use std::alloc::Global;

/// The text of each macro that is defined. Names and texts are slices of sources and defines.
#[derive(Drop)]
pub(crate) struct Macros<'a> {
    texts: IndexMap<&'a [u8], &'a [u8]>,
}

impl<'a> Macros<'a> {
    ghost use Rattle.verilog_lexer.specs.Defines.{no_macros, with_macro, without_macro, with_macros};
    ghost use Rattle.verilog_lexer.specs.MacrosView.{macros_view};

    /// No macros yet.
    pub(crate) fn new(alloc: Global) -> Self
        ensures { macros_view result ≡ no_macros }
    {
        Macros {
            texts: IndexMap::new(alloc),
        }
    }

    /// The text of a macro, and None where it is not defined.
    pub(crate) fn get(&self, name: &[u8]) -> Option<&'a [u8]>
        ensures { option_copied result ≡ macros_view self.now name.now }
    {
        self.texts.get(name).copied()
    }

    /// Defines a macro, in place of an earlier one of the same name.
    pub(crate) fn define(&mut self, name: &'a [u8], text: &'a [u8]) -> Result<(), LexFault>
        ensures fault { IfErr result (λ fault. fault ≡ LexFault.NoMemory) }
        ensures ok { OnOk result (macros_view self.new ≡ with_macro (macros_view self.old) name.now text.now) }
    {
        self.texts.insert(name, text)?;
        Ok(())
    }

    /// Takes the definition of a macro back.
    pub(crate) fn undefine(&mut self, name: &[u8])
        ensures { macros_view self.new ≡ without_macro (macros_view self.old) name.now }
    {
        let _ = self.texts.swap_remove(name);
    }

    /// Defines these macros, one after the other.
    pub(crate) fn define_all(&mut self, defines: &'a Defines) -> Result<(), LexFault>
        ensures fault { IfErr result (λ fault. fault ≡ LexFault.NoMemory) }
        ensures ok { OnOk result (macros_view self.new ≡ with_macros (macros_view self.old) defines.now) }
    {
        for define in defines.as_slice() {
            self.define(define.name(), define.text())?;
        }
        Ok(())
    }
}
