//! Theorems of what a dump says; there is no code.
//!
//! Each time that a text says at a place is below 2^63, and each change has as many bits as each variable of its code, and no sign
//! ([`entries_law`]).
#![tactic(auto)]

ghost use Rattle.std.specs.Prelude.{ℕ, List};
ghost use Rattle.vcd_reader.specs.Dump.{SaysBody};
ghost use Rattle.vcd_reader.specs.Reading.{Body};
ghost use Rattle.entry_laws.specs.Entries.{AreEntries};

/// Each time that a text says at a place is below 2^63, and each change has as many bits as each variable of its code, and no
/// sign.
pub fn entries_law()
    ensures { (text : List ℕ) (b : Body) → SaysBody text b → AreEntries b.vars b.items }
{}
