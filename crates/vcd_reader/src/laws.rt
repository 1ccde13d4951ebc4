//! What holds of all texts, in whatever pieces they come.

ghost use Rattle.std.specs.Prelude.{◌≡◌, ℕ, List, None};
ghost use Rattle.vcd_reader.specs.Reading.{Meaning, Body};
ghost use Rattle.vcd_reader.specs.Text.{Stands, HasFault, EndsAs, EndsWithFault};
ghost use Rattle.vcd_reader.specs.declared.fault.DumpFault.{DumpFault};
ghost use Rattle.vcd_reader.specs.Times.{Rises};
ghost use Rattle.vcd_reader.specs.Named.{IsNamed};
ghost use Rattle.vcd_reader.specs.Dump.{GoesOn, SaysBody};
ghost use Rattle.vcd_reader.specs.Order.{AreOrdered};
ghost use Rattle.vcd_reader.specs.Example.{example_text, example_body};

/// A text means one thing, is one dump, and has one first fault, which is not want of memory; and where it has a
/// fault, reading has not gone on.
pub fn one_reading()
    ensures meaning { (text word other_word : List ℕ) (means other : Meaning) → Stands text means word → Stands text other other_word → means ≡ other }
    ensures dump { (text : List ℕ) (b other : Body) → EndsAs text b → EndsAs text other → b ≡ other }
    ensures fault { (text : List ℕ) (f other : DumpFault) → HasFault text f → HasFault text other → f ≡ other }
    ensures excludes { (text : List ℕ) (f : DumpFault) → HasFault text f → (means : Meaning) (word : List ℕ) → Stands text means word → ⊥ }
    ensures named { (text : List ℕ) (f : DumpFault) → HasFault text f → IsNamed f }
    ensures named_at_end { (text : List ℕ) (f : DumpFault) → EndsWithFault text f → IsNamed f }
    ensures no_fault_at_end { (text : List ℕ) (b : Body) (f : DumpFault) → EndsAs text b → EndsWithFault text f → ⊥ }
{}

/// The times of a stretch rise, and none is below a time before it.
pub fn rising_times()
    ensures { (text : List ℕ) (b : Body) → EndsAs text b → Rises None b.items }
{}

/// What a text says, at each place and at its end, has times that rise, goes off and on in turn, and has at most 1,024 stretches.
pub fn ordered_entries()
    ensures { (text : List ℕ) (b : Body) → SaysBody text b → AreOrdered b.items }
{}

/// The dump of an example is the one that is expected.
pub fn example_dump()
    ensures { EndsAs example_text example_body }
{}

/// A dump has the variables that the text says at a place after its header, and begins with what the text says there.
pub fn dump_goes_on()
    ensures { (text : List ℕ) (b whole : Body) → SaysBody text b → EndsAs text whole → GoesOn b whole }
{}

/// All that a text says at its places has the variables of one header.
pub fn one_header()
    ensures { (text : List ℕ) (b other : Body) → SaysBody text b → SaysBody text other → other.vars ≡ b.vars }
{}
