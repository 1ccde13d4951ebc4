//! What an assignment asks of a design.

ghost use Rattle.assignments.specs.Widths.{WidthsLaw};

/// In a lawful design each signal and each word of a memory has from 1 to 128 bits, as many as its range.
pub fn widths_law()
    ensures { WidthsLaw }
{}
