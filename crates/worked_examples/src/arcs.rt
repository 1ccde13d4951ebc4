//! Worked examples of the definitions of drawn arcs.

ghost use Rattle.worked_examples.specs.Arc.Counter.{IsArcExample, IsLabelExample};

/// A case in a block draws an arc and a state from its one label that the signal can match, and nothing from its default.
pub fn arc_example()
    ensures { IsArcExample }
{}

/// A label of three bits matches a signal of two bits where its highest bit is 0, and else none of the values of the signal.
pub fn label_example()
    ensures { IsLabelExample }
{}
