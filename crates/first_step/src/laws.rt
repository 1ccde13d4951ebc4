//! An example; there is no code.

ghost use Rattle.first_step.specs.Example.{IsFirstExample};

/// Which processes run in the first step, and what is put in before.
pub fn first_example()
    ensures { IsFirstExample }
{}
