ghost use Rattle.design_model.specs.Design.{Design};
ghost use Rattle.wake_bits.specs.Laws.{EachWakeLaw, SomeWakeLaw};

/// Some wake cell of a signal passes a test where one of the places of its mask does, and each does where each does.
pub fn wake_law()
    ensures some { (d : Design) → SomeWakeLaw d }
    ensures each { (d : Design) → EachWakeLaw d }
{}
