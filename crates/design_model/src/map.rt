ghost use Rattle.std.specs.Prelude.{List};
ghost use Rattle.four_state.specs.declared.bit.Bit.{Bit};
ghost use Rattle.design_model.specs.Design.{Thing};

/// Any partial map from things to values, for laws that hold for each: a clause cannot range over maps itself.
pub trait PartialMap {
    ghost has: { Thing → List Bit → Type 0 };
}
