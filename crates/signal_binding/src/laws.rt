//! What holds of the bindings of all designs.

ghost use Rattle.std.specs.Prelude.{◌≡◌, ◌++◌, ◌<◌, ℕ, List, None, length, slice_index_or};
ghost use Rattle.design_model.specs.declared.design.Design.{Design};
ghost use Rattle.vcd_reader.specs.Dump.{SaysBody};
ghost use Rattle.vcd_reader.specs.Reading.{Body, body};
ghost use Rattle.vcd_reader.specs.Text.{Stands};
ghost use Rattle.vcd_reader.specs.declared.vars.Var.{Var};
ghost use Rattle.signal_binding.specs.Binding.{code_of, codes_of};

/// The binding depends on the header of a dump alone: it is the same for all that two texts say which begin with one
/// header, whatever comes after it.
pub fn bound_by_header()
    ensures { (design : Design) (instance front rest other word : List ℕ) (b : Body) → Stands front (body b) word → (says also : Body) → SaysBody (front ++ rest) says → SaysBody (front ++ other) also
        → codes_of design also.vars instance ≡ codes_of design says.vars instance }
{}

/// The code at the place of a signal is that of the variable to which it is bound, if it is bound.
pub fn codes_by_number()
    ensures { (design : Design) (vars : List Var) (instance : List ℕ) (s : ℕ) → s < length design.signals → slice_index_or (codes_of design vars instance) s None ≡ code_of design vars instance s }
{}
