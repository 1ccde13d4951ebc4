ghost use Rattle.std.specs.Prelude.{◌≡◌, List};
ghost use Rattle.cover_points.specs.Faults.{IsPointFault};
ghost use Rattle.cover_points.specs.declared.fault.PointFault.{PointFault};
ghost use Rattle.cover_points.specs.declared.fault.PointFault.TheVariants.{NoMemory};
ghost use Rattle.design_model.specs.Design.{Design};
ghost use Rattle.design_model.specs.Lawful.{IsLawfulDesign};
ghost use Rattle.cover_points.specs.design_machines.state_machines.Drawn.{AreAlike};
ghost use Rattle.cover_points.specs.design_machines.state_machines.Machines.{StateMachines};
ghost use Rattle.design_points.specs.Counted.{HasFewPoints, HasManyPoints};

/// No design has few points and many, with the same state machines, in whatever order what is drawn of them is listed.
pub fn count_law()
    ensures { (d : Design) (ms ns : StateMachines) → AreAlike ms ns → HasFewPoints d ms → HasManyPoints d ns → ⊥ }
{}

/// Where the points of a design are listed and are not too many, their fault is want of memory.
pub fn fault_law()
    ensures { (d : Design) (ms ns : StateMachines) (f : PointFault) → IsLawfulDesign d → AreAlike ms ns → HasFewPoints d ms → IsPointFault d ns f → f ≡ NoMemory }
{}
