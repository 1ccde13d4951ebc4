ghost use Rattle.std.specs.Prelude.{◌≡◌, ◌⊎◌, Err, IfOk};
ghost use Rattle.state_machines.specs.design_model.Lawful.{IsLawfulDesign};
ghost use Rattle.state_machines.specs.design_model.View.{design_view};
ghost use Rattle.state_machines.specs.Drawn.{AreDrawable};
ghost use Rattle.design_machines.specs.Drawn.{AreAllMachines};
ghost use Rattle.design_machines.specs.Faults.{IsStateFault};
ghost use Rattle.design_machines.specs.Machines.{AreMachines};
ghost use Rattle.design_machines.specs.declared.fault.StateFault.{StateFault as TheFault};
ghost use Rattle.design_machines.specs.declared.fault.StateFault.TheVariants as state_fault;

use crate::drawn::push_drawn;
use crate::found::push_machines;
use crate::{Machine, StateFault};
use state_machines::{Design, States};
use std::alloc::Global;

/// The machines that are named, in the instances of a design, in the order in which they were named and then in that of the instances.
/// The first machine with a fault is refused: for the count of its states, then for its module, then for what is unknown or
/// twice in an instance.
pub fn design_machines(
    alloc: Global,
    design: &Design,
    states: &States,
) -> Result<Vec<Machine>, StateFault>
    requires { IsLawfulDesign (design_view design.now) }
    ensures machines { IfOk result (λ machines. AreMachines (design_view design.now) states.now.named machines.items) }
    ensures fault { (fault : TheFault) → result ≡ Err fault → (fault ≡ state_fault.NoMemory) ⊎ IsStateFault (design_view design.now) states.now.named fault }
{
    let mut found = Vec::new(alloc);
    for place in 0..states.len() {
        match states.get(place) {
            Some(named) => push_machines(alloc, design, &named, &mut found)?,
            None => unreachable!(),
        }
    }
    Ok(found)
}

/// All machines: those that are named, in the instances of the design, and then one for each that is drawn. The fault is the first in those
/// that are named.
pub fn all_machines(
    alloc: Global,
    design: &Design,
    states: &States,
) -> Result<Vec<Machine>, StateFault>
    requires lawful { IsLawfulDesign (design_view design.now) }
    requires drawable { AreDrawable (design_view design.now) states.now }
    ensures machines { IfOk result (λ machines. AreAllMachines (design_view design.now) states.now machines.items) }
    ensures fault { (fault : TheFault) → result ≡ Err fault → (fault ≡ state_fault.NoMemory) ⊎ IsStateFault (design_view design.now) states.now.named fault }
{
    let mut machines = design_machines(alloc, design, states)?;
    push_drawn(alloc, states.drawn(), &mut machines)?;
    Ok(machines)
}
