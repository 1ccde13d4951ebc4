ghost use Rattle.std.specs.Prelude.{◌≡◌, Err, IfOk};
ghost use Rattle.cover_points.specs.Faults.{IsPointFault};
ghost use Rattle.cover_points.specs.declared.fault.PointFault.{PointFault as TheFault};
ghost use Rattle.design_model.specs.Lawful.{IsLawfulDesign};
ghost use Rattle.design_model.specs.View.{design_view};
ghost use Rattle.state_machines.specs.Drawn.{AreDrawable};
ghost use Rattle.design_points.specs.Counted.{AreAllPoints};

use cov_host::NoMemory;
use cover_points::{PointFault, Points, list};
use design_model::Design;
use state_machines::States;
use std::alloc::Global;

/// The points of a design with these state machines, each once, in their order.
pub fn list_points(
    alloc: Global,
    design: &Design,
    states: &States,
) -> Result<Box<Points>, PointFault>
    requires lawful { IsLawfulDesign (design_view design.now) }
    requires drawable { AreDrawable (design_view design.now) states.now }
    ensures points { IfOk result (λ points. AreAllPoints (design_view design.now) states.now points.value) }
    ensures fault { (fault : TheFault) → result ≡ Err fault → IsPointFault (design_view design.now) states.now fault }
{
    match list(alloc, design, states) {
        Ok(points) => Ok(boxed(alloc, points)?),
        Err(fault) => Err(fault),
    }
}

/// The points in a box.
fn boxed(alloc: Global, points: Points) -> Result<Box<Points>, NoMemory>
    ensures { IfOk result (λ boxed. boxed.value ≡ points) }
{
    Ok(Box::new(alloc, points)?)
}
