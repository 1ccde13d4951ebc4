ghost use Rattle.std.specs.Prelude.{◌≡◌, ◌↔◌, ◌<◌, ◌≤◌, Err, List, IfOk, IsSome, length};
ghost use Rattle.design_machines.specs.Drawn.{AreAllMachines};
ghost use Rattle.design_machines.specs.state_machines.Drawn.{AreDrawable};
ghost use Rattle.design_machines.specs.state_machines.Machines.{StateMachines};
ghost use Rattle.design_model.specs.Lawful.{IsLawfulDesign};
ghost use Rattle.design_model.specs.View.{design_view};
ghost use Rattle.cover_points.specs.Faults.{IsPointFault};
ghost use Rattle.cover_points.specs.Listed.{IsPointList, points_of};
ghost use Rattle.cover_points.specs.Visits.{AreApart, AreOnce, ArePlaced};
ghost use Rattle.cover_points.specs.declared.fault.PointFault.{PointFault as TheFault};

use crate::{
    IndexPoint, MachinePoint, PointFault, line_points, machine_points, node_points, toggle_points,
    word_points,
};
use cov_host::NoMemory;
use design_machines::{Machine, States, all_machines};
use design_model::Design;
use std::alloc::Global;
use text_points::{LinePoint, NodePoint};

/// The greatest number of points of a design.
pub const MOST_POINTS: usize = 1_048_576;

/// The points of a design, in their order: those of lines, of nodes, of toggles, of state machines and of words.
pub struct Points {
    /// The line points, in their order.
    pub lines: Vec<LinePoint>,
    /// The cases of counted nodes, in their order.
    pub nodes: Vec<NodePoint>,
    /// The toggle points, in their order.
    pub toggles: Vec<IndexPoint>,
    /// The state machines in the instances of the design.
    pub machines: Vec<Machine>,
    /// The states and arcs of these machines, in their order.
    pub states: Vec<MachinePoint>,
    /// The points of words, in their order.
    pub words: Vec<IndexPoint>,
}

// Written out so that a crate which lets one go does not prove again how each of its parts is let go.
impl Drop for Points {
    fn drop(self) {
        let Points {
            lines: _,
            nodes: _,
            toggles: _,
            machines: _,
            states: _,
            words: _,
        } = self;
    }
}

/// The points of a design with these state machines, each once, in their order.
pub fn list(alloc: Global, design: &Design, states: &States) -> Result<Points, PointFault>
    requires lawful { IsLawfulDesign (design_view design.now) }
    requires drawable { AreDrawable (design_view design.now) states.now }
    ensures points { IfOk result (IsPointList (design_view design.now) states.now) }
    ensures apart { IfOk result AreApart }
    ensures once { IfOk result AreOnce }
    ensures placed { IfOk result ArePlaced }
    ensures few { IfOk result (λ points. length (points_of points) ≤ MOST_POINTS) }
    ensures fault { (fault : TheFault) → result ≡ Err fault → IsPointFault (design_view design.now) states.now fault }
{
    let machines = all_machines(alloc, design, states)?;
    let points = all_points(alloc, design, machines)?;
    match room_left(&points) {
        Some(_) => Ok(points),
        None => Err(PointFault::TooManyPoints),
    }
}

/// The points, however many there are.
fn all_points(alloc: Global, design: &Design, machines: Vec<Machine>) -> Result<Points, NoMemory>
    requires { IsLawfulDesign (design_view design.now) }
    ensures { (ms : StateMachines) → AreDrawable (design_view design.now) ms → AreAllMachines (design_view design.now) ms machines.items → IfOk result (IsPointList (design_view design.now) ms) }
{
    let lines = line_points(alloc, design)?;
    let nodes = node_points(alloc, design)?;
    let toggles = toggle_points(alloc, design)?;
    let states = machine_points(alloc, design, machines.as_slice())?;
    let words = word_points(alloc, design)?;
    Ok(Points {
        lines,
        nodes,
        toggles,
        machines,
        states,
        words,
    })
}

/// How many points more a design may have, if these are not too many.
fn room_left(points: &Points) -> Option<usize>
    ensures { IsSome result ↔ (length (points_of points.now) ≤ MOST_POINTS) }
{
    MOST_POINTS
        .checked_sub(points.lines.len())?
        .checked_sub(points.nodes.len())?
        .checked_sub(points.toggles.len())?
        .checked_sub(points.states.len())?
        .checked_sub(points.words.len())
}
