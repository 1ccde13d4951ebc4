//! What is drawn in the instances of a module.

ghost use Rattle.std.specs.Prelude.{◌≡◌, ◌↔◌, ◌++◌, ◌<◌, List, IfOk, IsTrue, OnOk, Err, length};
ghost use Rattle.design_model.specs.Design.{signal_at};
ghost use Rattle.design_model.specs.Lawful.{IsLawfulDesign};
ghost use Rattle.design_model.specs.Points.{IsInstanceOf};
ghost use Rattle.design_model.specs.View.{design_view};
ghost use Rattle.fsm_extract.specs.declared.names.MachinePart.{MachinePart as ThePart};
ghost use Rattle.state_machines.specs.declared.drawn.Drawn.{Drawn as TheDrawn};
ghost use Rattle.drawn_machines.specs.Drawing.{AreDrawings, AreDrawnIn, AreDrawnOf, AreNumberPairs, AreNumbers, HasMachine, IsNoMachine, IsNoMachineIn, IsPlaced, arcs_drawn, states_drawn};
ghost use Rattle.drawn_machines.specs.declared.fault.DrawFault.TheVariants as draw_fault;

use crate::DrawFault;
use crate::value::number_value;
use cov_host::NoMemory;
use design_model::Design;
use fsm_extract::{MachineFault, MachinePart, arcs, find};
use state_machines::States;
use std::alloc::Global;

/// Draws, in each instance of a module, the states and arcs of the machine whose state is in the signal `current` and whose next state is
/// assigned to the signal `next`, under the name of the first. After a refusal some may have been drawn.
pub fn draw(
    alloc: Global,
    design: &Design,
    of_module: &str,
    current: &str,
    next: &str,
    states: &mut States,
) -> Result<(), DrawFault>
    requires { IsLawfulDesign (design_view design.now) }
    ensures named { states.new.named ≡ states.old.named }
    ensures drawn { OnOk result ((es : List TheDrawn) × (states.new.drawn ≡ states.old.drawn ++ es) × AreDrawings (design_view design.now) of_module.now current.now next.now es) }
    ensures placed { OnOk result (IsPlaced (design_view design.now) of_module.now current.now next.now) }
    ensures fault { (part : ThePart) → result ≡ Err (draw_fault.NoMachine part) → IsNoMachine (design_view design.now) of_module.now current.now next.now part }
{
    let mut has_instance = false;
    for number in 0..design.instances.len() {
        if draw_at(
            alloc,
            design,
            of_module,
            number as u32,
            current,
            next,
            states,
        )? {
            has_instance = true;
        }
    }
    if has_instance {
        Ok(())
    } else {
        Err(DrawFault::NoMachine {
            at: MachinePart::Module,
        })
    }
}

/// Draws in an instance, and says whether it is of the module. In one of another module nothing is drawn.
fn draw_at(
    alloc: Global,
    design: &Design,
    of_module: &str,
    instance: u32,
    current: &str,
    next: &str,
    states: &mut States,
) -> Result<bool, DrawFault>
    requires { IsLawfulDesign (design_view design.now) }
    ensures named { states.new.named ≡ states.old.named }
    ensures drawn { IfOk result (λ own. (es : List TheDrawn) × (states.new.drawn ≡ states.old.drawn ++ es) × AreDrawnOf (design_view design.now) of_module.now current.now next.now instance es) }
    ensures own { IfOk result (λ own. IsTrue own ↔ IsInstanceOf (design_view design.now) instance of_module.now) }
    ensures placed { IfOk result (λ own. IsTrue own → HasMachine (design_view design.now) of_module.now current.now next.now instance) }
    ensures fault { (part : ThePart) → result ≡ Err (draw_fault.NoMachine part) → IsInstanceOf (design_view design.now) instance of_module.now × IsNoMachineIn (design_view design.now) current.now next.now instance part }
{
    match find(design, of_module, instance, current, next) {
        Ok((from, to)) => {
            draw_in(alloc, design, instance, current, from, to, states)?;
            Ok(true)
        }
        Err(
            MachineFault::NoMachine {
                at: MachinePart::Module,
            },
        ) => Ok(false),
        Err(MachineFault::NoMachine { at }) => Err(DrawFault::NoMachine { at }),
    }
}

/// Draws the states and arcs of two signals under a name in an instance.
fn draw_in(
    alloc: Global,
    design: &Design,
    instance: u32,
    name: &str,
    current: u32,
    next: u32,
    states: &mut States,
) -> Result<(), NoMemory>
    requires lawful { IsLawfulDesign (design_view design.now) }
    requires current_listed { current < length design.now.signals }
    requires next_listed { next < length design.now.signals }
    requires one_width { (signal_at (design_view design.now) current).width ≡ (signal_at (design_view design.now) next).width }
    ensures named { states.new.named ≡ states.old.named }
    ensures drawn { OnOk result ((es : List TheDrawn) × (states.new.drawn ≡ states.old.drawn ++ es) × AreDrawnIn (design_view design.now) instance name.now current next es) }
{
    let found = arcs(alloc, design, current, next)?;
    draw_states(
        design,
        instance,
        name,
        current,
        found.states.as_slice(),
        states,
    )?;
    draw_arcs(
        design,
        instance,
        name,
        current,
        found.pairs.as_slice(),
        states,
    )?;
    Ok(())
}

/// Draws states that are these numbers.
fn draw_states(
    design: &Design,
    instance: u32,
    name: &str,
    signal: u32,
    numbers: &[u128],
    states: &mut States,
) -> Result<(), NoMemory>
    requires lawful { IsLawfulDesign (design_view design.now) }
    requires listed { signal < length design.now.signals }
    requires inside { AreNumbers (design_view design.now) signal numbers.now }
    ensures named { states.new.named ≡ states.old.named }
    ensures drawn { OnOk result (states.new.drawn ≡ states.old.drawn ++ states_drawn (design_view design.now) instance name.now signal numbers.now) }
{
    for number in numbers {
        let value = number_value(design, signal, *number);
        states.draw(instance, name, signal, &value, &value)?;
    }
    Ok(())
}

/// Draws arcs between states that are these numbers.
fn draw_arcs(
    design: &Design,
    instance: u32,
    name: &str,
    signal: u32,
    pairs: &[(u128, u128)],
    states: &mut States,
) -> Result<(), NoMemory>
    requires lawful { IsLawfulDesign (design_view design.now) }
    requires listed { signal < length design.now.signals }
    requires inside { AreNumberPairs (design_view design.now) signal pairs.now }
    ensures named { states.new.named ≡ states.old.named }
    ensures drawn { OnOk result (states.new.drawn ≡ states.old.drawn ++ arcs_drawn (design_view design.now) instance name.now signal pairs.now) }
{
    for pair in pairs {
        let from = number_value(design, signal, pair.0);
        let to = number_value(design, signal, pair.1);
        states.draw(instance, name, signal, &from, &to)?;
    }
    Ok(())
}
