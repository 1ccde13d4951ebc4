//! The state machines that the words have drawn from the case statements of a design.

ghost use Rattle.std.specs.Prelude.{◌≡◌, ◌++◌, List, IfErr, OnOk};
ghost use Rattle.command_line.specs.DrawingWords.{drawing_values};
ghost use Rattle.command_line.specs.OptionValues.{drawings_of};
ghost use Rattle.design_model.specs.Lawful.{IsLawfulDesign};
ghost use Rattle.design_model.specs.View.{design_view};
ghost use Rattle.state_machines.specs.declared.drawn.Drawn.{Drawn as TheDrawn};
ghost use Rattle.covered_cli.specs.Fault.{IsDrawingFault, IsDrawingFaultOf};
ghost use Rattle.covered_cli.specs.ScoreMachines.{AreAllDrawn, AreDrawnFor, ArePlaced, IsPlacedFor, part_name};

use crate::fault::Fault;
use command_line::{GivenDrawing, GivenDrawings};
use design_model::Design;
use design_points::States;
use drawn_machines::{DrawFault, MachinePart, draw};
use std::alloc::Global;

/// Draws the machines of the words, in order. The first that cannot be drawn is refused.
pub(crate) fn draw_machines<'a>(
    alloc: Global,
    design: &Design,
    given: GivenDrawings<'a>,
    states: &mut States,
) -> Result<(), Fault<'a>>
    requires { IsLawfulDesign (design_view design.now) }
    ensures named { states.new.named ≡ states.old.named }
    ensures drawn { OnOk result ((es : List TheDrawn) × (states.new.drawn ≡ states.old.drawn ++ es) × AreAllDrawn (design_view design.now) (drawings_of given.entry) es) }
    ensures placed { OnOk result (ArePlaced (design_view design.now) (drawings_of given.entry)) }
    ensures fault { IfErr result (IsDrawingFault (design_view design.now) (drawings_of given.entry)) }
{
    let mut left = given;
    'drawings: while let Some(drawing) = left.next_drawing() {
        draw_machine(alloc, design, &drawing, states)?;
    }
    Ok(())
}

/// Draws one machine.
fn draw_machine<'a>(
    alloc: Global,
    design: &Design,
    drawing: &GivenDrawing<'a>,
    states: &mut States,
) -> Result<(), Fault<'a>>
    requires { IsLawfulDesign (design_view design.now) }
    ensures named { states.new.named ≡ states.old.named }
    ensures drawn { OnOk result ((es : List TheDrawn) × (states.new.drawn ≡ states.old.drawn ++ es) × AreDrawnFor (design_view design.now) (drawing_values drawing.now) es) }
    ensures placed { OnOk result (IsPlacedFor (design_view design.now) (drawing_values drawing.now)) }
    ensures fault { IfErr result (IsDrawingFaultOf (design_view design.now) (drawing_values drawing.now)) }
{
    match draw(
        alloc,
        design,
        drawing.module,
        drawing.current,
        drawing.next,
        states,
    ) {
        Ok(()) => Ok(()),
        Err(DrawFault::NoMemory) => Err(Fault::Memory),
        Err(DrawFault::NoMachine { at }) => Err(Fault::NoMachine {
            name: part_name(drawing, at),
        }),
    }
}

/// The name at fault.
fn part_name<'a>(drawing: &GivenDrawing<'a>, part: MachinePart) -> &'a str
    ensures { result.now ≡ part_name (drawing_values drawing.now) part }
{
    match part {
        MachinePart::Module => drawing.module,
        MachinePart::In => drawing.current,
        MachinePart::Out => drawing.next,
    }
}
