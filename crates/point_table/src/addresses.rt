//! The points of a list by their addresses in a table, each as if it were not hit.

ghost use Rattle.std.specs.Prelude.{◌≡◌, ◌<◌, ◌++◌, true, IfOk, OnOk, length, map};
ghost use Rattle.cover_points.specs.Listed.{IsPlaced};
ghost use Rattle.cover_points.specs.declared.machine_point.MachinePoint.{MachinePoint as TheMachinePoint};
ghost use Rattle.cover_points.specs.declared.points.IndexPoint.{IndexPoint as TheIndexPoint};
ghost use Rattle.design_machines.specs.Machines.{name_at};
ghost use Rattle.design_model.specs.Design.{In, is_memory};
ghost use Rattle.design_model.specs.View.{design_view};
ghost use Rattle.point_table.specs.Addresses.{line_address, machine_address, missed, node_address, source_line, toggle_address, word_address};
ghost use Rattle.point_table.specs.Rows.{place_at};

use crate::rows::name_of;
use cov_host::{Name, NoMemory, Place, Sequence};
use cover_points::{IndexPoint, MachinePoint};
use coverage_db::{Address, DbPoint, DbVerdict, SourceLine, Subject};
use design_machines::Machine;
use design_model::Design;
use std::alloc::Global;
use text_points::{LinePoint, NodePoint};

/// Adds line points.
pub(crate) fn push_lines(
    places: &[u32],
    points: &[LinePoint],
    rows: &mut Vec<DbPoint>,
) -> Result<(), NoMemory>
    ensures { OnOk result (rows.new.items ≡ rows.old.items ++ map (λ x. missed (line_address places.now x)) points.now) }
{
    for point in points {
        let subject = Subject::Line {
            number: point.line,
            at: source_line(point.place),
            word: point.word,
        };
        rows.push(missed(place_at(places, point.instance), subject))?;
    }
    Ok(())
}

/// Adds cases of counted nodes.
pub(crate) fn push_nodes(
    places: &[u32],
    points: &[NodePoint],
    rows: &mut Vec<DbPoint>,
) -> Result<(), NoMemory>
    ensures { OnOk result (rows.new.items ≡ rows.old.items ++ map (λ x. missed (node_address places.now x)) points.now) }
{
    for point in points {
        let subject = Subject::Logic {
            number: point.node,
            at: source_line(point.place),
            operator: point.operator,
            case: point.case,
        };
        rows.push(missed(place_at(places, point.instance), subject))?;
    }
    Ok(())
}

/// Adds toggle points.
pub(crate) fn push_toggles(
    alloc: Global,
    design: &Design,
    places: &[u32],
    points: &[IndexPoint],
    rows: &mut Vec<DbPoint>,
) -> Result<(), NoMemory>
    requires { (p : TheIndexPoint) → In p points.now → p.thing < length design.now.signals }
    ensures { OnOk result (rows.new.items ≡ rows.old.items ++ map (λ x. missed (toggle_address (design_view design.now) places.now x)) points.now) }
{
    for point in points {
        rows.push(toggle_point(alloc, design, places, point)?)?;
    }
    Ok(())
}

/// A toggle point.
fn toggle_point(
    alloc: Global,
    design: &Design,
    places: &[u32],
    point: &IndexPoint,
) -> Result<DbPoint, NoMemory>
    requires { point.now.thing < length design.now.signals }
    ensures { IfOk result (λ row. row ≡ missed (toggle_address (design_view design.now) places.now point.now)) }
{
    let signal = &design.signals.as_slice()[point.thing as usize];
    let subject = Subject::Toggle {
        name: name_of(alloc, signal.name.as_slice())?,
        index: if signal.ranged {
            Some(point.index)
        } else {
            None
        },
        rise: !point.second,
    };
    Ok(missed(place_at(places, signal.instance), subject))
}

/// Adds states and arcs of machines.
pub(crate) fn push_machine_points(
    alloc: Global,
    machines: &[Machine],
    places: &[u32],
    points: &[MachinePoint],
    rows: &mut Vec<DbPoint>,
) -> Result<(), NoMemory>
    requires { (p : TheMachinePoint) → In p points.now → IsPlaced machines.now p }
    ensures { OnOk result (rows.new.items ≡ rows.old.items ++ map (λ x. missed (machine_address machines.now places.now x)) points.now) }
{
    for point in points {
        rows.push(machine_point(alloc, machines, places, *point)?)?;
    }
    Ok(())
}

/// A state or an arc of a machine.
fn machine_point(
    alloc: Global,
    machines: &[Machine],
    places: &[u32],
    point: MachinePoint,
) -> Result<DbPoint, NoMemory>
    requires { IsPlaced machines.now point }
    ensures { IfOk result (λ row. row ≡ missed (machine_address machines.now places.now point)) }
{
    let (MachinePoint::State { machine, .. } | MachinePoint::Arc { machine, .. }) = point;
    let machine = &machines[machine as usize];
    let name = name_of(alloc, machine.variable.as_slice())?;
    let subject = match point {
        MachinePoint::State { state, .. } => Subject::State {
            name,
            state: state_name(alloc, &machine.names, state)?,
        },
        MachinePoint::Arc { from, to, .. } => Subject::Arc {
            name,
            from: state_name(alloc, &machine.names, from)?,
            to: state_name(alloc, &machine.names, to)?,
        },
    };
    Ok(missed(place_at(places, machine.instance), subject))
}

/// The name of a state.
fn state_name(alloc: Global, names: &Sequence<Name>, state: u32) -> Result<Name, NoMemory>
    requires { state < length names.now }
    ensures { IfOk result (λ name. name ≡ name_at names.now state) }
{
    name_of(alloc, names.as_slice()[state as usize].as_slice())
}

/// Adds points of words.
pub(crate) fn push_words(
    alloc: Global,
    design: &Design,
    places: &[u32],
    points: &[IndexPoint],
    rows: &mut Vec<DbPoint>,
) -> Result<(), NoMemory>
    requires { (p : TheIndexPoint) → In p points.now → is_memory (design_view design.now) p.thing ≡ true }
    ensures { OnOk result (rows.new.items ≡ rows.old.items ++ map (λ x. missed (word_address (design_view design.now) places.now x)) points.now) }
{
    for point in points {
        rows.push(word_point(alloc, design, places, point)?)?;
    }
    Ok(())
}

/// A point of a word.
fn word_point(
    alloc: Global,
    design: &Design,
    places: &[u32],
    point: &IndexPoint,
) -> Result<DbPoint, NoMemory>
    requires { is_memory (design_view design.now) point.now.thing ≡ true }
    ensures { IfOk result (λ row. row ≡ missed (word_address (design_view design.now) places.now point.now)) }
{
    let memory = &design.memories.as_slice()[point.thing as usize - design.signals.len()];
    let subject = Subject::Word {
        name: name_of(alloc, memory.name.as_slice())?,
        index: point.index,
        write: point.second,
    };
    Ok(missed(place_at(places, memory.instance), subject))
}

/// A point that is not hit, and that nothing left open.
fn missed(instance: u32, subject: Subject) -> DbPoint
    ensures { result ≡ missed (record { instance = instance; subject = subject }) }
{
    DbPoint {
        address: Address { instance, subject },
        verdict: DbVerdict::Missed,
    }
}

/// The line of a place in a source.
fn source_line(place: Place) -> SourceLine
    ensures { result ≡ source_line place }
{
    SourceLine {
        source: place.source,
        line: place.line,
    }
}

/// The place of an instance in the table; 0 for a number that no instance has.
fn place_at(places: &[u32], instance: u32) -> u32
    ensures { result ≡ place_at places.now instance }
{
    match places.get(instance as usize) {
        Some(place) => *place,
        None => 0,
    }
}
