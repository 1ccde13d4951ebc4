ghost use Rattle.std.specs.Prelude.{◌≡◌, ◌≤◌, [], IfSome, length};
ghost use Rattle.cover_points.specs.Listed.{points_of};
ghost use Rattle.cover_points.specs.Visits.{AreApart, AreOnce, ArePlaced};
ghost use Rattle.design_model.specs.Lawful.{IsLawfulDesign};
ghost use Rattle.design_model.specs.View.{design_view};
ghost use Rattle.point_table.specs.Collected.{AreListed};

use crate::addresses::{addresses, rows};
use crate::cases::{CASES, Case};
use crate::designs::{Machine, design_of, states_of};
use crate::machine_cases::{FAULT_CASES, FaultCase, FaultKind, MACHINE_CASES};
use crate::mark_cases::{MARK_CASES, MarkCase};
use crate::tables::{Mark, table_of};
use crate::visits::visits_of;
use cov_host::{Name, Text};
use cover_marks::Marks;
use cover_points::{MOST_POINTS, MachinePoint, PointFault, Points, Visit, list};
use coverage_db::Db;
use design_model::Design;
use state_machines::States;
use std::alloc::Global;

/// The points of a design with these machines.
fn listed(alloc: Global, design: &Design, machines: &[Machine]) -> Option<Points>
    requires { IsLawfulDesign (design_view design.now) }
    ensures listed { IfSome result (AreListed (design_view design.now)) }
    ensures apart { IfSome result AreApart }
    ensures once { IfSome result AreOnce }
    ensures placed { IfSome result ArePlaced }
    ensures few { IfSome result (λ points. length (points_of points) ≤ MOST_POINTS) }
{
    match states_of(alloc, machines) {
        Ok(states) => listed_with(alloc, design, &states),
        Err(_) => None,
    }
}

/// The points of a design with machines that are named.
fn listed_with(alloc: Global, design: &Design, states: &States) -> Option<Points>
    requires lawful { IsLawfulDesign (design_view design.now) }
    requires named { states.now.drawn ≡ [] }
    ensures listed { IfSome result (AreListed (design_view design.now)) }
    ensures apart { IfSome result AreApart }
    ensures once { IfSome result AreOnce }
    ensures placed { IfSome result ArePlaced }
    ensures few { IfSome result (λ points. length (points_of points) ≤ MOST_POINTS) }
{
    match list(alloc, design, states) {
        Ok(points) => Some(points),
        Err(_) => None,
    }
}

/// The table of a design with these machines and marks.
fn table(alloc: Global, design: &Design, machines: &[Machine], marked: &[Mark]) -> Option<Db>
    requires { IsLawfulDesign (design_view design.now) }
{
    match listed(alloc, design, machines) {
        Some(points) => table_of(alloc, design, &points, marked),
        None => None,
    }
}

/// Whether the points of the case are listed by these addresses.
fn is_listed(alloc: Global, case: &Case) -> bool {
    match design_of(alloc, case.sources, case.top) {
        Some(design) => is_listed_of(alloc, &design, case),
        None => false,
    }
}

/// The same of the design of the case.
fn is_listed_of(alloc: Global, design: &Design, case: &Case) -> bool
    requires { IsLawfulDesign (design_view design.now) }
{
    match table(alloc, design, case.machines, &[]) {
        Some(table) => match addresses(alloc, &table) {
            Ok(text) => is_text(&text, case.addresses),
            Err(_) => false,
        },
        None => false,
    }
}

fn is_text(text: &Text, wanted: &str) -> bool {
    text.as_slice() == wanted.as_bytes()
}

/// Whether the points of the case have these verdicts after its marks.
fn is_marked(alloc: Global, case: &MarkCase) -> bool {
    match design_of(alloc, case.sources, case.top) {
        Some(design) => is_marked_of(alloc, &design, case),
        None => false,
    }
}

/// The same of the design of the case.
fn is_marked_of(alloc: Global, design: &Design, case: &MarkCase) -> bool
    requires { IsLawfulDesign (design_view design.now) }
{
    match table(alloc, design, &[], case.marks) {
        Some(table) => match rows(alloc, &table) {
            Ok(text) => is_text(&text, case.rows),
            Err(_) => false,
        },
        None => false,
    }
}

#[test]
fn shows_the_verdicts_of_marks(rt: HostRuntime) {
    for case in MARK_CASES {
        assert!(rt; is_marked(rt.alloc(), case), "{}", case.name);
    }
}

#[test]
fn lists_the_points_of_the_example_cases(rt: HostRuntime) {
    for case in CASES {
        assert!(rt; is_listed(rt.alloc(), case), "{}", case.name);
    }
}

#[test]
fn lists_the_points_of_the_example_cases_with_machines(rt: HostRuntime) {
    for case in MACHINE_CASES {
        assert!(rt; is_listed(rt.alloc(), case), "{}", case.name);
    }
}

/// Whether the visits have the numbers from `first` on.
fn are_visits_numbered(marks: &Marks, visits: &[Visit], first: usize) -> bool {
    visits.iter().enumerate().all(|(place, visit)| (marks.point(visit) as usize).checked_sub(first)
        == Some(place))
}

/// Whether the states and arcs have the numbers from `first` on.
fn are_states_numbered(marks: &Marks, points: &[MachinePoint], first: usize) -> bool {
    points.iter().enumerate().all(|(place, point)| (marks.machine_point(
        *point,
    ) as usize).checked_sub(first)
        == Some(place))
}

/// Whether the points have the numbers from 0 on.
fn are_numbered(alloc: Global, marks: &Marks, points: &Points) -> bool {
    let Ok((visits, words)) = visits_of(alloc, points) else {
        return false;
    };
    let states = points.states.as_slice();
    are_visits_numbered(marks, visits.as_slice(), 0)
        && are_states_numbered(marks, states, visits.len())
        && are_visits_numbered(
            marks,
            words.as_slice(),
            visits.len().saturating_add(states.len()),
        )
}

/// Whether each point of the case is found by its visit, or as a state or an arc.
fn is_found(alloc: Global, case: &Case) -> bool {
    match design_of(alloc, case.sources, case.top) {
        Some(design) => is_found_of(alloc, &design, case),
        None => false,
    }
}

/// The same of the design of the case.
fn is_found_of(alloc: Global, design: &Design, case: &Case) -> bool
    requires { IsLawfulDesign (design_view design.now) }
{
    match listed(alloc, design, case.machines) {
        Some(points) => are_found(alloc, &points),
        None => false,
    }
}

/// The same of the points of the case.
fn are_found(alloc: Global, points: &Points) -> bool
    requires apart { AreApart points.now }
    requires once { AreOnce points.now }
    requires placed { ArePlaced points.now }
    requires few { length (points_of points.now) ≤ MOST_POINTS }
{
    match Marks::new(alloc, points) {
        Ok(marks) => are_numbered(alloc, &marks, points),
        Err(_) => false,
    }
}

#[test]
fn finds_each_point_by_its_visit(rt: HostRuntime) {
    for case in CASES {
        assert!(rt; is_found(rt.alloc(), case), "{}", case.name);
    }
}

#[test]
fn finds_each_state_and_arc(rt: HostRuntime) {
    for case in MACHINE_CASES {
        assert!(rt; is_found(rt.alloc(), case), "{}", case.name);
    }
}

/// Whether a fault is the one that is expected.
fn is_fault(fault: &PointFault, case: &FaultCase) -> bool {
    match fault {
        PointFault::NoState(name) => {
            case.kind == FaultKind::NoState && is_named(name, case.detail)
        }
        PointFault::SameState(name) => {
            case.kind == FaultKind::SameState && is_named(name, case.detail)
        }
        PointFault::TooManyStates(name) => {
            case.kind == FaultKind::TooManyStates && is_named(name, case.detail)
        }
        PointFault::NoMemory | PointFault::TooManyPoints => false,
    }
}

fn is_named(name: &Name, text: &str) -> bool {
    name.as_slice() == text.as_bytes()
}

/// Whether the points of the case are refused for its fault.
fn is_refused(alloc: Global, case: &FaultCase) -> bool {
    match design_of(alloc, &[("ff.v", case.text)], "ff") {
        Some(design) => is_refused_of(alloc, &design, case),
        None => false,
    }
}

/// The same of the design of the case.
fn is_refused_of(alloc: Global, design: &Design, case: &FaultCase) -> bool
    requires { IsLawfulDesign (design_view design.now) }
{
    match states_of(alloc, &[case.machine]) {
        Ok(states) => is_refused_with(alloc, design, &states, case),
        Err(_) => false,
    }
}

/// The same with the machines of the case.
fn is_refused_with(alloc: Global, design: &Design, states: &States, case: &FaultCase) -> bool
    requires lawful { IsLawfulDesign (design_view design.now) }
    requires named { states.now.drawn ≡ [] }
{
    match list(alloc, design, states) {
        Ok(_) => false,
        Err(fault) => is_fault(&fault, case),
    }
}

#[test]
fn refuses_the_machines_of_the_example_cases(rt: HostRuntime) {
    for case in FAULT_CASES {
        assert!(rt; is_refused(rt.alloc(), case), "{}", case.name);
    }
}
