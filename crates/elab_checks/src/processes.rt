//! The faults of event lists (IEEE 1364-2001 clause 9.7).

ghost use Rattle.std.specs.Prelude.{◌≡◌, flat_map};
ghost use Rattle.elab_scope.specs.Tally.{after_faults};
ghost use Rattle.flat_design.specs.Processes as spec;
ghost use Rattle.flat_design.specs.Scope.{binding_of, look_up};

use elab_scope::{FoundFault, NameAt, Scope, Tally, range_or, span};
use flat_design::{ElabKind, Entry};
use four_state::Edge;
use verilog_tree::{Named, When};

/// The faults of an event list.
pub fn check_when<'a>(scope: &Scope, when: &'a When, tally: &mut Tally<'a>)
    ensures { tally.new ≡ after_faults tally.old (spec.when_faults (binding_of scope.now) when.now) }
{
    match when {
        When::Star => {}
        When::Names(names) => check_names(scope, names.as_slice(), tally),
        When::Edges(edges) => check_edges(scope, edges.as_slice(), tally),
    }
}

/// The faults of a list of names.
fn check_names<'a>(scope: &Scope, names: &'a [Named], tally: &mut Tally<'a>)
    ensures { tally.new ≡ after_faults tally.old (flat_map (λ x. spec.listed_faults (look_up (binding_of scope.now) x.name) x) names.now) }
{
    for name in names {
        check_listed(scope, name, tally);
    }
}

/// The faults of a list of edges.
fn check_edges<'a>(scope: &Scope, edges: &'a [(Edge, Named)], tally: &mut Tally<'a>)
    ensures { tally.new ≡ after_faults tally.old (flat_map (λ e. spec.edge_faults (look_up (binding_of scope.now) e.1.name) e.1) edges.now) }
{
    for (_, name) in edges {
        check_edge(scope, name, tally);
    }
}

/// The fault of a name in a list of names.
fn check_listed<'a>(scope: &Scope, name: &'a Named, tally: &mut Tally<'a>)
    ensures { tally.new ≡ after_faults tally.old (spec.listed_faults (look_up (binding_of scope.now) name.now.name) name.now) }
{
    let kind = match scope.get(name.name.as_slice()) {
        None => ElabKind::Undeclared,
        Some(Entry::Signal(_) | Entry::Faulty) => return,
        Some(_) => ElabKind::WrongUse,
    };
    tally.fault(FoundFault::at(kind, NameAt::of(name)));
}

/// The fault of a name with an edge.
fn check_edge<'a>(scope: &Scope, name: &'a Named, tally: &mut Tally<'a>)
    ensures { tally.new ≡ after_faults tally.old (spec.edge_faults (look_up (binding_of scope.now) name.now.name) name.now) }
{
    let kind = match scope.get(name.name.as_slice()) {
        None => ElabKind::Undeclared,
        Some(Entry::Faulty) => return,
        Some(Entry::Signal(signal)) => {
            if span(range_or(signal.range)) == 1 {
                return;
            }
            ElabKind::EventNotBit
        }
        Some(_) => ElabKind::WrongUse,
    };
    tally.fault(FoundFault::at(kind, NameAt::of(name)));
}
