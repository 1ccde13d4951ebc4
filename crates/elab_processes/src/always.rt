//! Blocks `always` (IEEE 1364-2001 clause 9.9.2).

ghost use Rattle.std.specs.Prelude.{◌≡◌, ◌≤◌, drop, length, OnOk};
ghost use Rattle.elab_scope.specs.Tally.{after_all, after_faults};
ghost use Rattle.flat_design.specs.Processes as spec;
ghost use Rattle.flat_design.specs.Scope.{binding_of};
ghost use Rattle.verilog_tree.specs.View.{statement_view};

use crate::assigned::{add_assigned, add_listed};
use crate::incomplete::check_reads;
use crate::signal_set::SignalSet;
use cov_host::{NoMemory, Place};
use elab_checks::{check_statement, check_when};
use elab_conflicts::mixed;
use elab_scope::{FoundFault, Scope, Tally};
use flat_design::{ElabKind, Mode};
use std::alloc::Global;
use verilog_tree::{Statement, When};

/// Reports what is found in `always @when body`, whose item is at this place and whose process has this number. The
/// scope is as before.
pub fn check_always<'a>(
    alloc: Global,
    scope: &mut Scope,
    process: u32,
    place: Place,
    when: &'a When,
    body: &'a Statement,
    tally: &mut Tally<'a>,
) -> Result<(), NoMemory>
    ensures met { OnOk result (tally.new ≡ after_all tally.old (spec.always 0 (binding_of scope.old) 0 process place when.now (statement_view body.now) 0 0).met) }
    ensures kept { OnOk result (binding_of scope.new ≡ binding_of scope.old) }
{
    check_when(scope, when, tally);
    let start = tally.writings().len();
    check_statement(alloc, scope, mode_of(when), process, body, tally)?;
    if tally.is_ended() {
        return Ok(());
    }
    check_mixed(alloc, start, tally)?;
    check_incomplete(alloc, scope, when, body, tally)?;
    tally.process(place);
    Ok(())
}

/// Which targets a block may have.
fn mode_of(when: &When) -> Mode
    ensures { result ≡ spec.mode_of when.now }
{
    match when {
        When::Edges(_) => Mode::Clocked,
        _ => Mode::Combinational,
    }
}

/// Reports the first place at which both blocking and nonblocking assignments to one signal or memory are found, among
/// the writings from this one on (9.2).
fn check_mixed(alloc: Global, start: usize, tally: &mut Tally) -> Result<(), NoMemory>
    requires { start ≤ length tally.old.writings }
    ensures { OnOk result (tally.new ≡ after_faults tally.old (spec.mixed_faults (drop start tally.old.writings))) }
{
    if let Some(name) = mixed(alloc, &tally.writings()[start..])? {
        tally.fault(FoundFault::at(ElabKind::MixedAssign, name));
    }
    Ok(())
}

/// Reports what a block with a list of names reads that the list lacks (9.7.4). The scope is as before.
fn check_incomplete<'a>(
    alloc: Global,
    scope: &mut Scope,
    when: &'a When,
    body: &'a Statement,
    tally: &mut Tally<'a>,
) -> Result<(), NoMemory>
    ensures met { OnOk result (tally.new ≡ after_faults tally.old (spec.incomplete_faults (binding_of scope.old) when.now (statement_view body.now))) }
    ensures kept { OnOk result (binding_of scope.new ≡ binding_of scope.old) }
{
    let When::Names(names) = when else {
        return Ok(());
    };
    let mut known = SignalSet::new(alloc);
    add_listed(scope, names.as_slice(), &mut known)?;
    add_assigned(alloc, scope, body, &mut known)?;
    check_reads(alloc, scope, &known, body, tally)
}
