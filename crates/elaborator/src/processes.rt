//! The processes of items and of joined ports: what is found in them, and where there is no fault, their place in the
//! design (IEEE 1364-2001 clauses 6.1, 9.9 and 12.3).

ghost use Rattle.std.specs.Prelude.{◌≡◌, ◌≤◌, ◌+◌, ◌<◌, ◌^◌, length, OnOk};
ghost use Rattle.elab_build.specs.Sound.{IsClear};
ghost use Rattle.elab_scope.specs.Entries.{IsVectorRange};
ghost use Rattle.elab_scope.specs.View.{name_view};
ghost use Rattle.elaborator.specs.Room.{HaveRoom, TakesFew};
ghost use Rattle.elaborator.specs.Walk.{GoesBy, IsClean};
ghost use Rattle.flat_design.specs.Instances.{add_process};
ghost use Rattle.flat_design.specs.Numbering as count;
ghost use Rattle.flat_design.specs.Processes.{always, continuous, joined_input, joined_output};
ghost use Rattle.flat_design.specs.Scope.{binding_of};
ghost use Rattle.verilog_tree.specs.View.{expr_view, statement_view};

use crate::ground::Ground;
use crate::walk::{Numbers, Walk};
use cov_host::{NoMemory, Place};
use elab_bodies::{
    always_process, continuous_process, joined_input_process, joined_output_process,
};
use elab_processes::{check_always, check_continuous, check_joined_input, check_joined_output};
use elab_scope::{NameAt, Scope};
use flat_design::SignalEntry;
use verilog_tree::{Expr, Statement, When};

/// `assign target = value` (IEEE 1364-2001, 6.1).
pub(crate) fn walk_assign<'a>(
    ground: Ground<'_, 'a>,
    scope: &Scope,
    place: Place,
    target: &'a Expr,
    value: &'a Expr,
    numbers: &mut Numbers,
    walk: &mut Walk<'a>,
) -> Result<(), NoMemory>
    requires base { ground.base ≤ 65536 }
    requires clear { IsClean walk.old.tally → IsClear (binding_of scope.now) }
    requires few { numbers.old.node + count.nodes (binding_of scope.now) (expr_view target.now) + count.nodes (binding_of scope.now) (expr_view value.now) < 2 ^ 32 }
    ensures goes { OnOk result (GoesBy ground.entry.base walk.old numbers.old walk.new numbers.new (λ b i l n st. add_process (continuous b (binding_of scope.now) i (length st.design.processes) place (expr_view target.now) (expr_view value.now) n) st) 0 (count.nodes (binding_of scope.now) (expr_view target.now) + count.nodes (binding_of scope.now) (expr_view value.now))) }
    ensures few { OnOk result (TakesFew numbers.old numbers.new 0 (count.nodes (binding_of scope.now) (expr_view target.now) + count.nodes (binding_of scope.now) (expr_view value.now))) }
{
    let alloc = ground.alloc;
    let number = walk.tally.counts().processes;
    check_continuous(alloc, scope, number, place, target, value, &mut walk.tally)?;
    if !walk.builds() {
        return Ok(());
    }
    let process = continuous_process(
        alloc,
        ground.base,
        scope,
        numbers.instance,
        target,
        value,
        &mut numbers.node,
    )?;
    walk.add(process)
}

/// `always @when body` (IEEE 1364-2001, 9.7). The scope is as before.
pub(crate) fn walk_always<'a>(
    ground: Ground<'_, 'a>,
    scope: &mut Scope,
    place: Place,
    when: &'a When,
    body: &'a Statement,
    numbers: &mut Numbers,
    walk: &mut Walk<'a>,
) -> Result<(), NoMemory>
    requires base { ground.base ≤ 65536 }
    requires clear { IsClean walk.old.tally → IsClear (binding_of scope.old) }
    requires few { HaveRoom numbers.old (count.lines (statement_view body.now)) (count.statement_nodes (binding_of scope.old) (statement_view body.now)) }
    ensures goes { OnOk result (GoesBy ground.entry.base walk.old numbers.old walk.new numbers.new (λ b i l n st. add_process (always b (binding_of scope.old) i (length st.design.processes) place when.now (statement_view body.now) l n) st) (count.lines (statement_view body.now)) (count.statement_nodes (binding_of scope.old) (statement_view body.now))) }
    ensures kept { OnOk result (binding_of scope.new ≡ binding_of scope.old) }
    ensures few { OnOk result (TakesFew numbers.old numbers.new (count.lines (statement_view body.now)) (count.statement_nodes (binding_of scope.old) (statement_view body.now))) }
{
    let alloc = ground.alloc;
    let number = walk.tally.counts().processes;
    check_always(alloc, scope, number, place, when, body, &mut walk.tally)?;
    if !walk.builds() {
        return Ok(());
    }
    let process = always_process(
        alloc,
        ground.base,
        scope,
        numbers.instance,
        when,
        body,
        &mut numbers.line,
        &mut numbers.node,
    )?;
    walk.add(process)
}

/// An input that is joined to an expression: its signal is assigned the value (IEEE 1364-2001, 12.3.9).
pub(crate) fn walk_input<'a>(
    ground: Ground<'_, 'a>,
    scope: &Scope,
    place: Place,
    label: NameAt<'a>,
    port: SignalEntry,
    value: &'a Expr,
    numbers: Numbers,
    walk: &mut Walk<'a>,
) -> Result<(), NoMemory>
    requires base { ground.base ≤ 65536 }
    requires port { IsVectorRange port.range }
    requires clear { IsClean walk.old.tally → IsClear (binding_of scope.now) }
    requires few { count.nodes (binding_of scope.now) (expr_view value.now) < 2 ^ 32 }
    ensures { OnOk result (GoesBy ground.entry.base walk.old numbers walk.new numbers (λ b i l n st. add_process (joined_input b (binding_of scope.now) i (length st.design.processes) place (name_view label.entry) port (expr_view value.now)) st) 0 0) }
{
    let number = walk.tally.counts().processes;
    check_joined_input(scope, number, place, label, port, value, &mut walk.tally)?;
    if !walk.builds() {
        return Ok(());
    }
    let process = joined_input_process(
        ground.alloc,
        ground.base,
        scope,
        numbers.instance,
        port,
        value,
    )?;
    walk.add(process)
}

/// An output that is joined to a target: the target is assigned its signal (IEEE 1364-2001, 12.3.9).
pub(crate) fn walk_output<'a>(
    ground: Ground<'_, 'a>,
    scope: &Scope,
    place: Place,
    port: SignalEntry,
    value: &'a Expr,
    numbers: Numbers,
    walk: &mut Walk<'a>,
) -> Result<(), NoMemory>
    requires base { ground.base ≤ 65536 }
    requires port { IsVectorRange port.range }
    requires clear { IsClean walk.old.tally → IsClear (binding_of scope.now) }
    requires few { count.nodes (binding_of scope.now) (expr_view value.now) < 2 ^ 32 }
    ensures { OnOk result (GoesBy ground.entry.base walk.old numbers walk.new numbers (λ b i l n st. add_process (joined_output b (binding_of scope.now) i (length st.design.processes) place port (expr_view value.now)) st) 0 0) }
{
    let alloc = ground.alloc;
    let number = walk.tally.counts().processes;
    check_joined_output(alloc, scope, number, place, port, value, &mut walk.tally)?;
    if !walk.builds() {
        return Ok(());
    }
    let process = joined_output_process(alloc, ground.base, scope, numbers.instance, port, value)?;
    walk.add(process)
}
