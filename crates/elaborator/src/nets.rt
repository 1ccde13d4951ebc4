//! The values that nets are declared with (IEEE 1364-2001 clause 6.1.1).

ghost use Rattle.std.specs.Prelude.{◌≡◌, ◌≤◌, ◌+◌, ◌<◌, ◌^◌, length, OnOk};
ghost use Rattle.elab_build.specs.Sound.{IsClear};
ghost use Rattle.elaborator.specs.Room.{TakesFew};
ghost use Rattle.elaborator.specs.Walk.{GoesBy, IsClean, around_here};
ghost use Rattle.flat_design.specs.Flat.{net_value, net_values};
ghost use Rattle.flat_design.specs.Instances.{Instantiation, add_process};
ghost use Rattle.flat_design.specs.Numbering as count;
ghost use Rattle.flat_design.specs.Processes.{continuous};
ghost use Rattle.flat_design.specs.Scope.{binding_of};
ghost use Rattle.verilog_tree.specs.Tree.{identifier};
ghost use Rattle.verilog_tree.specs.View.{declared_view, declareds_view, expr_option_view, expr_view};

use crate::ground::Ground;
use crate::walk::{Numbers, Walk};
use cov_host::{NoMemory, Place};
use elab_bodies::net_process;
use elab_processes::check_net;
use elab_scope::Scope;
use verilog_tree::{Declared, Expr, Named};

/// The values of the nets of an item, each assigned to its net (IEEE 1364-2001, 6.1.1).
pub(crate) fn walk_nets<'a>(
    ground: Ground<'_, 'a>,
    scope: &Scope,
    place: Place,
    names: &'a [Declared],
    numbers: &mut Numbers,
    walk: &mut Walk<'a>,
) -> Result<(), NoMemory>
    requires base { ground.base ≤ 65536 }
    requires clear { IsClean walk.old.tally → IsClear (binding_of scope.now) }
    requires few { numbers.old.node + count.values_nodes (binding_of scope.now) (declareds_view names.now) < 2 ^ 32 }
    ensures goes { OnOk result ((given : Instantiation) → GoesBy ground.entry.base walk.old numbers.old walk.new numbers.new (λ b i l n st. net_values (around_here b given i (binding_of scope.now)) place (declareds_view names.now) n st) 0 (count.values_nodes (binding_of scope.now) (declareds_view names.now))) }
    ensures clean { OnOk result (IsClean walk.new.tally → IsClean walk.old.tally) }
    ensures few { OnOk result (TakesFew numbers.old numbers.new 0 (count.values_nodes (binding_of scope.now) (declareds_view names.now))) }
{
    for name in names {
        walk_net(ground, scope, place, name, numbers, walk)?;
    }
    Ok(())
}

/// The value of one net, if it is declared with one.
fn walk_net<'a>(
    ground: Ground<'_, 'a>,
    scope: &Scope,
    place: Place,
    net: &'a Declared,
    numbers: &mut Numbers,
    walk: &mut Walk<'a>,
) -> Result<(), NoMemory>
    requires base { ground.base ≤ 65536 }
    requires clear { IsClean walk.old.tally → IsClear (binding_of scope.now) }
    requires few { numbers.old.node + count.value_nodes (binding_of scope.now) (declared_view net.now) < 2 ^ 32 }
    ensures goes { OnOk result ((given : Instantiation) → GoesBy ground.entry.base walk.old numbers.old walk.new numbers.new (λ b i l n st. net_value (around_here b given i (binding_of scope.now)) place net.now.name (expr_option_view net.now.value) n st) 0 (count.value_nodes (binding_of scope.now) (declared_view net.now))) }
    ensures clean { OnOk result (IsClean walk.new.tally → IsClean walk.old.tally) }
    ensures few { OnOk result (TakesFew numbers.old numbers.new 0 (count.value_nodes (binding_of scope.now) (declared_view net.now))) }
{
    match &net.value {
        Some(value) => walk_value(ground, scope, place, &net.name, value, numbers, walk),
        None => Ok(()),
    }
}

/// The value of a net, which is assigned to it.
fn walk_value<'a>(
    ground: Ground<'_, 'a>,
    scope: &Scope,
    place: Place,
    name: &'a Named,
    value: &'a Expr,
    numbers: &mut Numbers,
    walk: &mut Walk<'a>,
) -> Result<(), NoMemory>
    requires base { ground.base ≤ 65536 }
    requires clear { IsClean walk.old.tally → IsClear (binding_of scope.now) }
    requires few { numbers.old.node + count.nodes (binding_of scope.now) (expr_view value.now) < 2 ^ 32 }
    ensures goes { OnOk result (GoesBy ground.entry.base walk.old numbers.old walk.new numbers.new (λ b i l n st. add_process (continuous b (binding_of scope.now) i (length st.design.processes) place (identifier name.now.place name.now.name) (expr_view value.now) n) st) 0 (count.nodes (binding_of scope.now) (expr_view value.now))) }
    ensures clean { OnOk result (IsClean walk.new.tally → IsClean walk.old.tally) }
    ensures few { OnOk result (TakesFew numbers.old numbers.new 0 (count.nodes (binding_of scope.now) (expr_view value.now))) }
{
    let alloc = ground.alloc;
    let number = walk.tally.counts().processes;
    check_net(alloc, scope, number, place, name, value, &mut walk.tally)?;
    if !walk.builds() {
        return Ok(());
    }
    let process = net_process(
        alloc,
        ground.base,
        scope,
        numbers.instance,
        name,
        value,
        &mut numbers.node,
    )?;
    walk.add(process)
}
