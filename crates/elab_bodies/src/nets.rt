//! The processes of nets that are declared with a value (IEEE 1364-2001 clause 6.1.1).

ghost use Rattle.std.specs.Prelude.{◌≡◌, ◌≤◌, ◌+◌, ◌<◌, ◌^◌, ℕ, true, Some, IfOk, OnOk};
ghost use Rattle.cov_host.specs.declared.place.Place.{Place};
ghost use Rattle.design_model.specs.View.{process_view};
ghost use Rattle.elab_build.specs.Sound.{IsClear, IsSound, IsSoundTarget};
ghost use Rattle.elab_scope.specs.Entries.{IsVectorRange};
ghost use Rattle.flat_design.specs.Numbering as count;
ghost use Rattle.flat_design.specs.Processes as spec;
ghost use Rattle.flat_design.specs.Scope.{binding_of, look_up};
ghost use Rattle.flat_design.specs.declared.entry.Entry.TheVariants.{Signal};
ghost use Rattle.verilog_tree.specs.Tree.{identifier};
ghost use Rattle.verilog_tree.specs.View.{expr_view};

use crate::processes::{signal_width, whole};
use cov_host::NoMemory;
use design_model::Process;
use elab_build::right_side;
use elab_scope::Scope;
use flat_design::{Entry, SignalEntry};
use std::alloc::Global;
use verilog_tree::{Expr, Named};

/// The assignment of a net's value in an instance: the net is assigned the value that it is declared with (IEEE
/// 1364-2001, 6.1.1). Its counted nodes are numbered from `nodes` on.
pub fn net_process(
    alloc: Global,
    base: u32,
    scope: &Scope,
    instance: u32,
    name: &Named,
    value: &Expr,
    nodes: &mut u32,
) -> Result<Process, NoMemory>
    requires base { base ≤ 65536 }
    requires clear { IsClear (binding_of scope.now) }
    requires to { IsSoundTarget (binding_of scope.now) (identifier name.now.place name.now.name) }
    requires value { IsSound (binding_of scope.now) (expr_view value.now) }
    requires few { nodes.old + count.nodes (binding_of scope.now) (identifier name.now.place name.now.name) + count.nodes (binding_of scope.now) (expr_view value.now) < 2 ^ 32 }
    ensures built { IfOk result (λ x. (k : ℕ) (p : Place) → process_view x ≡ (spec.continuous base (binding_of scope.now) instance k p (identifier name.now.place name.now.name) (expr_view value.now) nodes.old).process) }
    ensures counted { OnOk result (nodes.new ≡ nodes.old + count.nodes (binding_of scope.now) (identifier name.now.place name.now.name) + count.nodes (binding_of scope.now) (expr_view value.now)) }
{
    let net = net_of(scope, name);
    let value = right_side(alloc, base, scope, signal_width(net), value, nodes)?;
    Ok(Process::Assign {
        instance,
        target: whole(net.number),
        value,
        counted: true,
    })
}

/// The signal that a name means.
fn net_of(scope: &Scope, name: &Named) -> SignalEntry
    requires { spec.is_signal_entry (look_up (binding_of scope.now) name.now.name) ≡ true }
    ensures entry { look_up (binding_of scope.now) name.now.name ≡ Some (Signal result) }
    ensures range { IsVectorRange result.range }
{
    match scope.get(name.name.as_slice()) {
        Some(Entry::Signal(signal)) => *signal,
        _ => unreachable!(),
    }
}
