//! The module of the instances that an item names, and their overrides (IEEE 1364-2001 clause 12.1.2).

ghost use Rattle.std.specs.Prelude.{◌≡◌, List, MatchOption, IfOk, bytes_eq};
ghost use Rattle.std.specs.List.{list_any};
ghost use Rattle.elab_declarations.specs.Constants.{overrides_view};
ghost use Rattle.elab_instances.specs.InstanceView.{around_view, instantiation_view};
ghost use Rattle.elab_scope.specs.Tally.{after_faults};
ghost use Rattle.elaborator.specs.Named.{AreOf, HaveNone};
ghost use Rattle.flat_design.specs.Fault.{Fault};
ghost use Rattle.flat_design.specs.Scope.{binding_of};
ghost use Rattle.tree_places.specs.Counted.{IsCountable};
ghost use Rattle.verilog_tree.specs.View.{givens_view, module_view, modules_view};

use crate::modules::ModuleTable;
use cov_host::{NoMemory, Place};
use elab_declarations::Override;
use elab_instances::Instantiation;
use elab_ports::check_overrides;
use elab_scope::{FoundFault, NameAt, Scope, Tally};
use flat_design::ElabKind;
use std::alloc::Global;
use verilog_tree::{Given, Module, Named, One};

/// An item that names instances.
#[derive(Clone, Copy, Drop)]
pub(crate) struct InstanceItem<'a> {
    pub(crate) place: Place,
    pub(crate) module: &'a Named,
    pub(crate) overrides: &'a [Given],
    pub(crate) ones: &'a [One],
}

/// The module of the instances that an item names, and their overrides.
#[derive(Drop)]
pub(crate) struct InstancesOf<'a> {
    pub(crate) module: &'a Module,
    pub(crate) overrides: Vec<Override>,
    ghost countable: { IsCountable (module_view module.now) },
}

/// Whether two modules have one name.
fn has_name_of(one: &Module, other: &Module) -> bool
    ensures { result ≡ bytes_eq (module_view one.now).name.name (module_view other.now).name.name }
{
    one.name.name.as_slice() == other.name.name.as_slice()
}

/// Whether a module is one of these.
fn is_around(around: &[&Module], inner: &Module) -> bool
    ensures { result ≡ list_any (bytes_eq (module_view inner.now).name.name) (around_view around.now) }
{
    for other in around {
        if has_name_of(inner, other) {
            return true;
        }
    }
    false
}

/// The module of the instances that an item names, and their overrides. None where they have no items, with what is
/// wrong with them.
pub(crate) fn find_instances<'a>(
    alloc: Global,
    modules: &ModuleTable<'a>,
    given: &Instantiation<'a>,
    scope: &Scope,
    item: InstanceItem<'a>,
    tally: &mut Tally<'a>,
) -> Result<Option<InstancesOf<'a>>, NoMemory>
    ensures none { IfOk result (λ found. MatchOption found ((fs : List Fault) × (tally.new ≡ after_faults tally.old fs) × HaveNone (modules_view modules.now.modules.now) (instantiation_view given.now).around (binding_of scope.now) item.entry.module.now (givens_view item.entry.overrides.now) fs) (λ of. Unit {0})) }
    ensures some { IfOk result (λ found. MatchOption found (Unit {0}) (λ of. (tally.new ≡ tally.old) × AreOf (modules_view modules.now.modules.now) (instantiation_view given.now).around (binding_of scope.now) item.entry.module.now (givens_view item.entry.overrides.now) (module_view of.module.now) (overrides_view of.overrides.items))) }
{
    let label = NameAt::of(item.module);
    let Some(module) = modules.find(label.name) else {
        tally.fault(FoundFault::at(ElabKind::NoModule, label));
        return Ok(None);
    };
    if is_around(&given.around, module) {
        tally.fault(FoundFault::at(ElabKind::Recursion, label));
        return Ok(None);
    }
    let found = check_overrides(alloc, scope, label, module, item.overrides, tally)?;
    match found {
        Some(overrides) => Ok(Some(InstancesOf { module, overrides })),
        None => Ok(None),
    }
}
