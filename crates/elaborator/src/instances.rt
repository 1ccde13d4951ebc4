//! The instances of modules that items name, each with all below it (IEEE 1364-2001 clause 12.1.2).

ghost use Rattle.std.specs.Prelude.{◌≡◌, ◌≤◌, ◌<◌, ◌^◌, MatchOption, false, true, IfOk, OnOk};
ghost use Rattle.elab_build.specs.Sound.{IsClear};
ghost use Rattle.elab_declarations.specs.Constants.{overrides_view};
ghost use Rattle.elab_instances.specs.InstanceView.{instantiation_view};
ghost use Rattle.elaborator.specs.Kept.{IsKept};
ghost use Rattle.elaborator.specs.Named.{item_of};
ghost use Rattle.elaborator.specs.Walk.{GoesBy, IsClean, WalksBy, around_here};
ghost use Rattle.flat_design.specs.Flat as flat;
ghost use Rattle.flat_design.specs.Instances as of_instances;
ghost use Rattle.flat_design.specs.Scope.{binding_of};
ghost use Rattle.tree_places.specs.Counted.{IsCountable, connections_nodes, ones_nodes};
ghost use Rattle.verilog_tree.specs.View.{givens_view, module_view, modules_view, one_view, ones_view};

use crate::entering::{Entered, enter};
use crate::ground::Ground;
use crate::inner::{check_ports, inner_instance, is_declared_here};
use crate::items::{Body, walk_items};
use crate::naming::{InstanceItem, InstancesOf, find_instances};
use crate::ports::walk_ports;
use crate::walk::{Numbers, Walk};
use cov_host::NoMemory;
use elab_instances::Instantiation;
use elab_scope::{FoundFault, Scope};
use flat_design::DesignLimit;
use verilog_tree::One;

/// Elaborates the instances that an item names.
#[cycle(walk)]
pub(crate) fn walk_instances<'a>(
    ground: Ground<'_, 'a>,
    depth: u32,
    body: &Body<'_, 'a>,
    scope: &Scope,
    item: InstanceItem<'a>,
    numbers: Numbers,
    walk: &mut Walk<'a>,
) -> Result<(), NoMemory>
    requires base { ground.base ≤ 65536 }
    requires declared { body.now.declared.now ≡ of_instances.declared (overrides_view body.now.given.now.overrides.items) (module_view body.now.given.now.module.now) }
    requires kept { IsKept walk.old }
    requires clear { IsClean walk.old.tally → IsClear (binding_of scope.now) }
    requires few { ones_nodes (binding_of scope.now) (ones_view item.ones.now) < 2 ^ 32 }
    ensures { OnOk result (GoesBy ground.entry.base walk.old numbers walk.new numbers (λ b i l n st. flat.instances_of (flat.instance b (modules_view ground.entry.modules.now.modules.now) depth) b (around_here b (instantiation_view body.now.given.now) i (binding_of scope.now)) item.entry.place (item_of item.entry.module.now (givens_view item.entry.overrides.now) (ones_view item.entry.ones.now)) (flat.module_of (modules_view ground.entry.modules.now.modules.now) item.entry.module.now.name) st) 0 0) }
{
    let found = find_instances(
        ground.alloc,
        ground.modules,
        body.given,
        scope,
        item,
        &mut walk.tally,
    )?;
    match found {
        Some(of) => walk_ones(
            ground, depth, body, scope, item, &of, item.ones, numbers, walk,
        ),
        None => Ok(()),
    }
}

/// Elaborates these of the instances that an item names.
#[cycle(walk)]
fn walk_ones<'a>(
    ground: Ground<'_, 'a>,
    depth: u32,
    body: &Body<'_, 'a>,
    scope: &Scope,
    item: InstanceItem<'a>,
    of: &InstancesOf<'a>,
    ones: &'a [One],
    numbers: Numbers,
    walk: &mut Walk<'a>,
) -> Result<(), NoMemory>
    requires base { ground.base ≤ 65536 }
    requires declared { body.now.declared.now ≡ of_instances.declared (overrides_view body.now.given.now.overrides.items) (module_view body.now.given.now.module.now) }
    requires kept { IsKept walk.old }
    requires clear { IsClean walk.old.tally → IsClear (binding_of scope.now) }
    requires few { ones_nodes (binding_of scope.now) (ones_view ones.now) < 2 ^ 32 }
    ensures { OnOk result (GoesBy ground.entry.base walk.old numbers walk.new numbers (λ b i l n st. flat.all_instances (flat.instance b (modules_view ground.entry.modules.now.modules.now) depth) b (around_here b (instantiation_view body.now.given.now) i (binding_of scope.now)) item.entry.place (item_of item.entry.module.now (givens_view item.entry.overrides.now) (ones_view item.entry.ones.now)) (module_view of.now.module.now) (overrides_view of.now.overrides.items) (ones_view ones.now) st) 0 0) }
{
    for one in ones {
        walk_one(ground, depth, body, scope, item, of, one, numbers, walk)?;
    }
    Ok(())
}

/// Elaborates one instance with all below it, and then its ports.
#[cycle(walk)]
fn walk_one<'a>(
    ground: Ground<'_, 'a>,
    depth: u32,
    body: &Body<'_, 'a>,
    scope: &Scope,
    item: InstanceItem<'a>,
    of: &InstancesOf<'a>,
    one: &'a One,
    numbers: Numbers,
    walk: &mut Walk<'a>,
) -> Result<(), NoMemory>
    requires base { ground.base ≤ 65536 }
    requires declared { body.now.declared.now ≡ of_instances.declared (overrides_view body.now.given.now.overrides.items) (module_view body.now.given.now.module.now) }
    requires kept { IsKept walk.old }
    requires clear { IsClean walk.old.tally → IsClear (binding_of scope.now) }
    requires few { connections_nodes (binding_of scope.now) (one_view one.now).given < 2 ^ 32 }
    ensures { OnOk result (GoesBy ground.entry.base walk.old numbers walk.new numbers (λ b i l n st. flat.one_instance (flat.instance b (modules_view ground.entry.modules.now.modules.now) depth) b (around_here b (instantiation_view body.now.given.now) i (binding_of scope.now)) item.entry.place (item_of item.entry.module.now (givens_view item.entry.overrides.now) (ones_view item.entry.ones.now)) (module_view of.now.module.now) (overrides_view of.now.overrides.items) (one_view one.now) st) 0 0) }
{
    if !is_declared_here(body.declared, &one.name) {
        return Ok(());
    }
    let given = one.given.as_slice();
    let found = check_ports(ground.alloc, scope, item, of, given, &mut walk.tally)?;
    let inner = inner_instance(ground.alloc, body.given, item.place, of, one, &found)?;
    let entered = walk_instance(ground, depth, &inner, walk)?;
    match entered {
        Some(inside) => walk_ports(
            ground,
            scope,
            item.place,
            &inside,
            &found.ports,
            &found.joined,
            numbers,
            walk,
        ),
        None => Ok(()),
    }
}

/// Elaborates an instance with all below it, at most `depth` levels deep. Gives its scope, unless a limit is passed.
#[cycle(walk)]
pub(crate) fn walk_instance<'a>(
    ground: Ground<'_, 'a>,
    depth: u32,
    given: &Instantiation<'a>,
    walk: &mut Walk<'a>,
) -> Result<Option<Scope>, NoMemory>
    requires base { ground.base ≤ 65536 }
    requires few { walk.old.tally.ended ≡ false → walk.old.memories ≤ walk.old.tally.counts.words }
    requires countable { IsCountable (module_view given.now.module.now) }
    ensures walks { OnOk result (WalksBy ground.entry.base walk.old walk.new (λ b st. flat.instance b (modules_view ground.entry.modules.now.modules.now) depth (instantiation_view given.now) st)) }
    ensures scope { IfOk result (λ found. MatchOption found (walk.new.tally.ended ≡ true) (λ scope. (walk.old.tally.ended ≡ false) × (binding_of scope ≡ of_instances.scope_of (instantiation_view given.now) walk.old.tally.counts.signals walk.old.memories))) }
    ensures few { OnOk result (walk.new.tally.ended ≡ false → walk.new.memories ≤ walk.new.tally.counts.words) }
{
    if depth == 0 {
        walk.tally
            .fault(FoundFault::limit(DesignLimit::Instances, given.item));
        return Ok(None);
    }
    let found = enter(ground.alloc, given, walk)?;
    match found {
        Some(
            Entered {
                declared,
                mut scope,
                mut numbers,
            },
        ) => {
            let body = Body {
                given,
                declared: &declared,
            };
            let items = given.module.items.as_slice();
            walk_items(
                ground,
                depth - 1,
                &body,
                &mut scope,
                items,
                &mut numbers,
                walk,
            )?;
            Ok(Some(scope))
        }
        None => Ok(None),
    }
}
