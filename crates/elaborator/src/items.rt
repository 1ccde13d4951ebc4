//! The items of an instance (IEEE 1364-2001 clause 12.1.3).

ghost use Rattle.std.specs.Prelude.{◌≡◌, ◌≤◌, OnOk};
ghost use Rattle.elab_build.specs.Sound.{IsClear};
ghost use Rattle.elab_declarations.specs.Constants.{overrides_view};
ghost use Rattle.elab_instances.specs.InstanceView.{instantiation_view};
ghost use Rattle.elaborator.specs.Kept.{IsKept};
ghost use Rattle.elaborator.specs.Room.{HaveRoom, TakesFew, form_room, items_room};
ghost use Rattle.elaborator.specs.Walk.{GoesBy, IsClean, around_here, items_lines, items_nodes};
ghost use Rattle.flat_design.specs.Flat as flat;
ghost use Rattle.flat_design.specs.Instances as of_instances;
ghost use Rattle.flat_design.specs.Numbering.{form_lines, form_nodes};
ghost use Rattle.flat_design.specs.Scope.{binding_of};
ghost use Rattle.verilog_tree.specs.View.{item_form_view, items_view, module_view, modules_view};

use crate::ground::Ground;
use crate::instances::walk_instances;
use crate::naming::InstanceItem;
use crate::nets::walk_nets;
use crate::processes::{walk_always, walk_assign};
use crate::walk::{Numbers, Walk};
use cov_host::NoMemory;
use elab_declarations::Declarations;
use elab_instances::Instantiation;
use elab_scope::Scope;
use verilog_tree::{Item, ItemForm};

/// The instance that items belong to, and its declared names.
#[derive(Clone, Copy)]
pub(crate) struct Body<'b, 'a> {
    pub(crate) given: &'b Instantiation<'a>,
    pub(crate) declared: &'b Declarations<'a>,
}

/// Elaborates the items of an instance in order, with all below it, at most `depth` levels deep.
#[cycle(walk)]
pub(crate) fn walk_items<'a>(
    ground: Ground<'_, 'a>,
    depth: u32,
    body: &Body<'_, 'a>,
    scope: &mut Scope,
    items: &'a [Item],
    numbers: &mut Numbers,
    walk: &mut Walk<'a>,
) -> Result<(), NoMemory>
    requires base { ground.base ≤ 65536 }
    requires declared { body.now.declared.now ≡ of_instances.declared (overrides_view body.now.given.now.overrides.items) (module_view body.now.given.now.module.now) }
    requires kept { IsKept walk.old }
    requires clear { IsClean walk.old.tally → IsClear (binding_of scope.old) }
    requires few { HaveRoom numbers.old (items_lines (items_view items.now)) (items_room (binding_of scope.old) (items_view items.now)) }
    ensures goes { OnOk result (GoesBy ground.entry.base walk.old numbers.old walk.new numbers.new (λ b i l n st. flat.items (flat.instance b (modules_view ground.entry.modules.now.modules.now) depth) b (modules_view ground.entry.modules.now.modules.now) (around_here b (instantiation_view body.now.given.now) i (binding_of scope.old)) (items_view items.now) l n st) (items_lines (items_view items.now)) (items_nodes (binding_of scope.old) (items_view items.now))) }
    ensures scope { OnOk result (binding_of scope.new ≡ binding_of scope.old) }
{
    for item in items {
        walk_item(ground, depth, body, scope, item, numbers, walk)?;
    }
    Ok(())
}

/// Elaborates one item.
#[cycle(walk)]
fn walk_item<'a>(
    ground: Ground<'_, 'a>,
    depth: u32,
    body: &Body<'_, 'a>,
    scope: &mut Scope,
    item: &'a Item,
    numbers: &mut Numbers,
    walk: &mut Walk<'a>,
) -> Result<(), NoMemory>
    requires base { ground.base ≤ 65536 }
    requires declared { body.now.declared.now ≡ of_instances.declared (overrides_view body.now.given.now.overrides.items) (module_view body.now.given.now.module.now) }
    requires kept { IsKept walk.old }
    requires clear { IsClean walk.old.tally → IsClear (binding_of scope.old) }
    requires few { HaveRoom numbers.old (form_lines (item_form_view item.now.form)) (form_room (binding_of scope.old) (item_form_view item.now.form)) }
    ensures goes { OnOk result (GoesBy ground.entry.base walk.old numbers.old walk.new numbers.new (λ b i l n st. flat.item (flat.instance b (modules_view ground.entry.modules.now.modules.now) depth) b (modules_view ground.entry.modules.now.modules.now) (around_here b (instantiation_view body.now.given.now) i (binding_of scope.old)) item.now.place (item_form_view item.now.form) l n st) (form_lines (item_form_view item.now.form)) (form_nodes (binding_of scope.old) (item_form_view item.now.form))) }
    ensures few { OnOk result (TakesFew numbers.old numbers.new (form_lines (item_form_view item.now.form)) (form_nodes (binding_of scope.old) (item_form_view item.now.form))) }
    ensures scope { OnOk result (binding_of scope.new ≡ binding_of scope.old) }
{
    let place = item.place;
    match &item.form {
        ItemForm::Net { names, .. } => walk_nets(
            ground,
            scope,
            place,
            names.as_slice(),
            numbers,
            walk,
        ),
        ItemForm::Assign { target, value } => walk_assign(
            ground, scope, place, target, value, numbers, walk,
        ),
        ItemForm::Always {
            when,
            body: statement,
        } => walk_always(ground, scope, place, when, statement, numbers, walk),
        ItemForm::Instance {
            module,
            overrides,
            ones,
        } => {
            let overrides = overrides.as_slice();
            let ones = ones.as_slice();
            let named = InstanceItem {
                place,
                module,
                overrides,
                ones,
            };
            walk_instances(ground, depth, body, scope, named, *numbers, walk)
        }
        _ => Ok(()),
    }
}
