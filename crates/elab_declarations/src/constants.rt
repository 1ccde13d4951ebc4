//! The parameters of a module with what they mean (IEEE 1364-2001 clauses 3.11 and 12.2).

ghost use Rattle.std.specs.Prelude.{◌≡◌, [], IfOk, OnOk, is_none, if◌then◌else◌};
ghost use Rattle.elab_declarations.specs.Constants.{AreSeen, bindings_view, given_value, is_param_entry, overrides_view};
ghost use Rattle.elab_scope.specs.Tally.{after_faults};
ghost use Rattle.flat_design.specs.Declarations as spec;
ghost use Rattle.flat_design.specs.Identifiers.{item_params, params_of};
ghost use Rattle.flat_design.specs.Instances as of;
ghost use Rattle.flat_design.specs.Scope.{binding_of};
ghost use Rattle.verilog_tree.specs.View.{item_form_view, module_view, param_view, params_view};

use crate::others::other_names;
use crate::parameters::param_entry;
use cov_host::{Name, NoMemory};
use elab_scope::{Scope, Tally};
use flat_design::Entry;
use four_state::Four;
use std::alloc::Global;
use verilog_tree::{ItemForm, Module, Param};

/// The value that an instance gives a parameter in place of its own.
#[derive(Drop)]
pub struct Override {
    /// The name of the parameter.
    pub name: Name,
    /// The value that the parameter gets.
    pub value: Four,
}

/// A parameter, and what it means.
#[derive(Drop)]
pub struct BoundParam {
    /// The name of the parameter.
    pub name: Name,
    /// What it means.
    pub entry: Entry,
}

/// The parameters of a module that were found so far, and the scope of an expression that must be constant.
#[derive(Drop)]
pub struct Constants<'a> {
    module: &'a Module,
    /// The meanings of names in an expression that must be constant.
    pub scope: Scope,
    /// The parameters that were found.
    pub found: Vec<BoundParam>,
}

/// The value that the first override of a name gives.
fn override_of(overrides: &[Override], name: &[u8]) -> Option<Four>
    ensures { result ≡ given_value (overrides_view overrides.now) name.now }
{
    for one in overrides {
        if one.name.as_slice() == name {
            return Some(one.value);
        }
    }
    None
}

/// Whether a name is that of a parameter.
fn is_param(scope: &Scope, name: &Name) -> bool
    ensures { result ≡ is_param_entry (binding_of scope.now name.now) }
{
    matches!(
        scope.get(name.as_slice()),
        Some(Entry::Constant(_) | Entry::Faulty)
    )
}

/// Adds a parameter, unless an earlier one has its name.
fn add_param<'a>(
    alloc: Global,
    overrides: &[Override],
    param: &'a Param,
    constants: &mut Constants<'a>,
    tally: &mut Tally<'a>,
) -> Result<(), NoMemory>
    requires { AreSeen (module_view constants.old.module.now) (bindings_view constants.old.found.items) (binding_of constants.old.scope) }
    ensures same { constants.new.module ≡ constants.old.module }
    ensures seen { OnOk result (AreSeen (module_view constants.old.module.now) (bindings_view constants.new.found.items) (binding_of constants.new.scope)) }
    ensures found { OnOk result (bindings_view constants.new.found.items ≡ spec.with_param (of.other_names (module_view constants.old.module.now)) (overrides_view overrides.now) (bindings_view constants.old.found.items) (param_view param.now)) }
    ensures met { OnOk result (tally.new ≡ after_faults tally.old (if is_none (binding_of (bindings_view constants.old.found.items) param.now.name.name) then spec.param_faults (binding_of constants.old.scope) (param_view param.now) else [])) }
{
    let name = &param.name.name;
    if is_param(&constants.scope, name) {
        return Ok(());
    }
    let given = override_of(overrides, name.as_slice());
    let entry = param_entry(alloc, &constants.scope, given, param, tally);
    let own = Name::from_vec(Vec::from_slice(alloc, name.as_slice())?);
    constants.found.push(BoundParam { name: own, entry })?;
    constants.scope.insert(name, entry)
}

/// Adds parameters in order.
fn add_params<'a>(
    alloc: Global,
    overrides: &[Override],
    params: &'a [Param],
    constants: &mut Constants<'a>,
    tally: &mut Tally<'a>,
) -> Result<(), NoMemory>
    requires { AreSeen (module_view constants.old.module.now) (bindings_view constants.old.found.items) (binding_of constants.old.scope) }
    ensures same { constants.new.module ≡ constants.old.module }
    ensures seen { OnOk result (AreSeen (module_view constants.old.module.now) (bindings_view constants.new.found.items) (binding_of constants.new.scope)) }
    ensures found { OnOk result (bindings_view constants.new.found.items ≡ spec.constants_from (of.other_names (module_view constants.old.module.now)) (overrides_view overrides.now) (bindings_view constants.old.found.items) (params_view params.now)) }
    ensures met { OnOk result (tally.new ≡ after_faults tally.old (spec.constants_faults (of.other_names (module_view constants.old.module.now)) (overrides_view overrides.now) (bindings_view constants.old.found.items) (params_view params.now))) }
{
    for param in params {
        add_param(alloc, overrides, param, constants, tally)?;
    }
    Ok(())
}

/// Adds the parameters of an item.
fn add_item_params<'a>(
    alloc: Global,
    overrides: &[Override],
    form: &'a ItemForm,
    constants: &mut Constants<'a>,
    tally: &mut Tally<'a>,
) -> Result<(), NoMemory>
    requires { AreSeen (module_view constants.old.module.now) (bindings_view constants.old.found.items) (binding_of constants.old.scope) }
    ensures same { constants.new.module ≡ constants.old.module }
    ensures seen { OnOk result (AreSeen (module_view constants.old.module.now) (bindings_view constants.new.found.items) (binding_of constants.new.scope)) }
    ensures found { OnOk result (bindings_view constants.new.found.items ≡ spec.constants_from (of.other_names (module_view constants.old.module.now)) (overrides_view overrides.now) (bindings_view constants.old.found.items) (item_params (item_form_view form.now))) }
    ensures met { OnOk result (tally.new ≡ after_faults tally.old (spec.constants_faults (of.other_names (module_view constants.old.module.now)) (overrides_view overrides.now) (bindings_view constants.old.found.items) (item_params (item_form_view form.now)))) }
{
    match form {
        ItemForm::Params(params) => {
            add_params(alloc, overrides, params.as_slice(), constants, tally)
        }
        _ => Ok(()),
    }
}

/// The parameters of a module with these overrides, each seen by those after it, with the faults of their ranges and
/// values (IEEE 1364-2001 clauses 3.11 and 12.2).
pub fn check_constants<'a>(
    alloc: Global,
    overrides: &[Override],
    definition: &'a Module,
    tally: &mut Tally<'a>,
) -> Result<Constants<'a>, NoMemory>
    ensures found { IfOk result (λ constants. bindings_view constants.found.items ≡ of.constants (overrides_view overrides.now) (module_view definition.now)) }
    ensures scope { IfOk result (λ constants. binding_of constants.scope ≡ of.constant_scope (overrides_view overrides.now) (module_view definition.now)) }
    ensures met { OnOk result (tally.new ≡ after_faults tally.old (spec.constants_faults (of.other_names (module_view definition.now)) (overrides_view overrides.now) [] (params_of (module_view definition.now)))) }
{
    let mut constants = Constants {
        module: definition,
        scope: other_names(alloc, definition)?,
        found: Vec::new(alloc),
    };
    add_params(
        alloc,
        overrides,
        definition.params.as_slice(),
        &mut constants,
        tally,
    )?;
    for item in definition.items.as_slice() {
        add_item_params(alloc, overrides, &item.form, &mut constants, tally)?;
    }
    Ok(constants)
}
