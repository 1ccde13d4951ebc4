//! The names of a module, as an expression that must be constant sees those that are no parameters before it.

ghost use Rattle.std.specs.Prelude.{◌≡◌, IfOk, OnOk, map};
ghost use Rattle.elab_declarations.specs.Constants.{with_others};
ghost use Rattle.flat_design.specs.Identifiers.{declared_names};
ghost use Rattle.flat_design.specs.Instances as of;
ghost use Rattle.flat_design.specs.Scope.{binding_of};
ghost use Rattle.verilog_tree.specs.View.{declareds_view, item_form_view, module_view, ones_view, params_view};

use cov_host::NoMemory;
use elab_scope::Scope;
use flat_design::Entry;
use std::alloc::Global;
use verilog_tree::{Declared, ItemForm, Module, Named, One, Param};

/// Names of ports.
fn add_names(scope: &mut Scope, names: &[Named]) -> Result<(), NoMemory>
    ensures { OnOk result (binding_of scope.new ≡ with_others names.now (binding_of scope.old)) }
{
    for name in names {
        scope.insert(&name.name, Entry::NoConstant)?;
    }
    Ok(())
}

/// Names of nets, variables and integers.
fn add_declared(scope: &mut Scope, names: &[Declared]) -> Result<(), NoMemory>
    ensures { OnOk result (binding_of scope.new ≡ with_others (map (λ d. d.name) (declareds_view names.now)) (binding_of scope.old)) }
{
    for declared in names {
        scope.insert(&declared.name.name, Entry::NoConstant)?;
    }
    Ok(())
}

/// Names of parameters.
fn add_params(scope: &mut Scope, params: &[Param]) -> Result<(), NoMemory>
    ensures { OnOk result (binding_of scope.new ≡ with_others (map (λ p. p.name) (params_view params.now)) (binding_of scope.old)) }
{
    for param in params {
        scope.insert(&param.name.name, Entry::NoConstant)?;
    }
    Ok(())
}

/// Names of instances.
fn add_ones(scope: &mut Scope, ones: &[One]) -> Result<(), NoMemory>
    ensures { OnOk result (binding_of scope.new ≡ with_others (map (λ o. o.name) (ones_view ones.now)) (binding_of scope.old)) }
{
    for one in ones {
        scope.insert(&one.name.name, Entry::NoConstant)?;
    }
    Ok(())
}

/// The names that an item declares.
fn add_item(scope: &mut Scope, form: &ItemForm) -> Result<(), NoMemory>
    ensures { OnOk result (binding_of scope.new ≡ with_others (declared_names (item_form_view form.now)) (binding_of scope.old)) }
{
    match form {
        ItemForm::Port { names, .. } => add_names(scope, names.as_slice()),
        ItemForm::Net { names, .. } => add_declared(scope, names.as_slice()),
        ItemForm::Var { names, .. } => add_declared(scope, names.as_slice()),
        ItemForm::Integer(names) => add_declared(scope, names.as_slice()),
        ItemForm::Params(params) => add_params(scope, params.as_slice()),
        ItemForm::Instance { ones, .. } => add_ones(scope, ones.as_slice()),
        _ => Ok(()),
    }
}

/// All names that a module declares, as no constants.
pub(crate) fn other_names(alloc: Global, definition: &Module) -> Result<Scope, NoMemory>
    ensures { IfOk result (λ scope. binding_of scope ≡ of.other_names (module_view definition.now)) }
{
    let mut scope = Scope::new(alloc);
    add_params(&mut scope, definition.params.as_slice())?;
    for item in definition.items.as_slice() {
        add_item(&mut scope, &item.form)?;
    }
    Ok(scope)
}
