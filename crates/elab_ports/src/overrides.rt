//! The overrides of the parameters of a module (IEEE 1364-2001, 12.2).

ghost use Rattle.std.specs.Prelude.{◌≡◌, ◌++◌, None, Some, true, false, filter, flat_map, if◌then◌else◌, IfOk, map, not, OnOk};
ghost use Rattle.std.specs.List.{list_any};
ghost use Rattle.std.specs.Option.{option_map};
ghost use Rattle.elab_declarations.specs.Constants.{overrides_view};
ghost use Rattle.elab_ports.specs.ConnectionView.{connection_view, connections_view, value_view};
ghost use Rattle.elab_scope.specs.Tally.{after_faults};
ghost use Rattle.elab_scope.specs.View.{name_view, names_view};
ghost use Rattle.flat_design.specs.Connections as spec;
ghost use Rattle.flat_design.specs.Fault.{none};
ghost use Rattle.flat_design.specs.Identifiers.{item_params};
ghost use Rattle.flat_design.specs.Scope.{binding_of};
ghost use Rattle.verilog_tree.specs.View.{expr_option_view, givens_view, item_form_view, module_view, params_view};

use crate::given::{Connection, check_connections, connections};
use cov_host::{Name, NoMemory};
use elab_checks::check_constant;
use elab_declarations::{Override, constant_value};
use elab_scope::{NameAt, Scope, Tally, names_faulty};
use std::alloc::Global;
use verilog_tree::{Expr, Given, ItemForm, Module, Param};

/// Adds the names of parameters that may be given another value.
fn push_free<'a>(names: &mut Vec<NameAt<'a>>, params: &'a [Param]) -> Result<(), NoMemory>
    ensures { OnOk result (names_view names.new.items ≡ names_view names.old.items ++ map (λ p. p.name) (filter (λ p. not p.local) (params_view params.now))) }
{
    for param in params {
        if !param.local {
            names.push(NameAt::of(&param.name))?;
        }
    }
    Ok(())
}

/// Adds the names of the parameters of an item that may be given another value.
fn push_item_free<'a>(names: &mut Vec<NameAt<'a>>, form: &'a ItemForm) -> Result<(), NoMemory>
    ensures { OnOk result (names_view names.new.items ≡ names_view names.old.items ++ map (λ p. p.name) (filter (λ p. not p.local) (item_params (item_form_view form.now)))) }
{
    match form {
        ItemForm::Params(params) => push_free(names, params.as_slice()),
        _ => Ok(()),
    }
}

/// The parameters of a module that may be given another value, in order of text.
fn free_names<'a>(alloc: Global, definition: &'a Module) -> Result<Vec<NameAt<'a>>, NoMemory>
    ensures { IfOk result (λ names. names_view names.items ≡ spec.free_names (module_view definition.now)) }
{
    let mut names = Vec::new(alloc);
    push_free(&mut names, definition.params.as_slice())?;
    for item in definition.items.as_slice() {
        push_item_free(&mut names, &item.form)?;
    }
    Ok(names)
}

/// The faults of the values, which must be constant; whether they have no fault.
fn check_values<'a>(scope: &Scope, overrides: &[Connection<'a>], tally: &mut Tally<'a>) -> bool
    ensures met { tally.new ≡ after_faults tally.old (flat_map (λ c. spec.override_value_faults (binding_of scope.now) c.value) (connections_view overrides.now)) }
    ensures sound { result ≡ none (flat_map (λ c. spec.override_value_faults (binding_of scope.now) c.value) (connections_view overrides.now)) }
{
    let mut sound = true;
    for one in overrides {
        sound &= check_value(scope, one.value, tally);
    }
    sound
}

/// Reports the faults of a value, if there is one, and says whether it has no fault.
fn check_value<'a>(scope: &Scope, value: Option<&'a Expr>, tally: &mut Tally<'a>) -> bool
    ensures met { tally.new ≡ after_faults tally.old (spec.override_value_faults (binding_of scope.now) (value_view value.entry)) }
    ensures sound { result ≡ none (spec.override_value_faults (binding_of scope.now) (value_view value.entry)) }
{
    match value {
        Some(value) => check_constant(scope, value, tally),
        None => true,
    }
}

/// Whether one of the values names something whose declaration has a fault.
fn some_names_faulty(scope: &Scope, given: &[Given]) -> bool
    ensures { result ≡ list_any (λ c. spec.value_names_faulty (binding_of scope.now) c.value) (givens_view given.now) }
{
    for one in given {
        if value_names_faulty(scope, &one.value) {
            return true;
        }
    }
    false
}

/// Whether a value names something whose declaration has a fault.
fn value_names_faulty(scope: &Scope, value: &Option<Expr>) -> bool
    ensures { result ≡ spec.value_names_faulty (binding_of scope.now) (expr_option_view value.now) }
{
    match value {
        Some(value) => names_faulty(scope, value),
        None => false,
    }
}

/// Adds an override, unless it is empty. Its value is a constant of the scope around the instance.
fn push_override(
    alloc: Global,
    scope: &Scope,
    found: &mut Vec<Override>,
    given: &Connection,
) -> Result<(), NoMemory>
    requires sound { none (spec.override_value_faults (binding_of scope.now) (value_view given.now.value)) ≡ true }
    requires known { spec.value_names_faulty (binding_of scope.now) (value_view given.now.value) ≡ false }
    ensures { OnOk result (overrides_view found.new.items ≡ overrides_view found.old.items ++ spec.override_of (binding_of scope.now) given.now.port.now (value_view given.now.value)) }
{
    if let Some(value) = given.value {
        let name = Name::from_vec(Vec::from_slice(alloc, given.port)?);
        let value = constant_value(alloc, scope, value);
        found.push(Override { name, value })?;
    }
    Ok(())
}

/// The overrides that are not empty.
fn override_values(
    alloc: Global,
    scope: &Scope,
    given: &[Connection],
) -> Result<Vec<Override>, NoMemory>
    requires sound { none (flat_map (λ c. spec.override_value_faults (binding_of scope.now) c.value) (connections_view given.now)) ≡ true }
    requires known { list_any (λ c. spec.value_names_faulty (binding_of scope.now) c.value) (connections_view given.now) ≡ false }
    ensures { IfOk result (λ found. overrides_view found.items ≡ flat_map (λ c. spec.override_of (binding_of scope.now) c.port c.value) (connections_view given.now)) }
{
    let mut found = Vec::new(alloc);
    for one in given {
        push_override(alloc, scope, &mut found, one)?;
    }
    Ok(found)
}

/// The values that an instance gives parameters of its module in place of their own, with their faults; none where one
/// has a fault, or names something whose declaration has one (IEEE 1364-2001, 12.2.2).
pub fn check_overrides<'a>(
    alloc: Global,
    scope: &Scope,
    label: NameAt<'a>,
    definition: &'a Module,
    given: &'a [Given],
    tally: &mut Tally<'a>,
) -> Result<Option<Vec<Override>>, NoMemory>
    ensures met { OnOk result (tally.new ≡ after_faults tally.old (spec.override_faults (binding_of scope.now) (name_view label.entry) (module_view definition.now) (givens_view given.now))) }
    ensures found { IfOk result (λ found. option_map (λ os. overrides_view os.items) found ≡ (if spec.are_sound_overrides (binding_of scope.now) (name_view label.entry) (module_view definition.now) (givens_view given.now) then Some (spec.overrides (binding_of scope.now) (name_view label.entry) (module_view definition.now) (givens_view given.now)) else None)) }
{
    let names = free_names(alloc, definition)?;
    let found = connections(alloc, label, &names, given)?;
    let known = check_connections(alloc, label, &names, given, &found, tally)?;
    let constant = check_values(scope, &found, tally);
    if !known || !constant || some_names_faulty(scope, given) {
        return Ok(None);
    }
    Ok(Some(override_values(alloc, scope, &found)?))
}
