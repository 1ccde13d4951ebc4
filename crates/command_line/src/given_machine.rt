ghost use Rattle.std.specs.Prelude.{◌≡◌};
ghost use Rattle.std.specs.List.{after_first, before_first};
ghost use Rattle.command_line.specs.MachineWords.{is_colon, is_machine, machine_of, machine_values};

use crate::state_names::{StateNames, are_state_names};
use crate::value_form::{cut_at_equals, is_module_name};

/// A state machine that the words of a command name.
#[derive(Clone, Copy)]
pub struct GivenMachine<'a> {
    /// The name of the module.
    pub module: &'a str,
    /// The variable of the module.
    pub variable: &'a str,
    /// The parameters that are its states.
    pub names: StateNames<'a>,
}

impl<'a> GivenMachine<'a> {
    /// The machine of a value: the module ends at the first `=`, and the variable at the first `:` after it.
    pub(crate) fn new(value: &'a str) -> Self
        ensures { machine_values result ≡ machine_of value.now }
    {
        let (of_module, rest) = cut_at_equals(value);
        let (variable, names) = cut_at_colon(rest);
        GivenMachine {
            module: of_module,
            variable,
            names: StateNames::new(names),
        }
    }
}

/// Whether the value has the form MODULE=VAR:NAME,NAME with 2 to 64 names, all of them identifiers.
pub(crate) fn is_machine(value: &str) -> bool
    ensures { result ≡ is_machine value.now }
{
    let (of_module, rest) = cut_at_equals(value);
    let (variable, names) = cut_at_colon(rest);
    is_module_name(of_module) && (is_module_name(variable) && are_state_names(names))
}

/// What is before the first `:`, and what is after it.
fn cut_at_colon(value: &str) -> (&str, &str)
    ensures before { result.0.now ≡ before_first is_colon value.now }
    ensures after { result.1.now ≡ after_first is_colon value.now }
{
    match value.split_once(':') {
        Some(parts) => parts,
        None => (value, ""),
    }
}
